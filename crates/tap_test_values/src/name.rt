use std::test::Fail;
use tap_name::{
    List, Name, NameFault, NoMemory, Offered, Settings, Slot, are_word_bytes, next_cyclic,
    read_name, slot_of, text_of_digit,
};

// Settings of base 4 with three digits, and a name of theirs.
fn named(text: &str) -> Result<(Settings, Name), Fail> {
    let settings = Settings::new(4, 3, 2).ok_or("settings")?;
    let name = read_name(&settings, text.as_bytes()).map_err(|_| "a name")?;
    Ok((settings, name))
}

#[test]
fn reads_names(rt: HostRuntime) -> Result<(), Fail> {
    let (settings, name) = named("230")?;
    assert_eq!(rt; name.digits().as_slice(), [2, 3, 0].as_slice());
    let cases = [
        ("23", NameFault::BadLength(2)),
        ("", NameFault::BadLength(0)),
        ("2301", NameFault::BadLength(4)),
        ("2x4", NameFault::BadDigit(1)),
        ("40A", NameFault::BadDigit(0)),
        ("00A", NameFault::BadDigit(2)),
    ];
    for (text, fault) in cases.iter() {
        assert_eq!(rt;
            read_name(&settings, text.as_bytes()),
            Err(*fault),
            "{text}"
        );
    }
    assert_eq!(rt; Name::from_digits(&settings, &[2, 3, 0]), Ok(name));
    assert_eq!(rt; Name::of(&[2, 3, 0]), name);
    assert_eq!(rt;
        Name::from_digits(&settings, &[2, 4, 5]),
        Err(NameFault::BadDigit(1))
    );
    Ok(())
}

// Names of forty digits, which share all but the last one.
#[test]
fn long_names_are_compared_to_their_ends(rt: HostRuntime) -> Result<(), Fail> {
    let settings = Settings::new(16, 40, 2).ok_or("settings")?;
    let text = b"0123456789abcdef0123456789abcdef01234567";
    let a = read_name(&settings, text).map_err(|_| "a name")?;
    let text = b"0123456789abcdef0123456789abcdef01234568";
    let b = read_name(&settings, text).map_err(|_| "a name")?;
    assert!(rt; a < b && a != b && a == a);
    assert_eq!(rt; (a.lcp(&b), a.lcp(&a)), (39, 40));
    Ok(())
}

#[test]
fn tells_digits_and_slots(rt: HostRuntime) -> Result<(), Fail> {
    let (settings, a) = named("230")?;
    let (_, b) = named("213")?;
    assert_eq!(rt;
        (settings.base(), settings.digits(), settings.width()),
        (4, 3, 2)
    );
    assert_eq!(rt; a.lcp(&b), 1);
    assert_eq!(rt; a.len(), 3);
    assert!(rt; a.len() > 2 && b < a);
    assert_eq!(rt; (a.digit(1), a.text_byte(1)), (3, b'3'));
    assert!(rt; a.len() == b.len());
    assert_eq!(rt; slot_of(&a, &b), Some(Slot { level: 1, digit: 1 }));
    assert_eq!(rt; slot_of(&a, &a), None);
    let least = Slot { level: 0, digit: 3 };
    assert!(rt; least < Slot { level: 1, digit: 0 } && least < Slot { level: 1, digit: 3 });
    assert_eq!(rt; (next_cyclic(4, 2), next_cyclic(4, 3)), (3, 0));
    Ok(())
}

#[test]
fn prints_letters_and_refuses_settings(rt: HostRuntime) -> Result<(), Fail> {
    let settings = Settings::new(16, 1, 4).ok_or("settings")?;
    let name = read_name(&settings, b"f").map_err(|_| "a name")?;
    assert!(rt; name.len() == 1);
    assert_eq!(rt; (name.digit(0), name.text_byte(0)), (15, b'f'));
    assert_eq!(rt; text_of_digit(9), b'9');
    assert_eq!(rt;
        (are_word_bytes(b"node7"), are_word_bytes(b"node_7")),
        (true, false)
    );
    for (base, digits, width) in [
        (1, 3, 2),
        (17, 3, 2),
        (4, 0, 2),
        (4, 41, 2),
        (4, 3, 0),
        (4, 3, 5),
    ] {
        assert_eq!(rt;
            Settings::new(base, digits, width),
            None,
            "{base} {digits} {width}"
        );
    }
    Ok(())
}

#[test]
fn keeps_a_list(rt: HostRuntime) -> Result<(), Fail> {
    let (_, name) = named("012")?;
    let mut list = List::new(rt.alloc());
    assert!(rt; list.is_empty());
    let offered = Offered {
        name,
        settled: true,
    };
    list.push(offered).map_err(|_| "memory")?;
    assert_eq!(rt; list.len(), 1);
    assert_eq!(rt; list.at(0), offered);
    assert_eq!(rt; list.as_slice(), [offered].as_slice());
    let again = List::from_vec(list.into_vec());
    assert_eq!(rt; again.len(), 1);
    assert_eq!(rt; again.at(0), offered);
    Ok(())
}

#[test]
fn a_name_and_the_faults_are_printed(rt: HostRuntime) -> Result<(), Fail> {
    let settings = Settings::new(16, 3, 2).ok_or("settings")?;
    let name = read_name(&settings, b"0af").map_err(|_| "a name")?;
    let text = format!(in rt.alloc(); "{name} {name:>5}")?;
    assert_eq!(rt; text.as_str(), "0af   0af");
    let (length, digit) = (NameFault::BadLength(41), NameFault::BadDigit(2));
    let text = format!(in rt.alloc(); "{length}, {digit}, {NoMemory}")?;
    assert_eq!(rt; text.as_str(), "bad length 41, bad digit 2, no memory");
    Ok(())
}
