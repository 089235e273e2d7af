use std::alloc::{AllocError, Global};
use std::process::Abort;
use std::test::Fail;
use tap_name::{Settings, Slot, read_name};
use tap_watch::Watch;
use tap_wire::{
    Body, Bytes, HeadFault, MOST_LETTERS, MOST_LINKS, TellFields, WireFault, decode, decode_head,
    encode, encode_tell,
};

// Each refusal once, and that of a link that doesn't ascend.
#[test]
fn refuses_damaged_frames(rt: HostRuntime) -> Result<(), Fail> {
    let settings = Settings::new(2, 2, 1).ok_or("settings")?;
    let cases: [(&[u8], WireFault); 9] = [
        (&[1, 1, 0], WireFault::Short(1)),
        (&[1, 1, 0, 2, 0, 1, 0, 0, 0], WireFault::Short(1)),
        (&[9, 1, 0, 2, 0, 1, 0, 0, 0, 1], WireFault::BadVersion(9)),
        (&[1, 30, 0, 2, 0, 1, 0, 0, 0, 1], WireFault::BadKind(30)),
        (&[1, 1, 0, 3, 0, 1, 0, 0, 0, 1], WireFault::BadLength(3)),
        (&[1, 1, 0, 2, 0, 1, 0, 0, 0, 1, 0], WireFault::Trailing(1)),
        (&[1, 1, 0, 2, 0, 2, 0, 0, 0, 1], WireFault::BadDigit(5)),
        (&[1, 1, 0, 2, 0, 1, 0, 0, 0, 2], WireFault::BadBody(9)),
        (
            &[1, 3, 0, 11, 0, 0, 0, 1, 0, 0, 0, 1, 1, 1, 0, 1, 1, 0, 0],
            WireFault::BadBody(16),
        ),
    ];
    for (bytes, fault) in cases.iter() {
        assert_eq!(rt; decode(rt.alloc(), &settings, bytes).err(), Some(*fault));
    }
    Ok(())
}

// A head of the second version that states eight digits in place of nine.
#[test]
fn refuses_another_number_of_digits(rt: HostRuntime) -> Result<(), Fail> {
    let settings = Settings::new(2, 9, 1).ok_or("settings")?;
    let bytes = [2, 1, 0, 9, 8];
    let fault = decode(rt.alloc(), &settings, &bytes).err();
    assert_eq!(rt; fault, Some(WireFault::BadCount(8)));
    Ok(())
}

// A head may state as many links or letters as there may be, whose bytes are then missing, and no more.
#[test]
fn refuses_a_link_or_letter_too_many(rt: HostRuntime) -> Result<(), Fail> {
    let settings = Settings::new(2, 2, 1).ok_or("settings")?;
    let cases = [
        (
            [1, 3, 3, 2, 0, 1, 0, 0],
            WireFault::Short(5 + 3 * MOST_LINKS),
        ),
        ([1, 3, 3, 5, 0, 1, 0, 0], WireFault::BadLength(773)),
        (
            [1, 16, 0, 43, 0, 1, 0, 0],
            WireFault::Short(11 + MOST_LETTERS),
        ),
        ([1, 16, 0, 44, 0, 1, 0, 0], WireFault::BadLength(44)),
    ];
    for (bytes, fault) in cases.iter() {
        assert_eq!(rt; decode(rt.alloc(), &settings, bytes).err(), Some(*fault));
    }
    Ok(())
}

// A body of each kind that names one node.
fn body_of(alloc: Global, kind: u8, name: &[u8]) -> Result<Vec<u8>, AllocError> {
    let before: &[u8] = match kind {
        3 => &[0, 0, 0, 7, 1],
        4 | 5 | 17 => &[0, 0, 0, 7],
        8 => &[255, 255, 255, 255, 1],
        10 => &[0, 0, 0, 0],
        11 => &[0, 0, 0, 3, 1],
        12 => &[1],
        16 => &[0, 0, 0, 2, 1, 0, 0, 0, 7, 0, 4, b'h', b'i', b'9'],
        _ => &[],
    };
    let after: &[u8] = match kind {
        2 => &[0, 1, 0, 0, 0, 7, 0, 3, 0, 1],
        3 => &[1],
        9 => &[1, 0, 0, 0, 9, 0],
        10 => &[1],
        _ => &[],
    };
    let mut body = before.to_vec(alloc)?;
    if matches!(kind, 1 | 2 | 3 | 9 | 10 | 11 | 12) {
        body.extend_from_slice(name)?;
    }
    if matches!(kind, 9 | 10) {
        body.extend_from_slice(name)?;
    }
    body.extend_from_slice(after)?;
    Ok(body)
}

// A frame of a kind, from the name with the last digit 1 to itself.
fn frame_of(alloc: Global, settings: &Settings, kind: u8) -> Result<Vec<u8>, Fail> {
    let digits = settings.digits();
    let mut name = vec![in alloc; 0; digits as usize - 1]?;
    name.push(1)?;
    let body = body_of(alloc, kind, &name)?;
    let len = u8::try_from(body.len()).map_err(|_| "a short body")?;
    let mut frame = vec![in alloc; if digits > 8 { 2 } else { 1 }, kind, 0, len]?;
    if digits > 8 {
        frame.push(digits)?;
    }
    frame.extend_from_slice(&name)?;
    frame.extend_from_slice(&name)?;
    frame.extend_from_slice(&body)?;
    Ok(frame)
}

// Reads a frame of a kind, and spells it again.
fn check_frame(
    rt: &impl Abort,
    alloc: Global,
    settings: &Settings,
    kind: u8,
    bytes: &[u8],
) -> Result<(), Fail> {
    let head = decode_head(settings, bytes).map_err(|_| "a head")?;
    assert_eq!(rt; head.kind, kind);
    let frame = decode(alloc, settings, bytes).map_err(|_| "a frame")?;
    assert!(rt; frame.from == head.from && frame.to == head.to);
    let again = encode(alloc, settings, &frame).map_err(|_| "memory")?;
    assert_eq!(rt; again.as_slice(), bytes);
    Ok(())
}

#[test]
fn reads_and_spells_each_kind(rt: HostRuntime) -> Result<(), Fail> {
    for digits in [2, 9] {
        let settings = Settings::new(2, digits, 1).ok_or("settings")?;
        for kind in 1..18 {
            let bytes = frame_of(rt.alloc(), &settings, kind)?;
            check_frame(&rt, rt.alloc(), &settings, kind, bytes.as_slice())?;
        }
    }
    Ok(())
}

// The Tells of the joiner 01 from 00 to 01 and to 00.
const TWO_TELLS: [u8; 40] = [
    1, 2, 0, 12, 0, 0, 0, 1, 0, 1, 0, 1, 0, 0, 0, 7, 0, 3, 0, 1, 1, 2, 0, 12, 0, 0, 0, 0, 0, 1, 0,
    1, 0, 0, 0, 7, 0, 3, 0, 1,
];

#[test]
fn spells_many_tells_of_one_watch_list(rt: HostRuntime) -> Result<(), Fail> {
    let Some(settings) = Settings::new(2, 2, 1) else {
        return Err("settings")?;
    };
    let Ok(joiner) = read_name(&settings, b"01") else {
        return Err("a name")?;
    };
    let Ok(from) = read_name(&settings, b"00") else {
        return Err("a name")?;
    };
    let mut watch = Watch::new(rt.alloc());
    let Ok(()) = watch.push_last(Slot { level: 0, digit: 1 }) else {
        return Err("memory")?;
    };
    let fields = TellFields {
        joiner,
        prefix: 0,
        level: 1,
        session: 7,
        depth: 3,
    };
    let one = encode_tell(rt.alloc(), &settings, &from, &joiner, &fields, &watch);
    let other = encode_tell(rt.alloc(), &settings, &from, &from, &fields, &watch);
    assert_eq!(rt; one.map_err(|_| "memory")?.as_slice(), &TWO_TELLS[..20]);
    assert_eq!(rt; other.map_err(|_| "memory")?.as_slice(), &TWO_TELLS[20..]);
    Ok(())
}

#[test]
fn reads_the_watch_list_of_a_tell(rt: HostRuntime) -> Result<(), Fail> {
    let settings = Settings::new(2, 2, 1).ok_or("settings")?;
    let frame = decode(rt.alloc(), &settings, &TWO_TELLS[..20]).map_err(|_| "a frame")?;
    let is_watched = match &frame.body {
        Body::Tell { watch, .. } => watch.has(Slot { level: 0, digit: 1 }),
        _ => false,
    };
    assert!(rt; is_watched);
    Ok(())
}

// Few bytes, which stand in the value itself, and many.
#[test]
fn copies_any_number_of_bytes(rt: HostRuntime) -> Result<(), Fail> {
    // As many bytes as stand in the value itself, and one more.
    for len in [0, 3, 56, 57, 200] {
        let bytes = vec![in rt.alloc(); 7; len]?;
        let copy = Bytes::copy_of(rt.alloc(), bytes.as_slice()).map_err(|_| "memory")?;
        assert_eq!(rt; copy.as_slice(), bytes.as_slice());
    }
    Ok(())
}

#[test]
fn faults_are_printed(rt: HostRuntime) -> Result<(), Fail> {
    let heads = [
        (HeadFault::Short(3), "short 3"),
        (HeadFault::BadVersion(9), "bad version 9"),
        (HeadFault::BadKind(30), "bad kind 30"),
        (HeadFault::BadLength(773), "bad length 773"),
        (HeadFault::BadCount(8), "bad count 8"),
        (HeadFault::Trailing(1), "trailing 1"),
        (HeadFault::BadDigit(5), "bad digit 5"),
    ];
    for (fault, text) in heads.iter() {
        assert_eq!(rt; fault.to_string(rt.alloc())?.as_str(), *text);
        let fault = WireFault::from(*fault);
        assert_eq!(rt; fault.to_string(rt.alloc())?.as_str(), *text);
    }
    let body = WireFault::BadBody(16).to_string(rt.alloc())?;
    assert_eq!(rt; body.as_str(), "bad body 16");
    let memory = WireFault::NoMemory.to_string(rt.alloc())?;
    assert_eq!(rt; memory.as_str(), "no memory");
    Ok(())
}
