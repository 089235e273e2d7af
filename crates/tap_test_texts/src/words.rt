use std::alloc::Global;
use std::process::Abort;
use tap_words::{Asked, WordsRefusal, plain_words_law, read_words};

// Words that are refused, each alone.
const REFUSED: [&str; 10] = [
    "--help",
    "-h",
    "--version",
    "x",
    "",
    "--make",
    "--make=0",
    "--make=101",
    "--seed=-1",
    "--brief=yes",
];

// What these words ask for.
fn asked(rt: &impl Abort, alloc: Global, words: &[&str]) -> Result<Asked, WordsRefusal> {
    let mut texts = Vec::new(alloc);
    for word in words {
        let text = String::from_str(alloc, word).expect(rt, "memory");
        texts.push(text).expect(rt, "memory");
    }
    read_words(alloc, texts.as_slice())
}

#[test]
fn accepts_plain_words(rt: HostRuntime) {
    plain_words_law();
    let plain = Asked {
        brief: false,
        make: None,
        seed: 1,
    };
    assert!(rt; asked(&rt, rt.alloc(), &[]) == Ok(plain));
    let all = Asked {
        brief: true,
        make: Some(100),
        seed: u64::MAX,
    };
    let words = ["--seed", "18446744073709551615", "--brief", "--make", "100"];
    assert!(rt; asked(&rt, rt.alloc(), &words) == Ok(all));
}

#[test]
fn refuses_other_words(rt: HostRuntime) {
    for word in REFUSED.iter() {
        assert!(rt;
            asked(&rt, rt.alloc(), &[word]) == Err(WordsRefusal::Usage),
            "{word}"
        );
    }
    assert!(rt; asked(&rt, rt.alloc(), &["--brief", "--brief"]) == Err(WordsRefusal::Usage));
}
