ghost use Rattle.std.specs.Prelude.{◌≡◌, All};
ghost use Rattle.tap_name.specs.Name.{IsName};

use crate::names::{name_of, settings_of};
use std::alloc::Global;
use std::process::Abort;
use tap_cast::CastTarget;
use tap_multicast::Target;
use tap_name::{List, Name, Settings, Slot};
use tap_node_common::{CastFields, FrameList};
use tap_pointer::Lay;
use tap_table::Tie;
use tap_watch::Watch;
use tap_wire::{Body, Bytes, TellFields};

// From 012, to 010 twice and to 301.
const LINKS: [&[u8]; 3] = [
    &[1, 8, 0, 5, 0, 1, 2, 0, 1, 0, 0, 0, 1, 2, 0],
    &[1, 8, 0, 5, 0, 1, 2, 0, 1, 0, 0, 0, 0, 9, 1],
    &[1, 8, 0, 5, 0, 1, 2, 3, 0, 1, 0, 0, 0, 7, 1],
];

const LINK: [&[u8]; 1] = [&[1, 8, 0, 5, 0, 1, 2, 3, 0, 1, 0, 0, 0, 1, 0]];

// An Ack to 000000010, and then a Release to 100000000 and to 000000010.
const MESSAGES: [&[u8]; 3] = [
    &[
        2, 5, 0, 4, 9, 0, 0, 0, 0, 0, 0, 0, 0, 1, 0, 0, 0, 0, 0, 0, 0, 1, 0, 0, 0, 1, 3,
    ],
    &[
        2, 7, 0, 0, 9, 0, 0, 0, 0, 0, 0, 0, 0, 1, 1, 0, 0, 0, 0, 0, 0, 0, 0,
    ],
    &[
        2, 7, 0, 0, 9, 0, 0, 0, 0, 0, 0, 0, 0, 1, 0, 0, 0, 0, 0, 0, 0, 1, 0,
    ],
];

const TELLS: [&[u8]; 2] = [
    &[
        1, 2, 0, 13, 0, 1, 2, 0, 1, 0, 1, 2, 0, 0, 3, 0, 0, 0, 5, 0, 2, 0, 2,
    ],
    &[
        1, 2, 0, 13, 0, 1, 2, 3, 0, 1, 1, 2, 0, 0, 1, 0, 0, 0, 5, 0, 2, 0, 2,
    ],
];

const CASTS: [&[u8]; 2] = [
    &[
        1, 16, 0, 13, 0, 1, 2, 0, 1, 0, 0, 0, 0, 6, 3, 0, 0, 0, 5, 0, 2, 104, 57,
    ],
    &[
        1, 16, 0, 13, 0, 1, 2, 3, 0, 1, 0, 0, 0, 6, 1, 0, 0, 0, 5, 0, 2, 104, 57,
    ],
];

const LAYS: [&[u8]; 2] = [
    &[
        1, 9, 0, 12, 0, 1, 2, 3, 0, 1, 3, 3, 3, 1, 2, 0, 1, 0, 0, 0, 4, 0,
    ],
    &[
        1, 9, 0, 12, 0, 1, 2, 0, 1, 0, 3, 3, 3, 1, 2, 0, 1, 0, 0, 0, 5, 1,
    ],
];

// The list lends exactly these frames.
fn check_lent(rt: &impl Abort, list: &FrameList, frames: &[&[u8]]) {
    assert!(rt; list.is_empty() == frames.is_empty());
    assert!(rt; list.len() == frames.len());
    let mut left = frames.iter();
    for at in 0..list.len() {
        let frame = *left.next().expect(rt, "a frame");
        assert!(rt; list.at(at) == frame);
    }
}

// These bytes are exactly those of the frames.
fn check_bytes(rt: &impl Abort, all: &[Bytes], frames: &[&[u8]]) {
    assert!(rt; all.len() == frames.len());
    let mut left = frames.iter();
    for bytes in all {
        let frame = *left.next().expect(rt, "a frame");
        assert!(rt; bytes.as_slice() == frame);
    }
}

// The list has exactly these frames.
fn check(rt: &impl Abort, list: FrameList, frames: &[&[u8]]) {
    check_lent(rt, &list, frames);
    check_bytes(rt, &list.into_frames(), frames);
}

fn tie(to: Name, version: u32, on: bool) -> Tie
    ensures { result ≡ record { to = to; version = version; on = on } }
{
    Tie { to, version, on }
}

// Adds a word.
fn add_word(
    rt: &impl Abort,
    settings: &Settings,
    words: &mut List<Tie>,
    to: &str,
    version: u32,
    on: bool,
)
    requires { All (λ word. IsName settings.now word.to) words.old }
    ensures { All (λ word. IsName settings.now word.to) words.new }
{
    let to = name_of(rt, settings, to);
    words.push(Tie { to, version, on }).expect(rt, "memory");
}

// The Links of three words of 012.
fn links(rt: &impl Abort, alloc: Global, settings: &Settings) -> FrameList {
    let from = name_of(rt, settings, "012");
    let mut words = List::new(alloc);
    add_word(rt, settings, &mut words, "301", 7, true);
    add_word(rt, settings, &mut words, "010", 258, false);
    add_word(rt, settings, &mut words, "010", 9, true);
    let mut list = FrameList::new(alloc);
    list.send_links(settings, &from, words).expect(rt, "memory");
    list
}

// The Links ascend by receiver, and two to one receiver stay in their order.
#[test]
fn links_ascend_by_receiver(rt: HostRuntime) {
    let settings = settings_of(&rt, 4, 3, 2);
    check(&rt, links(&rt, rt.alloc(), &settings), &LINKS);
}

// No Link, and then the Link of a word of 012.
fn link(rt: &impl Abort, alloc: Global, settings: &Settings) -> FrameList {
    let from = name_of(rt, settings, "012");
    let to = name_of(rt, settings, "301");
    let mut list = FrameList::new(alloc);
    list.send_link(settings, &from, None).expect(rt, "memory");
    list.send_link(settings, &from, Some(tie(to, 1, false)))
        .expect(rt, "memory");
    list
}

#[test]
fn a_word_is_sent_as_its_link(rt: HostRuntime) {
    let settings = settings_of(&rt, 4, 3, 2);
    check(&rt, link(&rt, rt.alloc(), &settings), &LINK);
}

// An Ack to one name, and a Release to two.
fn messages(rt: &impl Abort, alloc: Global, settings: &Settings) -> FrameList {
    let from = name_of(rt, settings, "000000001");
    let one = name_of(rt, settings, "000000010");
    let other = name_of(rt, settings, "100000000");
    let names = List::from_vec(vec![in alloc; other, one].expect(rt, "memory"));
    let mut list = FrameList::new(alloc);
    list.send(settings, &from, &one, Body::Ack { session: 259 })
        .expect(rt, "memory");
    list.send_each(settings, &from, Body::Release, &names)
        .expect(rt, "memory");
    list
}

// A frame of nine digits, and the same to two names.
#[test]
fn messages_keep_their_order(rt: HostRuntime) {
    let settings = settings_of(&rt, 2, 9, 1);
    check(&rt, messages(&rt, rt.alloc(), &settings), &MESSAGES);
}

// The Tells of 012 to two targets: of the joiner 120 with the prefix 0.
fn tells(rt: &impl Abort, alloc: Global) -> FrameList {
    let settings = Settings::new(4, 3, 2).expect(rt, "settings");
    let from = name_of(rt, &settings, "012");
    let near = name_of(rt, &settings, "010");
    let far = name_of(rt, &settings, "301");
    let fields = TellFields {
        joiner: name_of(rt, &settings, "120"),
        prefix: 0,
        level: 1,
        session: 5,
        depth: 2,
    };
    let mut watch = Watch::new(alloc);
    watch
        .push_last(Slot { level: 0, digit: 2 })
        .expect(rt, "memory");
    let targets = vec![in alloc;
        Target { to: near, level: 3 },
        Target { to: far, level: 1 },
    ].expect(rt, "memory");
    let mut list = FrameList::new(alloc);
    list.send_tells(&settings, &from, &fields, &watch, &List::from_vec(targets))
        .expect(rt, "memory");
    list
}

#[test]
fn each_tell_has_the_level_of_its_target(rt: HostRuntime) {
    check(&rt, tells(&rt, rt.alloc()), &TELLS);
}

// The Casts of 012 to two targets.
fn casts(rt: &impl Abort, alloc: Global) -> FrameList {
    let settings = Settings::new(4, 3, 2).expect(rt, "settings");
    let from = name_of(rt, &settings, "012");
    let near = name_of(rt, &settings, "010");
    let far = name_of(rt, &settings, "301");
    let fields = CastFields {
        cast: 6,
        session: 5,
        depth: 2,
        word: Bytes::copy_of(alloc, b"h9").expect(rt, "memory"),
    };
    let targets = vec![in alloc;
        CastTarget { to: near, level: 3 },
        CastTarget { to: far, level: 1 },
    ]
    .expect(rt, "memory");
    let mut list = FrameList::new(alloc);
    list.send_casts(&settings, &from, fields, &List::from_vec(targets))
        .expect(rt, "memory");
    list
}

#[test]
fn each_cast_has_the_level_of_its_target(rt: HostRuntime) {
    check(&rt, casts(&rt, rt.alloc()), &CASTS);
}

// The Lays of 012 of one pair: off at 301, and on at 010.
fn lays(rt: &impl Abort, alloc: Global) -> FrameList {
    let settings = Settings::new(4, 3, 2).expect(rt, "settings");
    let from = name_of(rt, &settings, "012");
    let off = Lay {
        to: name_of(rt, &settings, "301"),
        object: name_of(rt, &settings, "333"),
        server: name_of(rt, &settings, "120"),
        level: 1,
        version: 4,
        on: false,
    };
    let on = Lay {
        to: name_of(rt, &settings, "010"),
        version: 5,
        on: true,
        ..off
    };
    let lays = List::from_vec(vec![in alloc; off, on].expect(rt, "memory"));
    let mut list = FrameList::new(alloc);
    list.send_lays(&settings, &from, &lays).expect(rt, "memory");
    list
}

#[test]
fn lays_keep_their_order(rt: HostRuntime) {
    check(&rt, lays(&rt, rt.alloc()), &LAYS);
}
