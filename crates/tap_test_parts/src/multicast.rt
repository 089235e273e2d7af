ghost use Rattle.std.specs.Prelude.{◌≡◌, All, true};
ghost use Rattle.tap_multicast.specs.Covers.{MayCover, MayWatch};

use crate::names::{name_of, put, put_digit, put_name, settings_of};
use std::alloc::Global;
use std::process::Abort;
use tap_link::Kind;
use tap_multicast::{Covered, Covers, Target};
use tap_name::{List, Name, Offered, Slot};
use tap_table::Table;
use tap_watch::Watch;

// A node with some links, which has pinned the joiner too, takes a word of it.
struct Case {
    owner: &'static str,
    settled: &'static str,
    pins: &'static str,
    joiner: &'static str,
    prefix: u8,
    level: u8,
    // The slots that were answered before.
    struck: &'static str,
    given: &'static str,
}

const CASES: [Case; 14] = [
    // A node alone answers its own slot.
    Case {
        owner: "000",
        settled: "",
        pins: "",
        joiner: "100",
        prefix: 0,
        level: 0,
        struck: "",
        given: "first: offer, tell, left 02 03",
    },
    // Two join into one hole: the second is offered the pin on the first, which is told of it.
    Case {
        owner: "000",
        settled: "",
        pins: "100",
        joiner: "120",
        prefix: 0,
        level: 0,
        struck: "",
        given: "first: offer 100, tell 100@1, left 02 03",
    },
    // The surrogate answers by its own slot and by a primary.
    Case {
        owner: "000",
        settled: "100",
        pins: "",
        joiner: "300",
        prefix: 0,
        level: 0,
        struck: "",
        given: "first: offer 100+, tell 100@1, left 02",
    },
    // The node that was told so goes on, at its level alone, to one that joins below it.
    Case {
        owner: "100",
        settled: "000",
        pins: "110",
        joiner: "300",
        prefix: 0,
        level: 1,
        struck: "00 01",
        given: "first: offer 110, tell 110@2, left 02",
    },
    // What was answered before isn't offered again.
    Case {
        owner: "100",
        settled: "000 110",
        pins: "",
        joiner: "120",
        prefix: 0,
        level: 1,
        struck: "00",
        given: "first: offer, tell 110@2, left 02 03",
    },
    // A pin of a level that was passed over is introduced.
    Case {
        owner: "100",
        settled: "000 110",
        pins: "200",
        joiner: "300",
        prefix: 0,
        level: 1,
        struck: "00",
        given: "first: offer 200, tell 110@2 200@1, left 02",
    },
    // Of two settled links in a slot the primary alone is offered and told.
    Case {
        owner: "000",
        settled: "012 230 233 301",
        pins: "",
        joiner: "120",
        prefix: 0,
        level: 0,
        struck: "",
        given: "first: offer 230+ 301+, tell 012@2 230@1 301@1, left",
    },
    // All pins of a slot are, beside its primary.
    Case {
        owner: "000",
        settled: "230",
        pins: "201 222",
        joiner: "120",
        prefix: 0,
        level: 0,
        struck: "",
        given: "first: offer 201 222 230+, tell 201@1 222@1 230@1, left 03",
    },
    // A surrogate at a prefix above 0: it answers slots of all levels up to the prefix, and goes on from it.
    Case {
        owner: "100",
        settled: "000 110",
        pins: "",
        joiner: "120",
        prefix: 1,
        level: 1,
        struck: "",
        given: "first: offer 000+ 110+, tell 110@2, left 02 03 13",
    },
    // Above the prefix a pin of a level that was passed over is introduced, and the slots below the prefix aren't gone over.
    Case {
        owner: "110",
        settled: "000 100 112",
        pins: "130",
        joiner: "120",
        prefix: 1,
        level: 2,
        struck: "00 10",
        given: "first: offer 130, tell 112@3 130@2, left 02 03 13",
    },
    // A surrogate that shares all digits but the last.
    Case {
        owner: "120",
        settled: "000 100 122",
        pins: "",
        joiner: "121",
        prefix: 2,
        level: 2,
        struck: "",
        given: "first: offer 000+ 100+ 122+, tell 122@3, left 02 03 11 13 23",
    },
    // A watch of five slots is left.
    Case {
        owner: "100",
        settled: "",
        pins: "",
        joiner: "120",
        prefix: 1,
        level: 1,
        struck: "",
        given: "first: offer, tell, left 00 02 03 11 13",
    },
    // Five links are offered, and nine nodes told.
    Case {
        owner: "000",
        settled: "001 012 023 100 101 230 301",
        pins: "130 203 221",
        joiner: "310",
        prefix: 0,
        level: 0,
        struck: "",
        given: "first: offer 100+ 130 203 221 230+, tell 001@3 012@2 023@2 100@1 130@1 203@1 221@1 230@1 301@1, left",
    },
    // At the number of digits no slot is covered: the pins from the prefix on are introduced alone.
    Case {
        owner: "000",
        settled: "100",
        pins: "012 200",
        joiner: "310",
        prefix: 0,
        level: 3,
        struck: "",
        given: "first: offer 012 100+ 200, tell 012@2 200@1, left 02",
    },
];

// A node with some links, which has pinned the joiner too, takes further words of it.
struct Further {
    owner: &'static str,
    settled: &'static str,
    pins: &'static str,
    joiner: &'static str,
    prefix: u8,
    // The level of each word, and what it gives.
    words: [(u8, &'static str); 6],
}

const FURTHER: [Further; 2] = [
    Further {
        owner: "000",
        settled: "012 301",
        pins: "",
        joiner: "120",
        prefix: 0,
        words: [
            (1, "first: offer 301+, tell 012@2, left 02"),
            (1, "already"),
            (2, "already"),
            (0, "again: offer, tell 301@1, left 00 02 03"),
            (0, "already"),
            (3, "already"),
        ],
    },
    // A pin is introduced by the first cover, and told again once its level is covered.
    Further {
        owner: "110",
        settled: "100 112",
        pins: "130",
        joiner: "120",
        prefix: 1,
        words: [
            (3, "first: offer 100+ 130, tell 130@2, left 00 02 03 13"),
            (2, "again: offer, tell 112@3, left 00 02 03 10 11 13"),
            (2, "already"),
            (1, "again: offer, tell 100@2 130@2, left 00 02 03 10 11 13"),
            (1, "already"),
            (3, "already"),
        ],
    },
];

// The table of a node without links.
fn table_of(rt: &impl Abort, alloc: Global, owner: &str) -> Table {
    let settings = settings_of(rt, 4, 3, 2);
    let owner = name_of(rt, &settings, owner);
    Table::new(alloc, owner, &settings).expect(rt, "memory")
}

// Pins the node of a text.
fn pin(rt: &impl Abort, table: &mut Table, text: &str) {
    let name = name_of(rt, &table.settings(), text);
    assert!(rt; name != table.owner());
    let _ = table.pin(name).expect(rt, "memory");
}

// Adds a settled link to the node of a text.
fn settle(rt: &impl Abort, table: &mut Table, text: &str) {
    let name = name_of(rt, &table.settings(), text);
    assert!(rt; name != table.owner());
    let _ = table.offer(name).expect(rt, "memory");
}

// Pins the nodes of a text, which are parted by blanks.
fn pin_all(rt: &impl Abort, table: &mut Table, names: &str) {
    for text in names.split(' ') {
        if !text.is_empty() {
            pin(rt, table, text);
        }
    }
}

// Adds settled links to the nodes of a text, which are parted by blanks.
fn settle_all(rt: &impl Abort, table: &mut Table, names: &str) {
    for text in names.split(' ') {
        if !text.is_empty() {
            settle(rt, table, text);
        }
    }
}

// The full watch of a joiner with this prefix.
fn watch_of(rt: &impl Abort, alloc: Global, joiner: &str, prefix: u8) -> Watch {
    let settings = settings_of(rt, 4, 3, 2);
    let joiner = name_of(rt, &settings, joiner);
    assert!(rt; prefix < settings.digits());
    Watch::full(alloc, &joiner, &settings, prefix as usize).expect(rt, "memory")
}

// Strikes the slots of a text, each a level and a digit.
fn strike(watch: &mut Watch, slots: &str) {
    for slot in slots.split(' ') {
        if let [level, digit] = slot.as_bytes() {
            watch.strike(Slot {
                level: *level & 15,
                digit: *digit & 15,
            });
        }
    }
}

// Whether a joiner with this prefix may watch these slots: each has a level up to it, and a digit below the base.
fn may_watch(watch: &Watch, base: u8, prefix: u8) -> bool
    ensures { result ≡ true → All (MayWatch base prefix) watch.now }
{
    for slot in watch.as_slice() {
        if prefix < slot.level {
            return false;
        }
        if base <= slot.digit {
            return false;
        }
    }
    true
}

// A word of a joiner.
#[derive(Clone, Copy)]
struct Word {
    joiner: Name,
    prefix: u8,
    level: u8,
}

// A word of the joiner of a text.
fn word_of(rt: &impl Abort, joiner: &str, prefix: u8, level: u8) -> Word {
    Word {
        joiner: name_of(rt, &settings_of(rt, 4, 3, 2), joiner),
        prefix,
        level,
    }
}

// Whether a node with this table may take a word and a watch.
fn may_take(table: &Table, word: &Word, watch: &Watch) -> bool
    ensures { result ≡ true → MayCover table.now watch.now word.now.joiner word.now.prefix word.now.level }
{
    let settings = table.settings();
    let owner = table.owner();
    if table.kind_of(word.joiner) != Some(Kind::Pin) {
        return false;
    }
    if settings.digits() < word.level {
        return false;
    }
    if word.level < word.prefix {
        return false;
    }
    if owner.lcp(&word.joiner) < word.prefix as usize {
        return false;
    }
    may_watch(watch, settings.base(), word.prefix)
}

// What a word makes a node do.
fn covered_by(
    rt: &impl Abort,
    covers: &mut Covers,
    table: &Table,
    word: &Word,
    watch: &Watch,
) -> Covered {
    assert!(rt; may_take(table, word, watch));
    covers
        .cover(word.joiner, word.prefix, word.level, watch, table)
        .expect(rt, "memory")
}

// Compares what a word makes a node do with a text.
fn check_given(
    rt: &impl Abort,
    alloc: Global,
    covers: &mut Covers,
    table: &Table,
    word: &Word,
    watch: &Watch,
    wanted: &str,
) {
    let covered = covered_by(rt, covers, table, word, watch);
    let text = words_of(rt, alloc, covered);
    assert!(rt; text.as_slice() == wanted.as_bytes(), "{wanted}");
}

// What a word makes a node do, as a text.
fn words_of(rt: &impl Abort, alloc: Global, covered: Covered) -> Vec<u8> {
    let mut text = Vec::new(alloc);
    match covered {
        Covered::Already => put(rt, &mut text, b"already"),
        Covered::Now {
            first,
            offer,
            targets,
            left,
        } => {
            put_start(rt, &mut text, first);
            put_offer(rt, &mut text, &offer);
            put_targets(rt, &mut text, &targets);
            put_left(rt, &mut text, &left);
        }
    }
    text
}

// Whether it is the first word of its joiner.
fn put_start(rt: &impl Abort, text: &mut Vec<u8>, first: bool) {
    if first {
        put(rt, text, b"first: ");
    } else {
        put(rt, text, b"again: ");
    }
}

// The links that are offered; a settled one has a mark.
fn put_offer(rt: &impl Abort, text: &mut Vec<u8>, offer: &List<Offered>) {
    put(rt, text, b"offer");
    for link in offer.as_slice() {
        put(rt, text, b" ");
        put_name(rt, text, &link.name);
        if link.settled {
            put(rt, text, b"+");
        }
    }
}

// The nodes that are told, each with a level.
fn put_targets(rt: &impl Abort, text: &mut Vec<u8>, targets: &List<Target>) {
    put(rt, text, b", tell");
    for target in targets.as_slice() {
        put(rt, text, b" ");
        put_name(rt, text, &target.to);
        put(rt, text, b"@");
        put_digit(rt, text, target.level);
    }
}

// The slots that are left, each a level and a digit.
fn put_left(rt: &impl Abort, text: &mut Vec<u8>, left: &Watch) {
    put(rt, text, b", left");
    for slot in left.as_slice() {
        put(rt, text, b" ");
        put_digit(rt, text, slot.level);
        put_digit(rt, text, slot.digit);
    }
}

// A node with some links, which has pinned the joiner too, takes the first word of it.
fn check_case(rt: &impl Abort, alloc: Global, case: &Case) {
    let mut table = table_of(rt, alloc, case.owner);
    settle_all(rt, &mut table, case.settled);
    pin_all(rt, &mut table, case.pins);
    pin(rt, &mut table, case.joiner);
    let mut watch = watch_of(rt, alloc, case.joiner, case.prefix);
    strike(&mut watch, case.struck);
    let mut covers = Covers::new(alloc);
    let word = word_of(rt, case.joiner, case.prefix, case.level);
    check_given(rt, alloc, &mut covers, &table, &word, &watch, case.given);
    assert!(rt; covers.level_of(word.joiner) == Some(case.level));
}

#[test]
fn a_first_cover_introduces_and_offers(rt: HostRuntime) {
    for case in CASES.iter() {
        check_case(&rt, rt.alloc(), case);
    }
}

// A node with some links, which has pinned the joiner too, takes further words of it.
fn check_further(rt: &impl Abort, alloc: Global, case: &Further) {
    let mut table = table_of(rt, alloc, case.owner);
    settle_all(rt, &mut table, case.settled);
    pin_all(rt, &mut table, case.pins);
    pin(rt, &mut table, case.joiner);
    let watch = watch_of(rt, alloc, case.joiner, case.prefix);
    let mut covers = Covers::new(alloc);
    for (level, wanted) in &case.words {
        let word = word_of(rt, case.joiner, case.prefix, *level);
        check_given(rt, alloc, &mut covers, &table, &word, &watch, wanted);
    }
    let joiner = name_of(rt, &settings_of(rt, 4, 3, 2), case.joiner);
    assert!(rt; covers.level_of(joiner) == Some(case.prefix));
}

// A word at a lesser level goes over the levels between, and leaves the watch; one that isn't lesser does nothing.
#[test]
fn a_later_cover_tells_of_new_levels_alone(rt: HostRuntime) {
    for case in FURTHER.iter() {
        check_further(&rt, rt.alloc(), case);
    }
}

const MANY: &str = "100 110 120 130 200 300";

// The first word of a joiner comes, which shares no digit with the node.
fn check_first(rt: &impl Abort, alloc: Global, covers: &mut Covers, table: &Table, joiner: &str) {
    let watch = watch_of(rt, alloc, joiner, 0);
    let word = word_of(rt, joiner, 0, 0);
    assert!(rt; covers.level_of(word.joiner) == None, "{joiner}");
    let covered = covered_by(rt, covers, table, &word, &watch);
    let _ = words_of(rt, alloc, covered);
    assert!(rt; covers.level_of(word.joiner) == Some(0), "{joiner}");
}

// The word comes again.
fn check_again(rt: &impl Abort, alloc: Global, covers: &mut Covers, table: &Table, joiner: &str) {
    let watch = watch_of(rt, alloc, joiner, 0);
    let word = word_of(rt, joiner, 0, 0);
    check_given(rt, alloc, covers, table, &word, &watch, "already");
}

// Six joiners are covered one after the other, and each of them is covered already then.
#[test]
fn covers_of_many_joiners_are_kept(rt: HostRuntime) {
    let mut table = table_of(&rt, rt.alloc(), "000");
    pin_all(&rt, &mut table, MANY);
    let mut covers = Covers::new(rt.alloc());
    for joiner in MANY.split(' ') {
        check_first(&rt, rt.alloc(), &mut covers, &table, joiner);
    }
    for joiner in MANY.split(' ') {
        check_again(&rt, rt.alloc(), &mut covers, &table, joiner);
    }
}
