ghost use Rattle.std.specs.Prelude.{◌≡◌, ◌≢◌, ◌≤◌, length};
ghost use Rattle.tap_name.specs.Name.{IsName};
ghost use Rattle.tap_table.specs.Table.{offered};
ghost use Rattle.tap_pointer.specs.Pointers.{held_or_laid_count};
ghost use Rattle.tap_pointer.specs.Reconcile.{AreLaid, AreLaidBeside, AreLaidBut, AreNamesHeld};

use crate::names::{name_of, put, put_digit, put_name, settings_of};
use std::alloc::Global;
use std::process::Abort;
use tap_name::{List, Name};
use tap_pointer::{Lay, Pair, Pointers};
use tap_register::Stamp;
use tap_table::Table;

// What changes what a node knows of pairs, or its primaries.
enum Act {
    Publish(&'static str),
    Withdraw(&'static str),
    // A Lay is taken: whether it is on, the sender, the object and the server, the level and the version.
    Lay(bool, &'static str, (&'static str, &'static str), u8, u32),
    // A settled link is added.
    Link(&'static str),
    Replace {
        leaver: &'static str,
        replacement: &'static str,
    },
}

// How the pairs are laid as wanted after an act: all are looked at, or the one that it touched, which is one call with the act if
// this is a Lay. After a link was added, all are looked at, or those alone whose way passes its level.
#[derive(Clone, Copy, PartialEq)]
enum Mode {
    Whole,
    Pair,
    Once,
}

// A node with some settled links, and the Lays that it sends after each act: whether it is on, the receiver and the level,
// the object and the server, and the version. At the end it clears.
struct Case {
    owner: &'static str,
    width: u8,
    links: &'static str,
    acts: &'static [(Act, &'static str)],
    cleared: &'static str,
}

const CASES: [Case; 6] = [
    // A newcomer becomes the primary of the slot, and takes the pair over.
    Case {
        owner: "301",
        width: 2,
        links: "000 012 230 233",
        acts: &[
            (Act::Publish("123"), "+230@1 123/301 1"),
            (Act::Publish("123"), ""),
            (Act::Link("120"), "-230@1 123/301 2, +120@1 123/301 3"),
            (Act::Withdraw("123"), "-120@1 123/301 4"),
            (Act::Withdraw("123"), ""),
            (Act::Publish("123"), "+120@1 123/301 5"),
        ],
        cleared: "-120@1 123/301 6",
    },
    // The node that was the hop before takes its own Lay back once it is told off. The first Lay comes again, too late.
    Case {
        owner: "230",
        width: 2,
        links: "000 012 233 301",
        acts: &[
            (
                Act::Lay(true, "301", ("123", "301"), 1, 1),
                "+233@3 123/301 1",
            ),
            (
                Act::Lay(false, "301", ("123", "301"), 1, 2),
                "-233@3 123/301 2",
            ),
            (Act::Lay(true, "301", ("123", "301"), 1, 1), ""),
        ],
        cleared: "",
    },
    // Two servers at the root, which then gets a next hop; one is withdrawn after the other.
    Case {
        owner: "230",
        width: 2,
        links: "000 012 301",
        acts: &[
            (Act::Lay(true, "301", ("123", "301"), 1, 1), ""),
            (Act::Lay(true, "012", ("123", "012"), 1, 1), ""),
            (Act::Link("233"), "+233@3 123/012 1, +233@3 123/301 2"),
            (
                Act::Lay(false, "012", ("123", "012"), 1, 2),
                "-233@3 123/012 3",
            ),
            (
                Act::Lay(false, "301", ("123", "301"), 1, 2),
                "-233@3 123/301 4",
            ),
        ],
        cleared: "",
    },
    // The replacement of a leaver fills its slot.
    Case {
        owner: "000",
        width: 1,
        links: "100",
        acts: &[
            (Act::Publish("130"), "+100@1 130/000 1"),
            (
                Act::Replace {
                    leaver: "100",
                    replacement: "120",
                },
                "-100@1 130/000 2, +120@1 130/000 3",
            ),
        ],
        cleared: "-120@1 130/000 4",
    },
    // Three senders lay a pair at three levels: the least counts.
    Case {
        owner: "000",
        width: 2,
        links: "003 012 100",
        acts: &[
            (Act::Lay(true, "001", ("113", "222"), 3, 5), ""),
            (
                Act::Lay(true, "033", ("113", "222"), 2, 1),
                "+003@3 113/222 1",
            ),
            (
                Act::Lay(true, "300", ("113", "222"), 1, 9),
                "-003@3 113/222 2, +012@2 113/222 3",
            ),
            (
                Act::Lay(false, "300", ("113", "222"), 1, 10),
                "-012@2 113/222 4, +003@3 113/222 5",
            ),
            (
                Act::Lay(false, "033", ("113", "222"), 2, 2),
                "-003@3 113/222 6",
            ),
        ],
        cleared: "",
    },
    // Six pairs, of which five have a next hop, then all, and then five have another one.
    Case {
        owner: "000",
        width: 2,
        links: "",
        acts: &[
            (Act::Publish("132"), ""),
            (Act::Publish("113"), ""),
            (Act::Publish("213"), ""),
            (Act::Publish("123"), ""),
            (Act::Publish("110"), ""),
            (Act::Publish("103"), ""),
            (
                Act::Link("130"),
                "+130@1 103/000 1, +130@1 110/000 2, +130@1 113/000 3, +130@1 123/000 4, +130@1 132/000 5",
            ),
            (Act::Link("200"), "+200@1 213/000 6"),
            (
                Act::Link("100"),
                "-130@1 103/000 7, +100@1 103/000 8, -130@1 110/000 9, +100@1 110/000 10, -130@1 113/000 11, +100@1 113/000 12, -130@1 123/000 13, +100@1 123/000 14, -130@1 132/000 15, +100@1 132/000 16",
            ),
        ],
        cleared: "-100@1 103/000 17, -100@1 110/000 18, -100@1 113/000 19, -100@1 123/000 20, -100@1 132/000 21, -200@1 213/000 22",
    },
];

// All pairs are looked at after each act, and in a second run those alone that the act touched. In a third run a Lay is taken and
// its pair laid in one call. Reconciled once more, be it all or what passes a level, the node sends nothing.
#[test]
fn lays_go_from_the_old_hop_to_the_new_one(rt: HostRuntime) {
    for case in CASES.iter() {
        for mode in &[Mode::Whole, Mode::Pair, Mode::Once] {
            check(&rt, rt.alloc(), case, *mode);
        }
    }
}

fn check(rt: &impl Abort, alloc: Global, case: &Case, mode: Mode) {
    let settings = settings_of(rt, 4, 3, case.width);
    let owner = name_of(rt, &settings, case.owner);
    let mut table = Table::new(alloc, owner, &settings).expect(rt, "memory");
    link_all(rt, &mut table, case.links);
    let mut pointers = pointers_of(alloc, &table);
    let mut stamp = Stamp::new();
    for (act, wanted) in case.acts.iter() {
        let lays = play(rt, &mut pointers, &mut table, &mut stamp, act, mode);
        check_lays(rt, alloc, lays, wanted);
        check_settled(rt, alloc, &mut pointers, &table, &mut stamp);
    }
    check_cleared(rt, alloc, &mut pointers, &mut stamp, case.cleared);
}

// The pointers of a node that knows of no pair.
fn pointers_of(alloc: Global, table: &Table) -> Pointers
    ensures owner { table.now.owner ≡ result.owner }
    ensures names { AreNamesHeld table.now.settings result }
    ensures laid { AreLaid table.now result }
{
    Pointers::new(alloc, table.owner())
}

// Compares Lays with a text.
fn check_lays(rt: &impl Abort, alloc: Global, lays: List<Lay>, wanted: &str) {
    let text = text_of(rt, alloc, &lays);
    assert!(rt; text.as_slice() == wanted.as_bytes(), "{wanted}");
}

// Reconciled once more, be it all or what passes level 1, the node sends nothing.
fn check_settled(
    rt: &impl Abort,
    alloc: Global,
    pointers: &mut Pointers,
    table: &Table,
    stamp: &mut Stamp,
)
    requires owner { table.now.owner ≡ pointers.old.owner }
    requires names { AreNamesHeld table.now.settings pointers.old }
    ensures owner { table.now.owner ≡ pointers.new.owner }
    ensures names { AreNamesHeld table.now.settings pointers.new }
    ensures laid { AreLaid table.now pointers.new }
{
    check_lays(rt, alloc, reconcile(rt, pointers, table, stamp), "");
    check_lays(rt, alloc, reconcile_at(rt, pointers, table, stamp, 1), "");
}

// The node clears, and knows of no pair then.
fn check_cleared(
    rt: &impl Abort,
    alloc: Global,
    pointers: &mut Pointers,
    stamp: &mut Stamp,
    wanted: &str,
) {
    check_room(rt, pointers, stamp);
    let lays = pointers.clear(stamp).expect(rt, "memory");
    check_lays(rt, alloc, lays, wanted);
    assert!(rt; pointers.span() == 0);
}

// There are few pairs, and few Lays were sent.
fn check_room(rt: &impl Abort, pointers: &Pointers, stamp: &Stamp)
    ensures numbers { stamp.now ≤ 1000 }
    ensures pairs { held_or_laid_count pointers.now.pairs ≤ 1000 }
{
    assert!(rt; stamp.last() <= 1000);
    assert!(rt; pointers.span() <= 1000);
}

// Does what an act says, and then reconciles all pairs, or those that it touched.
fn play(
    rt: &impl Abort,
    pointers: &mut Pointers,
    table: &mut Table,
    stamp: &mut Stamp,
    act: &Act,
    mode: Mode,
) -> List<Lay>
    requires owner { table.old.owner ≡ pointers.old.owner }
    requires names { AreNamesHeld table.old.settings pointers.old }
    requires laid { AreLaid table.old pointers.old }
    ensures owner { table.new.owner ≡ pointers.new.owner }
    ensures names { AreNamesHeld table.new.settings pointers.new }
    ensures laid { AreLaid table.new pointers.new }
{
    match act {
        Act::Publish(object) => publish(rt, pointers, table, stamp, object, mode),
        Act::Withdraw(object) => withdraw(rt, pointers, table, stamp, object, mode),
        Act::Lay(on, from, pair, level, version) => {
            let word = word_of(rt, table, *on, from, *pair, *level, *version);
            take(rt, pointers, table, stamp, &word, mode)
        }
        Act::Link(name) => link(rt, pointers, table, stamp, name, mode),
        Act::Replace {
            leaver,
            replacement,
        } => {
            replace(rt, table, leaver, replacement);
            reconcile(rt, pointers, table, stamp)
        }
    }
}

fn publish(
    rt: &impl Abort,
    pointers: &mut Pointers,
    table: &Table,
    stamp: &mut Stamp,
    object: &str,
    mode: Mode,
) -> List<Lay>
    requires owner { table.now.owner ≡ pointers.old.owner }
    requires names { AreNamesHeld table.now.settings pointers.old }
    requires laid { AreLaid table.now pointers.old }
    ensures owner { table.now.owner ≡ pointers.new.owner }
    ensures names { AreNamesHeld table.now.settings pointers.new }
    ensures laid { AreLaid table.now pointers.new }
{
    let object = name_of(rt, &table.settings(), object);
    let _ = pointers.publish(object).expect(rt, "memory");
    let server = pointers.owner();
    settle(rt, pointers, table, stamp, Pair { object, server }, mode)
}

fn withdraw(
    rt: &impl Abort,
    pointers: &mut Pointers,
    table: &Table,
    stamp: &mut Stamp,
    object: &str,
    mode: Mode,
) -> List<Lay>
    requires owner { table.now.owner ≡ pointers.old.owner }
    requires names { AreNamesHeld table.now.settings pointers.old }
    requires laid { AreLaid table.now pointers.old }
    ensures owner { table.now.owner ≡ pointers.new.owner }
    ensures names { AreNamesHeld table.now.settings pointers.new }
    ensures laid { AreLaid table.now pointers.new }
{
    let object = name_of(rt, &table.settings(), object);
    pointers.withdraw(object);
    let server = pointers.owner();
    settle(rt, pointers, table, stamp, Pair { object, server }, mode)
}

// A Lay that a node is sent.
#[derive(Clone, Copy)]
struct Word {
    from: Name,
    pair: Pair,
    level: u8,
    version: u32,
    on: bool,
}

fn word_of(
    rt: &impl Abort,
    table: &Table,
    on: bool,
    from: &str,
    pair: (&str, &str),
    level: u8,
    version: u32,
) -> Word
    ensures name { IsName table.now.settings result.pair.object }
    ensures from { 1 ≤ result.level }
    ensures to { result.level ≤ length result.pair.object }
{
    let settings = table.settings();
    let (object, server) = pair;
    let object = name_of(rt, &settings, object);
    let server = name_of(rt, &settings, server);
    assert!(rt; 1 <= level);
    assert!(rt; level as usize <= object.len());
    Word {
        from: name_of(rt, &settings, from),
        pair: Pair { object, server },
        level,
        version,
        on,
    }
}

// Takes a Lay, and lays its pair as wanted, in one call or in two.
fn take(
    rt: &impl Abort,
    pointers: &mut Pointers,
    table: &Table,
    stamp: &mut Stamp,
    word: &Word,
    mode: Mode,
) -> List<Lay>
    requires owner { table.now.owner ≡ pointers.old.owner }
    requires name { IsName table.now.settings word.now.pair.object }
    requires from { 1 ≤ word.now.level }
    requires to { word.now.level ≤ length word.now.pair.object }
    requires names { AreNamesHeld table.now.settings pointers.old }
    requires laid { AreLaid table.now pointers.old }
    ensures owner { table.now.owner ≡ pointers.new.owner }
    ensures names { AreNamesHeld table.now.settings pointers.new }
    ensures laid { AreLaid table.now pointers.new }
{
    if mode == Mode::Once {
        return take_once(rt, pointers, table, stamp, word);
    }
    let Pair { object, server } = word.pair;
    let _ = pointers
        .apply_lay(word.from, object, server, word.level, word.version, word.on)
        .expect(rt, "memory");
    settle(rt, pointers, table, stamp, word.pair, mode)
}

// Takes a Lay and lays its pair as wanted, in one call.
fn take_once(
    rt: &impl Abort,
    pointers: &mut Pointers,
    table: &Table,
    stamp: &mut Stamp,
    word: &Word,
) -> List<Lay>
    requires owner { table.now.owner ≡ pointers.old.owner }
    requires name { IsName table.now.settings word.now.pair.object }
    requires from { 1 ≤ word.now.level }
    requires to { word.now.level ≤ length word.now.pair.object }
    requires names { AreNamesHeld table.now.settings pointers.old }
    requires laid { AreLaid table.now pointers.old }
    ensures owner { table.now.owner ≡ pointers.new.owner }
    ensures names { AreNamesHeld table.now.settings pointers.new }
    ensures laid { AreLaid table.now pointers.new }
{
    assert!(rt; stamp.last() <= 1000);
    let Pair { object, server } = word.pair;
    pointers
        .take_lay(
            table,
            stamp,
            word.from,
            object,
            server,
            word.level,
            word.version,
            word.on,
        )
        .expect(rt, "memory")
}

// Adds a settled link, and lays all pairs as wanted.
fn link(
    rt: &impl Abort,
    pointers: &mut Pointers,
    table: &mut Table,
    stamp: &mut Stamp,
    text: &str,
    mode: Mode,
) -> List<Lay>
    requires owner { table.old.owner ≡ pointers.old.owner }
    requires names { AreNamesHeld table.old.settings pointers.old }
    requires laid { AreLaid table.old pointers.old }
    ensures owner { table.new.owner ≡ pointers.new.owner }
    ensures names { AreNamesHeld table.new.settings pointers.new }
    ensures laid { AreLaid table.new pointers.new }
{
    let name = name_of(rt, &table.settings(), text);
    offer(rt, table, name);
    if mode == Mode::Whole {
        return reconcile(rt, pointers, table, stamp);
    }
    let level = table.owner().lcp(&name) as u8;
    reconcile_at(rt, pointers, table, stamp, level)
}

// Adds a settled link, which changes primaries of its level alone.
fn offer(rt: &impl Abort, table: &mut Table, name: Name)
    requires { IsName table.old.settings name }
    ensures after { table.new ≡ offered table.old name }
    ensures other { name ≢ table.old.owner }
{
    assert!(rt; name != table.owner());
    let _ = table.offer(name).expect(rt, "memory");
}

// Adds settled links to the nodes of a text, which are parted by blanks.
fn link_all(rt: &impl Abort, table: &mut Table, names: &str) {
    for text in names.split(' ') {
        if !text.is_empty() {
            let name = name_of(rt, &table.settings(), text);
            offer(rt, table, name);
        }
    }
}

// A node leaves, and its replacement fills its slot.
fn replace(rt: &impl Abort, table: &mut Table, leaver: &str, replacement: &str)
    ensures owner { table.new.owner ≡ table.old.owner }
    ensures settings { table.new.settings ≡ table.old.settings }
{
    let leaver = name_of(rt, &table.settings(), leaver);
    assert!(rt; leaver != table.owner());
    table.mark_leaving(leaver);
    let replacement = name_of(rt, &table.settings(), replacement);
    offer(rt, table, replacement);
}

// Reconciles all pairs, or one if all others are laid as wanted.
fn settle(
    rt: &impl Abort,
    pointers: &mut Pointers,
    table: &Table,
    stamp: &mut Stamp,
    pair: Pair,
    mode: Mode,
) -> List<Lay>
    requires owner { table.now.owner ≡ pointers.old.owner }
    requires names { AreNamesHeld table.now.settings pointers.old }
    requires others { AreLaidBut table.now pair pointers.old }
    ensures owner { table.now.owner ≡ pointers.new.owner }
    ensures names { AreNamesHeld table.now.settings pointers.new }
    ensures laid { AreLaid table.now pointers.new }
{
    if mode == Mode::Whole {
        return reconcile(rt, pointers, table, stamp);
    }
    assert!(rt; stamp.last() <= 1000);
    pointers
        .reconcile_pair(table, stamp, pair.object, pair.server)
        .expect(rt, "memory")
}

// Reconciles all pairs.
fn reconcile(
    rt: &impl Abort,
    pointers: &mut Pointers,
    table: &Table,
    stamp: &mut Stamp,
) -> List<Lay>
    requires owner { table.now.owner ≡ pointers.old.owner }
    requires names { AreNamesHeld table.now.settings pointers.old }
    ensures owner { table.now.owner ≡ pointers.new.owner }
    ensures names { AreNamesHeld table.now.settings pointers.new }
    ensures laid { AreLaid table.now pointers.new }
{
    check_room(rt, pointers, stamp);
    pointers.reconcile(table, stamp).expect(rt, "memory")
}

// Reconciles what passes a level, if all other pairs are laid as wanted.
fn reconcile_at(
    rt: &impl Abort,
    pointers: &mut Pointers,
    table: &Table,
    stamp: &mut Stamp,
    level: u8,
) -> List<Lay>
    requires owner { table.now.owner ≡ pointers.old.owner }
    requires names { AreNamesHeld table.now.settings pointers.old }
    requires others { AreLaidBeside table.now level pointers.old }
    ensures owner { table.now.owner ≡ pointers.new.owner }
    ensures names { AreNamesHeld table.now.settings pointers.new }
    ensures laid { AreLaid table.now pointers.new }
{
    check_room(rt, pointers, stamp);
    pointers
        .reconcile_at(table, stamp, level)
        .expect(rt, "memory")
}

// Lays in words.
fn text_of(rt: &impl Abort, alloc: Global, lays: &List<Lay>) -> Vec<u8> {
    let mut text = Vec::new(alloc);
    for lay in lays.as_slice() {
        put_lay(rt, &mut text, lay);
    }
    text
}

// A Lay in words, after a comma if there is one before it.
fn put_lay(rt: &impl Abort, text: &mut Vec<u8>, lay: &Lay) {
    if !text.is_empty() {
        put(rt, text, b", ");
    }
    put(rt, text, if lay.on { b"+" } else { b"-" });
    put_name(rt, text, &lay.to);
    put(rt, text, b"@");
    put_number(rt, text, u32::from(lay.level));
    put(rt, text, b" ");
    put_name(rt, text, &lay.object);
    put(rt, text, b"/");
    put_name(rt, text, &lay.server);
    put(rt, text, b" ");
    put_number(rt, text, lay.version);
}

// A number of at most two decimal places.
fn put_number(rt: &impl Abort, text: &mut Vec<u8>, number: u32) {
    assert!(rt; number < 100);
    if 10 <= number {
        put_digit(rt, text, (number / 10) as u8);
    }
    put_digit(rt, text, (number % 10) as u8);
}

// The pointers of 000, which knows of no pair.
fn pointers_of_000(rt: &impl Abort, alloc: Global) -> Pointers {
    let owner = name_of(rt, &settings_of(rt, 4, 3, 2), "000");
    Pointers::new(alloc, owner)
}

// The pair of 113 and the server 222.
fn pair_of_222(rt: &impl Abort) -> Pair {
    let settings = settings_of(rt, 4, 3, 2);
    let object = name_of(rt, &settings, "113");
    let server = name_of(rt, &settings, "222");
    Pair { object, server }
}

// A Lay of version 7 comes of the pair from its server, on or off; whether it is newer.
fn is_newer(rt: &impl Abort, pointers: &mut Pointers, pair: &Pair, on: bool) -> bool {
    let Pair { object, server } = *pair;
    assert!(rt; 1 <= object.len());
    pointers
        .apply_lay(server, object, server, 1, 7, on)
        .expect(rt, "memory")
}

// The node publishes the object, once.
fn publish_twice(rt: &impl Abort, pointers: &mut Pointers, object: Name) {
    assert!(rt; pointers.publish(object).expect(rt, "memory"));
    assert!(rt; !pointers.publish(object).expect(rt, "memory"));
    assert!(rt; pointers.publishes(object));
}

// It withdraws the object, once, and then another server is the least.
fn withdraw_twice(rt: &impl Abort, pointers: &mut Pointers, pair: &Pair) {
    assert!(rt; pointers.lookup(pair.object) == Some(pointers.owner()));
    assert!(rt; pointers.withdraw(pair.object));
    assert!(rt; !pointers.withdraw(pair.object));
    assert!(rt; pointers.lookup(pair.object) == Some(pair.server));
    assert!(rt; pointers.lookup(pair.server) == None);
}

// A node publishes an object, and is told of another server of it.
#[test]
fn pairs_are_held_until_they_are_withdrawn(rt: HostRuntime) {
    let pair = pair_of_222(&rt);
    let mut pointers = pointers_of_000(&rt, rt.alloc());
    publish_twice(&rt, &mut pointers, pair.object);
    assert!(rt; is_newer(&rt, &mut pointers, &pair, true));
    assert!(rt; !is_newer(&rt, &mut pointers, &pair, false));
    withdraw_twice(&rt, &mut pointers, &pair);
}

// One pair is held.
fn see_pair(rt: &impl Abort, pointers: &Pointers, pair: &Pair) {
    assert!(rt; pointers.span() == 1);
    assert!(rt; pointers.count() == 1);
    assert!(rt; pointers.object_at(0) == pair.object);
    assert!(rt; pointers.server_at(0) == pair.server);
    assert!(rt; pointers.held().next() == Some(*pair));
}

// A node is told of one pair, and lists it. What it published it has dropped before.
#[test]
fn held_pairs_are_listed(rt: HostRuntime) {
    let pair = pair_of_222(&rt);
    let mut pointers = pointers_of_000(&rt, rt.alloc());
    assert!(rt; pointers.publish(pair.server).expect(&rt, "memory"));
    pointers.drop_all();
    assert!(rt; is_newer(&rt, &mut pointers, &pair, true));
    see_pair(&rt, &pointers, &pair);
}

// Nothing is laid for a pair of the owner.
fn check_own(
    rt: &impl Abort,
    alloc: Global,
    pointers: &mut Pointers,
    table: &Table,
    stamp: &mut Stamp,
)
    requires owner { table.now.owner ≡ pointers.old.owner }
    requires names { AreNamesHeld table.now.settings pointers.old }
    requires laid { AreLaid table.now pointers.old }
    ensures owner { table.now.owner ≡ pointers.new.owner }
    ensures names { AreNamesHeld table.now.settings pointers.new }
{
    let owner = table.owner();
    let pair = Pair {
        object: owner,
        server: owner,
    };
    let lays = settle(rt, pointers, table, stamp, pair, Mode::Pair);
    check_lays(rt, alloc, lays, "");
}

// A node that knows of no pair has nothing to lay and nothing to clear.
#[test]
fn without_pairs_no_lay_is_sent(rt: HostRuntime) {
    let settings = settings_of(&rt, 4, 3, 2);
    let owner = name_of(&rt, &settings, "000");
    let table = Table::new(rt.alloc(), owner, &settings).expect(&rt, "memory");
    let mut pointers = pointers_of(rt.alloc(), &table);
    let mut stamp = Stamp::new();
    assert!(rt; pointers.owner() == owner);
    assert!(rt; pointers.span() == 0);
    check_own(&rt, rt.alloc(), &mut pointers, &table, &mut stamp);
    check_settled(&rt, rt.alloc(), &mut pointers, &table, &mut stamp);
    check_cleared(&rt, rt.alloc(), &mut pointers, &mut stamp, "");
    assert!(rt; stamp.last() == 0);
}
