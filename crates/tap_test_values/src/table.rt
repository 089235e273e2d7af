ghost use Rattle.std.specs.Prelude.{◌≢◌};
ghost use Rattle.tap_name.specs.Name.{IsName};

use std::alloc::Global;
use std::process::Abort;
use std::test::Fail;
use tap_link::{Cease, Forget, Kind, Release, Released};
use tap_name::{List, Name, Settings, Slot, read_name};
use tap_register::Stamp;
use tap_table::{Next, Row, Table, Tie, Ties};

// The name of a text.
fn name_of(rt: &impl Abort, settings: &Settings, text: &str) -> Name
    ensures { IsName settings.now result }
{
    read_name(settings, text.as_bytes()).expect(rt, "a name")
}

// The name of a text, which isn't the owner's.
fn other(rt: &impl Abort, table: &Table, text: &str) -> Name
    ensures name { IsName table.now.settings result }
    ensures other { result ≢ table.now.owner }
{
    let name = name_of(rt, &table.settings(), text);
    assert!(rt; name != table.owner());
    name
}

// A table with no link. Names have three digits in base 4, and a slot keeps one settled link.
fn table_of(alloc: Global, rt: &impl Abort, owner: &str) -> Table {
    let settings = Settings::new(4, 3, 1).expect(rt, "settings");
    let owner = name_of(rt, &settings, owner);
    Table::new(alloc, owner, &settings).expect(rt, "memory")
}

// Pins the name of a text.
fn pin(rt: &impl Abort, table: &mut Table, text: &str, added: bool) {
    let target = other(rt, table, text);
    assert_eq!(rt; table.pin(target), Ok(added));
}

// Offers the name of a text.
fn offer(rt: &impl Abort, table: &mut Table, text: &str) {
    let target = other(rt, table, text);
    assert_eq!(rt; table.offer(target), Ok(true));
}

// The links of a slot.
fn count_in_slot(rt: &impl Abort, table: &Table, level: u8, digit: u8) -> usize {
    assert!(rt; level < table.settings().digits());
    assert!(rt; digit < table.settings().base());
    table.slot(Slot { level, digit }).len()
}

// The primary of a slot.
fn primary(rt: &impl Abort, table: &Table, level: u8, digit: u8) -> Option<Name> {
    assert!(rt; level < table.settings().digits());
    assert!(rt; digit < table.settings().base());
    table.primary(Slot { level, digit })
}

// A pin on 013 and a settled link to 300, by their places.
fn see_places(rt: &impl Abort, table: &Table) {
    let far = other(rt, table, "300");
    assert!(rt; 1 < table.len());
    assert_eq!(rt; table.target_at(0), far);
    assert_eq!(rt; table.kind_at(0), Kind::Settled);
    assert_eq!(rt; table.slot_at(1), Slot { level: 2, digit: 3 });
    let row = Row {
        slot: Slot { level: 0, digit: 3 },
        target: far,
        kind: Kind::Settled,
    };
    assert_eq!(rt; table.row_at(0), row);
}

// The slots of 012 in the order of names.
fn see_ranges(rt: &impl Abort, table: &Table) {
    assert_eq!(rt; table.settings().digits(), 3);
    let first = table.range_by_name(5);
    assert_eq!(rt; (first.level, first.from, first.to), (0, 1, 4));
}

#[test]
fn each_link_stands_in_its_slot(rt: HostRuntime) {
    let mut table = table_of(rt.alloc(), &rt, "012");
    assert!(rt; table.is_empty());
    pin(&rt, &mut table, "013", true);
    pin(&rt, &mut table, "013", false);
    offer(&rt, &mut table, "300");
    assert_eq!(rt; table.len(), 2);
    see_places(&rt, &table);
    see_ranges(&rt, &table);
    let near = other(&rt, &table, "013");
    assert_eq!(rt; table.near(&near).len(), 1);
}

// Where a message to an object goes from level 0.
fn next(rt: &impl Abort, table: &Table, object: &str) -> Next {
    let object = name_of(rt, &table.settings(), object);
    table.next_hop(&object, 0)
}

// Ends a table at the word of its owner.
fn cease(table: Table) {
    let owner = table.owner();
    table.cease(&Cease { owner });
}

#[test]
fn a_message_takes_the_next_digit_cyclically(rt: HostRuntime) {
    let mut table = table_of(rt.alloc(), &rt, "210");
    offer(&rt, &mut table, "031");
    let far = other(&rt, &table, "031");
    assert_eq!(rt; primary(&rt, &table, 0, 0), Some(far));
    assert_eq!(rt; next(&rt, &table, "330"), Next::Hop { to: far, level: 1 });
    assert_eq!(rt; next(&rt, &table, "103"), Next::Root);
    cease(table);
}

// A pin is settled at the word of its target, and isn't forgotten after that.
fn settle(rt: &impl Abort, table: &mut Table) {
    let target = other(rt, table, "300");
    assert_eq!(rt; table.release(Release { from: target }), Released::Settled);
    assert!(rt; !table.forget(Forget { from: target }));
}

// The target leaves, and its link is taken out.
fn take_out(rt: &impl Abort, table: &mut Table) {
    let target = other(rt, table, "300");
    assert!(rt; table.mark_leaving(target));
    assert!(rt; table.remove_settled(target));
    assert_eq!(rt; table.kind_of(target), None);
}

#[test]
fn a_table_takes_the_words_of_its_targets(rt: HostRuntime) {
    let mut table = table_of(rt.alloc(), &rt, "012");
    pin(&rt, &mut table, "300", true);
    settle(&rt, &mut table);
    assert_eq!(rt; count_in_slot(&rt, &table, 0, 3), 1);
    take_out(&rt, &mut table);
}

// The rows are pins of these names, levels and digits.
fn check_rows(rt: &impl Abort, table: &Table, wanted: &[(&str, u8, u8)]) {
    let mut rows = table.rows();
    for (text, level, digit) in wanted {
        let row = Row {
            slot: Slot {
                level: *level,
                digit: *digit,
            },
            target: other(rt, table, text),
            kind: Kind::Pin,
        };
        assert_eq!(rt; rows.next(), Some(row));
    }
    assert_eq!(rt; rows.next(), None);
}

#[test]
fn rows_come_by_slot_and_then_by_target(rt: HostRuntime) {
    let mut table = table_of(rt.alloc(), &rt, "012");
    pin(&rt, &mut table, "013", true);
    pin(&rt, &mut table, "310", true);
    pin(&rt, &mut table, "300", true);
    check_rows(&rt, &table, &[("300", 0, 3), ("310", 0, 3), ("013", 2, 3)]);
}

// The ties of 012, with no link and no holder.
fn ties_of_012(alloc: Global, rt: &impl Abort) -> Ties {
    let settings = Settings::new(4, 3, 1).expect(rt, "settings");
    let owner = name_of(rt, &settings, "012");
    Ties::new(alloc, owner, &settings).expect(rt, "memory")
}

// Takes the word of the name of a text on its link to the owner, which is newer than what was heard of it, or isn't.
fn hear(rt: &impl Abort, ties: &mut Ties, text: &str, version: u32, on: bool, newer: bool) {
    let holder = other(rt, ties.table(), text);
    assert_eq!(rt; ties.held(holder, version, on), Ok(newer));
}

// The word on a link to 300.
fn word(rt: &impl Abort, ties: &Ties, version: u32, on: bool) -> Tie {
    Tie {
        to: other(rt, ties.table(), "300"),
        version,
        on,
    }
}

// A link is settled, leaves, and is taken out.
fn settle_and_take_out(rt: &impl Abort, ties: &mut Ties, stamp: &mut Stamp) {
    let target = other(rt, ties.table(), "300");
    let on = word(rt, ties, 1, true);
    assert!(rt; stamp.last() < 1000);
    assert_eq!(rt; ties.offer(stamp, target), Ok(Some(on)));
    assert!(rt; ties.mark_leaving(target));
    assert!(rt; ties.remove_settled(target));
}

// A pin is set.
fn pin_300(rt: &impl Abort, ties: &mut Ties, stamp: &mut Stamp, version: u32) {
    let target = other(rt, ties.table(), "300");
    let on = word(rt, ties, version, true);
    assert!(rt; stamp.last() < 1000);
    assert_eq!(rt; ties.pin(stamp, target), Ok(Some(on)));
}

// A pin is forgotten, and its release comes too late.
fn forget_300(rt: &impl Abort, ties: &mut Ties, stamp: &mut Stamp) {
    let target = other(rt, ties.table(), "300");
    assert!(rt; ties.forget(Forget { from: target }));
    assert_eq!(rt; stamp.last(), 2);
    assert_eq!(rt; ties.release(stamp, Release { from: target }), None);
}

// Ends ties at the word of their owner.
fn cease_ties(ties: Ties) {
    let owner = ties.table().owner();
    ties.cease(&Cease { owner });
}

#[test]
fn ties_give_the_words_for_their_targets(rt: HostRuntime) {
    let mut ties = ties_of_012(rt.alloc(), &rt);
    let mut stamp = Stamp::new();
    settle_and_take_out(&rt, &mut ties, &mut stamp);
    pin_300(&rt, &mut ties, &mut stamp, 2);
    forget_300(&rt, &mut ties, &mut stamp);
    cease_ties(ties);
}

// The words of an end, after one link.
fn words_of_an_end(
    alloc: Global,
    rt: &impl Abort,
    ties: &Ties,
    stamp: &mut Stamp,
) -> Result<List<Tie>, Fail> {
    assert_eq!(rt; ties.table().len(), 1);
    assert_eq!(rt; stamp.last(), 1);
    Ok(ties.off_ties(alloc, stamp)?)
}

#[test]
fn an_end_takes_each_link_back(rt: HostRuntime) -> Result<(), Fail> {
    let mut ties = ties_of_012(rt.alloc(), &rt);
    let mut stamp = Stamp::new();
    pin_300(&rt, &mut ties, &mut stamp, 1);
    assert_eq!(rt; ties.holders_on(rt.alloc())?.len(), 0);
    let words = words_of_an_end(rt.alloc(), &rt, &ties, &mut stamp)?;
    assert!(rt; 0 < words.len());
    assert_eq!(rt; words.at(0), word(&rt, &ties, 2, false));
    Ok(())
}

#[test]
fn ties_keep_the_newest_word_of_each_holder(rt: HostRuntime) {
    let mut ties = ties_of_012(rt.alloc(), &rt);
    hear(&rt, &mut ties, "311", 1, true, true);
    hear(&rt, &mut ties, "300", 1, true, true);
    hear(&rt, &mut ties, "311", 2, false, true);
    hear(&rt, &mut ties, "300", 1, false, false);
    assert_eq!(rt; ties.holder_count(), 1);
    assert!(rt; 0 < ties.holder_count());
    assert_eq!(rt; ties.holder_at(0), other(&rt, ties.table(), "300"));
    assert_eq!(rt; ties.table().len(), 0);
    assert_eq!(rt; ties.holders().len(), 2);
}

// The first four links of a slot need no memory, nor do the first four holders of a vector.
#[test]
fn slots_and_holders_go_past_four(rt: HostRuntime) {
    let mut table = table_of(rt.alloc(), &rt, "012");
    let mut ties = ties_of_012(rt.alloc(), &rt);
    for text in &["300", "333", "310", "320", "301"] {
        pin(&rt, &mut table, text, true);
        hear(&rt, &mut ties, text, 1, true, true);
    }
    assert_eq!(rt; count_in_slot(&rt, &table, 0, 3), 5);
    assert_eq!(rt; ties.holder_count(), 5);
}

// The ties of 013 at rest, beside 300 and 012.
fn ties_of_013_at_rest(alloc: Global, rt: &impl Abort) -> Result<Ties, Fail> {
    let settings = Settings::new(4, 3, 1).expect(rt, "settings");
    let least = name_of(rt, &settings, "012");
    let owner = name_of(rt, &settings, "013");
    let far = name_of(rt, &settings, "300");
    assert!(rt; far != owner);
    assert!(rt; far != least);
    assert!(rt; owner != least);
    let mut members = List::new(alloc);
    members.push(far)?;
    members.push(owner)?;
    members.push(least)?;
    Ok(Ties::at_rest(alloc, owner, &settings, &members)?)
}

#[test]
fn ties_at_rest_hold_the_least_members(rt: HostRuntime) -> Result<(), Fail> {
    let ties = ties_of_013_at_rest(rt.alloc(), &rt)?;
    let far = other(&rt, ties.table(), "300");
    let least = other(&rt, ties.table(), "012");
    assert_eq!(rt; ties.table().len(), 2);
    assert_eq!(rt; ties.table().kind_of(far), Some(Kind::Settled));
    assert_eq!(rt; ties.holder_count(), 1);
    assert!(rt; 0 < ties.holder_count());
    assert_eq!(rt; ties.holder_at(0), least);
    Ok(())
}
