ghost use Rattle.std.specs.Prelude.{◌≡◌, ◌^◌, ◌<◌};
ghost use Rattle.tap_line.specs.Fault.{bad_kinds, bad_of_kind, bad_of_words, fault_kinds, fault_of_kind, fault_of_words, garbled_of_words, text_of_bad, text_of_fault};
ghost use Rattle.tap_line.specs.Front.{chosen};
ghost use Rattle.tap_line.specs.Refusal.{chosen_refusal, counted, departing_of_words, refusal_of_kind, refusal_of_words, refused_of_words};

use crate::line::Line;
use crate::taking::{PLACE_MAX, one_number, only, take_name, take_number, take_word, told};
use tap_log::{Record, Refusal};
use tap_name::Settings;
use tap_scenario::Words;
use tap_wire::WireFault;

// The refusals, as their codes tell them apart.
#[derive(Clone, Copy)]
pub(crate) enum RefusalKind {
    NoSuchNode,
    NotCore,
    Departing,
    NotAtRest,
    NameTaken,
    TooManyNodes,
    LastNode,
    AlreadyPublished,
    NotPublished,
    NoSuchFlight,
    NoSuchByte,
    Readable,
    NotJoining,
    AlreadyAbandoned,
    TooManyPackets,
    NotInPrefix,
}

// The first words of faults.
#[derive(Clone, Copy)]
pub(crate) enum FaultKind {
    Short,
    Trailing,
    Bad,
}

// What may be bad.
#[derive(Clone, Copy)]
pub(crate) enum BadKind {
    Version,
    Kind,
    Length,
    Count,
    Digit,
    Body,
}

impl RefusalKind {
    // The refusal with this code.
    fn of(word: &[u8]) -> Option<RefusalKind>
        ensures { result ≡ chosen_refusal word.now }
    {
        match word {
            b"1" => Some(RefusalKind::NoSuchNode),
            b"2" => Some(RefusalKind::NotCore),
            b"3" => Some(RefusalKind::Departing),
            b"4" => Some(RefusalKind::NotAtRest),
            b"5" => Some(RefusalKind::NameTaken),
            b"6" => Some(RefusalKind::TooManyNodes),
            b"7" => Some(RefusalKind::LastNode),
            b"8" => Some(RefusalKind::AlreadyPublished),
            b"9" => Some(RefusalKind::NotPublished),
            b"10" => Some(RefusalKind::NoSuchFlight),
            b"11" => Some(RefusalKind::NoSuchByte),
            b"12" => Some(RefusalKind::Readable),
            b"13" => Some(RefusalKind::NotJoining),
            b"14" => Some(RefusalKind::AlreadyAbandoned),
            b"15" => Some(RefusalKind::TooManyPackets),
            b"16" => Some(RefusalKind::NotInPrefix),
            _ => None,
        }
    }
}

impl FaultKind {
    // The faults that begin with this word.
    fn of(word: &[u8]) -> Option<FaultKind>
        ensures { result ≡ chosen text_of_fault fault_kinds word.now }
    {
        match word {
            b"short" => Some(FaultKind::Short),
            b"trailing" => Some(FaultKind::Trailing),
            b"bad" => Some(FaultKind::Bad),
            _ => None,
        }
    }
}

impl BadKind {
    // What this word says is bad.
    fn of(word: &[u8]) -> Option<BadKind>
        ensures { result ≡ chosen text_of_bad bad_kinds word.now }
    {
        match word {
            b"version" => Some(BadKind::Version),
            b"kind" => Some(BadKind::Kind),
            b"length" => Some(BadKind::Length),
            b"count" => Some(BadKind::Count),
            b"digit" => Some(BadKind::Digit),
            b"body" => Some(BadKind::Body),
            _ => None,
        }
    }
}

// The number after three words, if they are these.
fn counted(mut words: Words<'_>, first: &[u8], second: &[u8], third: &[u8]) -> Option<u32>
    ensures { result ≡ counted first.now second.now third.now words.entry }
{
    take_word(&mut words, first)?;
    take_word(&mut words, second)?;
    take_word(&mut words, third)?;
    let count = take_number(&mut words, PLACE_MAX)?;
    only(words, count as u32)
}

// The refusal of a step while a node departs.
fn departing_of(settings: &Settings, mut words: Words<'_>) -> Option<Refusal>
    ensures { result ≡ departing_of_words settings.now words.entry }
{
    take_word(&mut words, b"departing")?;
    let leaver = take_name(&mut words, settings)?;
    only(words, Refusal::Departing(leaver))
}

// The refusal of this kind that the words are.
fn refusal_of_kind(settings: &Settings, kind: RefusalKind, words: Words<'_>) -> Option<Refusal>
    ensures { result ≡ refusal_of_kind settings.now kind words.entry }
{
    match kind {
        RefusalKind::NoSuchNode => told(words, b"no such node", Refusal::NoSuchNode),
        RefusalKind::NotCore => told(words, b"not core", Refusal::NotCore),
        RefusalKind::Departing => departing_of(settings, words),
        RefusalKind::NotAtRest => Some(Refusal::NotAtRest(counted(words, b"not", b"at", b"rest")?)),
        RefusalKind::NameTaken => told(words, b"name taken", Refusal::NameTaken),
        RefusalKind::TooManyNodes => told(words, b"too many nodes", Refusal::TooManyNodes),
        RefusalKind::LastNode => told(words, b"last node", Refusal::LastNode),
        RefusalKind::AlreadyPublished => told(
            words,
            b"already published",
            Refusal::AlreadyPublished,
        ),
        RefusalKind::NotPublished => told(words, b"not published", Refusal::NotPublished),
        RefusalKind::NoSuchFlight => Some(Refusal::NoSuchFlight(counted(
            words, b"no", b"such", b"flight",
        )?)),
        RefusalKind::NoSuchByte => Some(Refusal::NoSuchByte(counted(
            words, b"no", b"such", b"byte",
        )?)),
        RefusalKind::Readable => told(words, b"readable", Refusal::Readable),
        RefusalKind::NotJoining => told(words, b"not joining", Refusal::NotJoining),
        RefusalKind::AlreadyAbandoned => told(
            words,
            b"already abandoned",
            Refusal::AlreadyAbandoned,
        ),
        RefusalKind::TooManyPackets => Some(Refusal::TooManyPackets(counted(
            words, b"too", b"many", b"packets",
        )?)),
        RefusalKind::NotInPrefix => told(words, b"not in prefix", Refusal::NotInPrefix),
    }
}

// The refusal that a code and the words after it are.
fn refusal_of(settings: &Settings, mut words: Words<'_>) -> Option<Refusal>
    ensures { result ≡ refusal_of_words settings.now words.entry }
{
    let kind = RefusalKind::of(words.next()?)?;
    refusal_of_kind(settings, kind, words)
}

// A refused step, after the first word.
#[inline(never)]
pub(crate) fn refused_of(settings: &Settings, mut words: Words<'_>) -> Option<Line>
    ensures { result ≡ refused_of_words settings.now words.entry }
{
    let index = take_number(&mut words, PLACE_MAX)?;
    let refusal = refusal_of(settings, words)?;
    Some(Line::Whole(Record::Refused {
        index: index as u32,
        refusal,
    }))
}

// The fault of a bad part, with the number that the words are.
fn bad_of_kind(kind: BadKind, words: Words<'_>) -> Option<WireFault>
    ensures { result ≡ bad_of_kind kind words.entry }
{
    match kind {
        BadKind::Version => Some(WireFault::BadVersion(one_number(words, 255)? as u8)),
        BadKind::Kind => Some(WireFault::BadKind(one_number(words, 255)? as u8)),
        BadKind::Length => Some(WireFault::BadLength(one_number(words, 65535)? as u16)),
        BadKind::Count => Some(WireFault::BadCount(one_number(words, 255)? as u8)),
        BadKind::Digit => Some(WireFault::BadDigit(one_number(words, u64::MAX)? as usize)),
        BadKind::Body => Some(WireFault::BadBody(one_number(words, u64::MAX)? as usize)),
    }
}

// A fault that begins with `bad`, after that word.
fn bad_of(mut words: Words<'_>) -> Option<WireFault>
    ensures { result ≡ bad_of_words words.entry }
{
    let kind = BadKind::of(words.next()?)?;
    bad_of_kind(kind, words)
}

// The fault that begins so.
fn fault_of_kind(kind: FaultKind, words: Words<'_>) -> Option<WireFault>
    ensures { result ≡ fault_of_kind kind words.entry }
{
    match kind {
        FaultKind::Short => Some(WireFault::Short(one_number(words, u64::MAX)? as usize)),
        FaultKind::Trailing => Some(WireFault::Trailing(one_number(words, u64::MAX)? as usize)),
        FaultKind::Bad => bad_of(words),
    }
}

// The fault that the words are.
fn fault_of(mut words: Words<'_>) -> Option<WireFault>
    ensures { result ≡ fault_of_words words.entry }
{
    let kind = FaultKind::of(words.next()?)?;
    fault_of_kind(kind, words)
}

// A damaged copy, after the first word.
#[inline(never)]
pub(crate) fn garbled_of(mut words: Words<'_>) -> Option<Line>
    ensures { result ≡ garbled_of_words words.entry }
{
    let number = take_number(&mut words, PLACE_MAX)?;
    let fault = fault_of(words)?;
    Some(Line::Whole(Record::Garbled {
        number: number as u32,
        fault,
    }))
}
