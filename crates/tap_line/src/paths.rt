ghost use Rattle.std.specs.Prelude.{◌≡◌, Some, None, Err, IfOk, option_map};
ghost use Rattle.tap_line.specs.declared.fault.LineFault.TheVariants.{NoLine};
ghost use Rattle.tap_line.specs.Front.{names_before};
ghost use Rattle.tap_line.specs.Reading.{is_path, request, root_set_line_of_words, root_set_of_words, walk_end, walked_of_words};

use crate::fault::LineFault;
use crate::line::Line;
use crate::taking::{only, take_name, take_number, take_word};
use std::alloc::Global;
use tap_log::Record;
use tap_name::{List, Name, Settings, read_name};
use tap_scenario::{Words, is_same};

// An object and the node that asks for it.
#[derive(Clone, Copy)]
pub(crate) struct Request {
    pub(crate) object: Name,
    pub(crate) asker: Name,
}

// The root in which a walk ends, and how many hops it took.
#[derive(Clone, Copy)]
pub(crate) struct WalkEnd {
    pub(crate) root: Name,
    pub(crate) hops: u64,
}

// A root set: who asks for which object, and the roots.
#[derive(Clone, Copy)]
pub(crate) struct RootSet {
    pub(crate) asked: Request,
    pub(crate) roots: [Name; 4],
}

// Takes an object and the node that asks for it, up to this word.
#[inline(never)]
fn take_request(words: &mut Words<'_>, settings: &Settings, stop: &[u8]) -> Option<Request>
    ensures { option_map (λ r. (r, words.new)) result ≡ request settings.now stop.now words.old }
{
    let object = take_name(words, settings)?;
    take_word(words, b"from")?;
    let asker = take_name(words, settings)?;
    take_word(words, stop)?;
    Some(Request { object, asker })
}

// Takes names up to this word, which is taken, too.
#[inline(never)]
fn take_names(
    alloc: Global,
    words: &mut Words<'_>,
    settings: &Settings,
    stop: &[u8],
) -> Result<List<Name>, LineFault>
    ensures ok { IfOk result (λ names. names_before settings.now stop.now words.old ≡ Some (names, words.new)) }
    ensures none { result ≡ Err NoLine → names_before settings.now stop.now words.old ≡ None }
{
    let mut names = List::new(alloc);
    while let Some(word) = words.next() {
        if is_same(word, stop) {
            return Ok(names);
        }
        match read_name(settings, word) {
            Ok(name) => names.push(name)?,
            Err(_) => return Err(LineFault::NoLine),
        }
    }
    Err(LineFault::NoLine)
}

// The end of a walk, after the word before its root.
fn walk_end(settings: &Settings, mut words: Words<'_>) -> Option<WalkEnd>
    ensures { result ≡ walk_end settings.now words.entry }
{
    let root = take_name(&mut words, settings)?;
    take_word(&mut words, b"hops")?;
    let hops = take_number(&mut words, u64::MAX)?;
    only(words, WalkEnd { root, hops })
}

// Whether these are the nodes of a walk from this asker that ends so.
fn is_path(path: &[Name], asker: &Name, end: &WalkEnd) -> bool
    ensures { result ≡ is_path path.now asker.now end.now }
{
    if path.is_empty() {
        return false;
    }
    let hops = path.len() - 1;
    path[0] == *asker && path[hops] == end.root && hops as u64 == end.hops
}

// A walk, after the first word.
#[inline(never)]
pub(crate) fn walked_of(
    alloc: Global,
    settings: &Settings,
    mut words: Words<'_>,
) -> Result<Line, LineFault>
    ensures ok { IfOk result (λ line. walked_of_words settings.now words.entry ≡ Some line) }
    ensures none { result ≡ Err NoLine → walked_of_words settings.now words.entry ≡ None }
{
    let Some(asked) = take_request(&mut words, settings, b"path") else {
        return Err(LineFault::NoLine);
    };
    let path = take_names(alloc, &mut words, settings, b"root")?;
    let Some(end) = walk_end(settings, words) else {
        return Err(LineFault::NoLine);
    };
    if !is_path(path.as_slice(), &asked.asker, &end) {
        return Err(LineFault::NoLine);
    }
    Ok(Line::Whole(Record::Walked {
        object: asked.object,
        path,
    }))
}

// A root set that the words are.
#[inline(never)]
fn root_set_of(settings: &Settings, mut words: Words<'_>) -> Option<RootSet>
    ensures { result ≡ root_set_of_words settings.now words.entry }
{
    let asked = take_request(&mut words, settings, b"roots")?;
    let first = take_name(&mut words, settings)?;
    let second = take_name(&mut words, settings)?;
    let third = take_name(&mut words, settings)?;
    let fourth = take_name(&mut words, settings)?;
    only(
        words,
        RootSet {
            asked,
            roots: [first, second, third, fourth],
        },
    )
}

// A root set, after the first word.
#[inline(never)]
pub(crate) fn root_set_line_of(
    alloc: Global,
    settings: &Settings,
    words: Words<'_>,
) -> Result<Line, LineFault>
    ensures ok { IfOk result (λ line. root_set_line_of_words settings.now words.entry ≡ Some line) }
    ensures none { result ≡ Err NoLine → root_set_line_of_words settings.now words.entry ≡ None }
{
    let Some(set) = root_set_of(settings, words) else {
        return Err(LineFault::NoLine);
    };
    let roots = List::from_vec(set.roots.to_vec(alloc)?);
    Ok(Line::Whole(Record::RootsOf {
        object: set.asked.object,
        asker: set.asked.asker,
        roots,
    }))
}
