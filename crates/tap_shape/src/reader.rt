ghost use Rattle.std.specs.Prelude.{◌≡◌, ◌==◌, ◌+◌, ◌&&◌, IfOk};
ghost use Rattle.tap_name.specs.Names.{has_name};
ghost use Rattle.tap_scenario.specs.Scenario.{most_frames};
ghost use Rattle.tap_shape.specs.declared.reader.Open.TheVariants.{Ready};
ghost use Rattle.tap_shape.specs.Reader.{after, begun, finished, if_taken, line_taken, may_send, one_step_more, steps_with, with_beginning, with_counted, with_link, with_member, with_open, with_pair, with_whole};

use crate::records::Records;
use std::alloc::Global;
use std::mem;
use tap_line::{Beginning, Line};
use tap_log::{LinkLine, NoMemory, NodeWord, Pair, Record};
use tap_name::{List, Name, Settings};

// The most members of a log.
const MOST_MEMBERS: usize = 64;

// The most steps of a log.
const MOST_STEPS: u32 = 10_000;

// What is still open of a log that is read.
#[derive(Drop)]
pub(crate) enum Open {
    // The beginning, whose members may go on.
    Members {
        frames: u32,
        members: List<Name>,
    },
    // A record may begin.
    Ready,
    // A table, of which so many links are left.
    Links {
        name: Name,
        status: NodeWord,
        links: List<LinkLine>,
        left: u64,
    },
    // Pointers, of which so many pairs are left.
    Pairs {
        name: Name,
        pairs: List<Pair>,
        left: u64,
    },
    // The last line was read.
    Over,
}

// A log that has begun: its settings, the records so far, how many steps are among them, and what is still open.
#[derive(Drop)]
pub(crate) struct Begun {
    pub(crate) settings: Settings,
    pub(crate) records: Records,
    pub(crate) steps: u32,
    pub(crate) pending: Open,
}

// The name is one of these.
fn has(names: &[Name], name: &Name) -> bool
    ensures { result ≡ has_name names.now name.now }
{
    names.iter().any(|other| *other == *name)
}

// How many frames a run may send whose names have so many digits.
fn most_frames(digits: u8) -> u32
    ensures { result ≡ most_frames digits }
{
    if digits <= 8 { 500_000 } else { 100_000 }
}

// Whether a run with these settings may send so many frames.
fn may_send(settings: Settings, frames: u32) -> bool
    ensures { result ≡ may_send settings frames }
{
    frames >= 1 && frames <= most_frames(settings.digits())
}

// How many steps there are with one more, if there may be so many.
fn one_step_more(steps: u32) -> Option<u32>
    ensures { result ≡ one_step_more steps }
{
    if steps >= MOST_STEPS {
        return None;
    }
    Some(steps + 1)
}

// How many steps there are with one record more, if there may be so many.
#[tactic(auto, unfolding(crate::specs::Reader::steps_with))]
fn steps_with(steps: u32, entry: &Record) -> Option<u32>
    ensures { result ≡ steps_with steps entry.now }
{
    match entry {
        Record::Step { .. } => one_step_more(steps),
        _ => Some(steps),
    }
}

// Adds a record of which so many lines are left, if none is.
fn push_counted(records: &mut Records, entry: Record, left: u64) -> Result<bool, NoMemory>
    ensures { IfOk result (λ pushed. if_taken pushed records.new ≡ with_counted records.old entry left) }
{
    if left > 0 {
        return Ok(false);
    }
    records.push(entry)?;
    Ok(true)
}

impl Begun {
    // A log begins, if its run may send so many frames.
    pub(crate) fn new(alloc: Global, records: Records, first: Beginning) -> Option<Begun>
        ensures { result ≡ begun records first }
    {
        let Beginning { settings, frames } = first;
        if !may_send(settings, frames) {
            return None;
        }
        Some(Begun {
            settings,
            records,
            steps: 0,
            pending: Open::Members {
                frames,
                members: List::new(alloc),
            },
        })
    }

    // Adds the beginning, if there are members.
    fn push_beginning(&mut self, frames: u32, members: List<Name>) -> Result<bool, NoMemory>
        ensures records { IfOk result (λ pushed. if_taken pushed self.new.records ≡ with_beginning self.old.settings self.old.records frames members) }
        ensures rest { self.new ≡ after self.old self.old.steps self.old.pending self.new.records }
    {
        if members.is_empty() {
            return Ok(false);
        }
        let settings = self.settings;
        self.records.push(Record::Begin {
            settings,
            frames,
            members,
        })?;
        Ok(true)
    }

    // Ends what is open, if it may end here: its record, if it has one, is added, and a record may begin.
    #[inline(never)]
    fn close_open(&mut self) -> Result<bool, NoMemory>
        ensures { IfOk result (λ ended. if_taken ended self.new ≡ with_open self.old Ready) }
    {
        match mem::replace(&mut self.pending, Open::Ready) {
            Open::Members { frames, members } => self.push_beginning(frames, members),
            Open::Ready => Ok(true),
            Open::Links {
                name,
                status,
                links,
                left,
            } => push_counted(
                &mut self.records,
                Record::TableOf {
                    name,
                    status,
                    links,
                },
                left,
            ),
            Open::Pairs { name, pairs, left } => push_counted(
                &mut self.records,
                Record::PointersOf { name, pairs },
                left,
            ),
            Open::Over => Ok(false),
        }
    }

    // The same; nearly always nothing is open.
    #[inline(always)]
    fn close(&mut self) -> Result<bool, NoMemory>
        ensures { IfOk result (λ ended. if_taken ended self.new ≡ with_open self.old Ready) }
    {
        match self.pending {
            Open::Ready => Ok(true),
            _ => self.close_open(),
        }
    }

    // The records, if the log may end here.
    pub(crate) fn finish(mut self) -> Result<Option<Records>, NoMemory>
        ensures { IfOk result (λ found. found ≡ finished self) }
    {
        if let Open::Over = self.pending {
            return Ok(Some(self.records));
        }
        if self.close()? {
            Ok(Some(self.records))
        } else {
            Ok(None)
        }
    }

    // One more member.
    #[inline(never)]
    fn member(&mut self, name: Name) -> Result<bool, NoMemory>
        ensures { IfOk result (λ taken. if_taken taken self.new ≡ with_member self.old name) }
    {
        match &mut self.pending {
            Open::Members { members, .. } => {
                if members.len() >= MOST_MEMBERS {
                    return Ok(false);
                }
                if has(members.as_slice(), &name) {
                    return Ok(false);
                }
                members.push(name)?;
                Ok(true)
            }
            _ => Ok(false),
        }
    }

    // One more link.
    #[inline(never)]
    fn link(&mut self, link: LinkLine) -> Result<bool, NoMemory>
        ensures { IfOk result (λ taken. if_taken taken self.new ≡ with_link self.old link) }
    {
        match &mut self.pending {
            Open::Links { links, left, .. } => {
                if *left == 0 {
                    return Ok(false);
                }
                links.push(link)?;
                *left -= 1;
                Ok(true)
            }
            _ => Ok(false),
        }
    }

    // One more pair.
    #[inline(never)]
    fn pair(&mut self, pair: Pair) -> Result<bool, NoMemory>
        ensures { IfOk result (λ taken. if_taken taken self.new ≡ with_pair self.old pair) }
    {
        match &mut self.pending {
            Open::Pairs { pairs, left, .. } => {
                if *left == 0 {
                    return Ok(false);
                }
                pairs.push(pair)?;
                *left -= 1;
                Ok(true)
            }
            _ => Ok(false),
        }
    }

    // What is open ends, and this begins.
    #[inline(never)]
    fn open(&mut self, next: Open) -> Result<bool, NoMemory>
        ensures { IfOk result (λ taken. if_taken taken self.new ≡ with_open self.old next) }
    {
        if !self.close()? {
            return Ok(false);
        }
        self.pending = next;
        Ok(true)
    }

    // A record of one line.
    #[inline(never)]
    pub(crate) fn whole(&mut self, entry: Record) -> Result<bool, NoMemory>
        ensures { IfOk result (λ taken. if_taken taken self.new ≡ with_whole self.old entry) }
    {
        let Some(steps) = steps_with(self.steps, &entry) else {
            return Ok(false);
        };
        if !self.close()? {
            return Ok(false);
        }
        self.records.push(entry)?;
        self.steps = steps;
        Ok(true)
    }

    // Takes a line, if one of a log's text may stand here. After a line that may not, or want of memory, the log is of no use.
    #[inline(never)]
    pub(crate) fn take(&mut self, alloc: Global, line: Line) -> Result<bool, NoMemory>
        ensures { IfOk result (λ taken. if_taken taken self.new ≡ line_taken self.old line) }
    {
        match line {
            Line::Whole(entry) => self.whole(entry),
            Line::Begin(_) => Ok(false),
            Line::Member { name } => self.member(name),
            Line::Table {
                name,
                status,
                links,
            } => self.open(Open::Links {
                name,
                status,
                links: List::new(alloc),
                left: links,
            }),
            Line::Link(link) => self.link(link),
            Line::Pointers { name, pairs } => self.open(Open::Pairs {
                name,
                pairs: List::new(alloc),
                left: pairs,
            }),
            Line::Pointer(pair) => self.pair(pair),
            Line::End => self.open(Open::Over),
        }
    }
}
