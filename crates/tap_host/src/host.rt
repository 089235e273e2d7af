ghost use Rattle.std.specs.Prelude.{◌≡◌, ◌≢◌, ◌+◌, ◌≤◌, ◌++◌, true, [], length, IfOk, IsTrue, OnOk};
ghost use Rattle.tap_name.specs.Name.{IsName};
ghost use Rattle.tap_rule.specs.Node.{joiner};
ghost use Rattle.tap_carry.specs.Outbox.{most_frames};
ghost use Rattle.tap_wire.specs.Reading.{head_of};
ghost use Rattle.tap_node.specs.Node.{has_room_left, running};
ghost use Rattle.tap_node.specs.Outcome.{take_outcome};
ghost use Rattle.tap_host_line.specs.Line.{AreLineMembers, IsNodeLine, IsNodeStart};
ghost use Rattle.tap_host_line.specs.Texts.{text_of_ack};
ghost use Rattle.tap_host.specs.Intake.{has_taken};
ghost use Rattle.tap_host.specs.Host.{HostSeen, IsEntered, TakesStep, after_step, at_head, at_members, at_number, at_start, full, host_line, host_seen, host_settings, new_host, refused, status_word, step_of_line, text_of_host, turned, why_of};

use crate::actor::Actor;
use crate::intake::Intake;
use crate::mail::Mail;
use crate::memory::{NoMemory, only_memory};
use crate::sender::stands_as_sender;
use std::alloc::Global;
use std::marker::Model;
use tap_host_line::{
    Line, Start, Why, put_ack, put_begun, put_count, put_news, put_refused, put_status, read_line,
};
use tap_name::{List, Name, Settings};
use tap_node::{NodeFault, NodeStatus, Turn};
use tap_wire::decode_head;

/// Whether a node goes on after a line.
///
/// Rule: docs/NETWORK.md, "Exit statuses".
#[derive(Clone, Copy, Debug, PartialEq, Eq)]
pub enum Going {
    /// It takes the next line.
    On,
    /// It has no room for one more step, or no numbers for the frames of one: no further line is to be handed in.
    Full,
}

/// A node under a carrier: with the frames that await their acknowledgement, and the numbers of those that it has taken.
///
/// Rule: docs/NETWORK.md, "Lines".
#[derive(Drop)]
pub struct Host {
    alloc: Global,
    actor: Actor,
    mail: Mail,
    intake: Intake,
    begun: bool,
    // The list of a frame that was read, lent to the next line.
    spare: Vec<u8>,
}

impl Model for Host {
    ghost use Rattle.tap_host.specs.Host.{HostValue};

    ghost Value = { HostValue };

    ghost view = { λ h. record { actor = h.actor; mail = h.mail; intake = h.intake; begun = h.begun } };
}

impl Host {
    /// A node that starts to join, with nothing sent or taken. Its name is one of the settings.
    ///
    /// Rule: docs/NETWORK.md, "The process of a node".
    pub fn joiner(alloc: Global, settings: &Settings, name: Name) -> Result<Host, NoMemory>
        requires { IsName settings.now name }
        ensures { IfOk result (λ host. host_seen host ≡ new_host (running (joiner settings.now name))) }
    {
        Ok(Host {
            alloc,
            actor: Actor::joiner(alloc, settings, name)?,
            mail: Mail::new(alloc),
            intake: Intake::new(alloc),
            begun: false,
            spare: Vec::new(alloc),
        })
    }

    /// Takes the line of this number, and adds the lines that it brings at the end of `out`.
    ///
    /// After `NoMemory` no further line is to be handed in, and what `out` then has isn't said.
    ///
    /// Rule: docs/NETWORK.md, "Lines".
    pub fn line(&mut self, out: &mut Vec<u8>, number: u64, text: &[u8]) -> Result<Going, NoMemory>
        ensures { IfOk result (TakesStep (host_line (host_seen self.old) number text.now)
            (host_seen self.new) out.old.items out.new.items) }
    {
        match read_line(self.alloc, &mut self.spare, &self.actor.settings(), text)? {
            Some(line) => self.take_read(out, number, line),
            None => refuse(out, number, Why::Line),
        }
    }

    // Takes a line that was read. The list of its frame is lent to the next line.
    #[inline(always)]
    fn take_read(&mut self, out: &mut Vec<u8>, number: u64, line: Line) -> Result<Going, NoMemory>
        requires { IsNodeLine (host_settings (host_seen self.old)) line }
        ensures { IfOk result (TakesStep (step_of_line (host_seen self.old) number line)
            (host_seen self.new) out.old.items out.new.items) }
    {
        let going = self.take_line(out, number, &line)?;
        if let Some(frame) = line.into_frame() {
            self.spare = frame.into_vec();
        }
        Ok(going)
    }

    // Takes a line.
    fn take_line(&mut self, out: &mut Vec<u8>, number: u64, line: &Line) -> Result<Going, NoMemory>
        requires { IsNodeLine (host_settings (host_seen self.old)) line.now }
        ensures { IfOk result (TakesStep (step_of_line (host_seen self.old) number line.now)
            (host_seen self.new) out.old.items out.new.items) }
    {
        match line {
            Line::Packet { from, seq, frame } => {
                self.packet(out, number, *from, *seq, frame.as_slice())
            }
            Line::Ack { from, seq } => {
                self.mail.acked(*from, *seq);
                Ok(Going::On)
            }
            Line::Members { names } => self.members(out, number, names),
            Line::Start { start } => self.start(out, number, start),
            Line::Tick => {
                self.mail.put_all(out)?;
                Ok(Going::On)
            }
            Line::Status => self.put_status_lines(out),
        }
    }

    // The node begins as one of these members, if nothing was begun.
    fn members(
        &mut self,
        out: &mut Vec<u8>,
        number: u64,
        names: &List<Name>,
    ) -> Result<Going, NoMemory>
        requires { AreLineMembers (host_settings (host_seen self.old)) names.now }
        ensures { IfOk result (TakesStep (at_members (host_seen self.old) number names.now)
            (host_seen self.new) out.old.items out.new.items) }
    {
        let name = self.actor.node().name();
        if self.begun {
            return refuse(out, number, Why::Late);
        }
        if !names.as_slice().contains(&name) {
            return refuse(out, number, Why::Stranger);
        }
        self.actor = Actor::member(self.alloc, &self.actor.settings(), name, names)?;
        self.begun = true;
        put_begun(out)?;
        Ok(Going::On)
    }

    // The node begins a start, if its status has it.
    fn start(&mut self, out: &mut Vec<u8>, number: u64, start: &Start) -> Result<Going, NoMemory>
        requires { IsNodeStart (host_settings (host_seen self.old)) start.now }
        ensures { IfOk result (TakesStep (at_start (host_seen self.old) number start.now)
            (host_seen self.new) out.old.items out.new.items) }
    {
        if !self.actor.has_start(start) {
            return refuse(out, number, Why::Status);
        }
        if !self.actor.is_new(start) {
            return refuse(out, number, Why::Number);
        }
        if !self.actor.node().room() {
            return full(out, number);
        }
        let turn = match self.actor.begin(start) {
            Ok(turn) => turn,
            Err(fault) => return Err(only_memory(fault)),
        };
        if !self.mail.has_room(turn.sent.len()) {
            return full(out, number);
        }
        put_begun(out)?;
        self.turned(out, turn)
    }

    // A packet has come. Its frame is taken once. If its sender stands where a frame has its sender, the node reads the whole frame, and
    // its head isn't read before.
    fn packet(
        &mut self,
        out: &mut Vec<u8>,
        number: u64,
        from: Name,
        seq: u32,
        frame: &[u8],
    ) -> Result<Going, NoMemory>
        requires { 1 ≤ seq }
        ensures { IfOk result (TakesStep (at_head (host_seen self.old) number from seq frame.now
            (head_of (host_settings (host_seen self.old)) frame.now)) (host_seen self.new) out.old.items out.new.items) }
    {
        if self.actor.is_ready() && stands_as_sender(&self.actor.settings(), &from, frame) {
            if self.intake.enter(from, seq)? {
                return self.entered(out, number, from, seq, frame);
            }
        }
        self.by_head(out, number, from, seq, frame)
    }

    // A packet has come, of which the head is read.
    #[inline(never)]
    fn by_head(
        &mut self,
        out: &mut Vec<u8>,
        number: u64,
        from: Name,
        seq: u32,
        frame: &[u8],
    ) -> Result<Going, NoMemory>
        requires { 1 ≤ seq }
        ensures { IfOk result (TakesStep (at_head (host_seen self.old) number from seq frame.now
            (head_of (host_settings (host_seen self.old)) frame.now)) (host_seen self.new) out.old.items out.new.items) }
    {
        let Ok(head) = decode_head(&self.actor.settings(), frame) else {
            return refuse(out, number, Why::Damaged);
        };
        if head.from != from {
            return refuse(out, number, Why::Foreign);
        }
        self.numbered(out, number, from, seq, frame)
    }

    // A frame has come from its sender.
    fn numbered(
        &mut self,
        out: &mut Vec<u8>,
        number: u64,
        from: Name,
        seq: u32,
        frame: &[u8],
    ) -> Result<Going, NoMemory>
        requires { 1 ≤ seq }
        ensures { IfOk result (TakesStep (at_number (host_seen self.old) number from seq frame.now)
            (host_seen self.new) out.old.items out.new.items) }
    {
        if !self.intake.enter(from, seq)? {
            put_ack(out, &from, seq)?;
            return Ok(Going::On);
        }
        if !self.actor.node().room() {
            return full(out, number);
        }
        self.entered(out, number, from, seq, frame)
    }

    // A frame has come whose number was entered for it. If the node refuses it, it is as if it hadn't come.
    #[inline(always)]
    fn entered(
        &mut self,
        out: &mut Vec<u8>,
        number: u64,
        from: Name,
        seq: u32,
        frame: &[u8],
    ) -> Result<Going, NoMemory>
        requires room { IsTrue (has_room_left self.old.actor.node) }
        requires entered { has_taken self.old.intake from seq ≡ true }
        ensures { (before : HostSeen) → IsEntered before (host_seen self.old) from seq
            → IfOk result (TakesStep (after_step before (host_seen self.old) number (text_of_ack from seq)
            (take_outcome self.old.actor.node frame.now)) (host_seen self.new) out.old.items out.new.items) }
    {
        match self.actor.take(frame) {
            Ok(turn) => {
                if !self.mail.has_room(turn.sent.len()) {
                    return full(out, number);
                }
                put_ack(out, &from, seq)?;
                self.turned(out, turn)
            }
            Err(fault) => {
                let why = why_of(fault)?;
                self.intake.give_back(from, seq)?;
                refuse(out, number, why)
            }
        }
    }

    // The node has taken a step: its news are printed, and its frames sent.
    fn turned(&mut self, out: &mut Vec<u8>, turn: Turn) -> Result<Going, NoMemory>
        requires { self.old.mail.sent + length turn.sent ≤ most_frames }
        ensures { IfOk result (TakesStep (turned (host_seen self.old) turn out.old.items) (host_seen self.new) [] out.new.items) }
    {
        put_news(out, &turn.news)?;
        self.begun = true;
        let settings = self.actor.settings();
        self.mail.send_all(out, &settings, turn.sent.into_frames())?;
        Ok(Going::On)
    }

    // Prints the status of the node.
    fn put_status_lines(&self, out: &mut Vec<u8>) -> Result<Going, NoMemory>
        ensures text { IfOk result (λ _. out.new.items ≡ out.old.items ++ text_of_host (host_seen self.now)) }
        ensures on { IfOk result (λ going. going ≡ Going.On) }
    {
        let node = self.actor.node();
        let (links, pairs, span) = match (node.table(), node.pointers()) {
            (Some(table), Some(pointers)) => (table.len(), pointers.count(), pointers.span()),
            _ => (0, 0, 0),
        };
        put_status(out, status_word(node.status()))?;
        put_count(out, "links", links as u64)?;
        put_count(out, "holders", node.holder_count().unwrap_or(0) as u64)?;
        put_count(out, "pairs", pairs as u64)?;
        put_count(out, "sessions", node.sessions().open_count() as u64)?;
        put_count(out, "span", span as u64)?;
        put_count(out, "awaits", self.mail.awaiting() as u64)?;
        Ok(Going::On)
    }
}

// The line of this number isn't taken.
fn refuse(out: &mut Vec<u8>, number: u64, why: Why) -> Result<Going, NoMemory>
    ensures { IfOk result (λ going. (host : HostSeen) → TakesStep (refused host number why) host out.old.items out.new.items going) }
{
    put_refused(out, number, why)?;
    Ok(Going::On)
}

// There is no room for a step.
fn full(out: &mut Vec<u8>, number: u64) -> Result<Going, NoMemory>
    ensures { IfOk result (λ going. (before host : HostSeen) → TakesStep (full before number) host out.old.items out.new.items going) }
{
    put_refused(out, number, Why::Room)?;
    Ok(Going::Full)
}

// Why a packet is refused whose frame a node doesn't take.
fn why_of(fault: NodeFault) -> Result<Why, NoMemory>
    ensures why { IfOk result (λ why. why ≡ why_of fault) }
    ensures memory { OnOk result (fault ≢ NodeFault.NoMemory) }
{
    match fault {
        NodeFault::Wire(_) => Ok(Why::Damaged),
        NodeFault::NotMine(_) => Ok(Why::Foreign),
        NodeFault::Strange => Ok(Why::Strange),
        NodeFault::Ended => Ok(Why::Room),
        NodeFault::NoMemory => Err(NoMemory),
    }
}

// The word of a status.
fn status_word(status: NodeStatus) -> &'static str
    ensures { result.now ≡ status_word status }
{
    match status {
        NodeStatus::Joining => "joining",
        NodeStatus::Core => "core",
        NodeStatus::Leaving => "leaving",
        NodeStatus::Gone => "gone",
        NodeStatus::Ceased => "ceased",
        NodeStatus::Ended => "ended",
    }
}
