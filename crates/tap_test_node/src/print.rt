use crate::system::{SentFrame, System};
use anyhow::{Context, Result};
use std::io;
use tap_link::Kind;
use tap_name::Name;
use tap_node::{News, Node, NodeFault, NodeStatus, Turn};
use tap_wire::{Bytes, Frame, Kind as FrameKind, decode};

/// Prints what a node has answered, and puts the frames that it sends under way.
pub(crate) fn print_answer(
    rt: &(impl AllocGlobal + Print),
    system: &mut System,
    name: Name,
    answer: Result<Turn, NodeFault>,
) -> Result<()> {
    match answer {
        Ok(turn) => print_turn(rt, system, name, turn),
        Err(fault) => Ok(print_fault(rt, fault)?),
    }
}

// Prints why a node has taken no step.
fn print_fault(rt: &impl Print, fault: NodeFault) -> io::Result<()> {
    match fault {
        NodeFault::NotMine(other) => println!(rt; "refused NotMine({other})"),
        fault => println!(rt; "refused {fault:?}"),
    }
}

// Prints the news and the frames of a step.
fn print_turn(
    rt: &(impl AllocGlobal + Print),
    system: &mut System,
    name: Name,
    turn: Turn,
) -> Result<()> {
    let news = turn.news;
    print_news(rt, name, news)?;
    for bytes in turn.sent.into_frames() {
        send(rt, system, bytes)?;
    }
    Ok(print_end(rt, news)?)
}

// Prints the news of a step that go before its frames.
fn print_news(rt: &impl Print, name: Name, news: News) -> io::Result<()> {
    match news {
        News::Core => println!(rt; "core {name}"),
        News::Gone => println!(rt; "gone {name}"),
        News::Cast {
            cast,
            reached: true,
            ..
        } => println!(rt; "reached {cast} {name}"),
        News::Nothing | News::Answered { .. } | News::Cast { reached: false, .. } => Ok(()),
    }
}

// Prints the news of a step that come after its frames.
fn print_end(rt: &impl Print, news: News) -> io::Result<()> {
    match news {
        News::Cast {
            cast,
            closed: true,
            ..
        } => println!(rt; "closed {cast}"),
        News::Answered {
            ticket,
            server: Some(server),
        } => println!(rt; "answered {ticket} server {server}"),
        News::Answered {
            ticket,
            server: None,
        } => println!(rt; "answered {ticket} none"),
        News::Nothing | News::Core | News::Gone | News::Cast { closed: false, .. } => Ok(()),
    }
}

// Prints a frame that is sent, and puts it under way.
fn send(rt: &(impl AllocGlobal + Print), system: &mut System, bytes: Bytes) -> Result<()> {
    let frame = decode(rt.alloc(), system.settings(), bytes.as_slice())?;
    let number = system.next_number();
    print_frame(rt, number, &frame, bytes.as_slice())?;
    system
        .send(SentFrame { number, bytes })
        .context("no memory")
}

// Prints a frame of this number, and its bytes.
fn print_frame(
    rt: &(impl AllocGlobal + Print),
    number: u64,
    frame: &Frame,
    bytes: &[u8],
) -> io::Result<()> {
    let spelled = hex::encode(rt.alloc(), bytes)?;
    let word = kind_word(FrameKind::of(&frame.body));
    println!(rt;
        "sent {number} {word} {} {} {spelled}",
        frame.from, frame.to
    )
}

/// Prints the status of a node.
pub(crate) fn print_status(rt: &impl Print, node: &Node) -> io::Result<()> {
    println!(rt; "status {} {}", node.name(), status_word(node.status()))
}

/// Prints the status of a node, its links, the pairs that it holds, and its sessions of joins: how many are open, and how many
/// were ever opened.
pub(crate) fn print_state(rt: &impl Print, node: &Node) -> io::Result<()> {
    print_sessions(rt, node)?;
    print_links(rt, node)?;
    print_pointers(rt, node)
}

// Prints the status of a node, and its sessions of joins.
fn print_sessions(rt: &impl Print, node: &Node) -> io::Result<()> {
    let sessions = node.sessions();
    println!(rt;
        "state {} {} sessions {} of {}",
        node.name(),
        status_word(node.status()),
        sessions.open_count(),
        sessions.opened()
    )
}

// Prints the links of a node.
fn print_links(rt: &impl Print, node: &Node) -> io::Result<()> {
    let Some(table) = node.table() else {
        return Ok(());
    };
    for row in table.rows() {
        println!(rt;
            "link {} {:x} {} {}",
            row.slot.level,
            row.slot.digit,
            row.target,
            kind_of_link(row.kind)
        )?;
    }
    Ok(())
}

// Prints the pairs that a node holds.
fn print_pointers(rt: &impl Print, node: &Node) -> io::Result<()> {
    let Some(pointers) = node.pointers() else {
        return Ok(());
    };
    for pair in pointers.held() {
        println!(rt; "pointer {} {}", pair.object, pair.server)?;
    }
    Ok(())
}

// The word of a kind of frame.
fn kind_word(kind: FrameKind) -> &'static str {
    match kind {
        FrameKind::Seek => "seek",
        FrameKind::Tell => "tell",
        FrameKind::Hello => "hello",
        FrameKind::Heard => "heard",
        FrameKind::Ack => "ack",
        FrameKind::Done => "done",
        FrameKind::Release => "release",
        FrameKind::Link => "link",
        FrameKind::Lay => "lay",
        FrameKind::Find => "find",
        FrameKind::Answer => "answer",
        FrameKind::Leave => "leave",
        FrameKind::Left => "left",
        FrameKind::Gone => "gone",
        FrameKind::Forget => "forget",
        FrameKind::Cast => "cast",
        FrameKind::CastAck => "castack",
    }
}

// The word of a kind of link.
fn kind_of_link(kind: Kind) -> &'static str {
    match kind {
        Kind::Pin => "pin",
        Kind::Settled => "settled",
        Kind::Leaving => "leaving",
    }
}

// The word of a status.
fn status_word(status: NodeStatus) -> &'static str {
    match status {
        NodeStatus::Joining => "joining",
        NodeStatus::Core => "core",
        NodeStatus::Leaving => "leaving",
        NodeStatus::Gone => "gone",
        NodeStatus::Ceased => "ceased",
        NodeStatus::Ended => "ended",
    }
}
