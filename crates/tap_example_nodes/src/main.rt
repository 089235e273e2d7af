//! Three nodes under a transport of one's own: a queue of frames. 301 is there from the start; 012 joins by 301, and 013
//! by 301 while the join of 012 is under way. Then 013 publishes the object 120, and 012 looks it up under ticket 1. It prints
//! each frame that is delivered, the news of each step, and in the end the links of each node.
#![tactic(auto)]

mod network;
mod starts;
mod words;

use anyhow::{Context, Result, bail};
use network::{Network, NodeNews};
use std::io;
use tap_name::Settings;
use tap_node::{News, Node};
use tap_table::Table;
use words::{kind_word, status_word};

// More frames than are delivered before none is under way.
const MOST_FRAMES: usize = 1000;

fn main(rt: HostRuntime) -> Result<()> {
    let settings = Settings::new(4, 3, 2).context("the settings")?;
    let mut network = Network::new(rt.alloc(), settings);
    run(&rt, &mut network)?;
    print_nodes(&rt, &network)?;
    Ok(())
}

// The joins, the publication and the lookup.
fn run(rt: &impl Print, network: &mut Network) -> Result<()> {
    network.add_member(b"301")?;
    print_news(rt, network.add_joiner(b"012", b"301")?)?;
    print_news(rt, network.add_joiner(b"013", b"301")?)?;
    deliver_all(rt, network)?;
    print_news(rt, network.publish(b"013", b"120")?)?;
    deliver_all(rt, network)?;
    print_news(rt, network.find(b"012", 1, b"120")?)?;
    deliver_all(rt, network)
}

// Delivers frames until none is under way.
fn deliver_all(rt: &impl Print, network: &mut Network) -> Result<()> {
    for _turn in 0..MOST_FRAMES {
        let Some((head, news)) = network.deliver_next()? else {
            return Ok(());
        };
        println!(rt; "kind {} from {} to {}", head.kind, head.from, head.to)?;
        print_news(rt, news)?;
    }
    bail!("the frames don't end")
}

// Prints the news of a step, if it has any.
fn print_news(rt: &impl Print, step: NodeNews) -> io::Result<()> {
    let node = step.node;
    match step.news {
        News::Nothing => Ok(()),
        News::Core => println!(rt; "news {node} core"),
        News::Gone => println!(rt; "news {node} gone"),
        News::Answered {
            ticket,
            server: Some(server),
        } => println!(rt; "news {node} answered {ticket} by {server}"),
        News::Answered {
            ticket,
            server: None,
        } => println!(rt; "news {node} answered {ticket} by none"),
        News::Cast { cast, .. } => println!(rt; "news {node} cast {cast}"),
    }
}

// Prints each node with its links.
fn print_nodes(rt: &impl Print, network: &Network) -> io::Result<()> {
    for node in network.nodes() {
        print_node(rt, node)?;
        if let Some(table) = node.table() {
            print_links(rt, table)?;
        }
    }
    Ok(())
}

// Prints a node, and what it is.
fn print_node(rt: &impl Print, node: &Node) -> io::Result<()> {
    println!(rt; "node {} {}", node.name(), status_word(node.status()))
}

// Prints the links of a table.
fn print_links(rt: &impl Print, table: &Table) -> io::Result<()> {
    for row in table.rows() {
        let kind = kind_word(row.kind);
        println!(rt;
            "link {} {} {} {kind}",
            row.slot.level, row.slot.digit, row.target
        )?;
    }
    Ok(())
}
