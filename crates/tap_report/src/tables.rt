ghost use Rattle.std.specs.Prelude.{◌≡◌, ◌<◌, All, IsSomeAnd};
ghost use Rattle.tap_report.specs.Printer.{Prints};
ghost use Rattle.tap_report.specs.Tables.{link_lines, pointer_line, pointer_lines, pointers_line, table_line, text_of_link, words_of_link, words_of_node};

use crate::printer::Printer;
use tap_io::Sink;
use tap_log::{LinkLine, LinkWord, NodeWord, Pair};
use tap_name::{Name, Settings};

// The lines of tables and pointers.
impl Printer {
    // Adds the first line of a table with so many links.
    pub(crate) fn add_table<K: Sink>(
        &mut self,
        sink: &mut K,
        name: &Name,
        status: NodeWord,
        count: usize,
    )
        ensures { Prints (K.state sink.old) (K.state sink.new)
            (table_line name.now status count) self.old self.new }
    {
        self.add_name_after(sink, b"table ", name);
        self.add(sink, b" ");
        self.add(sink, node_word(status));
        self.add_number_after(sink, b" links ", count);
    }

    // Adds the lines of links, whose digits are below the base.
    pub(crate) fn add_links_in<K: Sink>(
        &mut self,
        sink: &mut K,
        settings: &Option<Settings>,
        links: &[LinkLine],
    )
        requires { IsSomeAnd settings.now (λ p. All (λ link. link.slot.digit < p.base) links.now) }
        ensures { Prints (K.state sink.old) (K.state sink.new)
            (link_lines links.now) self.old self.new }
    {
        match settings {
            Some(settings) => self.add_links_below(sink, settings, links),
            None => unreachable!(),
        }
    }

    fn add_links_below<K: Sink>(&mut self, sink: &mut K, settings: &Settings, links: &[LinkLine])
        requires { All (λ link. link.slot.digit < settings.now.base) links.now }
        ensures { Prints (K.state sink.old) (K.state sink.new)
            (link_lines links.now) self.old self.new }
    {
        let base = settings.base();
        prove!(base <= 16);
        self.add_links(sink, links);
    }

    fn add_links<K: Sink>(&mut self, sink: &mut K, links: &[LinkLine])
        requires { All (λ link. link.slot.digit < 16) links.now }
        ensures { Prints (K.state sink.old) (K.state sink.new)
            (link_lines links.now) self.old self.new }
    {
        for link in links {
            self.add_link(sink, link);
        }
    }

    fn add_link<K: Sink>(&mut self, sink: &mut K, link: &LinkLine)
        requires { link.now.slot.digit < 16 }
        ensures { Prints (K.state sink.old) (K.state sink.new)
            (text_of_link link.now) self.old self.new }
    {
        self.add_number_after(sink, b"link ", link.slot.level);
        self.add(sink, b" ");
        self.add_digit(sink, link.slot.digit);
        self.add_name_after(sink, b" ", &link.name);
        self.add(sink, b" ");
        self.add(sink, link_word(link.kind));
        self.end_line(sink);
    }

    // Adds the first line of so many pointers.
    pub(crate) fn add_pointers<K: Sink>(&mut self, sink: &mut K, name: &Name, count: usize)
        ensures { Prints (K.state sink.old) (K.state sink.new)
            (pointers_line name.now count) self.old self.new }
    {
        self.add_name_after(sink, b"pointers ", name);
        self.add_number_after(sink, b" count ", count);
    }

    // Adds the lines of pointers.
    pub(crate) fn add_pairs<K: Sink>(&mut self, sink: &mut K, pairs: &[Pair])
        ensures { Prints (K.state sink.old) (K.state sink.new)
            (pointer_lines pairs.now) self.old self.new }
    {
        for pair in pairs {
            self.add_pair(sink, pair);
        }
    }

    fn add_pair<K: Sink>(&mut self, sink: &mut K, pair: &Pair)
        ensures { Prints (K.state sink.old) (K.state sink.new)
            (pointer_line pair.now) self.old self.new }
    {
        self.add_two_names_after(sink, b"pointer ", &pair.object, b" ", &pair.server);
        self.end_line(sink);
    }
}

// What a node is.
fn node_word(status: NodeWord) -> &'static [u8]
    ensures { result.now ≡ words_of_node status }
{
    match status {
        NodeWord::Joining => b"joining",
        NodeWord::Core => b"core",
        NodeWord::Leaving => b"leaving",
    }
}

// What a link is.
fn link_word(kind: LinkWord) -> &'static [u8]
    ensures { result.now ≡ words_of_link kind }
{
    match kind {
        LinkWord::Pin => b"pin",
        LinkWord::Settled => b"settled",
        LinkWord::Leaving => b"leaving",
    }
}
