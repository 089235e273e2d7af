ghost use Rattle.std.specs.Prelude.{◌≡◌, ◌<◌, codes, length, true};
ghost use Rattle.tap_report.specs.Printer.{Prints};
ghost use Rattle.tap_report.specs.Lookups.{answered_line, asked_line, is_lookup, roots_line, text_of_server, walked_line};
ghost use Rattle.tap_report.specs.Shapes.{number_after};
ghost use Rattle.tap_report.specs.Text.{IsPrintable, line_of};

use crate::printer::Printer;
use tap_io::Sink;
use tap_log::Record;
use tap_name::{Name, Settings};

// The lines of walks, lookups and root sets.
impl Printer {
    // Adds the line of a record of these.
    pub(crate) fn add_lookup<K: Sink>(
        &mut self,
        sink: &mut K,
        settings: &Option<Settings>,
        item: &Record,
    )
        requires printable { IsPrintable settings.now item.now }
        requires lookup { is_lookup item.now ≡ true }
        ensures { Prints (K.state sink.old) (K.state sink.new)
            (line_of settings.now item.now) self.old self.new }
    {
        match item {
            Record::Walked { object, path } => self.add_walked(sink, object, path.as_slice()),
            Record::RootOf { object, root } => self.add_at(sink, b"rooted ", object, root),
            Record::Asked {
                ticket,
                object,
                asker,
            } => self.add_asked(sink, *ticket, object, asker),
            Record::Answered { ticket, server } => self.add_answered(sink, *ticket, server),
            Record::Published { object, server } => self.add_at(
                sink,
                b"published ",
                object,
                server,
            ),
            Record::Withdrawn { object, server } => self.add_at(
                sink,
                b"withdrawn ",
                object,
                server,
            ),
            Record::RootsOf {
                object,
                asker,
                roots,
            } => self.add_roots(sink, object, asker, roots.as_slice()),
            _ => unreachable!(),
        }
    }

    fn add_walked<K: Sink>(&mut self, sink: &mut K, object: &Name, path: &[Name])
        requires { 0 < length path.now }
        ensures { Prints (K.state sink.old) (K.state sink.new)
            (walked_line object.now path.now) self.old self.new }
    {
        let hops = path.len() - 1;
        self.add_from(sink, b"walked ", object, &path[0]);
        self.add(sink, b" path");
        self.add_names(sink, path);
        self.add_name_after(sink, b" root ", &path[hops]);
        self.add_hops(sink, hops);
    }

    // Adds how many hops a walk takes.
    #[inline(always)]
    fn add_hops<K: Sink>(&mut self, sink: &mut K, hops: usize)
        ensures { Prints (K.state sink.old) (K.state sink.new)
            (number_after (codes " hops ") hops) self.old self.new }
    {
        match u32::try_from(hops) {
            Ok(hops) => self.add_u32_after(sink, b" hops ", hops),
            Err(_) => self.add_number_after(sink, b" hops ", hops),
        }
    }

    fn add_asked<K: Sink>(&mut self, sink: &mut K, ticket: u32, object: &Name, asker: &Name)
        ensures { Prints (K.state sink.old) (K.state sink.new)
            (asked_line ticket object.now asker.now) self.old self.new }
    {
        self.add_u32_after(sink, b"asked ", ticket);
        self.add_from(sink, b" ", object, asker);
    }

    fn add_answered<K: Sink>(&mut self, sink: &mut K, ticket: u32, server: &Option<Name>)
        ensures { Prints (K.state sink.old) (K.state sink.new)
            (answered_line ticket server.now) self.old self.new }
    {
        self.add_u32_after(sink, b"answered ", ticket);
        self.add_server(sink, server);
    }

    fn add_server<K: Sink>(&mut self, sink: &mut K, server: &Option<Name>)
        ensures { Prints (K.state sink.old) (K.state sink.new)
            (text_of_server server.now) self.old self.new }
    {
        match server {
            Some(server) => self.add_name_after(sink, b" server ", server),
            None => self.add(sink, b" none"),
        }
    }

    fn add_roots<K: Sink>(&mut self, sink: &mut K, object: &Name, asker: &Name, roots: &[Name])
        ensures { Prints (K.state sink.old) (K.state sink.new)
            (roots_line object.now asker.now roots.now) self.old self.new }
    {
        self.add_from(sink, b"rootset ", object, asker);
        self.add(sink, b" roots");
        self.add_names(sink, roots);
    }
}

// Whether a record is one of these.
pub(crate) fn is_lookup(item: &Record) -> bool
    ensures { result ≡ is_lookup item.now }
{
    match item {
        Record::Walked { .. } => true,
        Record::RootOf { .. } => true,
        Record::Asked { .. } => true,
        Record::Answered { .. } => true,
        Record::Published { .. } => true,
        Record::Withdrawn { .. } => true,
        Record::RootsOf { .. } => true,
        _ => false,
    }
}
