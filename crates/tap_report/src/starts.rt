ghost use Rattle.tap_report.specs.Printer.{Prints};
ghost use Rattle.tap_report.specs.Starts.{begin_line, member_line, member_lines, step_line};
ghost use Rattle.tap_report.specs.Shapes.{line};
ghost use Rattle.tap_report.specs.Text.{members_in};

use crate::mode::Mode;
use crate::printer::Printer;
use tap_io::Sink;
use tap_name::{Name, Settings};
use tap_scenario::Step;

// The most bytes of the line of a step before its own words: a word, a number, and a space.
const MOST_BEFORE_STEP: usize = 16;

// The lines of the beginning of a run and of its steps.
impl Printer {
    pub(crate) fn add_begin<K: Sink>(&mut self, sink: &mut K, settings: &Settings, frames: u32)
        ensures { Prints (K.state sink.old) (K.state sink.new)
            (begin_line settings.now frames) self.old self.new }
    {
        self.add_number_after(sink, b"begin base ", settings.base());
        self.add_number_after(sink, b" digits ", settings.digits());
        self.add_number_after(sink, b" width ", settings.width());
        self.add_number_after(sink, b" frames ", frames);
    }

    fn add_member<K: Sink>(&mut self, sink: &mut K, name: &Name)
        ensures { Prints (K.state sink.old) (K.state sink.new)
            (member_line name.now) self.old self.new }
    {
        self.add_name_after(sink, b"member ", name);
        self.end_line(sink);
    }

    fn add_members<K: Sink>(&mut self, sink: &mut K, members: &[Name])
        ensures { Prints (K.state sink.old) (K.state sink.new)
            (member_lines members.now) self.old self.new }
    {
        for name in members {
            self.add_member(sink, name);
        }
    }

    // Adds the lines of members, if the mode has them.
    pub(crate) fn add_members_in<K: Sink>(&mut self, sink: &mut K, mode: Mode, members: &[Name])
        ensures { Prints (K.state sink.old) (K.state sink.new)
            (members_in mode members.now) self.old self.new }
    {
        match mode {
            Mode::Long => self.add_members(sink, members),
            Mode::Brief | Mode::Summary => {}
        }
    }

    #[inline(never)]
    pub(crate) fn add_step<K: Sink>(&mut self, sink: &mut K, index: u32, step: &Step)
        ensures { Prints (K.state sink.old) (K.state sink.new)
            (line (step_line index step.now)) self.old self.new }
    {
        self.make_room(sink, MOST_BEFORE_STEP);
        self.push(b"step ");
        self.push_u32(index);
        self.push(b" ");
        self.add_step_text(sink, step);
        self.end_line(sink);
    }
}
