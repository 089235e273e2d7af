ghost use Rattle.tap_report.specs.Printer.{Prints};
ghost use Rattle.tap_report.specs.Casts.{cast_line, reached_line};

use crate::printer::Printer;
use tap_io::Sink;
use tap_name::Name;

// The lines of casts.
impl Printer {
    pub(crate) fn add_cast<K: Sink>(
        &mut self,
        sink: &mut K,
        cast: u32,
        word: &[u8],
        level: u8,
        name: &Name,
    )
        ensures { Prints (K.state sink.old) (K.state sink.new)
            (cast_line cast word.now level name.now) self.old self.new }
    {
        self.add_number_after(sink, b"cast ", cast);
        self.add(sink, b" ");
        self.add(sink, word);
        self.add_number_after(sink, b" level ", level);
        self.add_name_after(sink, b" from ", name);
    }

    pub(crate) fn add_reached<K: Sink>(&mut self, sink: &mut K, cast: u32, name: &Name)
        ensures { Prints (K.state sink.old) (K.state sink.new)
            (reached_line cast name.now) self.old self.new }
    {
        self.add_number_after(sink, b"reached ", cast);
        self.add_name_after(sink, b" ", name);
    }
}
