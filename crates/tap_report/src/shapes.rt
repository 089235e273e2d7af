ghost use Rattle.std.specs.Prelude.{◌<◌, ◌≤◌, ◌+◌, ◌∷◌, [], ◌++◌, codes, length};
ghost use Rattle.tap_name.specs.Digits.{text_of_digit};
ghost use Rattle.tap_name.specs.Name.{text_of_name};
ghost use Rattle.tap_report.specs.Printer.{Prints, Waits, most_waiting};
ghost use Rattle.tap_report.specs.Shapes.{name_after, number_after, object_at, object_from, spaced_names, two_names_after, two_numbers_after};

use crate::printer::{MOST_DIGITS, Printer};
use itoa::{Buffer, Integer};
use tap_io::Sink;
use tap_name::{Name, USUAL_DIGITS, text_of_digit};

// The most digits of a name.
const MOST_OF_NAME: usize = 40;

// The shapes of lines.
impl Printer {
    // Ends a line.
    #[inline(always)]
    pub(crate) fn end_line<K: Sink>(&mut self, sink: &mut K)
        ensures { Prints (K.state sink.old) (K.state sink.new) (codes "\n") self.old self.new }
    {
        self.add(sink, b"\n");
    }

    // Adds a digit as it is printed.
    pub(crate) fn add_digit<K: Sink>(&mut self, sink: &mut K, digit: u8)
        requires { digit < 16 }
        ensures { Prints (K.state sink.old) (K.state sink.new)
            (text_of_digit digit ∷ []) self.old self.new }
    {
        self.add(sink, &[text_of_digit(digit)]);
    }

    // Adds a number, in decimal.
    pub(crate) fn add_number<K: Sink, I: Integer>(&mut self, sink: &mut K, number: I)
        ensures { Prints (K.state sink.old) (K.state sink.new)
            (I.text number) self.old self.new }
    {
        let mut digits = Buffer::new();
        self.add(sink, digits.format(number).as_bytes());
    }

    // Adds a name, if there is room for all digits that it may have.
    #[inline(always)]
    fn push_name(&mut self, name: &Name)
        requires { length self.old.waiting + 40 ≤ most_waiting }
        ensures text { Waits (text_of_name name.now) self.old self.new }
        ensures len { length self.new.waiting ≤ length self.old.waiting + 40 }
    {
        if name.len() == USUAL_DIGITS {
            self.push_usual_name(name);
        } else {
            self.push_unusual_name(name);
        }
    }

    // The same of a name of any length.
    #[inline(never)]
    fn push_unusual_name(&mut self, name: &Name)
        requires { length self.old.waiting + 40 ≤ most_waiting }
        ensures text { Waits (text_of_name name.now) self.old self.new }
        ensures len { length self.new.waiting ≤ length self.old.waiting + 40 }
    {
        self.push_digits(name.digits().as_slice());
    }

    // Adds a word and a name, if there is room for the word and for all digits that the name may have.
    #[inline(always)]
    fn push_name_after(&mut self, word: &[u8], name: &Name)
        requires { length self.old.waiting + length word.now + 40 ≤ most_waiting }
        ensures text { Waits (name_after word.now name.now) self.old self.new }
        ensures len { length self.new.waiting ≤ length self.old.waiting + length word.now + 40 }
    {
        self.push(word);
        self.push_name(name);
    }

    // Adds a word and a name.
    #[inline(always)]
    pub(crate) fn add_name_after<K: Sink>(&mut self, sink: &mut K, word: &[u8], name: &Name)
        requires { length word.now ≤ 20 }
        ensures { Prints (K.state sink.old) (K.state sink.new)
            (name_after word.now name.now) self.old self.new }
    {
        self.make_room(sink, word.len() + MOST_OF_NAME);
        self.push_name_after(word, name);
    }

    // Adds a word and a number.
    #[inline(always)]
    pub(crate) fn add_number_after<K: Sink, I: Integer>(
        &mut self,
        sink: &mut K,
        word: &[u8],
        number: I,
    )
        ensures { Prints (K.state sink.old) (K.state sink.new)
            (word.now ++ I.text number) self.old self.new }
    {
        self.add(sink, word);
        self.add_number(sink, number);
    }

    // Adds a word and a number of at most ten digits.
    #[inline(always)]
    pub(crate) fn add_u32_after<K: Sink>(&mut self, sink: &mut K, word: &[u8], number: u32)
        requires { length word.now ≤ 20 }
        ensures { Prints (K.state sink.old) (K.state sink.new)
            (number_after word.now number) self.old self.new }
    {
        self.make_room(sink, word.len() + MOST_DIGITS);
        self.push(word);
        self.push_u32(number);
    }

    // Adds a word and a name, and then another word and name.
    #[inline(always)]
    pub(crate) fn add_two_names_after<K: Sink>(
        &mut self,
        sink: &mut K,
        word: &[u8],
        first: &Name,
        link: &[u8],
        second: &Name,
    )
        requires word { length word.now ≤ 20 }
        requires link { length link.now ≤ 20 }
        ensures { Prints (K.state sink.old) (K.state sink.new)
            (two_names_after word.now first.now link.now second.now) self.old self.new }
    {
        self.make_room(sink, word.len() + link.len() + 2 * MOST_OF_NAME);
        self.push_name_after(word, first);
        self.push_name_after(link, second);
    }

    // Adds a word and a number, and then another word and number.
    pub(crate) fn add_two_numbers_after<K: Sink>(
        &mut self,
        sink: &mut K,
        word: &[u8],
        first: u32,
        link: &[u8],
        second: u32,
    )
        ensures { Prints (K.state sink.old) (K.state sink.new)
            (two_numbers_after word.now first link.now second) self.old self.new }
    {
        self.add(sink, word);
        self.add_number(sink, first);
        self.add(sink, link);
        self.add_number(sink, second);
    }

    // Adds a word, an object and the node that has it.
    #[inline(always)]
    pub(crate) fn add_at<K: Sink>(&mut self, sink: &mut K, word: &[u8], object: &Name, node: &Name)
        requires { length word.now ≤ 20 }
        ensures { Prints (K.state sink.old) (K.state sink.new)
            (object_at word.now object.now node.now) self.old self.new }
    {
        self.add_two_names_after(sink, word, object, b" at ", node);
    }

    // Adds a word, an object and the node that asks for it.
    #[inline(always)]
    pub(crate) fn add_from<K: Sink>(
        &mut self,
        sink: &mut K,
        word: &[u8],
        object: &Name,
        asker: &Name,
    )
        requires { length word.now ≤ 20 }
        ensures { Prints (K.state sink.old) (K.state sink.new)
            (object_from word.now object.now asker.now) self.old self.new }
    {
        self.add_two_names_after(sink, word, object, b" from ", asker);
    }

    // Adds names, each with a space before it.
    pub(crate) fn add_names<K: Sink>(&mut self, sink: &mut K, names: &[Name])
        ensures { Prints (K.state sink.old) (K.state sink.new)
            (spaced_names names.now) self.old self.new }
    {
        for name in names {
            self.add_name_after(sink, b" ", name);
        }
    }
}
