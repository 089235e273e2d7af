ghost use Rattle.std.specs.Prelude.{◌++◌, codes};
ghost use Rattle.tap_scenario.specs.Step.{text_of_prefix, text_of_step};
ghost use Rattle.tap_scenario.specs.Wording.{text_after};
ghost use Rattle.tap_scenario.specs.declared.wording.WordsAfter.TheVariants.{Cast, Names};
ghost use Rattle.tap_report.specs.Printer.{Prints};

use crate::printer::Printer;
use tap_io::Sink;
use tap_name::Name;
use tap_scenario::{Prefix, Step, Word, WordsAfter};

// Steps, as they are written in a scenario.
impl Printer {
    // Adds the text of a step. A run has many of the kinds that come first, which are printed without the list of their words.
    pub(crate) fn add_step_text<K: Sink>(&mut self, sink: &mut K, step: &Step)
        ensures { Prints (K.state sink.old) (K.state sink.new)
            (text_of_step step.now) self.old self.new }
    {
        match step {
            Step::Publish { object, server } => self.add_at(sink, b"publish ", object, server),
            Step::Withdraw { object, server } => self.add_at(sink, b"withdraw ", object, server),
            Step::Find { object, asker } => self.add_from(sink, b"find ", object, asker),
            Step::Walk { object, asker } => self.add_from(sink, b"walk ", object, asker),
            Step::Settle => self.add(sink, b"settle"),
            _ => self.add_words_of(sink, step),
        }
    }

    // Adds the words of a step.
    #[inline(never)]
    fn add_words_of<K: Sink>(&mut self, sink: &mut K, step: &Step)
        ensures { Prints (K.state sink.old) (K.state sink.new)
            (text_of_step step.now) self.old self.new }
    {
        let words = step.words();
        self.add(sink, words.first.as_bytes());
        self.add_words_after(sink, &words.after);
    }

    // Adds what stands after the first word of a step.
    fn add_words_after<K: Sink>(&mut self, sink: &mut K, after: &WordsAfter)
        ensures { Prints (K.state sink.old) (K.state sink.new)
            (text_after after.now) self.old self.new }
    {
        match after {
            WordsAfter::Nothing => {}
            WordsAfter::Word(word) => self.add_word(sink, word),
            WordsAfter::WordAndNumber(word, number) => {
                self.add_word(sink, word);
                self.add(sink, b" ");
                self.add_number(sink, *number);
            }
            WordsAfter::Name(name) => self.add_name_after(sink, b" ", name),
            WordsAfter::Names(first, link, second) => self.add_pair_of_names(
                sink, first, link, second,
            ),
            WordsAfter::Number(number) => self.add_number_after(sink, b" ", *number),
            WordsAfter::TwoNumbers(first, second) => {
                self.add_two_numbers_after(sink, b" ", *first, b" ", *second)
            }
            WordsAfter::ThreeNumbers(first, second, third) => {
                self.add_two_numbers_after(sink, b" ", *first, b" ", *second);
                self.add(sink, b" ");
                self.add_number(sink, *third);
            }
            WordsAfter::Cast(word, to, prefix, from, asker) => {
                self.add_cast_words(sink, word, to, prefix, from, asker)
            }
        }
    }

    // Adds two names and the word between them.
    fn add_pair_of_names<K: Sink>(&mut self, sink: &mut K, first: &Name, link: &str, second: &Name)
        ensures { Prints (K.state sink.old) (K.state sink.new)
            (text_after (Names first.now link.entry second.now)) self.old self.new }
    {
        self.add_name_after(sink, b" ", first);
        self.add(sink, b" ");
        self.add(sink, link.as_bytes());
        self.add_name_after(sink, b" ", second);
    }

    // Adds what stands after the first word of a cast.
    fn add_cast_words<K: Sink>(
        &mut self,
        sink: &mut K,
        word: &Word,
        to: &str,
        prefix: &Prefix,
        from: &str,
        asker: &Name,
    )
        ensures { Prints (K.state sink.old) (K.state sink.new)
            (text_after (Cast word.now to.entry prefix.now from.entry asker.now)) self.old self.new }
    {
        self.add(sink, b" ");
        self.add(sink, word.as_slice());
        self.add(sink, b" ");
        self.add(sink, to.as_bytes());
        self.add(sink, b" ");
        self.add_prefix(sink, prefix);
        self.add(sink, b" ");
        self.add(sink, from.as_bytes());
        self.add_name_after(sink, b" ", asker);
    }

    // Adds a word with a space before it.
    fn add_word<K: Sink>(&mut self, sink: &mut K, word: &str)
        ensures { Prints (K.state sink.old) (K.state sink.new)
            (codes " " ++ word.now) self.old self.new }
    {
        self.add(sink, b" ");
        self.add(sink, word.as_bytes());
    }

    fn add_prefix<K: Sink>(&mut self, sink: &mut K, prefix: &Prefix)
        ensures { Prints (K.state sink.old) (K.state sink.new)
            (text_of_prefix prefix.now) self.old self.new }
    {
        if prefix.len() == 0 {
            self.add(sink, b"*");
        } else {
            self.add_digits(sink, prefix.digits().as_slice());
        }
    }
}
