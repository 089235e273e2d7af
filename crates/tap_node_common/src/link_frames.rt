ghost use Rattle.std.specs.Prelude.{◌≡◌, ◌++◌, map, IfOk, OnOk};
ghost use Rattle.tap_join.specs.Hello.{words_of};
ghost use Rattle.tap_rule.specs.Sending.{by_receiver, link_frame};
ghost use Rattle.tap_node_common.specs.Spellings.{HaveSpellings, spelled};

use crate::frame_list::FrameList;
use tap_name::{List, Name, Settings};
use tap_table::Tie;
use tap_wire::{Body, Frame, NoMemory};

impl FrameList {
    /// Sends the Link of a step that has one word at most, if it has one.
    pub fn send_link(
        &mut self,
        settings: &Settings,
        from: &Name,
        word: Option<Tie>,
    ) -> Result<(), NoMemory>
        requires { HaveSpellings settings.now (map (link_frame from.now) (by_receiver (words_of word))) }
        ensures { OnOk result (self.new
            ≡ self.old ++ spelled settings.now (map (link_frame from.now) (by_receiver (words_of word)))) }
    {
        match word {
            None => Ok(()),
            Some(word) => self.push(settings, &link_frame(from, &word)),
        }
    }

    /// Sends the Links of a step, ascending by receiver; those to one receiver keep their order.
    pub fn send_links(
        &mut self,
        settings: &Settings,
        from: &Name,
        words: List<Tie>,
    ) -> Result<(), NoMemory>
        requires { HaveSpellings settings.now (map (link_frame from.now) (by_receiver words)) }
        ensures { OnOk result (self.new
            ≡ self.old ++ spelled settings.now (map (link_frame from.now) (by_receiver words))) }
    {
        let words = by_receiver(words)?;
        self.push_links(settings, from, &words)
    }

    // Adds the Links of these words, in their order.
    fn push_links(
        &mut self,
        settings: &Settings,
        from: &Name,
        words: &[Tie],
    ) -> Result<(), NoMemory>
        requires { HaveSpellings settings.now (map (link_frame from.now) words.now) }
        ensures { OnOk result (self.new ≡ self.old ++ spelled settings.now (map (link_frame from.now) words.now)) }
    {
        for word in words {
            self.push(settings, &link_frame(from, word))?;
        }
        Ok(())
    }
}

// The words, ascending by receiver. A single one isn't sorted.
fn by_receiver(words: List<Tie>) -> Result<Vec<Tie>, NoMemory>
    ensures { IfOk result (λ sorted. sorted.items ≡ by_receiver words) }
{
    let mut words = words.into_vec();
    if 1 < words.len() {
        words.sort_by(|one, other| one.to.cmp(&other.to))?;
    }
    Ok(words)
}

// The Link of a word.
fn link_frame(from: &Name, word: &Tie) -> Frame
    ensures { result ≡ link_frame from.now word.now }
{
    Frame {
        from: *from,
        to: word.to,
        body: Body::Link {
            version: word.version,
            on: word.on,
        },
    }
}
