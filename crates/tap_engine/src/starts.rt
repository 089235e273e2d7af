ghost use Rattle.std.specs.Prelude.{◌≡◌, ◌≤◌, ◌∷◌, ◌++◌, [], true, false, is_some, None, Some, IfOk, IsOk};
ghost use Rattle.std.specs.Option.{ForSome};
ghost use Rattle.tap_scenario.specs.Step.{IsStep};
ghost use Rattle.tap_log.specs.Counts.{sent_count};
ghost use Rattle.tap_log.specs.MoreRecords.{at_most_one};
ghost use Rattle.tap_history.specs.Refusals.{first_refusal};
ghost use Rattle.tap_history.specs.StepAsks.{is_start, join_name};
ghost use Rattle.tap_node.specs.Node.{node_status};
ghost use Rattle.tap_overlay.specs.Overlay.{node_at};
ghost use Rattle.tap_overlay.specs.Start.{rule_start};
ghost use Rattle.tap_runs.specs.Starts.{announced, next_cast, next_ticket};
ghost use Rattle.tap_runs.specs.Group.{start_at};
ghost use Rattle.tap_engine.specs.SeenTurns.{turn_records};
ghost use Rattle.tap_engine.specs.Working.{CanBegin, HasBegunOf, IsNextStart, nothing_by, suits};

use crate::engine::{Acted, Engine, acted_by};
use crate::pushes::{push_some, push_turn};
use crate::stop::{NoMemory, Stop};
use tap_log::Record;
use tap_name::Name;
use tap_node::{News, NodeStatus, Turn};
use tap_node_common::FrameList;
use tap_overlay::Start;
use tap_scenario::{Prefix, Step, Word};
use tap_wire::Bytes;

// The room for a group beside that for its frames, with the room that is kept after it: the record of the step, one of what it announces,
// and one of news before and one after the frames.
const ROOM_BESIDE_FRAMES: usize = 7;

// The starts.
impl Engine {
    ghost use Rattle.tap_ledger.specs.Added.{CanAdd};
    ghost use Rattle.tap_engine.specs.KeptEngine.{AreReady, LeadsTo, world_value};
    ghost use Rattle.tap_engine.specs.Outcome.{IsNextIndex, adds_within, unless_refused};
    ghost use Rattle.tap_engine.specs.Working.{CanAddTurn, HasBegunAt, LogsAs, StillHas};

    /// A step has a node start something: its group is added, the step first.
    ///
    /// What the step names are names of the settings. Its index is above that of the last step, from 1 on, and 1,000,000 at most. No refusal is
    /// left to be noted, and the log hasn't its end.
    ///
    /// `Refused` comes exactly if the step is refused, with the first refusal whose cause holds: the step is added alone, and no node
    /// changes. `Spent` comes exactly if the step isn't refused and more frames would then have been sent in all than may be: the step
    /// is added alone, and then `Spent`. `NoMemory` adds nothing. After `Spent` and `NoMemory` the nodes may be ahead of the log, and
    /// the engine takes no further call. `Ended` never comes.
    ///
    /// Rule: docs/FORMATS.md, "The course of a run".
    pub fn start(&mut self, index: u32, step: &Step) -> Result<(), Stop>
        requires ready { AreReady self.old }
        requires next { IsNextIndex (world_value self.old None false) index }
        requires kind { is_start step.now ≡ true }
        requires names { IsStep self.old.settings false step.now }
        ensures leads { LeadsTo (unless_refused (world_value self.old None false) index step.now (first_refusal self.old.ledger.records step.now))
            self.old result self.new }
        ensures added { self.new.ledger.added ≡ self.old.ledger.added }
    {
        if let Some(refusal) = self.refusal_of(step)? {
            self.add_step(index, step);
            return Err(Stop::Refused(refusal));
        }
        let item = self.announced(step)?;
        let acted = self.begin(step)?;
        self.add_started(index, step, item, acted)
    }

    // Adds the group of an accepted start: the step, what it announces if it does, and the records of its node.
    fn add_started(
        &mut self,
        index: u32,
        step: &Step,
        item: Option<Record>,
        acted: Acted,
    ) -> Result<(), Stop>
        requires room { 4 ≤ self.old.ledger.spare }
        requires sent { sent_count self.old.ledger.records ≤ self.old.frames }
        requires step { CanAdd self.old.ledger.records (Record.Step index step.now ∷ []) }
        requires spent { CanAdd (self.old.ledger.records ++ Record.Step index step.now ∷ []) (Record.Spent self.old.frames ∷ []) }
        requires can_add { CanAddTurn self.old (Record.Step index step.now ∷ at_most_one item) acted }
        ensures logs { let w = world_value self.old None false in
            let all = (Record.Step index step.now ∷ at_most_one item) ++ turn_records (sent_count self.old.ledger.records) acted.name acted.turn in
            LogsAs (adds_within w (Record.Step index step.now ∷ []) all) self.old result self.new }
        ensures added { self.new.ledger.added ≡ self.old.ledger.added }
    {
        if self.is_too_many(&acted.turn.sent) {
            self.add_step(index, step);
            return self.spend();
        }
        let Acted { name, turn } = acted;
        self.ledger.reserve(turn.sent.len() + ROOM_BESIDE_FRAMES)?;
        self.add_step(index, step);
        push_some(&mut self.ledger, item);
        push_turn(&mut self.ledger, &name, turn.sent, &turn.news);
        Ok(())
    }

    // What the log says of an accepted start before it says what the node did.
    #[tactic(auto, unfolding(tap_runs::specs::Starts::announced))]
    fn announced(&self, step: &Step) -> Result<Option<Record>, NoMemory>
        requires ready { AreReady self.now }
        requires names { IsStep self.now.settings false step.now }
        ensures { IfOk result (λ item. at_most_one item ≡ announced self.now.ledger.records step.now) }
    {
        match step {
            Step::Publish { object, server } => Ok(Some(Record::Published {
                object: *object,
                server: *server,
            })),
            Step::Withdraw { object, server } => Ok(Some(Record::Withdrawn {
                object: *object,
                server: *server,
            })),
            Step::Find { object, asker } => Ok(Some(Record::Asked {
                ticket: self.next_ticket(),
                object: *object,
                asker: *asker,
            })),
            Step::Abandon { name } => Ok(Some(Record::Abandoned { name: *name })),
            Step::Cast {
                word,
                prefix,
                asker,
            } => Ok(Some(Record::CastFrom {
                cast: self.next_cast(),
                word: Bytes::copy_of(self.alloc, word.as_slice())?,
                level: prefix.len() as u8,
                name: *asker,
            })),
            _ => Ok(None),
        }
    }

    // The ticket of the next lookup.
    fn next_ticket(&self) -> u32
        requires { AreReady self.now }
        ensures { result ≡ next_ticket self.now.ledger.records }
    {
        self.ledger.tickets() as u32 + 1
    }

    // The number of the next cast.
    fn next_cast(&self) -> u32
        requires { AreReady self.now }
        ensures { result ≡ next_cast self.now.ledger.records }
    {
        self.ledger.casts() as u32 + 1
    }

    // The node of an accepted start starts it; one that joins comes.
    fn begin(&mut self, step: &Step) -> Result<Acted, NoMemory>
        requires ready { AreReady self.old }
        requires kind { is_start step.now ≡ true }
        requires accepted { first_refusal self.old.ledger.records step.now ≡ None }
        requires names { IsStep self.old.settings false step.now }
        ensures begun { IfOk result (HasBegunAt self.old self.new step.now) }
        ensures same { self.new ≡ record self.old { overlay = self.new.overlay } }
        ensures still { StillHas self.old.overlay self.new.overlay }
    {
        if let Step::Join { name, via } = step {
            let turn = self.overlay.join(*name, *via)?;
            return Ok(Acted { name: *name, turn });
        }
        let Begun { name, start } = self.begun_by(step);
        self.begin_at(name, &start)
    }

    // What a step has a node start that is there: a start that is no join.
    #[tactic(auto, unfolding(tap_runs::specs::Starts::start_of_step, tap_history::specs::StepAsks::actor_of, tap_history::specs::StepAsks::join_name))]
    fn begun_by<'a>(&self, step: &'a Step) -> Begun<'a>
        requires ready { AreReady self.now }
        requires kind { is_start step.now ≡ true }
        requires no_join { join_name step.now ≡ None }
        requires names { IsStep self.now.settings false step.now }
        ensures start { start_at self.now.ledger.records step.now ≡ Some (result.name, rule_start result.start) }
        ensures named { IsNextStart self.now.settings self.now.ledger.records result.start }
    {
        match step {
            Step::Depart { name } => Begun {
                name: *name,
                start: Start::Leave,
            },
            Step::Publish { object, server } => Begun {
                name: *server,
                start: Start::Publish { object: *object },
            },
            Step::Withdraw { object, server } => Begun {
                name: *server,
                start: Start::Withdraw { object: *object },
            },
            Step::Find { object, asker } => Begun {
                name: *asker,
                start: Start::Find {
                    ticket: self.next_ticket(),
                    object: *object,
                },
            },
            Step::Abandon { name } => Begun {
                name: *name,
                start: Start::Abandon,
            },
            Step::Cast {
                word,
                prefix,
                asker,
            } => self.cast_by(word, prefix, asker),
            _ => unreachable!(),
        }
    }

    // The next cast: a node sends this word to all names that begin so.
    #[tactic(auto, unfolding(tap_runs::specs::Starts::start_of_step, tap_history::specs::StepAsks::actor_of))]
    fn cast_by<'a>(&self, word: &'a Word, prefix: &Prefix, asker: &Name) -> Begun<'a>
        requires ready { AreReady self.now }
        requires names { IsStep self.now.settings false (Step.Cast word.now prefix.now asker.now) }
        ensures start { start_at self.now.ledger.records (Step.Cast word.now prefix.now asker.now) ≡ Some (result.name, rule_start result.start) }
        ensures named { IsNextStart self.now.settings self.now.ledger.records result.start }
    {
        Begun {
            name: *asker,
            start: Start::Cast {
                cast: self.next_cast(),
                level: prefix.len() as u8,
                word: word.as_slice(),
            },
        }
    }

    // The node of a name, which is there, starts something. A node of another status than that wants does nothing, and wants no memory.
    fn begin_at(&mut self, name: Name, start: &Start<'_>) -> Result<Acted, NoMemory>
        requires { CanBegin self.old.overlay name start.now }
        ensures begun { IfOk result (HasBegunOf self.old.overlay self.new.overlay name (rule_start start.now)) }
        ensures same { self.new ≡ record self.old { overlay = self.new.overlay } }
        ensures still { StillHas self.old.overlay self.new.overlay }
        ensures unsuited { ForSome (node_at self.old.overlay name) (λ node. suits (node_status node) start.now ≡ false → IsOk result) }
    {
        if self.is_suited(&name, start) {
            return acted_by(name, self.overlay.start(&name, start));
        }
        Ok(self.nothing_by(name))
    }

    // Whether the node of a name, which is there, has the status that a start wants.
    fn is_suited(&self, name: &Name, start: &Start<'_>) -> bool
        requires { is_some (node_at self.now.overlay name.now) ≡ true }
        ensures { ForSome (node_at self.now.overlay name.now) (λ node. result ≡ suits (node_status node) start.now) }
    {
        match self.overlay.node(name) {
            Some(node) => suits(node.status(), start),
            None => unreachable!(),
        }
    }

    // The node of a name has done nothing.
    fn nothing_by(&self, name: Name) -> Acted
        ensures { result ≡ nothing_by name }
    {
        Acted {
            name,
            turn: Turn {
                sent: FrameList::new(self.alloc),
                news: News::Nothing,
            },
        }
    }
}

// What the node of a name starts.
#[derive(Drop)]
struct Begun<'a> {
    name: Name,
    start: Start<'a>,
}

// Whether a node of this status may start this.
fn suits(status: NodeStatus, start: &Start<'_>) -> bool
    ensures { result ≡ suits status start.now }
{
    match start {
        Start::Abandon => matches!(status, NodeStatus::Joining),
        Start::Publish { .. }
        | Start::Withdraw { .. }
        | Start::Find { .. }
        | Start::Leave
        | Start::Cast { .. } => matches!(status, NodeStatus::Core),
    }
}
