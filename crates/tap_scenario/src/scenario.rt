ghost use Rattle.std.specs.Prelude.{◌≡◌, ◌<◌, IfOk, length, slice_get, Some};
ghost use Rattle.tap_scenario.specs.Scenario.{ScenarioValue, IsScript};

use crate::step::Step;
use std::alloc::Global;
use std::marker::Model;
use tap_name::{List, Name, NoMemory, Settings};

/// What a run is made from: the settings, the limit of frames, whether packets carry them, the members at the start, and
/// the steps.
///
/// It has 1 to 64 distinct members and at most 10,000 steps, whose names are all names of the settings. A run may send
/// 1 to 500,000 frames, or 1 to 100,000 if names have more than eight digits.
///
/// Rule: docs/FORMATS.md, "The scenario".
#[derive(Debug, Drop)]
pub struct Scenario {
    settings: Settings,
    frames: u32,
    carrier: bool,
    members: List<Name>,
    steps: List<Step>,
}

impl Model for Scenario {
    ghost use Rattle.tap_scenario.specs.Scenario.{ScenarioValue, IsScript};

    ghost Value = { ScenarioValue };

    ghost view = { λ s. record { settings = s.settings; frames = s.frames; carrier = s.carrier; members = s.members; steps = s.steps } };

    ghost invariant = { λ s. IsScript (record { settings = s.settings; frames = s.frames; carrier = s.carrier; members = s.members; steps = s.steps }) };
}

impl Scenario {
    /// The scenario of these parts, of which it keeps copies. `NoMemory` if memory was refused.
    ///
    /// Condition: the parts are within the limits of a scenario. There are 1 to 64 members, distinct names of the
    /// settings, and at most 10,000 steps, each one of these settings in a scenario that is carried or not as this one is.
    /// The frames are 1 to 500,000, or 1 to 100,000 if names have more than eight digits.
    pub fn of(
        alloc: Global,
        settings: &Settings,
        frames: u32,
        carrier: bool,
        members: &List<Name>,
        steps: &[Step],
    ) -> Result<Scenario, NoMemory>
        requires { IsScript (record { settings = settings.now; frames = frames; carrier = carrier; members = members.now; steps = steps.now }) }
        ensures { IfOk result
            (λ s. s ≡ record { settings = settings.now; frames = frames; carrier = carrier; members = members.now; steps = steps.now }) }
    {
        let members = List::from_vec(Vec::from_slice(alloc, members.as_slice())?);
        let steps = List::from_vec(Vec::from_slice(alloc, steps)?);
        Ok(Scenario::from_lists(settings, frames, carrier, members, steps))
    }

    /// The scenario of these parts, which it keeps. It takes no memory. The condition is that of [`Scenario::of`].
    pub fn from_lists(
        settings: &Settings,
        frames: u32,
        carrier: bool,
        members: List<Name>,
        steps: List<Step>,
    ) -> Scenario
        requires { IsScript (record { settings = settings.now; frames = frames; carrier = carrier; members = members; steps = steps }) }
        ensures { result ≡ record { settings = settings.now; frames = frames; carrier = carrier; members = members; steps = steps } }
    {
        Scenario {
            settings: *settings,
            frames,
            carrier,
            members,
            steps,
        }
    }

    /// The settings.
    pub fn settings(&self) -> Settings
        ensures value { result ≡ self.now.settings }
        ensures valid { IsScript self.now }
    {
        self.settings
    }

    /// How many frames a run may send.
    pub fn frames(&self) -> u32
        ensures value { result ≡ self.now.frames }
        ensures valid { IsScript self.now }
    {
        self.frames
    }

    /// Whether packets carry the frames.
    pub fn carrier(&self) -> bool
        ensures value { result ≡ self.now.carrier }
        ensures valid { IsScript self.now }
    {
        self.carrier
    }

    /// The members at the start, in the order of the text.
    pub fn members(&self) -> &List<Name>
        ensures value { result.now ≡ self.now.members }
        ensures valid { IsScript self.now }
    {
        &self.members
    }

    /// The number of steps.
    pub fn step_count(&self) -> usize
        ensures value { result ≡ length self.now.steps }
        ensures valid { IsScript self.now }
    {
        self.steps.len()
    }

    /// The step at a place, from 0.
    pub fn step_at(&self, i: usize) -> Step
        requires { i < length self.now.steps }
        ensures value { slice_get self.now.steps i ≡ Some result }
        ensures valid { IsScript self.now }
    {
        self.steps.at(i)
    }
}
