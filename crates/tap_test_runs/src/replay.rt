// Small scenarios, turn by turn and whole: they are run to their end, or until too many frames would be sent.
ghost use Rattle.std.specs.Prelude.{◌≤◌, ◌≡◌, All, Bool, length, false, true};
ghost use Rattle.tap_name.specs.Name.{IsName};
ghost use Rattle.tap_name.specs.Settings.{AreWithinLimits};
ghost use Rattle.tap_scenario.specs.Step.{IsStep};
ghost use Rattle.tap_engine.specs.World.{whole_log};
ghost use Rattle.tap_replay.specs.Player.{MayTurn};

use crate::names::{name_of, settings_of};
use std::alloc::Global;
use std::process::Abort;
use tap_name::{List, Name, Settings};
use tap_replay::{End, Player, Turned, replay};
use tap_scenario::{Scenario, Step};

// A delivery that is refused, since nothing is outstanding; a join; and the frames that are taken then, in each way.
fn steps(rt: &impl Abort, settings: &Settings) -> [Step; 6]
    ensures { All (IsStep settings.now false) result }
{
    let name = name_of(rt, settings, "01");
    let via = name_of(rt, settings, "00");
    [
        Step::Deliver { place: 0 },
        Step::SettleNewest,
        Step::Join { name, via },
        Step::Deliver { place: 0 },
        Step::SettleMixed { seed: 7 },
        Step::Table { name },
    ]
}

// A join over a carrier: its packet is repeated, both are lost, and then none is there to be lost. The settle begins with a tick.
fn carried_steps(rt: &impl Abort, settings: &Settings) -> [Step; 8]
    ensures { All (IsStep settings.now true) result }
{
    let name = name_of(rt, settings, "01");
    let via = name_of(rt, settings, "00");
    [
        Step::Join { name, via },
        Step::Repeat { place: 0 },
        Step::Lose { place: 1 },
        Step::Lose { place: 0 },
        Step::Lose { place: 0 },
        Step::SettleMixed { seed: 7 },
        Step::Tick,
        Step::Table { name },
    ]
}

// The settings of root sets: names as long as a digest.
fn salted_settings(rt: &impl Abort) -> Settings
    ensures limits { AreWithinLimits result }
    ensures salted { (result.base ≡ 16) × (result.digits ≡ 40) }
{
    Settings::new(16, 40, 1).expect(rt, "settings")
}

// A member is asked for the roots of its name's salts, and then a node that isn't there.
fn root_sets(rt: &impl Abort, settings: &Settings, object: Name) -> [Step; 2]
    requires salted { (settings.now.base ≡ 16) × (settings.now.digits ≡ 40) }
    requires member { IsName settings.now object }
    ensures { (carrier : Bool) → All (IsStep settings.now carrier) result }
{
    let stranger = name_of(rt, settings, "0123456789abcdef0123456789abcdef01234567");
    [
        Step::RootSet {
            object,
            asker: object,
        },
        Step::RootSet {
            object,
            asker: stranger,
        },
    ]
}

// The scenario of one member with these steps, carried or not, in which so many frames may be sent.
fn scenario_of(
    rt: &impl Abort,
    alloc: Global,
    settings: &Settings,
    frames: u32,
    carrier: bool,
    member: Name,
    steps: &[Step],
) -> Scenario
    requires limits { AreWithinLimits settings.now }
    requires member { IsName settings.now member }
    requires from { 1 ≤ frames }
    requires to { frames ≤ 1000 }
    requires few { length steps.now ≤ 1000 }
    requires steps { All (IsStep settings.now carrier) steps.now }
{
    let mut members = List::new(alloc);
    members.push(member).expect(rt, "memory");
    Scenario::of(alloc, settings, frames, carrier, &members, steps).expect(rt, "memory")
}

// The scenario of those steps.
fn scenario(rt: &impl Abort, alloc: Global, frames: u32) -> Scenario
    requires from { 1 ≤ frames }
    requires to { frames ≤ 1000 }
{
    let settings = settings_of(rt, 2, 2, 1);
    let steps = steps(rt, &settings);
    let member = name_of(rt, &settings, "00");
    scenario_of(rt, alloc, &settings, frames, false, member, &steps)
}

// That of the carried ones.
fn carried_scenario(rt: &impl Abort, alloc: Global) -> Scenario {
    let settings = settings_of(rt, 2, 2, 1);
    let steps = carried_steps(rt, &settings);
    let member = name_of(rt, &settings, "00");
    scenario_of(rt, alloc, &settings, 1000, true, member, &steps)
}

// That of the root sets, carried or not.
fn salted_scenario(rt: &impl Abort, alloc: Global, carrier: bool) -> Scenario {
    let settings = salted_settings(rt);
    let member = name_of(rt, &settings, "89abcdef0123456789abcdef0123456789abcdef");
    let steps = root_sets(rt, &settings, member);
    scenario_of(rt, alloc, &settings, 1, carrier, member, &steps)
}

// Whether a further turn answers the same, and adds nothing.
fn is_over(player: &mut Player, scenario: &Scenario, end: End) -> bool
    requires { MayTurn scenario.now (whole_log player.old.world) }
{
    let count = player.log().len();
    player.turn(scenario) == Turned::Over(end) && player.log().len() == count
}

// The turns of a player until its run is over, if they are below a hundred: how many they are, and how it ends.
fn turns_of(player: &mut Player, scenario: &Scenario) -> Option<(u32, End)>
    requires { MayTurn scenario.now (whole_log player.old.world) }
    ensures { MayTurn scenario.now (whole_log player.new.world) }
{
    for turns in 1..100 {
        if let Turned::Over(end) = player.turn(scenario) {
            return Some((turns, end));
        }
    }
    None
}

// Those of a player of this scenario, and how long its log is then.
fn play(rt: &impl Abort, alloc: Global, scenario: &Scenario) -> (u32, End, usize) {
    let mut player = Player::new(alloc, scenario).expect(rt, "memory");
    let (turns, end) = turns_of(&mut player, scenario).expect(rt, "an end");
    assert!(rt; is_over(&mut player, scenario, end));
    (turns, end, player.log().len())
}

// The end of a replay, and how long its log is.
fn replayed(rt: &impl Abort, alloc: Global, scenario: &Scenario) -> (End, usize) {
    let played = replay(alloc, scenario);
    let world = played.world.as_ref().expect(rt, "memory");
    (played.end, world.log().len())
}

// A run of so many turns ends so with a log of so many records, turn by turn and whole.
fn check(rt: &impl Abort, alloc: Global, scenario: Scenario, run: (u32, End, usize)) {
    let (_, end, records) = run;
    assert!(rt; play(rt, alloc, &scenario) == run);
    assert!(rt; replayed(rt, alloc, &scenario) == (end, records));
}

// Fourteen groups: six steps, and eight frames that are taken.
#[test]
fn a_scenario_is_played_to_its_end(rt: HostRuntime) {
    let scenario = scenario(&rt, rt.alloc(), 1000);
    check(&rt, rt.alloc(), scenario, (14, End::Done, 27));
}

// The second frame may not be sent.
#[test]
fn a_run_is_spent(rt: HostRuntime) {
    let scenario = scenario(&rt, rt.alloc(), 1);
    check(&rt, rt.alloc(), scenario, (5, End::Spent, 8));
}

// Twenty-six groups: eight steps, sixteen packets that arrive, and two ticks.
#[test]
fn a_carried_scenario_is_played_to_its_end(rt: HostRuntime) {
    let scenario = carried_scenario(&rt, rt.alloc());
    check(&rt, rt.alloc(), scenario, (26, End::Done, 68));
}

// Two groups: the first one tells roots, and the other one is refused.
#[test]
fn root_sets_are_run(rt: HostRuntime) {
    let scenario = salted_scenario(&rt, rt.alloc(), false);
    check(&rt, rt.alloc(), scenario, (2, End::Done, 6));
    let scenario = salted_scenario(&rt, rt.alloc(), true);
    check(&rt, rt.alloc(), scenario, (2, End::Done, 7));
}
