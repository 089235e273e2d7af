ghost use Rattle.std.specs.Prelude.{◌≡◌, false, true, Some, IfOk};
ghost use Rattle.tap_name.specs.Name.{IsName};
ghost use Rattle.tap_name.specs.Names.{Among};
ghost use Rattle.tap_name.specs.Root.{root};
ghost use Rattle.tap_salt.specs.Salt.{is_salted, roots_of, salt_of};
ghost use Rattle.tap_scenario.specs.declared.step.Step.TheVariants.{RootSet};
ghost use Rattle.tap_history.specs.Core.{core_of};
ghost use Rattle.tap_history.specs.Refusals.{first_refusal};
ghost use Rattle.tap_surrogate.specs.Nodes.{IsCore, core_links};
ghost use Rattle.tap_surrogate.specs.Walk.{walk, walk_end};
ghost use Rattle.tap_safe_runs.specs.Safe.{IsRun};
ghost use Rattle.tap_engine.specs.Outcome.{IsNextIndex, MayGoOn};
ghost use Rattle.tap_engine.specs.World.{HasNodesOfLog};
ghost use Rattle.tap_root_sets.specs.AskedRoots.{AnswersRootSet, MayAsk};

use std::alloc::Global;
use tap_log::{Record, Refusal};
use tap_name::{List, Name, Settings};
use tap_node::NodeStatus;
use tap_salt::salt;
use tap_scenario::Step;
use tap_surrogate::{Step1, Tables, Walk};
use tap_world::{NoMemory, Stop, World};

/// A step asks for the roots of the four salts of an object. Its group is added: the step, and the roots or its refusal. The roots are the
/// nodes at which walks from the asker to the salts end, in the order of the salts.
///
/// The step is refused exactly if the asker isn't there, or else if it still joins; one that departs is core. `NoMemory` adds nothing; the world
/// may have been stopped by it. No other refusal comes.
///
/// Condition: the world goes on, and its log is that of a run with these settings. Names are as long as a digest. The index is above that of the
/// last step, from 1 on, and at most 1,000,000.
///
/// Rule: docs/PROTOCOL.md, "Salted names".
pub fn root_set(
    alloc: Global,
    world: &mut World,
    settings: &Settings,
    index: u32,
    object: Name,
    asker: Name,
) -> Result<(), Stop>
    requires may { MayAsk settings.now world.old }
    requires goes_on { MayGoOn world.old }
    requires next { IsNextIndex world.old index }
    requires salted { is_salted settings.now ≡ true }
    ensures { AnswersRootSet settings.now index object asker world.old result world.new }
{
    // No effect at run time. The proof reads from this call that the log of plain records is the reduced one, and what the nodes are.
    let _ = world.log();
    let step = Step::RootSet { object, asker };
    if let Some(refusal) = refusal_of(world, asker) {
        world.mark(index, &step)?;
        return world.note(index, refusal);
    }
    let roots = roots_of(alloc, world, settings, &object, asker)?;
    world.mark(index, &step)?;
    world.remark(Record::RootsOf {
        object,
        asker,
        roots,
    })
}

// Why a root set is refused that asks this node, if it is.
fn refusal_of(world: &World, asker: Name) -> Option<Refusal>
    requires run { IsRun world.now.beginning world.now.log }
    requires runs { world.now.stopped ≡ false }
    ensures { (object : Name) → result ≡ first_refusal world.now.log (RootSet object asker) }
{
    let Some(node) = world.node(asker) else {
        return Some(Refusal::NoSuchNode);
    };
    match node.status() {
        NodeStatus::Core | NodeStatus::Leaving => None,
        NodeStatus::Joining => Some(Refusal::NotCore),
        NodeStatus::Gone | NodeStatus::Ceased | NodeStatus::Ended => Some(Refusal::NoSuchNode),
    }
}

// The roots of the four salts of an object over the core nodes, of which the asker is one.
fn roots_of(
    alloc: Global,
    world: &World,
    settings: &Settings,
    object: &Name,
    asker: Name,
) -> Result<List<Name>, NoMemory>
    requires may { MayAsk settings.now world.now }
    requires nodes { HasNodesOfLog world.now }
    requires salted { is_salted settings.now ≡ true }
    requires core { Among asker (core_of world.now.log) }
    ensures { IfOk result (λ found. found ≡ roots_of settings.now.base (core_of world.now.log) object.now) }
{
    let roots = [
        root_of_salt(world, settings, object, asker, 1),
        root_of_salt(world, settings, object, asker, 2),
        root_of_salt(world, settings, object, asker, 3),
        root_of_salt(world, settings, object, asker, 4),
    ];
    Ok(List::from_vec(Vec::from_slice(alloc, &roots)?))
}

// The root of a salt over the core nodes: the node at which its walk from one of them ends.
fn root_of_salt(world: &World, settings: &Settings, object: &Name, asker: Name, number: u8) -> Name
    requires may { MayAsk settings.now world.now }
    requires nodes { HasNodesOfLog world.now }
    requires salted { is_salted settings.now ≡ true }
    requires core { Among asker (core_of world.now.log) }
    ensures { root settings.now.base (core_of world.now.log) (salt_of object.now number) ≡ Some result }
{
    match salt(settings, object, number) {
        Some(salt) => end_of_walk(world, asker, salt),
        None => unreachable!(),
    }
}

// The node at which the walk of an object from a core node ends.
fn end_of_walk<T: Tables>(tables: &T, from: Name, object: Name) -> Name
    requires from { IsCore (T.nodes tables.now) from }
    requires object { IsName (T.parameters tables.now) object }
    ensures { walk_end (walk (T.parameters tables.now).base (core_links (T.nodes tables.now)) from object) ≡ Some result }
{
    let mut walk = Walk::new(from, object);
    loop {
        if let Step1::Root(root) = walk.next(tables) {
            return root;
        }
    }
}
