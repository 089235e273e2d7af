ghost use Rattle.std.specs.Prelude.{◌≡◌, ◌+◌, ◌*◌, ◌<◌, ◌≤◌, ◌⊎◌, not, [], length, map, slice_get, Some, IsOk, IfOk, OnOk, OnErr};
ghost use Rattle.tap_name.specs.Name.{IsName};
ghost use Rattle.tap_register.specs.Stamp.{HasGivenAtMost};
ghost use Rattle.tap_pointer.specs.Pointers.{IsNewSender, IsPointers, IsUnknown, all_withdrawn, held_or_laid_count, is_news, lay_applied, no_pointers, own_pair, owner_publishes, pair_of, pairs_held, pointer_at, published, server_for, withdrawn};
ghost use Rattle.tap_pointer.specs.Reconcile.{AreLaid, AreLaidBeside, AreLaidBut, AreLaidUnlessApart, AreNamesHeld, clear_lays, cleared, reconcile_lays, reconciled};

use crate::change::{held_or_laid_count, lay, publish, take, withdraw};
use crate::held::Held;
use crate::lay::Lay;
use crate::laying::{is_laid_so, push_layings, wanted_hop};
use crate::pair::Pair;
use crate::relaid::take_and_lay;
use crate::state::{PairState, Pointer};
use crate::walk::{
    held_at, held_count, lay_as_told, lays_to_none, lays_to_wanted, server_for, withdraw_all,
};
use std::alloc::Global;
use std::collections::BTreeMap;
use std::marker::Model;
use tap_name::{List, Name};
use tap_register::Stamp;
use tap_table::{NoMemory, Table};

/// What a node knows of the servers of objects: the objects that it publishes itself, the registers of the Lays that it
/// was sent, and where it has laid each pair of an object and a server on to.
///
/// A pair is held if the node is its server and publishes its object, or if the register of a sender is on. Contracts see
/// what is known of each pair, ascending by object, then server.
///
/// The pairs lie in an ordered map, so one pair is found, added and reconciled in time that grows with the logarithm of
/// their number. The lowest level at which a pair may be held is kept, so that a new primary of a level below it takes no
/// time.
///
/// Rule: docs/PROTOCOL.md, "Pointers".
#[derive(Drop)]
pub struct Pointers {
    alloc: Global,
    owner: Name,
    pairs: BTreeMap<Pair, PairState>,
    held_or_laid: usize,
    lowest: u8,
}

impl Model for Pointers {
    ghost use Rattle.std.specs.Prelude.{◌≡◌, All};
    ghost use Rattle.tap_pointer.specs.Pointers.{IsHeldFrom, IsPairState, PointersValue, held_or_laid_count};

    ghost Value = { PointersValue };

    ghost view = { λ p. record { owner = p.owner; pairs = p.pairs.entries } };

    ghost invariant = { λ p. (All (IsPairState p.owner) p.pairs.entries) × (p.held_or_laid ≡ held_or_laid_count p.pairs.entries)
        × (All (IsHeldFrom p.lowest) p.pairs.entries) };
}

impl Pointers {
    /// A node that knows of no pair. This takes no memory; later calls take it of `alloc`.
    pub fn new(alloc: Global, owner: Name) -> Pointers
        ensures { result ≡ no_pointers owner }
    {
        Pointers {
            alloc,
            owner,
            pairs: BTreeMap::new(alloc),
            held_or_laid: 0,
            lowest: u8::MAX,
        }
    }

    /// The node.
    pub fn owner(&self) -> Name
        ensures value { result ≡ self.now.owner }
        ensures valid { IsPointers self.now }
    {
        let _ordered = self.pairs.len();
        self.owner
    }

    /// Whether the node publishes an object.
    pub fn publishes(&self, object: Name) -> bool
        ensures { result ≡ owner_publishes self.now object }
    {
        match self.pairs.get(&self.own(object)) {
            Some(state) => state.published,
            None => false,
        }
    }

    // The pair of an object that the node itself serves.
    fn own(&self, object: Name) -> Pair
        ensures { result ≡ own_pair self.now object }
    {
        Pair {
            object,
            server: self.owner,
        }
    }

    /// Publishes an object, and answers whether the node didn't publish it before. A refused call changes nothing, and comes
    /// only if nothing is known of the pair.
    pub fn publish(&mut self, object: Name) -> Result<bool, NoMemory>
        ensures answer { IfOk result (λ first. first ≡ not (owner_publishes self.old object)) }
        ensures after { OnOk result (self.new ≡ published self.old object) }
        ensures same { OnErr result (self.new ≡ self.old) }
        // Only a pair of which nothing is known wants memory.
        ensures unknown { OnErr result (IsUnknown self.old (own_pair self.old object)) }
    {
        let own = self.own(object);
        let (first, change) = publish(&mut self.pairs, self.alloc, own)?;
        self.lowest = 0;
        self.held_or_laid = change.count_after(self.held_or_laid, self.pairs.len());
        Ok(first)
    }

    /// Withdraws an object, and answers whether the node published it. It takes no memory.
    pub fn withdraw(&mut self, object: Name) -> bool
        ensures answer { result ≡ owner_publishes self.old object }
        ensures after { self.new ≡ withdrawn self.old object }
    {
        let own = self.own(object);
        let Some((published, change)) = withdraw(&mut self.pairs, &own) else {
            return false;
        };
        self.held_or_laid = change.count_after(self.held_or_laid, self.pairs.len());
        published
    }

    /// Withdraws every object. It takes no memory.
    pub fn drop_all(&mut self)
        ensures { self.new ≡ all_withdrawn self.old }
    {
        withdraw_all(&mut self.pairs);
        self.held_or_laid = held_or_laid_count(&self.pairs);
    }

    /// Takes a Lay of a pair from a sender, and answers whether its version is newer than what the sender's register has.
    /// An older Lay changes nothing, and a refused call changes nothing. A sender's first Lay of a pair alone wants memory.
    ///
    /// The level is from 1 to the number of digits.
    pub fn apply_lay(
        &mut self,
        from: Name,
        object: Name,
        server: Name,
        level: u8,
        version: u32,
        on: bool,
    ) -> Result<bool, NoMemory>
        requires from { 1 ≤ level }
        requires to { level ≤ length object }
        ensures answer { IfOk result (λ newer. newer ≡ is_news self.old (pair_of object server) from version) }
        ensures after { OnOk result (self.new ≡ lay_applied self.old (pair_of object server) from version (pointer_at level on)) }
        ensures same { OnErr result (self.new ≡ self.old) }
        // Only a sender's first Lay of a pair wants memory.
        ensures new_sender { OnErr result (IsNewSender self.old (pair_of object server) from) }
    {
        let pair = Pair { object, server };
        let pointer = Pointer { level, on };
        let (newer, change) = take(&mut self.pairs, self.alloc, pair, from, version, pointer)?;
        self.lowest = self.lowest.min(level);
        self.held_or_laid = change.count_after(self.held_or_laid, self.pairs.len());
        Ok(newer)
    }

    /// Lays every pair that is held or laid as wanted, and gives the Lays that this takes, ascending by pair, with the
    /// next numbers of the stamp.
    ///
    /// A pair is wanted at the next hop of its object, from the level at which it is held; a pair that isn't held, or
    /// whose object's root the node is, is wanted nowhere. If it is laid elsewhere, the hop where it is laid is told off,
    /// unless it is the same node, and then the wanted hop is told on.
    ///
    /// The table is the node's. The objects held or laid are names of its settings, and the stamp has two numbers left
    /// for each pair that is held or laid. `NoMemory` comes only if a Lay is due. If memory is refused, the pointers are as
    /// they were, and the stamp may have given some of the numbers.
    ///
    /// Rule: docs/PROTOCOL.md, "Pointers".
    pub fn reconcile(&mut self, table: &Table, stamp: &mut Stamp) -> Result<List<Lay>, NoMemory>
        requires owner { table.now.owner ≡ self.old.owner }
        requires names { AreNamesHeld table.now.settings self.old }
        requires numbers { stamp.old + 2 * held_or_laid_count self.old.pairs ≤ u32.MAX }
        ensures answer { IfOk result (λ lays. lays ≡ reconcile_lays table.now stamp.old self.old) }
        ensures after { OnOk result (self.new ≡ reconciled table.now self.old) }
        ensures stamped { IfOk result (λ lays. stamp.new ≡ stamp.old + length lays) }
        ensures laid { OnOk result (AreLaid table.now self.new) }
        ensures same { OnErr result (self.new ≡ self.old) }
        ensures given { HasGivenAtMost (length (reconcile_lays table.now stamp.old self.old)) stamp.old stamp.new }
        ensures none_due { reconcile_lays table.now stamp.old self.old ≡ [] → IsOk result }
    {
        self.lays_as_wanted(table, stamp, None)
    }

    /// Does what `reconcile` does, if no pair needs it but those whose way passes this level: those that are held at this
    /// level or a lower one, aren't laid on at a lower one, and whose object has another digit there than the owner. Each
    /// other pair is laid as wanted, and isn't looked up.
    ///
    /// So it serves after a step that changed primaries of this level alone. If memory is refused, it leaves what `reconcile`
    /// leaves then.
    ///
    /// Rule: docs/PROTOCOL.md, "Pointers".
    pub fn reconcile_at(
        &mut self,
        table: &Table,
        stamp: &mut Stamp,
        level: u8,
    ) -> Result<List<Lay>, NoMemory>
        requires owner { table.now.owner ≡ self.old.owner }
        requires names { AreNamesHeld table.now.settings self.old }
        requires numbers { stamp.old + 2 * held_or_laid_count self.old.pairs ≤ u32.MAX }
        requires others { AreLaidBeside table.now level self.old }
        ensures answer { IfOk result (λ lays. lays ≡ reconcile_lays table.now stamp.old self.old) }
        ensures after { OnOk result (self.new ≡ reconciled table.now self.old) }
        ensures stamped { IfOk result (λ lays. stamp.new ≡ stamp.old + length lays) }
        ensures laid { OnOk result (AreLaid table.now self.new) }
        ensures same { OnErr result (self.new ≡ self.old) }
        ensures given { HasGivenAtMost (length (reconcile_lays table.now stamp.old self.old)) stamp.old stamp.new }
        ensures none_due { reconcile_lays table.now stamp.old self.old ≡ [] → IsOk result }
    {
        if level < self.lowest {
            return Ok(List::from_vec(Vec::new(self.alloc)));
        }
        self.lays_as_wanted(table, stamp, Some(level))
    }

    // Lays every pair as wanted, of which those that may be laid elsewhere alone are looked up, and gives the Lays that this
    // takes.
    fn lays_as_wanted(
        &mut self,
        table: &Table,
        stamp: &mut Stamp,
        level: Option<u8>,
    ) -> Result<List<Lay>, NoMemory>
        requires owner { table.now.owner ≡ self.old.owner }
        requires names { AreNamesHeld table.now.settings self.old }
        requires numbers { stamp.old + 2 * held_or_laid_count self.old.pairs ≤ u32.MAX }
        requires others { AreLaidUnlessApart table.now level self.old.pairs }
        ensures answer { IfOk result (λ lays. lays ≡ reconcile_lays table.now stamp.old self.old) }
        ensures after { OnOk result (self.new ≡ reconciled table.now self.old) }
        ensures stamped { IfOk result (λ lays. stamp.new ≡ stamp.old + length lays) }
        ensures laid { OnOk result (AreLaid table.now self.new) }
        ensures same { OnErr result (self.new ≡ self.old) }
        ensures given { HasGivenAtMost (length (reconcile_lays table.now stamp.old self.old)) stamp.old stamp.new }
        ensures none_due { reconcile_lays table.now stamp.old self.old ≡ [] → IsOk result }
    {
        // The contract of this call says that the pairs ascend.
        let _ordered = self.pairs.len();
        let lays = lays_to_wanted(self.alloc, &self.pairs, table, stamp, level)?;
        if lays.is_empty() {
            return Ok(List::from_vec(lays));
        }
        self.held_or_laid = lay_as_told(&mut self.pairs, &lays, self.held_or_laid);
        Ok(List::from_vec(lays))
    }

    /// Does what `reconcile` does, if no pair but this one needs it: each other pair is laid as wanted. It looks at this
    /// pair alone.
    ///
    /// So it serves after a step that published or withdrew this pair or took a Lay of it, and changed no primary of the
    /// table. If memory is refused, it leaves what `reconcile` leaves then.
    ///
    /// Rule: docs/PROTOCOL.md, "Pointers".
    pub fn reconcile_pair(
        &mut self,
        table: &Table,
        stamp: &mut Stamp,
        object: Name,
        server: Name,
    ) -> Result<List<Lay>, NoMemory>
        requires owner { table.now.owner ≡ self.old.owner }
        requires names { AreNamesHeld table.now.settings self.old }
        requires numbers { stamp.old + 2 ≤ u32.MAX }
        requires others { AreLaidBut table.now (pair_of object server) self.old }
        ensures answer { IfOk result (λ lays. lays ≡ reconcile_lays table.now stamp.old self.old) }
        ensures after { OnOk result (self.new ≡ reconciled table.now self.old) }
        ensures stamped { IfOk result (λ lays. stamp.new ≡ stamp.old + length lays) }
        ensures laid { OnOk result (AreLaid table.now self.new) }
        ensures same { OnErr result (self.new ≡ self.old) }
        ensures given { HasGivenAtMost (length (reconcile_lays table.now stamp.old self.old)) stamp.old stamp.new }
        ensures none_due { reconcile_lays table.now stamp.old self.old ≡ [] → IsOk result }
    {
        // It tells that the pairs ascend.
        let _ordered = self.pairs.len();
        let pair = Pair { object, server };
        let mut lays = Vec::new(self.alloc);
        let Some(state) = self.pairs.get(&pair) else {
            return Ok(List::from_vec(lays));
        };
        let wanted = wanted_hop(table, &pair, state);
        if is_laid_so(&state.laid, &wanted) {
            return Ok(List::from_vec(lays));
        }
        push_layings(&mut lays, stamp, &pair, &state.laid, &wanted)?;
        let change = lay(&mut self.pairs, &pair, &wanted).unwrap();
        self.held_or_laid = change.count_after(self.held_or_laid, self.pairs.len());
        Ok(List::from_vec(lays))
    }

    /// Does what `apply_lay` and then `reconcile_pair` do: takes a Lay of a pair from a sender, and gives the Lays that it
    /// takes to have the pair laid as wanted. The pair is looked up once.
    ///
    /// Each pair is laid as wanted before. The object is a name of the table's settings, the level is from 1 to the number of
    /// digits, and the stamp has two numbers left.
    ///
    /// `NoMemory` comes only at a sender's first Lay of the pair, or if Lays are due. If memory is refused, the pointers are
    /// as they were, or else as the call leaves them but for the Lays that weren't given, of whose numbers the stamp may have
    /// given some.
    ///
    /// Rule: docs/PROTOCOL.md, "Lay".
    pub fn take_lay(
        &mut self,
        table: &Table,
        stamp: &mut Stamp,
        from: Name,
        object: Name,
        server: Name,
        level: u8,
        version: u32,
        on: bool,
    ) -> Result<List<Lay>, NoMemory>
        requires laid { AreLaid table.now self.old }
        requires name { IsName table.now.settings object }
        requires numbers { stamp.old + 2 ≤ u32.MAX }
        requires from { 1 ≤ level }
        requires to { level ≤ length object }
        ensures answer { IfOk result (λ lays. lays ≡ reconcile_lays table.now stamp.old
            (lay_applied self.old (pair_of object server) from version (pointer_at level on))) }
        ensures after { OnOk result (self.new ≡ reconciled table.now
            (lay_applied self.old (pair_of object server) from version (pointer_at level on))) }
        ensures stamped { IfOk result (λ lays. stamp.new ≡ stamp.old + length lays) }
        // If memory is refused, either nothing was done, or all but to give the Lays.
        ensures refused { OnErr result (((self.new ≡ self.old) × (stamp.new ≡ stamp.old)) ⊎ (self.new ≡ reconciled table.now
            (lay_applied self.old (pair_of object server) from version (pointer_at level on)))) }
        ensures given { HasGivenAtMost (length (reconcile_lays table.now stamp.old
            (lay_applied self.old (pair_of object server) from version (pointer_at level on)))) stamp.old stamp.new }
        // A later Lay of a sender wants memory only if it takes Lays to have the pair laid as wanted.
        ensures none_due { reconcile_lays table.now stamp.old
            (lay_applied self.old (pair_of object server) from version (pointer_at level on)) ≡ []
            → OnErr result (IsNewSender self.old (pair_of object server) from) }
    {
        let pair = Pair { object, server };
        let pointer = Pointer { level, on };
        let alloc = self.alloc;
        let relaid = take_and_lay(&mut self.pairs, alloc, table, pair, from, version, pointer)?;
        self.lowest = self.lowest.min(level);
        self.held_or_laid = relaid
            .change
            .count_after(self.held_or_laid, self.pairs.len());
        let mut lays = Vec::new(alloc);
        push_layings(&mut lays, stamp, &pair, &relaid.from, &relaid.to)?;
        Ok(List::from_vec(lays))
    }

    /// Ends the pointers, with their node: the Lays that tell off every hop that is laid, ascending by pair, with the
    /// next numbers of the stamp. Nothing is laid, held or published afterwards.
    ///
    /// The stamp has a number left for each pair that is held or laid. If memory is refused, the pointers are as they were,
    /// and the stamp may have given some of the numbers.
    ///
    /// Rule: docs/PROTOCOL.md, "Pointers".
    pub fn clear(&mut self, stamp: &mut Stamp) -> Result<List<Lay>, NoMemory>
        requires numbers { stamp.old + held_or_laid_count self.old.pairs ≤ u32.MAX }
        ensures answer { IfOk result (λ lays. lays ≡ clear_lays stamp.old self.old) }
        ensures after { OnOk result (self.new ≡ cleared self.old) }
        ensures stamped { IfOk result (λ lays. stamp.new ≡ stamp.old + length lays) }
        ensures same { OnErr result (self.new ≡ self.old) }
        ensures given { HasGivenAtMost (length (clear_lays stamp.old self.old)) stamp.old stamp.new }
    {
        let lays = lays_to_none(self.alloc, &self.pairs, stamp)?;
        self.pairs.clear();
        self.held_or_laid = 0;
        Ok(List::from_vec(lays))
    }

    /// The least server held for an object, `None` exactly if no pair of the object is held.
    ///
    /// Rule: docs/PROTOCOL.md, "Pointers".
    pub fn lookup(&self, object: Name) -> Option<Name>
        ensures { result ≡ server_for self.now object }
    {
        server_for(&self.pairs, &object)
    }

    /// The pairs that are held, ascending by object, then server.
    pub fn held(&self) -> Held<'_>
        ensures { result ≡ pairs_held self.now }
    {
        Held::new(self.pairs.iter())
    }

    /// How many pairs are held. It walks over the pairs.
    pub fn count(&self) -> usize
        ensures { result ≡ length (pairs_held self.now) }
    {
        held_count(&self.pairs)
    }

    /// The object of a pair that is held, by its place in ascending order of pairs, from 0. It walks over the pairs up to
    /// this one: `held` gives one after another.
    pub fn object_at(&self, i: usize) -> Name
        requires { i < length (pairs_held self.now) }
        ensures { slice_get (map (λ p. p.object) (pairs_held self.now)) i ≡ Some result }
    {
        self.pair_at(i).object
    }

    /// The server of a pair that is held, by its place in ascending order of pairs, from 0. It walks over the pairs up to
    /// this one: `held` gives one after another.
    pub fn server_at(&self, i: usize) -> Name
        requires { i < length (pairs_held self.now) }
        ensures { slice_get (map (λ p. p.server) (pairs_held self.now)) i ≡ Some result }
    {
        self.pair_at(i).server
    }

    /// How many pairs are held or laid. It is kept, so this takes the same time for any number.
    pub fn span(&self) -> usize
        ensures { result ≡ held_or_laid_count self.now.pairs }
    {
        self.held_or_laid
    }

    // A pair that is held, by its place.
    fn pair_at(&self, i: usize) -> Pair
        requires { i < length (pairs_held self.now) }
        ensures { slice_get (pairs_held self.now) i ≡ Some result }
    {
        held_at(&self.pairs, i).unwrap()
    }
}
