ghost use Rattle.std.specs.Prelude.{◌≡◌, [], length, filter, IfOk, OnOk, OnErr, Some, None};
ghost use Rattle.rif_values.specs.Facts.{IsFacts, has_fact, facts_after, net_change};
ghost use Rattle.rif_values.specs.Order.{fact_cmp};
ghost use Rattle.rif_values.specs.Sets.{IsChangeOf, patched};
ghost use Rattle.rif_facts.specs.Keys.{is_candidate};

use crate::indexed::IndexedFacts;
use crate::keys::Key;
use crate::net_change::net_change_of;
use crate::room::{Ready, Room, both_ways};
use rif_values::{Change, Delta, Fact, Listed, OutOfMemory};
use std::alloc::Global;
use std::marker::Model;

/// A state of facts. Contracts see the list of its facts, in order and without repeats, and the change that it has
/// room for.
///
/// A copy of a fact takes constant time, as its texts and arguments are shared.
///
/// Source: RIF-PRD, "Condition satisfaction".
#[derive(Debug, Drop)]
pub struct Facts {
    // those that count, and those that there is room for
    indexed: IndexedFacts,
    // what `commit` is to do
    ready: Option<Ready>,
}

impl Model for Facts {
    ghost use Rattle.rif_facts.specs.FactsWithRoom.{FactsWithRoom};
    ghost use Rattle.rif_facts.specs.Marks.{counted};
    ghost use Rattle.rif_facts.specs.Readiness.{IsReady};

    ghost Value = { FactsWithRoom };

    ghost view = { λ facts. record { list = counted facts.indexed; room = facts.ready } };

    ghost invariant = { λ facts. IsReady facts.indexed facts.ready };
}

impl Facts {
    /// The empty state. It takes no memory.
    pub fn new(alloc: Global) -> Facts
        ensures { result ≡ record { list = []; room = None } }
    {
        Facts {
            indexed: IndexedFacts::new(alloc),
            ready: None,
        }
    }

    /// How many facts there are, in constant time.
    pub fn len(&self) -> usize
        ensures { result ≡ length self.now.list }
    {
        match &self.ready {
            Some(ready) => self.indexed.len() - ready.added.len(),
            None => self.indexed.len(),
        }
    }

    /// Whether the state has the fact. It compares the fact with as many as the logarithm of their number.
    pub fn has(&self, fact: &Fact) -> bool
        ensures has { result ≡ has_fact self.now.list fact.now }
        ensures ordered { IsFacts self.now.list }
    {
        match self.indexed.mark(fact) {
            Some(counts) => counts,
            None => false,
        }
    }

    /// All facts, in order, at the cost of a copy of each.
    pub fn to_list(&self, alloc: Global) -> Result<Listed<Fact>, OutOfMemory>
        ensures facts { IfOk result (λ facts. facts ≡ self.now.list) }
        ensures ordered { IsFacts self.now.list }
    {
        Ok(Listed::from_vec(self.indexed.all(alloc)?))
    }

    /// The facts that a key names, in order.
    ///
    /// It takes time as the number of these facts, and as the logarithm of that of all; it also passes those that
    /// the key names among the facts that there is room for.
    ///
    /// Source: our own (docs/PROFILE.md, "Facts by key").
    pub fn candidates(&self, alloc: Global, key: &Key) -> Result<Listed<Fact>, OutOfMemory>
        ensures { IfOk result (λ facts. facts ≡ filter (is_candidate key.now) self.now.list) }
    {
        Ok(Listed::from_vec(self.indexed.candidates(alloc, key)?))
    }

    /// The net change that some changes, done in order, would make. It changes nothing.
    ///
    /// It takes time as n log m in the number n of the changes and of the facts that their objects and slots name,
    /// and m of all facts. Each fact is copied once, and no text.
    ///
    /// Source: RIF-PRD, "Operational semantics of atomic actions"; `Modify` with no old value is our own
    /// (docs/PROFILE.md, "Actions").
    pub fn delta(&self, alloc: Global, changes: &[Change]) -> Result<Delta, OutOfMemory>
        ensures net { IfOk result (λ delta. delta
            ≡ net_change self.now.list (facts_after self.now.list changes.now)) }
        ensures possible { IfOk result (λ delta. IsChangeOf fact_cmp self.now.list delta.added delta.removed) }
        ensures leads { IfOk result (λ delta. patched fact_cmp self.now.list delta.added delta.removed
            ≡ facts_after self.now.list changes.now) }
    {
        let _ = &self.indexed;
        Ok(net_change_of(alloc, self, changes)?)
    }

    /// Makes room for a change, whose removed facts are there and whose added ones aren't. The facts stay as they
    /// are, and room that was made before and not used is given back. After want of memory there is room for no
    /// change.
    ///
    /// It takes time as n log m in the number n of the change's facts, and of those that there was room for, and m
    /// of all facts.
    pub fn reserve(&mut self, alloc: Global, delta: &Delta) -> Result<Room, OutOfMemory>
        requires { IsChangeOf fact_cmp self.old.list delta.now.added delta.now.removed }
        ensures list { self.new.list ≡ self.old.list }
        ensures made { IfOk result (λ room. room ≡ delta.now) }
        ensures room { OnOk result (self.new.room ≡ Some delta.now) }
        ensures err { OnErr result (self.new.room ≡ None) }
    {
        self.drop_room();
        let room = Room {
            delta: delta.copy()?,
        };
        self.make_room(Ready::of(alloc, delta)?)?;
        Ok(room)
    }

    /// Does the change that room was made for. It takes no memory.
    ///
    /// It takes time as n log m in the number n of the change's facts, and m of all facts.
    pub fn commit(&mut self, room: Room)
        requires { self.old.room ≡ Some room }
        ensures { self.new ≡ record { list = patched fact_cmp self.old.list room.added room.removed; room = None } }
    {
        if let Some(ready) = self.ready.take() {
            self.indexed.count_all(ready.added.as_slice());
            self.indexed.take_all(ready.removed.as_slice());
        }
    }

    /// Does some changes in order, and answers the net change. It takes time as `delta`, `reserve` and `commit` do.
    /// After want of memory the facts are as before.
    ///
    /// Source: RIF-PRD, "Operational semantics of atomic actions"; `Modify` with no old value is our own
    /// (docs/PROFILE.md, "Actions").
    pub fn apply(&mut self, alloc: Global, changes: &[Change]) -> Result<Delta, OutOfMemory>
        ensures net { IfOk result (λ delta. delta
            ≡ net_change self.old.list (facts_after self.old.list changes.now)) }
        ensures ok { OnOk result (self.new ≡ record { list = facts_after self.old.list changes.now; room = None }) }
        ensures err { OnErr result (self.new.list ≡ self.old.list) }
    {
        let delta = self.delta(alloc, changes)?;
        let room = self.reserve(alloc, &delta)?;
        self.commit(room);
        Ok(delta)
    }

    /// An equal state with room for no change, in time as n log n in the number n of facts, each of which is copied.
    pub fn copy(&self, alloc: Global) -> Result<Facts, OutOfMemory>
        ensures { IfOk result (λ copy. copy ≡ record { list = self.now.list; room = None }) }
    {
        let all = both_ways(alloc, self.to_list(alloc)?.as_slice())?;
        let mut indexed = IndexedFacts::new(alloc);
        indexed.put_all(all.as_slice())?;
        indexed.count_all(all.as_slice());
        Ok(Facts {
            indexed,
            ready: None,
        })
    }

    /// The state that some changes lead to, done in order, at the cost of `copy` and of `apply`.
    ///
    /// Source: RIF-PRD, "Operational semantics of atomic actions"; `Modify` with no old value is our own
    /// (docs/PROFILE.md, "Actions").
    pub fn after(&self, alloc: Global, changes: &[Change]) -> Result<Facts, OutOfMemory>
        ensures { IfOk result
            (λ facts. facts ≡ record { list = facts_after self.now.list changes.now; room = None }) }
    {
        let mut facts = self.copy(alloc)?;
        facts.apply(alloc, changes)?;
        Ok(facts)
    }

    // Gives room back that wasn't used. It takes no memory.
    fn drop_room(&mut self)
        ensures { self.new ≡ record { list = self.old.list; room = None } }
    {
        if let Some(ready) = self.ready.take() {
            self.indexed.take_all(ready.added.as_slice());
        }
    }

    // Makes room where there is none.
    fn make_room(&mut self, ready: Ready) -> Result<(), OutOfMemory>
        requires none { self.old.room ≡ None }
        requires change { IsChangeOf fact_cmp self.old.list ready.added ready.removed }
        ensures list { self.new.list ≡ self.old.list }
        ensures room { OnOk result (self.new.room ≡ Some ready) }
        ensures err { OnErr result (self.new.room ≡ None) }
    {
        match self.indexed.put_all(ready.added.as_slice()) {
            Ok(()) => {
                self.ready = Some(ready);
                Ok(())
            }
            Err(refused) => {
                self.indexed.take_all(ready.added.as_slice());
                Err(refused)
            }
        }
    }
}
