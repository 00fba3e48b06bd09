ghost use Rattle.std.specs.Prelude.{◌≡◌, ◌||◌, false, true, is_some, IfOk, OnOk};
ghost use Rattle.std.specs.Option.{option_or};
ghost use Rattle.rif_values.specs.declared.fact.Fact.{Fact};
ghost use Rattle.std.specs.List.{list_any};
ghost use Rattle.rif_values.specs.Facts.{same_fact, is_slot_value, is_about};
ghost use Rattle.rif_values.specs.declared.change.Change.TheVariants.{Modify};
ghost use Rattle.rif_facts.specs.declared.fates.Retraction.TheVariants.{OfObject, OfSlot};
ghost use Rattle.rif_facts.specs.Fates.{decided, fate_in, fate_of, is_taken_by, is_taken, fate_kept, same_retraction};

use rif_values::{Change, Const, Fact, OutOfMemory};
use std::alloc::Global;
use std::collections::{BTreeMap, BTreeSet};

// What takes facts away by their object, or by object and slot.
#[derive(Debug, PartialEq, Eq, PartialOrd, Ord, Drop)]
pub(crate) enum Retraction {
    OfObject(Const),
    OfSlot(Const, Const),
}

// What some changes, done in order, make of each fact, whatever it was before.
//
// The last change that concerns a fact decides, so the changes are read from the last to the first, and what was
// decided stays.
#[derive(Drop)]
pub(crate) struct Fates {
    // the facts that a change named, and whether they stand
    pub(crate) own: BTreeMap<Fact, bool>,
    // the others of these don't stand
    pub(crate) retracted: BTreeSet<Retraction>,
}

impl Fates {
    pub(crate) fn of(alloc: Global, changes: &[Change]) -> Result<Fates, OutOfMemory>
        ensures { IfOk result (λ fates. (q : Fact) → fate_kept fates q ≡ fate_of changes.now q) }
    {
        let mut fates = Fates {
            own: BTreeMap::new(alloc),
            retracted: BTreeSet::new(alloc),
        };
        let mut left = changes.len();
        while left > 0 {
            left -= 1;
            fates.note(&changes[left])?;
        }
        Ok(fates)
    }

    // Notes a change that is done before those that were noted.
    fn note(&mut self, change: &Change) -> Result<(), OutOfMemory>
        ensures { OnOk result ((q : Fact) → fate_kept self.new q
            ≡ option_or (fate_kept self.old q) (fate_in change.now q)) }
    {
        match change {
            Change::Assert(fact) => Ok(self.decide(fact, true)?),
            Change::Retract(fact) => Ok(self.decide(fact, false)?),
            Change::RetractSlot(object, slot) => Ok(self.retract_slot(object, slot)?),
            Change::RetractObject(object) => Ok(self.retract_object(object)?),
            Change::Modify(object, slot, value) => Ok(self.modify(object, slot, value)?),
        }
    }

    // Decides whether a fact stands, where that isn't decided.
    fn decide(&mut self, fact: &Fact, stands: bool) -> Result<(), OutOfMemory>
        ensures { OnOk result ((q : Fact) → fate_kept self.new q
            ≡ option_or (fate_kept self.old q) (decided (same_fact fact.now q) stands)) }
    {
        if !self.is_decided(fact)? {
            self.own.insert(fact.copy()?, stands)?;
        }
        Ok(())
    }

    fn modify(&mut self, object: &Const, slot: &Const, value: &Const) -> Result<(), OutOfMemory>
        ensures { OnOk result ((q : Fact) → fate_kept self.new q
            ≡ option_or (fate_kept self.old q) (fate_in (Modify object.now slot.now value.now) q)) }
    {
        let fact = Fact::Frame(object.copy()?, slot.copy()?, value.copy()?);
        self.decide(&fact, true)?;
        self.retract_slot(object, slot)?;
        Ok(())
    }

    fn retract_object(&mut self, object: &Const) -> Result<(), OutOfMemory>
        ensures { OnOk result ((q : Fact) → fate_kept self.new q
            ≡ option_or (fate_kept self.old q) (decided (is_about object.now q) false)) }
    {
        self.retract(Retraction::OfObject(object.copy()?))?;
        Ok(())
    }

    fn retract_slot(&mut self, object: &Const, slot: &Const) -> Result<(), OutOfMemory>
        ensures { OnOk result ((q : Fact) → fate_kept self.new q
            ≡ option_or (fate_kept self.old q) (decided (is_slot_value object.now slot.now q) false)) }
    {
        self.retract(Retraction::OfSlot(object.copy()?, slot.copy()?))?;
        Ok(())
    }

    // Decides that none stands of the facts of a retraction that aren't decided.
    fn retract(&mut self, retraction: Retraction) -> Result<(), OutOfMemory>
        ensures { OnOk result ((q : Fact) → fate_kept self.new q
            ≡ option_or (fate_kept self.old q) (decided (is_taken_by retraction q) false)) }
    {
        self.retracted.insert(retraction)?;
        Ok(())
    }

    fn is_decided(&self, fact: &Fact) -> Result<bool, OutOfMemory>
        ensures { IfOk result (λ known. known ≡ is_some (fate_kept self.now fact.now)) }
    {
        if self.own.contains_key(fact) {
            return Ok(true);
        }
        Ok(self.is_taken(fact)?)
    }

    // Whether a retraction takes a fact away.
    fn is_taken(&self, fact: &Fact) -> Result<bool, OutOfMemory>
        ensures { IfOk result (λ taken. taken ≡ is_taken self.now.retracted.keys fact.now) }
    {
        match fact {
            Fact::Atom(_, _) => Ok(false),
            Fact::Frame(object, slot, _) => Ok(self.has_object_or_slot(object, slot)?),
            Fact::Member(object, _) => Ok(self.has_object(object)?),
        }
    }

    fn has_object_or_slot(&self, object: &Const, slot: &Const) -> Result<bool, OutOfMemory>
        ensures { IfOk result (λ has. has
            ≡ (list_any (same_retraction (OfObject object.now)) self.now.retracted.keys
            || list_any (same_retraction (OfSlot object.now slot.now)) self.now.retracted.keys)) }
    {
        if self.has_object(object)? {
            return Ok(true);
        }
        let retraction = Retraction::OfSlot(object.copy()?, slot.copy()?);
        Ok(has(&self.retracted, &retraction))
    }

    fn has_object(&self, object: &Const) -> Result<bool, OutOfMemory>
        ensures { IfOk result (λ has. has
            ≡ list_any (same_retraction (OfObject object.now)) self.now.retracted.keys) }
    {
        let retraction = Retraction::OfObject(object.copy()?);
        Ok(has(&self.retracted, &retraction))
    }
}

fn has(retractions: &BTreeSet<Retraction>, retraction: &Retraction) -> bool
    ensures { result ≡ list_any (same_retraction retraction.now) retractions.now.keys }
{
    retractions.contains(retraction)
}
