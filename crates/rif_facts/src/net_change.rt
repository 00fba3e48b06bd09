ghost use Rattle.std.specs.Prelude.{◌≡◌, ◌++◌, ◌∷◌, [], filter, is_none, IfOk, OnOk, if◌then◌else◌};
ghost use Rattle.std.specs.List.Sorted.{IsStrictlySortedBy};
ghost use Rattle.std.specs.Map.{keys_of};
ghost use Rattle.rif_values.specs.Facts.{IsFacts, facts_after, net_change};
ghost use Rattle.rif_values.specs.Order.{fact_cmp};
ghost use Rattle.rif_facts.specs.Fates.{is_taken_by};
ghost use Rattle.rif_facts.specs.Keys.{is_candidate};
ghost use Rattle.rif_facts.specs.Marks.{mark_at, kept_by};
ghost use Rattle.rif_facts.specs.NetChange.{is_new, is_gone, taken_of};

use crate::facts::Facts;
use crate::fates::{Fates, Retraction};
use crate::keys::Key;
use rif_sets::sorted_set;
use rif_values::{Change, Delta, Fact, Listed, OutOfMemory};
use std::alloc::Global;
use std::collections::{BTreeMap, BTreeSet};

// The net change that some changes, done in order, make of a state.
pub(crate) fn net_change_of(
    alloc: Global,
    facts: &Facts,
    changes: &[Change],
) -> Result<Delta, OutOfMemory>
    requires { IsFacts facts.now.list }
    ensures { IfOk result (λ delta. delta ≡ net_change facts.now.list (facts_after facts.now.list changes.now)) }
{
    let Fates { own, retracted } = Fates::of(alloc, changes)?;
    let taken = taken_facts(alloc, facts, &own, &retracted)?;
    let Lists { added, removed } = changed_lists(alloc, facts, own, taken)?;
    Ok(Delta {
        added: Listed::from_vec(added),
        removed: sorted_set(alloc, removed)?,
    })
}

// What is added to a state, and what is removed from it.
#[derive(Drop)]
struct Lists {
    added: Vec<Fact>,
    removed: Vec<Fact>,
}

// The facts of a state that some retractions take away, and that have no fate of their own.
fn taken_facts(
    alloc: Global,
    facts: &Facts,
    own: &BTreeMap<Fact, bool>,
    retracted: &BTreeSet<Retraction>,
) -> Result<Vec<Fact>, OutOfMemory>
    ensures { IfOk result (λ taken. taken.items
        ≡ taken_of own.now.entries facts.now.list retracted.now.keys) }
{
    let mut taken = Vec::new(alloc);
    for retraction in retracted {
        let named = facts_taken(alloc, facts, retraction)?;
        push_undecided(&mut taken, named, own)?;
    }
    Ok(taken)
}

// The facts whose own fates change the state, those to be removed after some others.
fn changed_lists(
    alloc: Global,
    facts: &Facts,
    own: BTreeMap<Fact, bool>,
    taken: Vec<Fact>,
) -> Result<Lists, OutOfMemory>
    ensures added { IfOk result (λ lists. lists.added.items ≡ kept_by (is_new facts.now.list) own.entries) }
    ensures removed { IfOk result (λ lists. lists.removed.items
        ≡ taken.items ++ kept_by (is_gone facts.now.list) own.entries) }
    ensures sorted { OnOk result (IsStrictlySortedBy fact_cmp (keys_of own.entries)) }
{
    let mut lists = Lists {
        added: Vec::new(alloc),
        removed: taken,
    };
    for (fact, stands) in own {
        lists.push(facts, fact, stands)?;
    }
    Ok(lists)
}

impl Lists {
    // Puts a fact at the end of the list that it belongs to by whether it stands, if it didn't before or did.
    fn push(&mut self, facts: &Facts, fact: Fact, stands: bool) -> Result<(), OutOfMemory>
        ensures added { OnOk result (self.new.added.items ≡ self.old.added.items
            ++ (if is_new facts.now.list (fact, stands) then fact ∷ [] else [])) }
        ensures removed { OnOk result (self.new.removed.items ≡ self.old.removed.items
            ++ (if is_gone facts.now.list (fact, stands) then fact ∷ [] else [])) }
    {
        let stood = facts.has(&fact);
        if stands && !stood {
            self.added.push(fact)?;
        } else if !stands && stood {
            self.removed.push(fact)?;
        }
        Ok(())
    }
}

// The facts of a state that a retraction takes away.
fn facts_taken(
    alloc: Global,
    facts: &Facts,
    retraction: &Retraction,
) -> Result<Vec<Fact>, OutOfMemory>
    ensures { IfOk result (λ named. named.items ≡ filter (is_taken_by retraction.now) facts.now.list) }
{
    match retraction {
        Retraction::OfObject(object) => {
            Ok(facts_named(alloc, facts, Key::Object(object.copy()?))?)
        }
        Retraction::OfSlot(object, slot) => {
            Ok(facts_named(alloc, facts, Key::ObjectSlot(object.copy()?, slot.copy()?))?)
        }
    }
}

fn facts_named(alloc: Global, facts: &Facts, key: Key) -> Result<Vec<Fact>, OutOfMemory>
    ensures { IfOk result (λ named. named.items ≡ filter (is_candidate key) facts.now.list) }
{
    Ok(facts.candidates(alloc, &key)?.into_vec())
}

// Puts those at the end that have no fate of their own.
fn push_undecided(
    removed: &mut Vec<Fact>,
    named: Vec<Fact>,
    own: &BTreeMap<Fact, bool>,
) -> Result<(), OutOfMemory>
    ensures { OnOk result (removed.new.items
        ≡ removed.old.items ++ filter (λ f. is_none (mark_at own.now.entries f)) named.items) }
{
    for fact in named {
        push_if_undecided(removed, fact, own)?;
    }
    Ok(())
}

fn push_if_undecided(
    removed: &mut Vec<Fact>,
    fact: Fact,
    own: &BTreeMap<Fact, bool>,
) -> Result<(), OutOfMemory>
    ensures { OnOk result (removed.new.items
        ≡ removed.old.items ++ (if is_none (mark_at own.now.entries fact) then fact ∷ [] else [])) }
{
    if own.contains_key(&fact) {
        return Ok(());
    }
    removed.push(fact)?;
    Ok(())
}
