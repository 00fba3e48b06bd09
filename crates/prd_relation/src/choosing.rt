//! The choice of the instance that is picked: one pass over the newest conflict set, with the best instance so far.
ghost use Rattle.std.specs.Prelude.{◌≡◌, IfOk, IfSome, IfNone, None, slice_get};
ghost use Rattle.prd_relation.specs.Choice.{chosen_instance};
ghost use Rattle.prd_relation.specs.History.{newest_conflict_set};
ghost use Rattle.prd_relation.specs.Layout.{better_of, is_better};
ghost use Rattle.prd_relation.specs.RuleSystem.{system_of};

use crate::mark::Mark;
use crate::plain::Plain;
use rif_values::{Instance, OutOfMemory, nth};
use safe_rules::SafeDoc;

/// What the choice asks of an instance: its rule's priority, and its age in states.
///
/// Source: RIF-PRD, "Conflict resolution", rif:forwardChaining.
#[derive(Clone, Copy, Debug)]
pub struct Rank {
    pub priority: i32,
    pub age: u64,
}

/// An instance that isn't refracted: its place in the newest conflict set, from 0, and its rank.
#[derive(Clone, Copy, Debug)]
pub struct Best {
    pub place: usize,
    pub rank: Rank,
}

/// The instance to be picked next, or None where each instance of the newest conflict set is refracted.
///
/// It copies that instance alone, and its time grows as the number of instances.
///
/// Source: RIF-PRD, "Conflict resolution", rif:forwardChaining; the tie break is our own
/// (docs/PROFILE.md, "Tie break").
pub fn choose_plain(doc: &SafeDoc, history: &Plain) -> Result<Option<Instance>, OutOfMemory>
    ensures { IfOk result (λ chosen. chosen ≡ chosen_instance (system_of doc.now) history.now) }
{
    match best_place(doc, history) {
        Some(place) => match history.conflict_set().get(place) {
            Some(chosen) => Ok(Some(chosen.copy()?)),
            None => Ok(None),
        },
        None => Ok(None),
    }
}

// The place of that instance in the newest conflict set, where there is one.
fn best_place(doc: &SafeDoc, history: &Plain) -> Option<usize>
    ensures some { IfSome result (λ place. slice_get (newest_conflict_set history.now) place
        ≡ chosen_instance (system_of doc.now) history.now) }
    ensures none { IfNone result (chosen_instance (system_of doc.now) history.now ≡ None) }
{
    let instances = history.conflict_set();
    let marks = history.marks();
    let mut best = None;
    for (place, instance) in instances.iter().enumerate() {
        let mark = marks[place];
        if !mark.refracted {
            let rank = rank_at(doc, instance, mark);
            best = Some(better_of(best, Best { place, rank }));
        }
    }
    match best {
        Some(best) => Some(best.place),
        None => None,
    }
}

// The rank of an instance that has this mark.
fn rank_at(doc: &SafeDoc, instance: &Instance, mark: Mark) -> Rank
    ensures { result ≡ record { priority = (system_of doc.now).priority instance.now.rule; age = mark.age } }
{
    Rank {
        priority: priority(doc, instance.rule),
        age: mark.age,
    }
}

/// The priority of the rule of this number, counted from 1, in constant time, and 0 where there is no such
/// rule.
///
/// Source: RIF-PRD, "Groups".
pub fn priority(doc: &SafeDoc, number: u32) -> i32
    ensures { result ≡ (system_of doc.now).priority number }
{
    match nth(doc.rules(), number) {
        Some(rule) => rule.priority,
        None => 0,
    }
}

// The best one so far, or the next one, where that is better. So the first of equals stays.
fn better_of(best: Option<Best>, next: Best) -> Best
    ensures { result ≡ better_of best next }
{
    match best {
        Some(best) if !is_better(next.rank, best.rank) => best,
        _ => next,
    }
}

// Whether an instance of this rank is picked before one of the other, whatever their order.
fn is_better(rank: Rank, other: Rank) -> bool
    ensures { result ≡ is_better rank other }
{
    let by_priority = rank.priority.cmp(&other.priority);
    let by_age = other.age.cmp(&rank.age);
    by_priority.then(by_age).is_gt()
}
