ghost use Rattle.std.specs.Prelude.{◌≡◌, ◌<◌, ◌∷◌, map, length, IfOk, IfSome, IfNone, OnOk, OnErr, Some, false};
ghost use Rattle.std.specs.Prelude.{slice_get};
ghost use Rattle.rif_values.specs.InstanceOrder.{instance_cmp};
ghost use Rattle.rif_values.specs.Sets.{has, IsSet};
ghost use Rattle.prd_relation.specs.History.{first_history, moments_of, newest_conflict_set, is_pick};
ghost use Rattle.prd_relation.specs.Layout.{mark_of, next_mark};
ghost use Rattle.prd_relation.specs.RuleSystem.{system_of};

use crate::mark::Mark;
use crate::moment::Moment;
use rif_facts::Facts;
use rif_match::list_instances;
use rif_sets::find_in_set;
use rif_values::{Instance, OutOfMemory};
use safe_rules::SafeDoc;
use std::alloc::Global;
use std::marker::Model;

/// A history as the plain program keeps it: every moment, and what the history says of each instance of
/// the newest conflict set. Contracts see it as the list of its moments, the newest first.
///
/// Source: RIF-PRD, "Conflict resolution"; which states count is our own (docs/PROFILE.md, "States that
/// count").
#[derive(Debug, Drop)]
pub struct Plain {
    // the newest last
    moments: Vec<Moment>,
    // one of each instance of the newest conflict set
    marks: Vec<Mark>,
}

impl Model for Plain {
    ghost use Rattle.std.specs.Prelude.{◌≡◌, ◌<◌, List, map, reverse, length};
    ghost use Rattle.rif_values.specs.InstanceOrder.{instance_cmp};
    ghost use Rattle.rif_values.specs.Sets.{IsSet};
    ghost use Rattle.prd_relation.specs.declared.moment.Moment.{Moment};
    ghost use Rattle.prd_relation.specs.History.{newest_conflict_set};
    ghost use Rattle.prd_relation.specs.Layout.{mark_of};

    ghost Value = { List Moment };

    ghost view = { λ plain. reverse plain.moments.items };

    ghost invariant = { λ plain. (0 < length plain.moments.items) ×
        (plain.marks.items ≡ map (mark_of (reverse plain.moments.items))
        (newest_conflict_set (reverse plain.moments.items))) ×
        IsSet instance_cmp (newest_conflict_set (reverse plain.moments.items)) };
}

impl Plain {
    /// The history of the empty state of facts alone, from which each run starts. It lists that state's
    /// conflict set.
    pub fn start(alloc: Global, doc: &SafeDoc) -> Result<Plain, OutOfMemory>
        ensures { IfOk result (λ plain. plain ≡ moments_of (system_of doc.now) first_history) }
    {
        let conflict_set = list_instances(alloc, doc, &Facts::new(alloc))?;
        let mut marks = Vec::new(alloc);
        for _ in conflict_set.as_slice() {
            marks.push(Mark {
                age: 1,
                refracted: false,
            })?;
        }
        let mut moments = Vec::new(alloc);
        moments.push(Moment {
            conflict_set,
            pick: None,
        })?;
        Ok(Plain { moments, marks })
    }

    /// Puts the next state in front, with the instance whose firing led to it, where one did. After want
    /// of memory the history is as before.
    ///
    /// It lists the state's conflict set from scratch, and looks for each of its instances in the one
    /// before, by as many comparisons as the logarithm of its length.
    pub fn push(
        &mut self,
        alloc: Global,
        doc: &SafeDoc,
        facts: &Facts,
        pick: Option<Instance>,
    ) -> Result<(), OutOfMemory>
        ensures ok { OnOk result (self.new
            ≡ record { conflict_set = (system_of doc.now).instances facts.now.list; pick = pick } ∷ self.old) }
        ensures err { OnErr result (self.new ≡ self.old) }
    {
        let conflict_set = list_instances(alloc, doc, facts)?;
        let marks = self.marks_after(alloc, &pick, conflict_set.as_slice())?;
        self.moments.push(Moment { conflict_set, pick })?;
        self.marks = marks;
        Ok(())
    }

    /// The newest conflict set, in order, in constant time.
    pub fn conflict_set(&self) -> &[Instance]
        ensures instances { result.now ≡ newest_conflict_set self.now }
        ensures ordered { IsSet instance_cmp result.now }
    {
        match self.moments.as_slice().last() {
            Some(newest) => newest.conflict_set.as_slice(),
            None => unreachable!(),
        }
    }

    /// What the history says of each instance of the newest conflict set, in constant time.
    pub fn marks(&self) -> &[Mark]
        ensures { result.now ≡ map (mark_of self.now) (newest_conflict_set self.now) }
    {
        self.marks.as_slice()
    }

    // How many moments there are.
    fn len(&self) -> usize
        ensures { result ≡ length self.now }
    {
        self.moments.len()
    }

    // What the history says of each of these instances after one more state whose conflict set has them.
    fn marks_after(
        &self,
        alloc: Global,
        pick: &Option<Instance>,
        instances: &[Instance],
    ) -> Result<Vec<Mark>, OutOfMemory>
        ensures { IfOk result (λ marks. marks.items ≡ map (next_mark pick.now self.now) instances.now) }
    {
        let mut marks = Vec::new(alloc);
        for instance in instances {
            marks.push(self.mark_after(pick, instance))?;
        }
        Ok(marks)
    }

    // What the history says of the instance after one more state whose conflict set has it.
    fn mark_after(&self, pick: &Option<Instance>, instance: &Instance) -> Mark
        ensures { result ≡ next_mark pick.now self.now instance.now }
    {
        match place_in(self.conflict_set(), instance) {
            Some(place) => {
                let before = self.marks.as_slice()[place];
                Mark {
                    age: before.age + 1,
                    refracted: before.refracted || has_fired(pick, instance),
                }
            }
            None => Mark {
                age: 1,
                refracted: false,
            },
        }
    }
}

// Whether the firing of the instance led to the state.
fn has_fired(pick: &Option<Instance>, instance: &Instance) -> bool
    ensures { result ≡ is_pick pick.now instance.now }
{
    match pick {
        Some(picked) => picked.cmp(instance).is_eq(),
        None => false,
    }
}

// Where the instance stands among some instances.
fn place_in(instances: &[Instance], instance: &Instance) -> Option<usize>
    requires { IsSet instance_cmp instances.now }
    ensures some { IfSome result (λ place. slice_get instances.now place ≡ Some instance.now) }
    ensures none { IfNone result (has instance_cmp instances.now instance.now ≡ false) }
{
    match find_in_set(instances, instance) {
        Ok(place) => Some(place),
        Err(_) => None,
    }
}
