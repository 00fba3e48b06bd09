ghost use Rattle.std.specs.Prelude.{◌≡◌, IfOk};
ghost use Rattle.rif_values.specs.declared.constant.Const.TheVariants.{Int};
ghost use Rattle.rif_values.specs.declared.integer.TheConstants.{LEAST_INTEGER};
ghost use Rattle.rif_values.specs.Facts.{is_slot_value};
ghost use Rattle.rif_facts.specs.declared.runs.Run.TheVariants.{Atoms, FramesOf, MembershipsOf};
ghost use Rattle.rif_facts.specs.Runs.{is_in_run, IsFirstOf};

use rif_values::{Const, Fact, LEAST_INTEGER, OutOfMemory, Shared, are_same};
use std::alloc::Global;

// Facts that stand next to each other in every state.
#[derive(Drop)]
pub(crate) enum Run {
    // the atoms of a predicate
    Atoms(Const),
    // the frames of an object and a slot
    SlotValues(Const, Const),
    FramesOf(Const),
    MembershipsOf(Const),
    Frames,
    Members,
}

impl Run {
    // Whether a fact is one of the run.
    pub(crate) fn has(&self, fact: &Fact) -> bool
        ensures { result ≡ is_in_run self.now fact.now }
    {
        match self {
            Run::Atoms(predicate) => is_atom_of(predicate, fact),
            Run::SlotValues(object, slot) => is_value_of(object, slot, fact),
            Run::FramesOf(object) => is_frame_of(object, fact),
            Run::MembershipsOf(object) => is_membership_of(object, fact),
            Run::Frames => matches!(fact, Fact::Frame(_, _, _)),
            Run::Members => matches!(fact, Fact::Member(_, _)),
        }
    }

    // A fact that is not above any of the run, and above all that come before the run.
    pub(crate) fn first(&self, alloc: Global) -> Result<Fact, OutOfMemory>
        ensures { IfOk result (IsFirstOf self.now) }
    {
        match self {
            Run::Atoms(predicate) => {
                let none = Shared::from_vec(alloc, Vec::new(alloc))?;
                Ok(Fact::Atom(predicate.copy()?, none))
            }
            Run::SlotValues(object, slot) => {
                Ok(Fact::Frame(object.copy()?, slot.copy()?, least()))
            }
            Run::FramesOf(object) => Ok(Fact::Frame(object.copy()?, least(), least())),
            Run::MembershipsOf(object) => Ok(Fact::Member(object.copy()?, least())),
            Run::Frames => Ok(Fact::Frame(least(), least(), least())),
            Run::Members => Ok(Fact::Member(least(), least())),
        }
    }
}

// The least constant.
fn least() -> Const
    ensures { result ≡ Int LEAST_INTEGER }
{
    Const::Int(LEAST_INTEGER)
}

fn is_atom_of(predicate: &Const, fact: &Fact) -> bool
    ensures { result ≡ is_in_run (Atoms predicate.now) fact.now }
{
    match fact {
        Fact::Atom(of, _) => are_same(predicate, of),
        _ => false,
    }
}

fn is_value_of(object: &Const, slot: &Const, fact: &Fact) -> bool
    ensures { result ≡ is_slot_value object.now slot.now fact.now }
{
    match fact {
        Fact::Frame(of, at, _) => are_same(object, of) && are_same(slot, at),
        _ => false,
    }
}

fn is_frame_of(object: &Const, fact: &Fact) -> bool
    ensures { result ≡ is_in_run (FramesOf object.now) fact.now }
{
    match fact {
        Fact::Frame(of, _, _) => are_same(object, of),
        _ => false,
    }
}

fn is_membership_of(object: &Const, fact: &Fact) -> bool
    ensures { result ≡ is_in_run (MembershipsOf object.now) fact.now }
{
    match fact {
        Fact::Member(of, _) => are_same(object, of),
        _ => false,
    }
}
