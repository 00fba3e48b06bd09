ghost use Rattle.std.specs.Prelude.{◌≡◌, IfOk, slice_get};
ghost use Rattle.std.specs.Option.{option_copied};
ghost use Rattle.rif_values.specs.Order.{fact_cmp};
ghost use Rattle.rif_values.specs.Places.{places_of};

use crate::constant::Const;
use crate::out_of_memory::OutOfMemory;
use crate::shared::Shared;
use std::alloc::AllocError;
use std::cmp::Ordering;

/// A ground fact. Facts are ordered by kind, as the kinds stand here, and within a kind field by field.
///
/// Source: RIF-PRD, "Atomic formulas"; the order is our own (docs/PROFILE.md, "Order").
#[derive(Debug, PartialEq, Eq, PartialOrd, Ord, Hash, Drop)]
pub enum Fact {
    /// A predicate and its arguments.
    Atom(Const, Shared<Const>),
    /// An object, a slot and its value.
    Frame(Const, Const, Const),
    /// An object and its class.
    Member(Const, Const),
}

impl Fact {
    /// The order of facts: the kind first, then the fields, and an atom's arguments as a list with a
    /// proper prefix first.
    ///
    /// Source: our own (docs/PROFILE.md, "Order").
    pub fn cmp(&self, other: &Fact) -> Ordering
        ensures { result ≡ fact_cmp self.now other.now }
    {
        Ord::cmp(self, other)
    }

    /// The constant at one of the fact's places, counted from 0, or None where it has no such place. It takes
    /// constant time and makes no list.
    ///
    /// Source: our own; the places are those of `specs/Places.antt`.
    pub fn place(&self, at: usize) -> Option<&Const>
        ensures { option_copied result ≡ slice_get (places_of self.now) at }
    {
        match self {
            Fact::Atom(_, arguments) => arguments.get(at),
            Fact::Frame(object, slot, value) => [object, slot, value].get(at).copied(),
            Fact::Member(object, class) => [object, class].get(at).copied(),
        }
    }

    /// An equal fact, in constant time.
    pub fn copy(&self) -> Result<Fact, OutOfMemory>
        ensures { IfOk result (λ copy. copy ≡ self.now) }
    {
        Ok(self.clone()?)
    }
}

impl Clone for Fact {
    ghost is_clone = { λ fact copy. copy ≡ fact };

    fn clone(&self) -> Result<Fact, AllocError> {
        match self {
            Fact::Atom(predicate, arguments) => {
                Ok(Fact::Atom(predicate.clone()?, arguments.clone()?))
            }
            Fact::Frame(object, slot, value) => {
                Ok(Fact::Frame(object.clone()?, slot.clone()?, value.clone()?))
            }
            Fact::Member(object, class) => Ok(Fact::Member(object.clone()?, class.clone()?)),
        }
    }
}
