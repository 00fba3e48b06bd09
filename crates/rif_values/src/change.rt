ghost use Rattle.std.specs.Prelude.{◌≡◌, IfOk};

use crate::binding::Binding;
use crate::constant::Const;
use crate::fact::Fact;
use crate::listed::Listed;
use crate::out_of_memory::OutOfMemory;
use std::alloc::AllocError;

/// A change of facts that a client asks for, or that an action makes.
///
/// Source: RIF-PRD, "Actions"; `Modify` replaces all values of a slot.
#[derive(Debug, PartialEq, Eq, Drop)]
pub enum Change {
    /// Adds a fact.
    Assert(Fact),
    /// Takes a fact away.
    Retract(Fact),
    /// Takes away every value of an object's slot.
    RetractSlot(Const, Const),
    /// Takes away every frame and membership of an object.
    RetractObject(Const),
    /// Takes away every value of an object's slot, and adds one.
    Modify(Const, Const, Const),
}

impl Change {
    /// An equal change, at the cost of a copy of its fact.
    pub fn copy(&self) -> Result<Change, OutOfMemory>
        ensures { IfOk result (λ copy. copy ≡ self.now) }
    {
        Ok(self.clone()?)
    }
}

impl Clone for Change {
    ghost is_clone = { λ change copy. copy ≡ change };

    fn clone(&self) -> Result<Change, AllocError> {
        match self {
            Change::Assert(fact) => Ok(Change::Assert(fact.clone()?)),
            Change::Retract(fact) => Ok(Change::Retract(fact.clone()?)),
            Change::RetractSlot(object, slot) => {
                Ok(Change::RetractSlot(object.clone()?, slot.clone()?))
            }
            Change::RetractObject(object) => Ok(Change::RetractObject(object.clone()?)),
            Change::Modify(object, slot, value) => {
                Ok(Change::Modify(object.clone()?, slot.clone()?, value.clone()?))
            }
        }
    }
}

/// The net change from one state of facts to another. Both lists are in order and without repeats, and
/// they have no fact in common.
#[derive(Debug, PartialEq, Eq, Drop)]
pub struct Delta {
    pub added: Listed<Fact>,
    pub removed: Listed<Fact>,
}

impl Delta {
    /// An equal delta, at the cost of a copy of each fact in it.
    pub fn copy(&self) -> Result<Delta, OutOfMemory>
        ensures { IfOk result (λ copy. copy ≡ self.now) }
    {
        Ok(self.clone()?)
    }
}

impl Clone for Delta {
    ghost is_clone = { λ delta copy. copy ≡ delta };

    fn clone(&self) -> Result<Delta, AllocError> {
        Ok(Delta {
            added: self.added.clone()?,
            removed: self.removed.clone()?,
        })
    }
}

/// The net change from one set of bindings to another. Both lists are in order and without repeats, and
/// they have no binding in common.
#[derive(Debug, PartialEq, Eq, Drop)]
pub struct RowDelta {
    pub added: Listed<Binding>,
    pub removed: Listed<Binding>,
}

impl RowDelta {
    /// An equal delta, at the cost of a copy of each binding in it.
    pub fn copy(&self) -> Result<RowDelta, OutOfMemory>
        ensures { IfOk result (λ copy. copy ≡ self.now) }
    {
        Ok(self.clone()?)
    }
}

impl Clone for RowDelta {
    ghost is_clone = { λ delta copy. copy ≡ delta };

    fn clone(&self) -> Result<RowDelta, AllocError> {
        Ok(RowDelta {
            added: self.added.clone()?,
            removed: self.removed.clone()?,
        })
    }
}
