ghost use Rattle.std.specs.Prelude.{◌≡◌, IfOk};

use crate::batch::Batch;
use rif_values::{Delta, Instance, OutOfMemory};
use std::alloc::AllocError;

/// What a session does after a batch.
///
/// Source: our own (docs/PROFILE.md, "Turns").
#[derive(Clone, Copy, Debug, PartialEq, Eq)]
pub enum Act {
    /// The session is idle.
    Idle,
    /// The batch ends in a Halt.
    Halted,
    /// The batch ends in a Dispose.
    Disposed,
    /// An instance was picked, and its actions were done.
    Fired,
    /// No instance is eligible, and the session was firing.
    StoppedQuiet,
    /// An instance is eligible, and the budget is spent.
    StoppedLimit,
    /// No instance is eligible, and the session waits for a halt.
    Resting,
}

/// What an act did to the facts.
///
/// Source: our own (docs/PROFILE.md, "Turns").
#[derive(Debug, PartialEq, Eq, Drop)]
pub enum Effect {
    /// The act was no firing.
    None,
    /// The fired block was void, and changed nothing.
    Void,
    /// The net change of the facts by a firing.
    Net(Delta),
}

impl Effect {
    /// An equal effect, at the cost of a copy of its facts.
    pub fn copy(&self) -> Result<Effect, OutOfMemory>
        ensures { IfOk result (λ copy. copy ≡ self.now) }
    {
        Ok(self.clone()?)
    }
}

impl Clone for Effect {
    ghost is_clone = { λ effect copy. copy ≡ effect };

    fn clone(&self) -> Result<Effect, AllocError> {
        match self {
            Effect::None => Ok(Effect::None),
            Effect::Void => Ok(Effect::Void),
            Effect::Net(delta) => Ok(Effect::Net(delta.clone()?)),
        }
    }
}

/// A turn: a batch, the act that it led to (None while one is owed), the instance that was picked where
/// the act is a firing, and what the act did.
///
/// Source: our own (docs/PROFILE.md, "Turns").
#[derive(Debug, PartialEq, Eq, Drop)]
pub struct Turn {
    pub batch: Batch,
    pub act: Option<Act>,
    pub pick: Option<Instance>,
    pub effect: Effect,
}

impl Turn {
    /// An equal turn, at the cost of a copy of its batch, pick and effect.
    pub fn copy(&self) -> Result<Turn, OutOfMemory>
        ensures { IfOk result (λ copy. copy ≡ self.now) }
    {
        Ok(self.clone()?)
    }
}

impl Clone for Turn {
    ghost is_clone = { λ turn copy. copy ≡ turn };

    fn clone(&self) -> Result<Turn, AllocError> {
        Ok(Turn {
            batch: self.batch.clone()?,
            act: self.act,
            pick: self.pick.clone()?,
            effect: self.effect.clone()?,
        })
    }
}
