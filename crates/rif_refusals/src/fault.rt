ghost use Rattle.std.specs.Prelude.{◌≡◌, IfOk};

use crate::refusal::Refusal;
use rif_values::OutOfMemory;
use std::alloc::{AllocError, AllocFailed};
use thiserror::Error;

/// Why a call that reads a document or a job gives none.
#[derive(Debug, Drop, Error)]
pub enum Fault {
    /// The input has a refusal.
    #[error("{0}")]
    Refused(Refusal),
    /// No memory was found.
    #[error("out of memory")]
    OutOfMemory,
}

impl Fault {
    /// An equal fault, in constant time.
    pub fn copy(&self) -> Result<Fault, OutOfMemory>
        ensures { IfOk result (λ copy. copy ≡ self.now) }
    {
        match self {
            Fault::Refused(refusal) => Ok(Fault::Refused(refusal.copy()?)),
            Fault::OutOfMemory => Ok(Fault::OutOfMemory),
        }
    }
}

impl From<OutOfMemory> for Fault {
    ghost use Rattle.std.specs.Prelude.{◌≡◌};
    ghost use Rattle.rif_refusals.specs.declared.fault.Fault.TheVariants.{OutOfMemory};

    ghost from_gives = { λ _ fault. fault ≡ OutOfMemory };

    fn from(_: OutOfMemory) -> Fault {
        Fault::OutOfMemory
    }
}

impl From<AllocError> for Fault {
    ghost use Rattle.std.specs.Prelude.{◌≡◌};
    ghost use Rattle.rif_refusals.specs.declared.fault.Fault.TheVariants.{OutOfMemory};

    ghost from_gives = { λ _ fault. fault ≡ OutOfMemory };

    fn from(_: AllocError) -> Fault {
        Fault::OutOfMemory
    }
}

impl<T: Drop> From<AllocFailed<T>> for Fault {
    ghost use Rattle.std.specs.Prelude.{◌≡◌};
    ghost use Rattle.rif_refusals.specs.declared.fault.Fault.TheVariants.{OutOfMemory};

    ghost from_gives = { λ _ fault. fault ≡ OutOfMemory };

    fn from(_: AllocFailed<T>) -> Fault {
        Fault::OutOfMemory
    }
}
