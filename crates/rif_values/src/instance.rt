ghost use Rattle.std.specs.Prelude.{◌≡◌, IfOk};
ghost use Rattle.rif_values.specs.InstanceOrder.{instance_cmp};

use crate::binding::Binding;
use crate::out_of_memory::OutOfMemory;
use std::alloc::AllocError;
use std::cmp::Ordering;

/// A rule instance: a rule, counted from 1, and the values of its variables. Instances are ordered by
/// rule, then by binding.
///
/// Source: RIF-PRD, "Definitions and notational conventions"; the order is our own (docs/PROFILE.md,
/// "Order").
#[derive(Debug, PartialEq, Eq, PartialOrd, Ord, Hash, Drop)]
pub struct Instance {
    pub rule: u32,
    pub row: Binding,
}

impl Instance {
    /// The order of instances.
    ///
    /// Source: our own (docs/PROFILE.md, "Order").
    pub fn cmp(&self, other: &Instance) -> Ordering
        ensures { result ≡ instance_cmp self.now other.now }
    {
        Ord::cmp(self, other)
    }

    /// An equal instance, at the cost of a copy of its binding.
    pub fn copy(&self) -> Result<Instance, OutOfMemory>
        ensures { IfOk result (λ copy. copy ≡ self.now) }
    {
        Ok(self.clone()?)
    }
}

impl Clone for Instance {
    ghost is_clone = { λ instance copy. copy ≡ instance };

    fn clone(&self) -> Result<Instance, AllocError> {
        Ok(Instance {
            rule: self.rule,
            row: self.row.clone()?,
        })
    }
}
