ghost use Rattle.std.specs.Prelude.{◌≡◌, [], IfOk, None, Some};
ghost use Rattle.std.specs.Option.{option_copied};
ghost use Rattle.rif_values.specs.Order.{binding_cmp};
ghost use Rattle.rif_values.specs.Bindings.{IsBinding, bound, value_at, without_variables};

use crate::constant::Const;
use crate::out_of_memory::OutOfMemory;
use crate::rows::{pairs_with, pairs_without};
use crate::shared::Shared;
use std::alloc::{AllocError, Global};
use std::cmp::Ordering;
use std::marker::Model;

/// The values of some variables. Contracts see it as the list of its pairs of a variable and its value,
/// whose variables rise. Bindings are ordered as these lists are: on bindings of the same variables that
/// is by their values in order of variable.
///
/// Source: RIF-PRD, "Matching substitution"; the order is our own (docs/PROFILE.md, "Order").
#[derive(Debug, PartialEq, Eq, PartialOrd, Ord, Hash, Drop)]
pub struct Binding {
    pairs: Shared<(u32, Const)>,
}

impl Model for Binding {
    ghost use Rattle.rif_values.specs.Bindings.{IsBinding, Row};

    ghost Value = { Row };

    ghost view = { λ binding. binding.pairs };

    ghost invariant = { λ binding. IsBinding binding.pairs };

    ghost inverse = { λ pairs. record { pairs = pairs } };
}

impl Binding {
    /// The binding of no variable. It takes memory of constant size.
    pub fn new(alloc: Global) -> Result<Binding, OutOfMemory>
        ensures { IfOk result (λ binding. binding ≡ []) }
    {
        let pairs = Shared::from_vec(alloc, Vec::new(alloc))?;
        Ok(Binding::from_pairs(pairs))
    }

    /// The binding of these pairs, whose variables must rise, in constant time and without memory.
    pub fn from_pairs(pairs: Shared<(u32, Const)>) -> Binding
        requires { IsBinding pairs }
        ensures { result ≡ pairs }
    {
        Binding { pairs }
    }

    /// The pairs of a variable and its value, in order of variable, in constant time.
    pub fn pairs(&self) -> &[(u32, Const)]
        ensures pairs { result.now ≡ self.now }
        ensures rising { IsBinding self.now }
    {
        self.pairs.as_slice()
    }

    /// The value of a variable, or None where it has none. It looks at the variables below it.
    pub fn get(&self, var: u32) -> Option<&Const>
        ensures { option_copied result ≡ value_at self.now var }
    {
        for pair in self.pairs.as_slice() {
            if pair.0 == var {
                return Some(&pair.1);
            }
        }
        None
    }

    /// The binding with the value of one more variable, which must have none here, at the cost of a copy of
    /// the list of pairs.
    ///
    /// Source: RIF-PRD, "Matching substitution".
    pub fn with(&self, alloc: Global, var: u32, constant: &Const) -> Result<Binding, OutOfMemory>
        requires { value_at self.now var ≡ None }
        ensures { IfOk result (λ longer. longer ≡ bound self.now var constant.now) }
    {
        let pairs = pairs_with(alloc, self.pairs(), var, constant)?;
        let shared = Shared::from_vec(alloc, pairs.into_vec())?;
        Ok(Binding::from_pairs(shared))
    }

    /// The binding without the values of some variables. Each of its pairs is compared with each of these
    /// variables, and those that stay are copied.
    pub fn without(&self, alloc: Global, vars: &[u32]) -> Result<Binding, OutOfMemory>
        ensures { IfOk result (λ shorter. shorter ≡ without_variables vars.now self.now) }
    {
        let pairs = pairs_without(alloc, vars, self.pairs())?;
        let shared = Shared::from_vec(alloc, pairs)?;
        Ok(Binding::from_pairs(shared))
    }

    /// The order of bindings.
    ///
    /// Source: our own (docs/PROFILE.md, "Order").
    pub fn cmp(&self, other: &Binding) -> Ordering
        ensures { result ≡ binding_cmp self.now other.now }
    {
        Ord::cmp(self, other)
    }

    /// An equal binding, in constant time: the two share their pairs.
    pub fn copy(&self) -> Result<Binding, OutOfMemory>
        ensures { IfOk result (λ copy. copy ≡ self.now) }
    {
        Ok(self.clone()?)
    }
}

impl Clone for Binding {
    ghost is_clone = { λ binding copy. copy ≡ binding };

    fn clone(&self) -> Result<Binding, AllocError> {
        Ok(Binding {
            pairs: self.pairs.clone()?,
        })
    }
}
