//! What was taken of some conjuncts, and what is left.
ghost use Rattle.std.specs.Prelude.{◌≡◌, Some, IfOk, if◌then◌else◌};
ghost use Rattle.rif_tree.specs.Variables.{without};
ghost use Rattle.ready_order.specs.Arranging.{least_of, least_unbound, least_with};
ghost use Rattle.ready_order.specs.Divisions.{arrangement_told};

use crate::variables::push_each_occurring;
use rif_tree::{Formula, has_variable};
use rif_values::OutOfMemory;
use sqlite_items::Items;
use std::alloc::Global;

/// The conjuncts that were taken, in a ready order and arranged within, those that are left as none of them is
/// ready, and the variables that are bound then.
#[derive(Debug, Drop)]
pub struct Division {
    pub taken: Items<Formula>,
    pub left: Items<Formula>,
    pub bound: Items<u32>,
}

impl Division {
    /// The least variable that occurs in the conjuncts left and isn't bound, where there is one.
    pub fn least_unbound(&self, alloc: Global) -> Result<Option<u32>, OutOfMemory>
        ensures { IfOk result (λ least. least ≡ least_unbound (arrangement_told self.now)) }
    {
        let mut occurring = Vec::new(alloc);
        push_each_occurring(&mut occurring, self.left.as_slice())?;
        Ok(least_without(self.bound.as_slice(), occurring.as_slice()))
    }
}

fn least_without(bound: &[u32], vars: &[u32]) -> Option<u32>
    ensures { result ≡ least_of (without bound.now vars.now) }
{
    let mut least = None;
    for var in vars {
        least = lesser_unless(has_variable(bound, *var), *var, least);
    }
    least
}

fn lesser_unless(is_bound: bool, var: u32, least: Option<u32>) -> Option<u32>
    ensures { result ≡ (if is_bound then least else Some (least_with var least)) }
{
    if is_bound {
        return least;
    }
    match least {
        None => Some(var),
        Some(least) => Some(var.min(least)),
    }
}
