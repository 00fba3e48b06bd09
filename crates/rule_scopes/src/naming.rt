//! Variables that hold, and their numbers.
ghost use Rattle.std.specs.Prelude.{◌≡◌, ◌++◌, ◌∷◌, [], IfOk};
ghost use Rattle.rule_scopes.specs.Numbering.{innermost, number_in, namings_from, numbers_of};

use rif_values::OutOfMemory;
use sqlite_items::Items;
use std::alloc::Global;

/// A variable that holds, and the number that stands for it.
#[derive(Clone, Copy)]
pub struct Naming {
    /// The variable, as its place in the rule's names.
    pub var: u32,
    /// Its number.
    pub number: u32,
}

/// The number of the innermost declaration of a variable, and 0 where it doesn't hold; at the cost of a walk through
/// what holds.
#[tactic(auto, using(crate::proofs::NumberingLemmas::number_next))]
pub fn number_in(scope: &[Naming], var: u32) -> u32
    ensures { result ≡ number_in scope.now var }
{
    let mut number = 0;
    for naming in scope {
        if naming.var == var {
            number = naming.number;
        }
    }
    number
}

/// A list of declarations, which have the numbers from `next` on. Past `u32::MAX` there is no memory for them.
pub fn namings_from(alloc: Global, next: u32, vars: &[u32]) -> Result<Vec<Naming>, OutOfMemory>
    ensures { IfOk result (λ namings. namings.items ≡ namings_from next vars.now) }
{
    let mut namings = Vec::new(alloc);
    let mut number = next;
    for var in vars {
        namings.push(Naming { var: *var, number })?;
        number = number.checked_add(1).ok_or(OutOfMemory)?;
    }
    Ok(namings)
}

/// Their numbers.
pub fn numbers_of(alloc: Global, namings: &[Naming]) -> Result<Items<u32>, OutOfMemory>
    ensures { IfOk result (λ numbers. numbers ≡ numbers_of namings.now) }
{
    let mut numbers = Vec::new(alloc);
    for naming in namings {
        numbers.push(naming.number)?;
    }
    Ok(Items::from_vec(numbers))
}

/// What holds inside these declarations.
pub fn scope_inside(
    alloc: Global,
    scope: &[Naming],
    namings: &[Naming],
) -> Result<Vec<Naming>, OutOfMemory>
    ensures { IfOk result (λ inside. inside.items ≡ scope.now ++ namings.now) }
{
    let mut inside = scope.to_vec(alloc)?;
    inside.extend_from_slice(namings)?;
    Ok(inside)
}
