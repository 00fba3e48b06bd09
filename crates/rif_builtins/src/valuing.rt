//! Values of terms.
ghost use Rattle.std.specs.Prelude.{◌≡◌, IfOk};
ghost use Rattle.rif_values.specs.Bindings.{value_at};
ghost use Rattle.rif_builtins.specs.Values.{value_of, values_of};

use crate::builtins::apply_func;
use rif_tree::Term;
use rif_values::{Binding, Const, Listed, OutOfMemory};
use std::alloc::Global;

/// The value of a term under a row, where it has one. It visits the whole term.
pub fn value(alloc: Global, row: &Binding, term: &Term) -> Result<Option<Const>, OutOfMemory>
    ensures { IfOk result (λ found. found ≡ value_of row.now term.now) }
{
    value_in(alloc, row.pairs(), term)
}

/// The values of some terms under a row, where each has one.
pub fn values(
    alloc: Global,
    row: &Binding,
    terms: &[Term],
) -> Result<Option<Listed<Const>>, OutOfMemory>
    ensures { IfOk result (λ found. found ≡ values_of row.now terms.now) }
{
    values_in(alloc, row.pairs(), terms)
}

/// The value of a term under a row that is given as its pairs, where it has one.
#[cycle(values)]
pub fn value_in(
    alloc: Global,
    row: &[(u32, Const)],
    term: &Term,
) -> Result<Option<Const>, OutOfMemory>
    ensures { IfOk result (λ found. found ≡ value_of row.now term.now) }
{
    match term {
        Term::Const(constant) => Ok(Some(constant.copy()?)),
        Term::Var(var) => bound_value(row, *var),
        Term::Call(func, arguments) => {
            match values_in(alloc, row, arguments.as_slice())? {
                Some(values) => apply_func(alloc, *func, values.as_slice()),
                None => Ok(None),
            }
        }
    }
}

/// The values of some terms under a row that is given as its pairs, where each has one.
#[cycle(values)]
pub fn values_in(
    alloc: Global,
    row: &[(u32, Const)],
    terms: &[Term],
) -> Result<Option<Listed<Const>>, OutOfMemory>
    ensures { IfOk result (λ found. found ≡ values_of row.now terms.now) }
{
    let mut items = Vec::new(alloc);
    for term in terms {
        match value_in(alloc, row, term)? {
            Some(constant) => items.push(constant)?,
            None => return Ok(None),
        }
    }
    Ok(Some(Listed::from_vec(items)))
}

fn bound_value(row: &[(u32, Const)], var: u32) -> Result<Option<Const>, OutOfMemory>
    ensures { IfOk result (λ found. found ≡ value_at row.now var) }
{
    for pair in row {
        if pair.0 == var {
            return Ok(Some(pair.1.copy()?));
        }
    }
    Ok(None)
}
