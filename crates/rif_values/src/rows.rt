//! The pairs of a row with one more variable, and without some.
ghost use Rattle.std.specs.Prelude.{◌≡◌, ◌≤◌, ◌++◌, ◌∷◌, ◌==◌, IfOk, OnOk, [], if◌then◌else◌, length, take, drop};
ghost use Rattle.std.specs.List.{list_any};
ghost use Rattle.rif_values.specs.Bindings.{bound, without_variables};
ghost use Rattle.rif_values.specs.declared.constant.Const.{Const};

use crate::constant::Const;
use crate::listed::Listed;
use crate::out_of_memory::OutOfMemory;
use std::alloc::Global;

/// The pairs of a row with one more variable, at its place, at the cost of a copy of the row.
pub fn pairs_with(
    alloc: Global,
    pairs: &[(u32, Const)],
    var: u32,
    constant: &Const,
) -> Result<Listed<(u32, Const)>, OutOfMemory>
    ensures { IfOk result (λ longer. longer ≡ bound pairs.now var constant.now) }
{
    let mut items = pairs.to_vec(alloc)?;
    items.insert(place_of(pairs, var), (var, constant.copy()?))?;
    Ok(Listed::from_vec(items))
}

// The place at which a variable is put among the pairs.
fn place_of(pairs: &[(u32, Const)], var: u32) -> usize
    ensures within { result ≤ length pairs.now }
    ensures place { (c : Const) → bound pairs.now var c ≡ take result pairs.now ++ (var, c) ∷ drop result pairs.now }
{
    let mut place = 0;
    while place < pairs.len() && pairs[place].0 <= var {
        place += 1;
    }
    place
}

/// The pairs of a row without some variables.
pub fn pairs_without(
    alloc: Global,
    vars: &[u32],
    pairs: &[(u32, Const)],
) -> Result<Vec<(u32, Const)>, OutOfMemory>
    ensures { IfOk result (λ shorter. shorter.items ≡ without_variables vars.now pairs.now) }
{
    let mut items = Vec::new(alloc);
    for pair in pairs {
        push_kept(&mut items, pair, !has_var(vars, pair.0))?;
    }
    Ok(items)
}

// Puts a copy of a pair at the end, where it is kept.
fn push_kept(
    items: &mut Vec<(u32, Const)>,
    pair: &(u32, Const),
    kept: bool,
) -> Result<(), OutOfMemory>
    ensures { OnOk result (items.new.items ≡ items.old.items ++ (if kept then pair.now ∷ [] else [])) }
{
    if kept {
        items.push((pair.0, pair.1.copy()?))?;
    }
    Ok(())
}

fn has_var(vars: &[u32], var: u32) -> bool
    ensures { result ≡ list_any (λ v. v == var) vars.now }
{
    vars.iter().any(|v| *v == var)
}
