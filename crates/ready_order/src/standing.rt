//! Whether conjuncts stand ready as they are, so that they may be taken in their order.
ghost use Rattle.std.specs.Prelude.{◌≡◌, ◌++◌, true, map, IfOk};
ghost use Rattle.std.specs.List.{list_all};
ghost use Rattle.rif_tree.specs.declared.tree.Formula.TheVariants.{Or};
ghost use Rattle.rif_tree.specs.Ready.{part_of, is_ready, each_ready, branch_ready};
ghost use Rattle.ready_order.specs.Arranging.{piece_of, free_in_pieces};

use crate::readiness::is_plain_ready;
use crate::variables::{binds_all, free_in_each, is_closed, push_free};
use rif_tree::Formula;
use rif_values::OutOfMemory;
use std::alloc::Global;

/// Whether conjuncts are ready in their order, for what is held. Those that are ready put their free variables behind
/// it.
///
/// It goes over each conjunct once, compares each variable in it with those held, and takes no memory but for what is
/// held and for an `And`, `Or` or `Not` inside a conjunct.
#[cycle(standing)]
#[tactic(auto, using(crate::proofs::StayingLemmas::free_alike))]
pub(crate) fn stand_in_turn(
    alloc: Global,
    held: &mut Vec<u32>,
    conjuncts: &[Formula],
) -> Result<bool, OutOfMemory>
    ensures ready { IfOk result (λ ready. ready ≡ each_ready (map part_of conjuncts.now) held.old.items) }
    ensures held { IfOk result
        (λ ready. ready ≡ true → held.new.items ≡ held.old.items ++ free_in_pieces (map piece_of conjuncts.now)) }
{
    for conjunct in conjuncts {
        if !stands_ready(alloc, held.as_slice(), conjunct)? {
            return Ok(false);
        }
        push_free(alloc, held, conjunct)?;
    }
    Ok(true)
}

// Whether a formula is ready as it stands.
#[cycle(standing)]
#[tactic(auto, using(crate::proofs::StayingLemmas::ready_at_forms))]
fn stands_ready(alloc: Global, bound: &[u32], formula: &Formula) -> Result<bool, OutOfMemory>
    ensures { IfOk result (λ ready. ready ≡ is_ready bound.now formula.now) }
{
    match formula {
        Formula::And(members) => {
            let mut held = bound.to_vec(alloc)?;
            stand_in_turn(alloc, &mut held, members.as_slice())
        }
        Formula::Or(branches) => or_stands(alloc, bound, branches.as_slice()),
        Formula::Not(inner) => {
            Ok(is_closed(alloc, bound, inner.get())? && stands_ready(alloc, bound, inner.get())?)
        }
        Formula::Exists(_, inner) => stands_ready(alloc, bound, inner.get()),
        Formula::Equal(..)
        | Formula::Member(..)
        | Formula::Frame(..)
        | Formula::Atom(..)
        | Formula::Holds(..) => is_plain_ready(alloc, bound, formula),
    }
}

// Whether the `Or` of these branches is ready as it stands.
#[cycle(standing)]
fn or_stands(alloc: Global, bound: &[u32], branches: &[Formula]) -> Result<bool, OutOfMemory>
    ensures { IfOk result (λ ready. ready ≡ is_ready bound.now (Or branches.now)) }
{
    let all = free_in_each(alloc, branches)?;
    let are_standing = branches_stand(alloc, bound, all.as_slice(), branches)?;
    Ok(are_standing)
}

// Whether each branch of an `Or` is ready as it stands, and then binds, or finds bound, all these variables.
#[cycle(standing)]
fn branches_stand(
    alloc: Global,
    bound: &[u32],
    all: &[u32],
    branches: &[Formula],
) -> Result<bool, OutOfMemory>
    ensures { IfOk result
        (λ ready. ready ≡ list_all (branch_ready bound.now all.now) (map part_of branches.now)) }
{
    for branch in branches {
        if !branch_stands(alloc, bound, all, branch)? {
            return Ok(false);
        }
    }
    Ok(true)
}

#[cycle(standing)]
#[tactic(auto, using(crate::proofs::StayingLemmas::free_alike))]
fn branch_stands(
    alloc: Global,
    bound: &[u32],
    all: &[u32],
    branch: &Formula,
) -> Result<bool, OutOfMemory>
    ensures { IfOk result (λ ready. ready ≡ branch_ready bound.now all.now (part_of branch.now)) }
{
    Ok(stands_ready(alloc, bound, branch)? && binds_all(alloc, bound, all, branch)?)
}
