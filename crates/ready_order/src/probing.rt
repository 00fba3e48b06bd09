//! Whether a formula may be arranged: a test that comes before each try, so that none is in vain.
//!
//! It rests on the law that what can be arranged can be where more variables are bound. A member of an `And` that was
//! found ready stays so while the formulas around it are tested for more and more that is bound: `Findings` keeps
//! that, and it isn't found again. Whatever the findings are, an answer no is right; where they were wrong, an answer
//! yes could cost a try in vain.
ghost use Rattle.std.specs.Prelude.{◌≡◌, ◌++◌, false, map, length, Some, None, IfOk, IfSome, OnOk, [], if◌then◌else◌};
ghost use Rattle.std.specs.Option.{option_map};
ghost use Rattle.rif_tree.specs.Variables.{has_all};
ghost use Rattle.rif_tree.specs.declared.tree.Formula.TheVariants.{Not};
ghost use Rattle.ready_order.specs.Arranging.{piece_of, arranged, first_ready, members_at, branch_at, branches_at};
ghost use Rattle.ready_order.specs.Arranging.{free_in_pieces};
ghost use Rattle.ready_order.specs.Findings.{marked_of};
ghost use Rattle.ready_order.specs.Marks.{pieces_left, untaken};

use crate::findings::{Findings, place_after};
use crate::progress::are_all;
use crate::readiness::is_plain_ready;
use crate::variables::{binds_all, free_in_each, is_closed, push_free};
use rif_tree::{Formula, readiness_grows};
use rif_values::OutOfMemory;
use sqlite_items::Items;
use std::alloc::Global;

/// Whether a formula may be arranged for what is bound: where the answer is no, it can't be. Its places among the
/// findings begin at `start`.
///
/// Where a formula is tested again and again, for more and more that is bound, a formula inside it is tested as
/// often, and at most once more for each member of the `And`s around that one. A test goes over its formula, and
/// compares each variable in it with those bound or declared.
#[cycle(probed)]
#[tactic(auto, using(crate::proofs::ProbingLemmas::and_may, crate::proofs::ProbingLemmas::or_may))]
pub(crate) fn may_be_arranged(
    alloc: Global,
    findings: &mut Findings,
    start: usize,
    bound: &[u32],
    formula: &Formula,
) -> Result<bool, OutOfMemory>
    ensures { IfOk result (λ may. may ≡ false → arranged bound.now formula.now ≡ None) }
{
    let inside = start.checked_add(1).ok_or(OutOfMemory)?;
    match formula {
        Formula::And(members) => {
            may_all_be_taken(alloc, findings, inside, bound, members.as_slice())
        }
        Formula::Or(branches) => {
            let all = free_in_each(alloc, branches.as_slice())?;
            may_each_be_arranged(
                alloc,
                findings,
                inside,
                bound,
                all.as_slice(),
                branches.as_slice(),
            )
        }
        Formula::Not(inner) => may_be_negated(alloc, findings, inside, bound, inner.get()),
        Formula::Exists(_, inner) => may_be_arranged(alloc, findings, inside, bound, inner.get()),
        Formula::Equal(..)
        | Formula::Member(..)
        | Formula::Frame(..)
        | Formula::Atom(..)
        | Formula::Holds(..) => is_plain_ready(alloc, bound, formula),
    }
}

// Whether the members of an `And` may all be taken. Each turn but the last finds more of them.
#[cycle(probed)]
fn may_all_be_taken(
    alloc: Global,
    findings: &mut Findings,
    start: usize,
    bound: &[u32],
    members: &[Formula],
) -> Result<bool, OutOfMemory>
    ensures { IfOk result (λ may. may ≡ false → members_at bound.now (map piece_of members.now) ≡ None) }
{
    for _turn in 0..members.len() {
        let outcome = find_more(alloc, findings, start, bound, members)?;
        match outcome {
            None => {}
            Some(are_all_found) => return Ok(are_all_found),
        }
    }
    Ok(true)
}

// Finds the members of an `And` that may be taken behind those found before, and answers nothing then. Where there is
// none, whether all are found.
#[cycle(probed)]
fn find_more(
    alloc: Global,
    findings: &mut Findings,
    start: usize,
    bound: &[u32],
    members: &[Formula],
) -> Result<Option<bool>, OutOfMemory>
    ensures { IfOk result
        (λ found.
        IfSome found (λ all. all ≡ false → members_at bound.now (map piece_of members.now) ≡ None)) }
{
    readiness_grows();
    let is_found = found_before(alloc, findings, start, members)?;
    let held = held_behind(alloc, bound, members, is_found.as_slice())?;
    if are_more_found(
        alloc,
        findings,
        start,
        held.as_slice(),
        members,
        is_found.as_slice(),
    )? {
        Ok(None)
    } else {
        Ok(Some(are_all(is_found.as_slice())))
    }
}

// Which members of an `And` were found ready before.
fn found_before(
    alloc: Global,
    findings: &Findings,
    start: usize,
    members: &[Formula],
) -> Result<Items<bool>, OutOfMemory>
    ensures { IfOk result (λ found. length found ≡ length members.now) }
{
    let mut is_found = Vec::new(alloc);
    let mut place = start;
    for member in members {
        is_found.push(findings.is_ready(place))?;
        place = place_after(place, member)?;
    }
    Ok(Items::from_vec(is_found))
}

// What is bound behind the members that are marked.
fn held_behind(
    alloc: Global,
    bound: &[u32],
    members: &[Formula],
    is_found: &[bool],
) -> Result<Items<u32>, OutOfMemory>
    requires marks { length is_found.now ≡ length members.now }
    ensures { IfOk result
        (λ held. held ≡ bound.now ++ free_in_pieces (map piece_of (marked_of members.now is_found.now))) }
{
    let mut held = bound.to_vec(alloc)?;
    for place in 0..members.len() {
        push_free_where(alloc, &mut held, &members[place], is_found[place])?;
    }
    Ok(Items::from_vec(held))
}

fn push_free_where(
    alloc: Global,
    held: &mut Vec<u32>,
    member: &Formula,
    is_found: bool,
) -> Result<(), OutOfMemory>
    ensures { OnOk result
        (held.new.items ≡ held.old.items ++ (if is_found then (piece_of member.now).free else [])) }
{
    if is_found {
        push_free(alloc, held, member)?;
    }
    Ok(())
}

// Finds the members that aren't marked and may be arranged for what is held, and answers whether there is one.
#[cycle(probed)]
fn are_more_found(
    alloc: Global,
    findings: &mut Findings,
    start: usize,
    held: &[u32],
    members: &[Formula],
    is_found: &[bool],
) -> Result<bool, OutOfMemory>
    requires marks { length is_found.now ≡ length members.now }
    ensures { IfOk result
        (λ more. more ≡ false → first_ready held.now (pieces_left members.now is_found.now) ≡ None) }
{
    let mut start = start;
    let mut is_more = false;
    for place in 0..members.len() {
        let member = &members[place];
        let is_one = is_one_more(alloc, findings, start, held, member, is_found[place])?;
        is_more = is_more | is_one;
        start = place_after(start, member)?;
    }
    Ok(is_more)
}

#[cycle(probed)]
fn is_one_more(
    alloc: Global,
    findings: &mut Findings,
    start: usize,
    held: &[u32],
    member: &Formula,
    is_found: bool,
) -> Result<bool, OutOfMemory>
    ensures { IfOk result (λ may. may ≡ false → untaken is_found (arranged held.now member.now) ≡ None) }
{
    if is_found {
        return Ok(false);
    }
    let may = may_be_arranged(alloc, findings, start, held, member)?;
    findings.tell(start, may);
    Ok(may)
}

// Whether each branch of an `Or` may be arranged and then binds, or finds bound, all these variables.
#[cycle(probed)]
fn may_each_be_arranged(
    alloc: Global,
    findings: &mut Findings,
    start: usize,
    bound: &[u32],
    all: &[u32],
    branches: &[Formula],
) -> Result<bool, OutOfMemory>
    ensures { IfOk result
        (λ may. may ≡ false → branches_at bound.now all.now (map piece_of branches.now) ≡ None) }
{
    let mut start = start;
    for branch in branches {
        if !may_bind_all(alloc, findings, start, bound, all, branch)? {
            return Ok(false);
        }
        start = place_after(start, branch)?;
    }
    Ok(true)
}

#[cycle(probed)]
fn may_bind_all(
    alloc: Global,
    findings: &mut Findings,
    start: usize,
    bound: &[u32],
    all: &[u32],
    branch: &Formula,
) -> Result<bool, OutOfMemory>
    ensures { IfOk result (λ may. may ≡ false → branch_at bound.now all.now (piece_of branch.now) ≡ None) }
{
    if binds_all(alloc, bound, all, branch)? {
        may_be_arranged(alloc, findings, start, bound, branch)
    } else {
        Ok(false)
    }
}

// Whether a negation may be arranged.
#[cycle(probed)]
fn may_be_negated(
    alloc: Global,
    findings: &mut Findings,
    start: usize,
    bound: &[u32],
    inner: &Formula,
) -> Result<bool, OutOfMemory>
    ensures { IfOk result
        (λ may.
        may ≡ false
        → (if has_all bound.now (piece_of inner.now).free
        then option_map (λ f. Not f) (arranged bound.now inner.now)
        else None)
        ≡ None) }
{
    if is_closed(alloc, bound, inner)? {
        may_be_arranged(alloc, findings, start, bound, inner)
    } else {
        Ok(false)
    }
}
