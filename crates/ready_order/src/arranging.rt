//! Conjuncts put into a ready order: the first one left that is ready is taken, again and again.
ghost use Rattle.std.specs.Prelude.{◌≡◌, ◌<◌, ◌++◌, [], ◌∷◌, true, false, map, length, IfOk, IfSome, OnOk};
ghost use Rattle.std.specs.Prelude.{Some, None, if◌then◌else◌};
ghost use Rattle.std.specs.List.{list_all};
ghost use Rattle.std.specs.Option.{option_map};
ghost use Rattle.rif_tree.specs.Variables.{has_all};
ghost use Rattle.rif_tree.specs.declared.tree.Formula.TheVariants.{And, Or, Not, Exists};
ghost use Rattle.ready_order.specs.Arranging.{Piece, piece_of, arranged, arrangement, arrangement_of, first_ready};
ghost use Rattle.ready_order.specs.Arranging.{members_at, branch_at, branches_at, free_in_pieces};
ghost use Rattle.ready_order.specs.Divisions.{arrangement_told};
ghost use Rattle.ready_order.specs.Marks.{left_of, pieces_left, progress_told, taking_told, untaken};

use crate::division::Division;
use crate::findings::Findings;
use crate::flattening::{conjuncts, own_conjuncts};
use crate::probing::may_be_arranged;
use crate::progress::{Found, Progress, are_all};
use crate::readiness::is_plain_ready;
use crate::standing::stand_in_turn;
use crate::variables::{binds_all, free_in, free_in_each, is_closed};
use rif_tree::Formula;
use rif_values::OutOfMemory;
use sqlite_items::{Boxed, Items};
use std::alloc::Global;

/// A condition's conjuncts, put into a ready order as far as that can be, at the cost of `conjuncts` and, where they
/// don't stand in one, `arrange_conjuncts`.
pub fn arrange(alloc: Global, condition: &Formula) -> Result<Division, OutOfMemory>
    ensures { IfOk result (λ done. arrangement_told done ≡ arrangement_of condition.now) }
{
    let all = conjuncts(alloc, condition)?;
    divide(alloc, all)
}

/// The same of a condition that is given up. Where its conjuncts stand ready in their order, they are taken as they
/// are: then it costs a walk through the condition, and, where it has another shape than arranged conditions, what
/// `conjuncts` does.
pub fn arrange_owned(alloc: Global, condition: Formula) -> Result<Division, OutOfMemory>
    ensures { IfOk result (λ done. arrangement_told done ≡ arrangement_of condition) }
{
    let all = own_conjuncts(alloc, condition)?;
    divide(alloc, all)
}

// Conjuncts put into a ready order. None is copied where they stand in one.
fn divide(alloc: Global, conjuncts: Items<Formula>) -> Result<Division, OutOfMemory>
    ensures { IfOk result (λ done. arrangement_told done ≡ arrangement [] (map piece_of conjuncts)) }
{
    let mut bound = Vec::new(alloc);
    if stand_in_turn(alloc, &mut bound, conjuncts.as_slice())? {
        Ok(Division {
            taken: conjuncts,
            left: Items::new(alloc),
            bound: Items::from_vec(bound),
        })
    } else {
        arrange_conjuncts(alloc, conjuncts.as_slice())
    }
}

/// Conjuncts put into a ready order as far as that can be, where no variable is bound before. They are what
/// `conjuncts` answers, so that each is arranged within.
///
/// What can be arranged can be where more variables are bound. So a test that keeps what it found before tells which
/// conjunct is ready, and each formula is arranged once. Of n formulas, at most d inside one another, there are at
/// most d n n tests; each goes over its formula, and compares each variable in it with those bound or declared.
pub fn arrange_conjuncts(alloc: Global, conjuncts: &[Formula]) -> Result<Division, OutOfMemory>
    ensures { IfOk result (λ done. arrangement_told done ≡ arrangement [] (map piece_of conjuncts.now)) }
{
    let none = Items::new(alloc);
    let done = take_ready(alloc, none.as_slice(), conjuncts)?;
    let left = copy_left(alloc, conjuncts, done.is_taken.as_slice())?;
    Ok(Division {
        taken: done.taken,
        left,
        bound: done.bound,
    })
}

// The conjuncts that aren't marked.
fn copy_left(
    alloc: Global,
    conjuncts: &[Formula],
    is_taken: &[bool],
) -> Result<Items<Formula>, OutOfMemory>
    requires marks { length is_taken.now ≡ length conjuncts.now }
    ensures { IfOk result (λ left. left ≡ left_of conjuncts.now is_taken.now) }
{
    let mut left = Items::new(alloc);
    for place in 0..conjuncts.len() {
        push_unless(alloc, &mut left, &conjuncts[place], is_taken[place])?;
    }
    Ok(left)
}

fn push_unless(
    alloc: Global,
    left: &mut Items<Formula>,
    conjunct: &Formula,
    is_taken: bool,
) -> Result<(), OutOfMemory>
    ensures { OnOk result (left.new ≡ left.old ++ (if is_taken then [] else conjunct.now ∷ [])) }
{
    if !is_taken {
        left.push(conjunct.copy(alloc)?)?;
    }
    Ok(())
}

// Takes the first one left that is ready, again and again.
#[cycle(arranged)]
fn take_ready(alloc: Global, bound: &[u32], conjuncts: &[Formula]) -> Result<Progress, OutOfMemory>
    ensures arranged { IfOk result
        (λ done. progress_told conjuncts.now done ≡ arrangement bound.now (map piece_of conjuncts.now)) }
    ensures marks { IfOk result (λ done. length done.is_taken ≡ length conjuncts.now) }
{
    let mut findings = Findings::new(alloc, conjuncts)?;
    let mut progress = Progress::new(alloc, bound, conjuncts.len())?;
    for turn in 0..conjuncts.len() {
        let outcome = next_ready(
            alloc,
            &mut findings,
            progress.bound.as_slice(),
            conjuncts,
            progress.is_taken.as_slice(),
        )?;
        match outcome {
            None => return Ok(progress),
            Some(found) => progress.take(found)?,
        }
    }
    Ok(progress)
}

// The first conjunct left that is ready.
#[cycle(arranged)]
fn next_ready(
    alloc: Global,
    findings: &mut Findings,
    bound: &[u32],
    conjuncts: &[Formula],
    is_taken: &[bool],
) -> Result<Option<Found>, OutOfMemory>
    requires marks { length is_taken.now ≡ length conjuncts.now }
    ensures within { IfOk result (λ found. IfSome found (λ f. f.place < length conjuncts.now)) }
    ensures found { IfOk result
        (λ found.
        first_ready bound.now (pieces_left conjuncts.now is_taken.now)
        ≡ option_map (taking_told conjuncts.now is_taken.now) found) }
{
    for place in 0..conjuncts.len() {
        let conjunct = &conjuncts[place];
        let outcome = tried(alloc, findings, place, bound, conjunct, is_taken[place])?;
        match outcome {
            None => {}
            Some(taken) => {
                let binds = free_in(alloc, conjunct)?;
                return Ok(Some(Found {
                    place,
                    taken,
                    binds,
                }));
            }
        }
    }
    Ok(None)
}

// A conjunct, arranged within, where it is left and ready. It is tried only where that isn't in vain.
#[cycle(arranged)]
fn tried(
    alloc: Global,
    findings: &mut Findings,
    place: usize,
    bound: &[u32],
    conjunct: &Formula,
    is_taken: bool,
) -> Result<Option<Formula>, OutOfMemory>
    ensures { IfOk result (λ found. found ≡ untaken is_taken (arranged bound.now conjunct.now)) }
{
    if is_taken {
        return Ok(None);
    }
    let start = findings.start_of(place);
    if may_be_arranged(alloc, findings, start, bound, conjunct)? {
        arranged(alloc, bound, conjunct)
    } else {
        Ok(None)
    }
}

// A formula, arranged within, where it can be for what is bound.
#[cycle(arranged)]
#[tactic(auto, using(crate::proofs::ArrangedLemmas::arranged_and, crate::proofs::ArrangedLemmas::arranged_or))]
fn arranged(alloc: Global, bound: &[u32], formula: &Formula) -> Result<Option<Formula>, OutOfMemory>
    ensures { IfOk result (λ found. found ≡ arranged bound.now formula.now) }
{
    match formula {
        Formula::And(members) => { Ok(as_and(arranged_members(alloc, bound, members.as_slice())?)) }
        Formula::Or(branches) => {
            let all = free_in_each(alloc, branches.as_slice())?;
            let kept = arranged_branches(alloc, bound, all.as_slice(), branches.as_slice())?;
            Ok(as_or(kept))
        }
        Formula::Not(inner) => arranged_negation(alloc, bound, inner.get()),
        Formula::Exists(vars, inner) => {
            let kept = arranged(alloc, bound, inner.get())?;
            as_exists(alloc, vars.as_slice(), kept)
        }
        Formula::Equal(..)
        | Formula::Member(..)
        | Formula::Frame(..)
        | Formula::Atom(..)
        | Formula::Holds(..) => {
            copied_where(alloc, is_plain_ready(alloc, bound, formula)?, formula)
        }
    }
}

// The members of an `And` in a ready order, where none is left.
#[cycle(arranged)]
fn arranged_members(
    alloc: Global,
    bound: &[u32],
    members: &[Formula],
) -> Result<Option<Items<Formula>>, OutOfMemory>
    ensures { IfOk result (λ found. found ≡ members_at bound.now (map piece_of members.now)) }
{
    let done = take_ready(alloc, bound, members)?;
    Ok(where_all_taken(done))
}

fn where_all_taken(done: Progress) -> Option<Items<Formula>>
    ensures { result ≡ (if list_all (λ mark. mark) done.is_taken then Some done.taken else None) }
{
    if are_all(done.is_taken.as_slice()) {
        Some(done.taken)
    } else {
        None
    }
}

// The branches of an `Or`, where each can be arranged and then binds, or finds bound, all these variables.
#[cycle(arranged)]
fn arranged_branches(
    alloc: Global,
    bound: &[u32],
    all: &[u32],
    branches: &[Formula],
) -> Result<Option<Items<Formula>>, OutOfMemory>
    ensures { IfOk result (λ found. found ≡ branches_at bound.now all.now (map piece_of branches.now)) }
{
    let mut kept = Vec::new(alloc);
    for branch in branches {
        let outcome = arranged_branch(alloc, bound, all, branch)?;
        match outcome {
            None => return Ok(None),
            Some(found) => kept.push(found)?,
        }
    }
    Ok(Some(Items::from_vec(kept)))
}

#[cycle(arranged)]
fn arranged_branch(
    alloc: Global,
    bound: &[u32],
    all: &[u32],
    branch: &Formula,
) -> Result<Option<Formula>, OutOfMemory>
    ensures { IfOk result (λ found. found ≡ branch_at bound.now all.now (piece_of branch.now)) }
{
    if binds_all(alloc, bound, all, branch)? {
        arranged(alloc, bound, branch)
    } else {
        Ok(None)
    }
}

// A negation, where all free variables of its formula are bound and it can be arranged.
#[cycle(arranged)]
fn arranged_negation(
    alloc: Global,
    bound: &[u32],
    inner: &Formula,
) -> Result<Option<Formula>, OutOfMemory>
    ensures { IfOk result
        (λ found.
        found
        ≡ (if has_all bound.now (piece_of inner.now).free
        then option_map (λ f. Not f) (arranged bound.now inner.now)
        else None)) }
{
    if is_closed(alloc, bound, inner)? {
        let kept = arranged(alloc, bound, inner)?;
        as_not(alloc, kept)
    } else {
        Ok(None)
    }
}

fn as_and(members: Option<Items<Formula>>) -> Option<Formula>
    ensures { result ≡ option_map (λ fs. And fs) members }
{
    match members {
        Some(members) => Some(Formula::And(members)),
        None => None,
    }
}

fn as_or(branches: Option<Items<Formula>>) -> Option<Formula>
    ensures { result ≡ option_map (λ fs. Or fs) branches }
{
    match branches {
        Some(branches) => Some(Formula::Or(branches)),
        None => None,
    }
}

fn as_not(alloc: Global, inner: Option<Formula>) -> Result<Option<Formula>, OutOfMemory>
    ensures { IfOk result (λ found. found ≡ option_map (λ f. Not f) inner) }
{
    match inner {
        Some(inner) => Ok(Some(Formula::Not(Boxed::new(alloc, inner)?))),
        None => Ok(None),
    }
}

fn as_exists(
    alloc: Global,
    vars: &[u32],
    inner: Option<Formula>,
) -> Result<Option<Formula>, OutOfMemory>
    ensures { IfOk result (λ found. found ≡ option_map (λ f. Exists vars.now f) inner) }
{
    match inner {
        Some(inner) => {
            let vars = Items::from_slice(alloc, vars)?;
            Ok(Some(Formula::Exists(vars, Boxed::new(alloc, inner)?)))
        }
        None => Ok(None),
    }
}

fn copied_where(
    alloc: Global,
    is_ready: bool,
    formula: &Formula,
) -> Result<Option<Formula>, OutOfMemory>
    ensures { IfOk result (λ found. found ≡ (if is_ready then Some formula.now else None)) }
{
    if is_ready {
        Ok(Some(formula.copy(alloc)?))
    } else {
        Ok(None)
    }
}
