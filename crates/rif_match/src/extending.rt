//! Rows taken through formulas: for each row, a pattern is tried on the facts that its key names.
ghost use Rattle.std.specs.Prelude.{◌≡◌, ◌++◌, [], ◌∷◌, IfOk, OnOk, map, filter, length, ◌==◌};
ghost use Rattle.std.specs.List.{filter_map, flat_map};
ghost use Rattle.rif_builtins.specs.Extensions.{base_of, matched, match_fact, in_turn, through, slots_of, equal_row};
ghost use Rattle.rif_builtins.specs.Extensions.{holds_at};
ghost use Rattle.rif_values.specs.Bindings.{without_variables};
ghost use Rattle.rif_builtins.specs.Values.{values_of};

use crate::gathering::{push_found, push_kept};
use crate::narrowing::narrowest_key;
use rif_builtins::{Pattern, fact_match, holds, term_match, value, values};
use rif_facts::Facts;
use rif_tree::{Formula, Pred, Term};
use rif_values::{Binding, OutOfMemory};
use sqlite_items::Items;
use std::alloc::Global;

/// The rows taken through a formula: each to the rows that extend it and satisfy the formula.
///
/// The cost of a pattern is, for each row, that of the facts that the narrowest key names which the row and the
/// pattern's constants determine.
///
/// Source: RIF-PRD, "Matching substitution" and "Condition satisfaction".
#[cycle(through)]
pub fn rows_through(
    alloc: Global,
    facts: &Facts,
    formula: &Formula,
    rows: Vec<Binding>,
) -> Result<Vec<Binding>, OutOfMemory>
    ensures { IfOk result (λ found. found.items ≡ through (base_of facts.now.list) formula.now rows.items) }
{
    match formula {
        Formula::And(members) => rows_through_each(alloc, facts, members.as_slice(), rows),
        Formula::Or(branches) => rows_through_any(
            alloc,
            facts,
            branches.as_slice(),
            rows.as_slice(),
        ),
        Formula::Not(inner) => rows_outside(alloc, facts, inner.get(), rows.as_slice()),
        Formula::Exists(vars, inner) => {
            let found = rows_through(alloc, facts, inner.get(), rows)?;
            rows_without(alloc, vars.as_slice(), found.as_slice())
        }
        Formula::Equal(left, right) => rows_equating(alloc, left, right, rows.as_slice()),
        Formula::Member(object, class) => {
            let pattern = Pattern::Member(object.copy(alloc)?, class.copy(alloc)?);
            rows_matching(alloc, facts, &pattern, rows.as_slice())
        }
        Formula::Frame(object, pairs) => {
            rows_through_slots(alloc, facts, object, pairs.as_slice(), rows)
        }
        Formula::Atom(predicate, terms) => {
            let pattern = Pattern::Atom(predicate.copy()?, copy_terms(alloc, terms.as_slice())?);
            rows_matching(alloc, facts, &pattern, rows.as_slice())
        }
        Formula::Holds(pred, terms) => rows_where(alloc, *pred, terms.as_slice(), rows.as_slice()),
    }
}

// The rows taken through some formulas in turn.
#[cycle(through)]
fn rows_through_each(
    alloc: Global,
    facts: &Facts,
    members: &[Formula],
    rows: Vec<Binding>,
) -> Result<Vec<Binding>, OutOfMemory>
    ensures { IfOk result
        (λ found. found.items ≡ in_turn (map (through (base_of facts.now.list)) members.now) rows.items) }
{
    let mut found = rows;
    for member in members {
        found = rows_through(alloc, facts, member, found)?;
    }
    Ok(found)
}

// What each of the formulas makes of the rows, one after the other.
#[cycle(through)]
fn rows_through_any(
    alloc: Global,
    facts: &Facts,
    branches: &[Formula],
    rows: &[Binding],
) -> Result<Vec<Binding>, OutOfMemory>
    ensures { IfOk result
        (λ found. found.items ≡ flat_map (λ branch. through (base_of facts.now.list) branch rows.now) branches.now) }
{
    let mut all = Vec::new(alloc);
    for branch in branches {
        let copy = rows.to_vec(alloc)?;
        let mut found = rows_through(alloc, facts, branch, copy)?;
        all.append(&mut found)?;
    }
    Ok(all)
}

// The rows that no row extends and satisfies the formula.
#[cycle(through)]
fn rows_outside(
    alloc: Global,
    facts: &Facts,
    inner: &Formula,
    rows: &[Binding],
) -> Result<Vec<Binding>, OutOfMemory>
    ensures { IfOk result
        (λ found. found.items
        ≡ filter (λ row. length (through (base_of facts.now.list) inner.now (row ∷ [])) == 0) rows.now) }
{
    let mut all = Vec::new(alloc);
    for row in rows {
        let kept = is_unsatisfied(alloc, facts, inner, row)?;
        push_kept(&mut all, row, kept)?;
    }
    Ok(all)
}

// Whether no row extends the row and satisfies the formula.
#[cycle(through)]
fn is_unsatisfied(
    alloc: Global,
    facts: &Facts,
    inner: &Formula,
    row: &Binding,
) -> Result<bool, OutOfMemory>
    ensures { IfOk result (λ none. none ≡ (length (through (base_of facts.now.list) inner.now (row.now ∷ [])) == 0)) }
{
    let mut one = Vec::new(alloc);
    one.push(row.copy()?)?;
    let found = rows_through(alloc, facts, inner, one)?;
    Ok(found.as_slice().is_empty())
}

// Each row with each fact that agrees with the pattern.
fn rows_matching(
    alloc: Global,
    facts: &Facts,
    pattern: &Pattern,
    rows: &[Binding],
) -> Result<Vec<Binding>, OutOfMemory>
    ensures { IfOk result (λ found. found.items ≡ matched (base_of facts.now.list) pattern.now rows.now) }
{
    let mut all = Vec::new(alloc);
    for row in rows {
        push_matching(alloc, facts, pattern, row, &mut all)?;
    }
    Ok(all)
}

fn push_matching(
    alloc: Global,
    facts: &Facts,
    pattern: &Pattern,
    row: &Binding,
    all: &mut Vec<Binding>,
) -> Result<(), OutOfMemory>
    ensures { OnOk result (all.new.items ≡ all.old.items ++ filter_map (match_fact pattern.now row.now) facts.now.list) }
{
    let key = narrowest_key(pattern, row)?;
    let candidates = facts.candidates(alloc, &key)?;
    let candidates = candidates.as_slice();
    for fact in candidates {
        let found = fact_match(alloc, pattern, row, fact)?;
        push_found(all, found)?;
    }
    Ok(())
}

// The rows taken through the slots of a frame in turn.
fn rows_through_slots(
    alloc: Global,
    facts: &Facts,
    object: &Term,
    pairs: &[(Term, Term)],
    rows: Vec<Binding>,
) -> Result<Vec<Binding>, OutOfMemory>
    ensures { IfOk result
        (λ found. found.items
        ≡ in_turn (map (matched (base_of facts.now.list)) (slots_of object.now pairs.now)) rows.items) }
{
    let mut found = rows;
    for pair in pairs {
        let pattern = Pattern::Slot(
            object.copy(alloc)?,
            pair.0.copy(alloc)?,
            pair.1.copy(alloc)?,
        );
        found = rows_matching(alloc, facts, &pattern, found.as_slice())?;
    }
    Ok(found)
}

fn copy_terms(alloc: Global, terms: &[Term]) -> Result<Items<Term>, OutOfMemory>
    ensures { IfOk result (λ copy. copy ≡ terms.now) }
{
    let mut items = Vec::new(alloc);
    for term in terms {
        items.push(term.copy(alloc)?)?;
    }
    Ok(Items::from_vec(items))
}

// The rows without some variables.
fn rows_without(alloc: Global, vars: &[u32], rows: &[Binding]) -> Result<Vec<Binding>, OutOfMemory>
    ensures { IfOk result (λ found. found.items ≡ map (without_variables vars.now) rows.now) }
{
    let mut all = Vec::new(alloc);
    for row in rows {
        all.push(row.without(alloc, vars)?)?;
    }
    Ok(all)
}

// The rows under which the predicate holds.
fn rows_where(
    alloc: Global,
    pred: Pred,
    terms: &[Term],
    rows: &[Binding],
) -> Result<Vec<Binding>, OutOfMemory>
    ensures { IfOk result (λ found. found.items ≡ filter (λ row. holds_at pred (values_of row terms.now)) rows.now) }
{
    let mut all = Vec::new(alloc);
    for row in rows {
        let kept = holds_under(alloc, pred, terms, row)?;
        push_kept(&mut all, row, kept)?;
    }
    Ok(all)
}

fn holds_under(
    alloc: Global,
    pred: Pred,
    terms: &[Term],
    row: &Binding,
) -> Result<bool, OutOfMemory>
    ensures { IfOk result (λ truth. truth ≡ holds_at pred (values_of row.now terms.now)) }
{
    match values(alloc, row, terms)? {
        Some(arguments) => Ok(holds(pred, arguments.as_slice()).unwrap_or(false)),
        None => Ok(false),
    }
}

// The rows that an equation keeps or extends.
fn rows_equating(
    alloc: Global,
    left: &Term,
    right: &Term,
    rows: &[Binding],
) -> Result<Vec<Binding>, OutOfMemory>
    ensures { IfOk result (λ found. found.items ≡ filter_map (equal_row left.now right.now) rows.now) }
{
    let mut all = Vec::new(alloc);
    for row in rows {
        let found = row_equating(alloc, left, right, row)?;
        push_found(&mut all, found)?;
    }
    Ok(all)
}

fn row_equating(
    alloc: Global,
    left: &Term,
    right: &Term,
    row: &Binding,
) -> Result<Option<Binding>, OutOfMemory>
    ensures { IfOk result (λ found. found ≡ equal_row left.now right.now row.now) }
{
    match value(alloc, row, right)? {
        Some(constant) => term_match(alloc, row, left, &constant),
        None => match value(alloc, row, left)? {
            Some(constant) => term_match(alloc, row, right, &constant),
            None => Ok(None),
        },
    }
}
