//! What waits for which variables, where a condition can't be put in order.
use ready_order::{Division, arrange_conjuncts, conjuncts};
use rif_refusals::limits::MOST_VARIABLES;
use rif_tree::{Formula, Rule, Term, has_variable};
use rif_values::{Const, OutOfMemory, Text};
use rule_scopes::{NumberedRule, number};
use sqlite_items::Items;
use std::alloc::Global;

/// How many conjuncts that wait are told at most.
const MOST_TOLD: usize = 32;

/// A conjunct of a condition that is never ready. Variables are numbers. Of one in which more than 32 have no value, no
/// variable is told.
#[derive(Drop)]
pub struct Waiting {
    /// Which of the condition's conjuncts it is, counted from 0.
    pub conjunct: usize,
    /// The variables without a value that it isn't ready without.
    pub asked: Vec<u32>,
    /// Its other variables without a value. Where none is asked, it is ready with one of these.
    pub other: Vec<u32>,
}

/// A condition that can't be put in order, or doesn't bind a `Forall` variable. Variables are numbers.
#[derive(Drop)]
pub struct Unbound {
    /// The variable that is told.
    pub number: u32,
    /// The name of each variable, at the place of its number.
    pub names: Vec<Text>,
    /// The conjuncts that are never ready, 32 at most.
    pub waiting: Vec<Waiting>,
    /// How many more there are.
    pub more: u64,
}

/// What isn't bound in the condition of a rule, each of whose variables holds where it stands; None where each is.
/// Each of the condition's conjuncts is tried once for each of its variables that have no value.
///
/// Source: our own (docs/REFUSALS.md).
pub fn unbound_of(alloc: Global, rule: &Rule) -> Result<Option<Unbound>, OutOfMemory> {
    let numbered = number(alloc, rule)?;
    unbound_in_rule(alloc, &numbered)
}

fn unbound_in_rule(alloc: Global, rule: &NumberedRule) -> Result<Option<Unbound>, OutOfMemory> {
    let all = conjuncts(alloc, &rule.condition)?;
    unbound_among(alloc, rule, all.as_slice())
}

fn unbound_among(
    alloc: Global,
    rule: &NumberedRule,
    conjuncts: &[Formula],
) -> Result<Option<Unbound>, OutOfMemory> {
    let division = arrange_conjuncts(alloc, conjuncts)?;
    match variable_told(alloc, rule, &division)? {
        Some(number) => {
            let mut unbound = Unbound {
                number,
                names: copies_of(alloc, rule.names.as_slice())?,
                waiting: Vec::new(alloc),
                more: 0,
            };
            wait_each(alloc, &mut unbound, division.bound.as_slice(), conjuncts)?;
            Ok(Some(unbound))
        }
        None => Ok(None),
    }
}

fn copies_of(alloc: Global, names: &[Text]) -> Result<Vec<Text>, OutOfMemory> {
    let mut copies = Vec::new(alloc);
    for name in names {
        copies.push(name.copy()?)?;
    }
    Ok(copies)
}

// The least variable that occurs in what is left and isn't bound; where nothing is left, of the `Forall` ones.
fn variable_told(
    alloc: Global,
    rule: &NumberedRule,
    division: &Division,
) -> Result<Option<u32>, OutOfMemory> {
    if division.left.as_slice().is_empty() {
        let bound = division.bound.as_slice();
        Ok((0..rule.head_vars).find(|var| !has_variable(bound, *var)))
    } else {
        division.least_unbound(alloc)
    }
}

// Adds each of some conjuncts that isn't ready.
fn wait_each(
    alloc: Global,
    unbound: &mut Unbound,
    bound: &[u32],
    conjuncts: &[Formula],
) -> Result<(), OutOfMemory> {
    for (place, conjunct) in conjuncts.iter().enumerate() {
        if !is_ready(alloc, bound, conjunct)? {
            wait_one(alloc, unbound, place, bound, conjunct)?;
        }
    }
    Ok(())
}

fn wait_one(
    alloc: Global,
    unbound: &mut Unbound,
    place: usize,
    bound: &[u32],
    conjunct: &Formula,
) -> Result<(), OutOfMemory> {
    if unbound.waiting.len() < MOST_TOLD {
        let waiting = waiting_at(alloc, place, bound, conjunct)?;
        unbound.waiting.push(waiting)?;
    } else {
        unbound.more = unbound.more.saturating_add(1);
    }
    Ok(())
}

fn waiting_at(
    alloc: Global,
    place: usize,
    bound: &[u32],
    conjunct: &Formula,
) -> Result<Waiting, OutOfMemory> {
    let unbound = unbound_in(alloc, bound, conjunct)?;
    let mut asked = Vec::new(alloc);
    let mut other = Vec::new(alloc);
    for var in unbound.as_slice() {
        let rest = with_all_but(alloc, bound, unbound.as_slice(), *var)?;
        if is_ready(alloc, rest.as_slice(), conjunct)? {
            other.push(*var)?;
        } else {
            asked.push(*var)?;
        }
    }
    Ok(Waiting {
        conjunct: place,
        asked,
        other,
    })
}

// What is bound, and all of some variables but one.
fn with_all_but(
    alloc: Global,
    bound: &[u32],
    vars: &[u32],
    but: u32,
) -> Result<Vec<u32>, OutOfMemory> {
    let mut all = bound.to_vec(alloc)?;
    for var in vars {
        if *var != but {
            all.push(*var)?;
        }
    }
    Ok(all)
}

// Whether a conjunct is ready where these variables are bound: behind a pattern that binds them, nothing is left.
fn is_ready(alloc: Global, bound: &[u32], conjunct: &Formula) -> Result<bool, OutOfMemory> {
    let mut both = Vec::new(alloc);
    both.push(pattern_of(alloc, bound)?)?;
    both.push(conjunct.copy(alloc)?)?;
    let division = arrange_conjuncts(alloc, both.as_slice())?;
    Ok(division.left.as_slice().is_empty())
}

// A pattern that binds these variables.
fn pattern_of(alloc: Global, vars: &[u32]) -> Result<Formula, OutOfMemory> {
    let mut terms = Vec::new(alloc);
    for var in vars {
        terms.push(Term::Var(*var))?;
    }
    Ok(Formula::Atom(Const::Bool(true), Items::from_vec(terms)))
}

// The variables that occur in a conjunct and aren't bound, the least first; none where there are more than 32.
fn unbound_in(alloc: Global, bound: &[u32], conjunct: &Formula) -> Result<Vec<u32>, OutOfMemory> {
    let mut found = Vec::new(alloc);
    let mut left = Vec::new(alloc);
    left.push(conjunct.copy(alloc)?)?;
    let mut division = Division {
        taken: Items::new(alloc),
        left: Items::from_vec(left),
        bound: Items::from_slice(alloc, bound)?,
    };
    for _ in 0..MOST_VARIABLES + 1 {
        match division.least_unbound(alloc)? {
            Some(var) => {
                division.bound.push(var)?;
                found.push(var)?;
            }
            None => return Ok(found),
        }
    }
    Ok(Vec::new(alloc))
}
