//! One pattern against one fact. This is the plain way: it looks for nothing by an index.
ghost use Rattle.std.specs.Prelude.{◌≡◌, [], ◌∷◌, IfOk};
ghost use Rattle.rif_builtins.specs.Extensions.{agreeing, match_term, match_terms, match_fact};
ghost use Rattle.std.specs.Prelude.{Some, None, if◌then◌else◌};
ghost use Rattle.rif_values.specs.Facts.{same_const};

use crate::pattern::Pattern;
use crate::valuing::value;
use rif_tree::Term;
use rif_values::{Binding, Const, Fact, OutOfMemory, are_same};
use std::alloc::Global;

/// The one row, if there is one, that extends the row by the pattern's variables and gives the pattern's
/// terms the fact's constants as values. The cost is that of the pattern's terms, and of a copy of the
/// row for each of them that agrees.
///
/// Source: RIF-PRD, "Matching substitution".
pub fn fact_match(
    alloc: Global,
    pattern: &Pattern,
    row: &Binding,
    fact: &Fact,
) -> Result<Option<Binding>, OutOfMemory>
    ensures { IfOk result (λ found. found ≡ match_fact pattern.now row.now fact.now) }
{
    match pattern {
        Pattern::Atom(predicate, terms) => match fact {
            Fact::Atom(given, arguments) if are_same(predicate, given) => {
                terms_match(alloc, terms.as_slice(), row, arguments.as_slice())
            }
            _ => Ok(None),
        },
        Pattern::Slot(object, slot, value) => match fact {
            Fact::Frame(given, named, held) => match term_match(alloc, row, object, given)? {
                Some(row) => two_match(alloc, &row, slot, named, value, held),
                None => Ok(None),
            },
            _ => Ok(None),
        },
        Pattern::Member(object, class) => match fact {
            Fact::Member(given, of) => two_match(alloc, row, object, given, class, of),
            _ => Ok(None),
        },
    }
}

// The row in which two terms have these values.
fn two_match(
    alloc: Global,
    row: &Binding,
    first: &Term,
    one: &Const,
    second: &Term,
    other: &Const,
) -> Result<Option<Binding>, OutOfMemory>
    ensures { let terms = first.now ∷ second.now ∷ [] in
        IfOk result (λ found. found ≡ match_terms terms row.now (one.now ∷ other.now ∷ [])) }
{
    match term_match(alloc, row, first, one)? {
        Some(row) => term_match(alloc, &row, second, other),
        None => Ok(None),
    }
}

// The row in which the terms have these values, from left to right.
fn terms_match(
    alloc: Global,
    terms: &[Term],
    row: &Binding,
    constants: &[Const],
) -> Result<Option<Binding>, OutOfMemory>
    ensures { IfOk result (λ found. found ≡ match_terms terms.now row.now constants.now) }
{
    if terms.len() != constants.len() {
        return Ok(None);
    }
    let mut longer = row.copy()?;
    for (place, term) in terms.iter().enumerate() {
        match term_match(alloc, &longer, term, &constants[place])? {
            Some(next) => longer = next,
            None => return Ok(None),
        }
    }
    Ok(Some(longer))
}

/// The row in which the term has this value.
pub fn term_match(
    alloc: Global,
    row: &Binding,
    term: &Term,
    constant: &Const,
) -> Result<Option<Binding>, OutOfMemory>
    ensures { IfOk result (λ found. found ≡ match_term row.now term.now constant.now) }
{
    match term {
        Term::Var(var) => match row.get(*var) {
            Some(held) => row_where(row, are_same(held, constant)),
            None => Ok(Some(row.with(alloc, *var, constant)?)),
        },
        Term::Const(_) | Term::Call(..) => match value(alloc, row, term)? {
            Some(held) => row_where(row, are_same(&held, constant)),
            None => Ok(None),
        },
    }
}

fn row_where(row: &Binding, agrees: bool) -> Result<Option<Binding>, OutOfMemory>
    ensures { IfOk result (λ found. found ≡ (if agrees then Some row.now else None)) }
{
    if agrees {
        Ok(Some(row.copy()?))
    } else {
        Ok(None)
    }
}
