//! The walk through formulas and terms, beside the leaves that spell them.
use crate::mention::Declarer;
use crate::part::Form;
use crate::sign::Sign;
use crate::walk::{Around, Walk};
use rif_tree::{Formula, Term};
use rif_values::OutOfMemory;

/// Walks through a formula.
#[cycle(formula)]
pub fn walk_formula(
    walk: &mut Walk<'_>,
    around: Around,
    formula: &Formula,
) -> Result<(), OutOfMemory> {
    match formula {
        Formula::And(members) => {
            let inside = walk.open(Form::And, around)?;
            walk_members(walk, Sign::And, inside, members.as_slice())
        }
        Formula::Or(branches) => {
            let inside = walk.open(Form::Or, around)?;
            walk_members(walk, Sign::Or, inside, branches.as_slice())
        }
        Formula::Not(inner) => {
            let inside = walk.open(Form::Not, around)?;
            walk.pass(Sign::Not);
            walk_formula(walk, inside, inner.get())?;
            walk.close(inside);
            Ok(())
        }
        Formula::Exists(vars, inner) => {
            let inside = walk.open(Form::Exists, around)?;
            let held = walk.held();
            walk.pass(Sign::Exists);
            walk_declared(walk, Declarer::Exists, inside, vars.as_slice())?;
            walk_formula(walk, inside, inner.get())?;
            walk.leave(held);
            walk.close(inside);
            Ok(())
        }
        Formula::Equal(left, right) => {
            let inside = walk.open(Form::Equality, around)?;
            walk_two(walk, inside.asked(), left, right)
        }
        Formula::Member(object, class) => {
            let inside = walk.open(Form::Pattern, around)?;
            walk_two(walk, inside, object, class)
        }
        Formula::Frame(object, pairs) => walk_frame(walk, around, object, pairs.as_slice()),
        Formula::Atom(_, terms) => {
            let inside = walk.open(Form::Pattern, around)?;
            walk.pass(Sign::Constant);
            walk_terms(walk, inside, terms.as_slice())
        }
        Formula::Holds(_, terms) => {
            let inside = walk.open(Form::Predicate, around)?;
            walk.pass(Sign::Builtin);
            walk_terms(walk, inside.asked(), terms.as_slice())
        }
    }
}

// Walks through the members of an `And` or an `Or`, and closes it.
#[cycle(formula)]
fn walk_members(
    walk: &mut Walk<'_>,
    sign: Sign,
    inside: Around,
    members: &[Formula],
) -> Result<(), OutOfMemory> {
    walk.pass(sign);
    for member in members {
        walk_formula(walk, inside, member)?;
    }
    walk.close(inside);
    Ok(())
}

/// Walks through a list of declarations, each of which holds from the next one on.
pub fn walk_declared(
    walk: &mut Walk<'_>,
    declarer: Declarer,
    around: Around,
    vars: &[u32],
) -> Result<(), OutOfMemory> {
    for var in vars {
        walk.declare(*var, declarer, around)?;
    }
    Ok(())
}

// Walks through a frame, whose first slot begins where the frame does.
fn walk_frame(
    walk: &mut Walk<'_>,
    around: Around,
    object: &Term,
    pairs: &[(Term, Term)],
) -> Result<(), OutOfMemory> {
    let inside = walk.open(Form::Frame, around)?;
    walk_term(walk, inside, object)?;
    for (place, pair) in pairs.iter().enumerate() {
        let slot = if place == 0 {
            walk.open_at_front(Form::Slot, inside)?
        } else {
            walk.open(Form::Slot, inside)?
        };
        walk_two(walk, slot, &pair.0, &pair.1)?;
    }
    walk.close(inside);
    Ok(())
}

/// Walks through a term.
#[cycle(term)]
pub fn walk_term(walk: &mut Walk<'_>, around: Around, term: &Term) -> Result<(), OutOfMemory> {
    match term {
        Term::Const(_) => {
            walk.pass(Sign::Constant);
            Ok(())
        }
        Term::Var(var) => walk.use_variable(*var, around),
        Term::Call(_, arguments) => {
            walk.pass(Sign::Builtin);
            walk_terms(walk, around.asked(), arguments.as_slice())
        }
    }
}

/// Walks through some terms.
#[cycle(term)]
pub fn walk_terms(walk: &mut Walk<'_>, around: Around, terms: &[Term]) -> Result<(), OutOfMemory> {
    for term in terms {
        walk_term(walk, around, term)?;
    }
    Ok(())
}

/// Walks through two terms.
pub fn walk_two(
    walk: &mut Walk<'_>,
    around: Around,
    first: &Term,
    second: &Term,
) -> Result<(), OutOfMemory> {
    walk_term(walk, around, first)?;
    walk_term(walk, around, second)
}

/// Walks through pairs of a slot and its value.
pub fn walk_pairs(
    walk: &mut Walk<'_>,
    around: Around,
    pairs: &[(Term, Term)],
) -> Result<(), OutOfMemory> {
    for pair in pairs {
        walk_two(walk, around, &pair.0, &pair.1)?;
    }
    Ok(())
}
