//! What may be meant where a variable is used that doesn't hold, in words.
use crate::holding::{Holding, holding_at, push_holding};
use crate::nearest::nearest_to;
use crate::rule_view::{RuleView, push_variable};
use refusal_lines::{Explanation, push_place};
use rif_values::OutOfMemory;
use std::alloc::Global;

/// Tells what may be meant at a mention: one or two variables that hold there and have near names. One of them that
/// is never used may itself be misspelled. Where there are none or more, tells which variables hold there.
pub fn tell_meant(
    alloc: Global,
    view: &RuleView<'_>,
    explanation: &mut Explanation,
    at: usize,
) -> Result<(), OutOfMemory> {
    let Some(mention) = view.mention(at) else {
        return Ok(());
    };
    let holding = holding_at(alloc, view, at)?;
    let nearest = nearest_to(alloc, view, mention.var, holding.as_slice())?;
    let mut words = Vec::new(alloc);
    match nearest.as_slice() {
        [one] | [one, _] if !one.is_used => {
            relate_all(alloc, view, explanation, nearest.as_slice())?;
            push_unused(&mut words, view, nearest.as_slice())?;
        }
        [_] | [_, _] => push_used(&mut words, view, nearest.as_slice())?,
        _ => push_holding(&mut words, view, holding.as_slice())?,
    }
    explanation.hint = Some(words);
    Ok(())
}

// The declarations, as related places.
fn relate_all(
    alloc: Global,
    view: &RuleView<'_>,
    explanation: &mut Explanation,
    nearest: &[Holding],
) -> Result<(), OutOfMemory> {
    for one in nearest {
        if let Some(place) = view.place_of_mention(one.declaration) {
            let mut words = Vec::new(alloc);
            push_variable(&mut words, view.name(one.var))?;
            words.extend_from_slice(b" is declared here")?;
            explanation.relate(place, words)?;
        }
    }
    Ok(())
}

// That one or two variables, which are never used, may be misspelled themselves.
fn push_unused(
    out: &mut Vec<u8>,
    view: &RuleView<'_>,
    nearest: &[Holding],
) -> Result<(), OutOfMemory> {
    push_declared(out, view, nearest, b", and ")?;
    out.extend_from_slice(if nearest.len() == 1 {
        b", is never used: it may be the one that is misspelled".as_slice()
    } else {
        b", are never used: one of them may be the one that is misspelled"
    })?;
    Ok(())
}

// That one or two variables may be meant.
fn push_used(
    out: &mut Vec<u8>,
    view: &RuleView<'_>,
    nearest: &[Holding],
) -> Result<(), OutOfMemory> {
    out.extend_from_slice(b"did you mean ")?;
    push_declared(out, view, nearest, b", or ")?;
    out.push(b'?')?;
    Ok(())
}

// Variables with the places where they are declared, and a word before each but the first.
fn push_declared(
    out: &mut Vec<u8>,
    view: &RuleView<'_>,
    nearest: &[Holding],
    between: &[u8],
) -> Result<(), OutOfMemory> {
    for (number, one) in nearest.iter().enumerate() {
        if 0 < number {
            out.extend_from_slice(between)?;
        }
        push_variable(out, view.name(one.var))?;
        if let Some(place) = view.place_of_mention(one.declaration) {
            out.extend_from_slice(b", declared at ")?;
            push_place(out, place)?;
        }
    }
    Ok(())
}
