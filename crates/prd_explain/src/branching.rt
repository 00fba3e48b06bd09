//! Conditions with too many branches, in words.
use crate::rule_view::RuleView;
use refusal_lines::{Explanation, push_number};
use rif_values::OutOfMemory;
use rule_outline::{Excess, Form, Share, excess_of};
use std::alloc::Global;

/// How many numbers are written out.
const MOST_NUMBERS: usize = 12;

/// A number of branches from which on it isn't written out.
const MANY: u64 = 1_000_000_000;

/// What has too many branches, how many, and each `Or` that they come from.
pub fn explain_branches(
    alloc: Global,
    view: &RuleView<'_>,
    sentence: Vec<u8>,
) -> Result<Option<Explanation>, OutOfMemory> {
    let Some(excess) = excess_of(alloc, view.outline)? else {
        return Ok(None);
    };
    let mut words = sentence;
    push_where(&mut words, view, &excess)?;
    push_numbers(&mut words, &excess)?;
    let place = view.place_of_part(excess.whole.part);
    let mut explanation = Explanation::new(alloc, place, words);
    for share in excess.shares.as_slice() {
        relate_share(alloc, view, &mut explanation, share, excess.is_sum)?;
    }
    Ok(Some(explanation))
}

// Where the condition stands that has too many.
fn push_where(out: &mut Vec<u8>, view: &RuleView<'_>, excess: &Excess) -> Result<(), OutOfMemory> {
    let words = match view.outline.parts.as_slice().get(excess.whole.part) {
        Some(part) => words_of(part.form, excess.is_joint),
        None => "",
    };
    out.extend_from_slice(words.as_bytes())?;
    Ok(())
}

fn words_of(form: Form, is_joint: bool) -> &'static str {
    match form {
        Form::Not => ", inside this `Not`",
        Form::Exists => ", inside this `Exists`",
        _ if is_joint => ", all `such that` formulas and the `If` formula together",
        Form::SuchThat => ", in this `such that` formula",
        _ => "",
    }
}

// The number of branches, and what it comes from.
fn push_numbers(out: &mut Vec<u8>, excess: &Excess) -> Result<(), OutOfMemory> {
    let shares = excess.shares.as_slice();
    out.extend_from_slice(b": ")?;
    for (place, share) in shares.iter().enumerate().take(MOST_NUMBERS) {
        push_term(out, place, excess.is_sum, share)?;
    }
    if MOST_NUMBERS < shares.len() {
        out.extend_from_slice(b" ..")?;
    }
    out.extend_from_slice(b" = ")?;
    push_many(out, excess.whole.branches)
}

fn push_term(
    out: &mut Vec<u8>,
    place: usize,
    is_sum: bool,
    share: &Share,
) -> Result<(), OutOfMemory> {
    if 0 < place {
        out.extend_from_slice(if is_sum { b" + " } else { b" x " })?;
    }
    push_many(out, share.branches)
}

fn push_many(out: &mut Vec<u8>, branches: u64) -> Result<(), OutOfMemory> {
    if MANY < branches {
        out.extend_from_slice(b"more than ")?;
        return push_number(out, MANY);
    }
    push_number(out, branches)
}

fn relate_share(
    alloc: Global,
    view: &RuleView<'_>,
    explanation: &mut Explanation,
    share: &Share,
    is_branch: bool,
) -> Result<(), OutOfMemory> {
    match view.place_of_part(share.part) {
        Some(place) if 1 < share.branches => {
            let mut words = Vec::new(alloc);
            words.extend_from_slice(if is_branch {
                b"this branch of the `Or` has ".as_slice()
            } else {
                b"this `Or` has ".as_slice()
            })?;
            push_many(&mut words, share.branches)?;
            words.extend_from_slice(b" branches")?;
            explanation.relate(place, words)
        }
        _ => Ok(()),
    }
}
