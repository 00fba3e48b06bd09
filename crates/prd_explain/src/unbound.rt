//! Variables that get no value, in words.
use crate::rule_view::{RuleView, name_in, push_variable};
use crate::unbound_hint::hint_of_unbound;
use refusal_lines::Explanation;
use rif_values::OutOfMemory;
use rule_outline::{Form, Mention, Part, Unbound, Waiting, unbound_of};
use std::alloc::Global;

/// The first place in the condition of a variable that isn't bound, the conjuncts that wait, and what would bind it.
pub fn explain_unbound(
    alloc: Global,
    view: &RuleView<'_>,
    sentence: Vec<u8>,
) -> Result<Option<Explanation>, OutOfMemory> {
    let Some(unbound) = unbound_of(alloc, view.rule)? else {
        return Ok(None);
    };
    let Some(declaration) = view.outline.declaration_of(unbound.number) else {
        return Ok(None);
    };
    let at = first_use(view, declaration).unwrap_or(declaration);
    let mut explanation = Explanation::new(alloc, view.place_of_mention(at), sentence);
    for waiting in unbound.waiting.as_slice() {
        relate_waiting(alloc, view, &mut explanation, &unbound, waiting)?;
    }
    explanation.untold = explanation.untold.saturating_add(unbound.more);
    explanation.hint = hint_of_unbound(alloc, view, &unbound, declaration)?;
    Ok(Some(explanation))
}

// The first use of a variable in the condition.
fn first_use(view: &RuleView<'_>, declaration: usize) -> Option<usize> {
    view.outline
        .mentions
        .as_slice()
        .iter()
        .position(|one| is_use_in_condition(one, declaration))
}

fn is_use_in_condition(mention: &Mention, declaration: usize) -> bool {
    mention.is_in_condition && mention.is_use_of(declaration)
}

fn relate_waiting(
    alloc: Global,
    view: &RuleView<'_>,
    explanation: &mut Explanation,
    unbound: &Unbound,
    waiting: &Waiting,
) -> Result<(), OutOfMemory> {
    let Some(part) = conjunct_at(view, waiting.conjunct) else {
        return Ok(());
    };
    match view.place(part.leaf) {
        Some(place) => {
            let mut words = Vec::new(alloc);
            words.extend_from_slice(b"this ")?;
            words.extend_from_slice(name_of_form(part.form).as_bytes())?;
            push_awaited(&mut words, unbound, waiting)?;
            explanation.relate(place, words)
        }
        None => Ok(()),
    }
}

// What a conjunct waits for.
fn push_awaited(
    out: &mut Vec<u8>,
    unbound: &Unbound,
    waiting: &Waiting,
) -> Result<(), OutOfMemory> {
    if waiting.asked.is_empty() && waiting.other.is_empty() {
        out.extend_from_slice(b" is never ready")?;
        return Ok(());
    }
    out.extend_from_slice(b" waits for ")?;
    if waiting.asked.is_empty() {
        push_list(out, unbound, waiting.other.as_slice(), b" or ")
    } else {
        push_list(out, unbound, waiting.asked.as_slice(), b" and ")
    }
}

/// Some variables, with a word before each but the first.
pub fn push_list(
    out: &mut Vec<u8>,
    unbound: &Unbound,
    vars: &[u32],
    between: &[u8],
) -> Result<(), OutOfMemory> {
    for (place, var) in vars.iter().enumerate() {
        if 0 < place {
            out.extend_from_slice(between)?;
        }
        push_variable(out, name_in(unbound.names.as_slice(), *var))?;
    }
    Ok(())
}

/// The part that is the condition's conjunct of a number, counted from 0.
pub fn conjunct_at(view: &RuleView<'_>, number: usize) -> Option<Part> {
    let mut before = 0usize;
    for part in view.outline.parts.as_slice() {
        if part.is_conjunct {
            if before == number {
                return Some(*part);
            }
            before = before.saturating_add(1);
        }
    }
    None
}

/// What a part is called.
pub fn name_of_form(form: Form) -> &'static str {
    match form {
        Form::Or => "`Or`",
        Form::Not => "`Not`",
        Form::Exists => "`Exists`",
        Form::Pattern | Form::Slot => "pattern",
        Form::Equality => "equality",
        Form::Predicate => "predicate",
        _ => "formula",
    }
}
