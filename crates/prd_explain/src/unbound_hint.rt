//! What would give a variable its value, in words.
use crate::rule_view::{RuleView, name_in, push_variable};
use crate::unbound::{conjunct_at, name_of_form, push_list};
use refusal_lines::push_place;
use rif_values::OutOfMemory;
use rule_outline::{Declarer, Mention, Unbound, Waiting};
use std::alloc::Global;

/// How a variable stands in its rule.
#[derive(Clone, Copy, PartialEq, Eq)]
enum Standing {
    Nowhere,
    InActions,
    InNot,
    Asked,
    InOr,
    InPattern,
}

/// What would give a variable, told by its declaration, its value.
pub fn hint_of_unbound(
    alloc: Global,
    view: &RuleView<'_>,
    unbound: &Unbound,
    declaration: usize,
) -> Result<Option<Vec<u8>>, OutOfMemory> {
    let mut words = Vec::new(alloc);
    push_variable(
        &mut words,
        name_in(unbound.names.as_slice(), unbound.number),
    )?;
    match giver(unbound) {
        Some(waiting) => push_giver(&mut words, view, unbound, waiting)?,
        None => {
            let mentions = view.outline.mentions.as_slice();
            let standing = standing_of(mentions, declaration);
            words.extend_from_slice(words_of(standing).as_bytes())?;
            let way = way_out(standing, is_of_exists(mentions, declaration));
            words.extend_from_slice(way.as_bytes())?;
        }
    }
    Ok(Some(words))
}

// The first conjunct that would give the variable a value once it has what it asks for.
fn giver(unbound: &Unbound) -> Option<&Waiting> {
    unbound
        .waiting
        .as_slice()
        .iter()
        .find(|one| is_giver(one, unbound.number))
}

fn is_giver(waiting: &Waiting, number: u32) -> bool {
    !waiting.asked.is_empty() && waiting.other.as_slice().contains(&number)
}

fn push_giver(
    out: &mut Vec<u8>,
    view: &RuleView<'_>,
    unbound: &Unbound,
    waiting: &Waiting,
) -> Result<(), OutOfMemory> {
    out.extend_from_slice(b" gets its value from the ")?;
    if let Some(part) = conjunct_at(view, waiting.conjunct) {
        out.extend_from_slice(name_of_form(part.form).as_bytes())?;
        if let Some(place) = view.place(part.leaf) {
            out.extend_from_slice(b" at ")?;
            push_place(out, place)?;
        }
    }
    out.extend_from_slice(b", which waits for ")?;
    push_list(out, unbound, waiting.asked.as_slice(), b" and ")
}

fn standing_of(mentions: &[Mention], declaration: usize) -> Standing {
    let mut standing = Standing::Nowhere;
    for one in mentions {
        if one.is_use_of(declaration) {
            standing = stronger(standing, standing_at(one));
        }
    }
    standing
}

fn is_of_exists(mentions: &[Mention], declaration: usize) -> bool {
    match mentions.get(declaration) {
        Some(mention) => mention.declarer == Some(Declarer::Exists),
        None => false,
    }
}

// How a use stands.
fn standing_at(mention: &Mention) -> Standing {
    if !mention.is_in_condition {
        Standing::InActions
    } else if mention.is_in_not {
        Standing::InNot
    } else if mention.is_asked {
        Standing::Asked
    } else if mention.is_in_or {
        Standing::InOr
    } else {
        Standing::InPattern
    }
}

// Of two, the one that comes nearer to a value.
fn stronger(one: Standing, other: Standing) -> Standing {
    if rank_of(one) < rank_of(other) {
        other
    } else {
        one
    }
}

fn rank_of(standing: Standing) -> u8 {
    match standing {
        Standing::Nowhere => 0,
        Standing::InActions => 1,
        Standing::InNot => 2,
        Standing::Asked => 3,
        Standing::InOr => 4,
        Standing::InPattern => 5,
    }
}

fn words_of(standing: Standing) -> &'static str {
    match standing {
        Standing::Nowhere => " stands nowhere else in the rule",
        Standing::InActions => " stands in the block alone",
        Standing::InNot => " stands only inside `Not`, which gives no values",
        Standing::Asked =>
            " stands only in built-ins' calls and equalities, which ask for its value",
        Standing::InOr => " stands inside `Or`, and not each branch gives it a value",
        Standing::InPattern => " stands in patterns that wait",
    }
}

// What to do about it.
fn way_out(standing: Standing, is_of_exists: bool) -> &'static str {
    match standing {
        Standing::Nowhere => "; leave it out, or have it in a pattern of the condition",
        Standing::InActions => "; have it in a pattern of the condition",
        Standing::InOr => "; have it in a pattern of each branch, or outside",
        _ if is_of_exists => "; have it in a pattern of its `Exists`",
        Standing::InNot => "; have it in a pattern outside, or declare it by `Exists` inside",
        _ => "; have it in a pattern of the condition",
    }
}
