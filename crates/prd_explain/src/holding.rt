//! The variables that hold at a place of a rule.
use crate::rule_view::{RuleView, push_variable};
use refusal_lines::push_number;
use rif_values::OutOfMemory;
use rule_outline::Mention;
use std::alloc::Global;

/// How many variables are listed at most.
const MOST_LISTED: usize = 8;

/// A variable that holds at a place.
#[derive(Clone, Copy)]
pub struct Holding {
    pub var: u32,
    /// Which mention declares it.
    pub declaration: usize,
    /// Whether it is used anywhere.
    pub is_used: bool,
}

/// The variables that hold at a mention, in the order of the rule's names. Two passes over the mentions for each of
/// the names, of which a rule has 32 at most.
pub fn holding_at(
    alloc: Global,
    view: &RuleView<'_>,
    at: usize,
) -> Result<Vec<Holding>, OutOfMemory> {
    let mentions = view.outline.mentions.as_slice();
    let mut holding = Vec::new(alloc);
    for number in 0..view.rule.names.len() {
        if let Some(one) = holding_of(mentions, number, at) {
            holding.push(one)?;
        }
    }
    Ok(holding)
}

// The variable of a number, where it holds at a mention.
fn holding_of(mentions: &[Mention], number: usize, at: usize) -> Option<Holding> {
    let declaration = mentions
        .iter()
        .position(|one| is_declared_for(one, number, at))?;
    let mention = mentions.get(declaration)?;
    Some(Holding {
        var: mention.var,
        declaration,
        is_used: mentions.iter().any(|one| one.is_use_of(declaration)),
    })
}

fn is_declared_for(mention: &Mention, number: usize, at: usize) -> bool {
    mention.declarer.is_some() && mention.var as usize == number && mention.reaches(at)
}

/// Which variables hold, eight at most, and which of these are never used.
pub fn push_holding(
    out: &mut Vec<u8>,
    view: &RuleView<'_>,
    holding: &[Holding],
) -> Result<(), OutOfMemory> {
    out.extend_from_slice(match holding.len() {
        0 => b"no variable holds here".as_slice(),
        1 => b"here holds ",
        _ => b"here hold ",
    })?;
    for (place, one) in holding.iter().take(MOST_LISTED).enumerate() {
        if 0 < place {
            out.extend_from_slice(b", ")?;
        }
        push_one(out, view, *one)?;
    }
    push_rest(out, holding.len().saturating_sub(MOST_LISTED))
}

fn push_one(out: &mut Vec<u8>, view: &RuleView<'_>, one: Holding) -> Result<(), OutOfMemory> {
    push_variable(out, view.name(one.var))?;
    if !one.is_used {
        out.extend_from_slice(b" (never used)")?;
    }
    Ok(())
}

fn push_rest(out: &mut Vec<u8>, rest: usize) -> Result<(), OutOfMemory> {
    if 0 < rest {
        out.extend_from_slice(b" and ")?;
        push_number(out, rest as u64)?;
        out.extend_from_slice(b" more")?;
    }
    Ok(())
}
