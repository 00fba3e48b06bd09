//! Variables that are used where they don't hold, or declared where they do, in words.
use crate::rule_view::{RuleView, push_variable};
use crate::undeclared_hint::tell_meant;
use refusal_lines::{Explanation, Place};
use rif_values::OutOfMemory;
use rule_outline::{Declarer, Mention};
use std::alloc::Global;

/// The first use of a variable that doesn't hold there. Where one of its name is declared elsewhere in the rule,
/// that is told; else what may be meant.
pub fn explain_undeclared(
    alloc: Global,
    view: &RuleView<'_>,
    sentence: Vec<u8>,
) -> Result<Option<Explanation>, OutOfMemory> {
    let mentions = view.outline.mentions.as_slice();
    let Some(at) = mentions.iter().position(|one| is_undeclared(one)) else {
        return Ok(None);
    };
    let mut explanation = Explanation::new(alloc, view.place_of_mention(at), sentence);
    match mentions
        .iter()
        .position(|one| is_namesake(mentions, at, one))
    {
        Some(other) => relate_namesake(alloc, view, &mut explanation, other)?,
        None => tell_meant(alloc, view, &mut explanation, at)?,
    }
    Ok(Some(explanation))
}

fn is_undeclared(mention: &Mention) -> bool {
    mention.declarer.is_none() && mention.held_by.is_none()
}

// Whether a mention declares a variable of the same name as another.
fn is_namesake(mentions: &[Mention], at: usize, mention: &Mention) -> bool {
    match mentions.get(at) {
        Some(used) => mention.declarer.is_some() && mention.var == used.var,
        None => false,
    }
}

fn relate_namesake(
    alloc: Global,
    view: &RuleView<'_>,
    explanation: &mut Explanation,
    other: usize,
) -> Result<(), OutOfMemory> {
    let (Some(mention), Some(place)) = (view.mention(other), view.place_of_mention(other)) else {
        return Ok(());
    };
    let mut words = Vec::new(alloc);
    push_variable(&mut words, view.name(mention.var))?;
    words.extend_from_slice(match mention.declarer {
        Some(Declarer::Exists) => {
            b" is declared here, and holds in the formula of this `Exists` alone".as_slice()
        }
        _ => b" is declared here, and holds behind its declaration alone".as_slice(),
    })?;
    explanation.relate(place, words)
}

/// The first declaration of a variable inside the reach of one of its name, and that one.
pub fn explain_repeated(
    alloc: Global,
    view: &RuleView<'_>,
    sentence: Vec<u8>,
) -> Result<Option<Explanation>, OutOfMemory> {
    let mentions = view.outline.mentions.as_slice();
    let Some(at) = mentions.iter().position(|one| is_repeated(one)) else {
        return Ok(None);
    };
    let mut explanation = Explanation::new(alloc, view.place_of_mention(at), sentence);
    if let Some(place) = place_of_first(view, at) {
        let words = b"it is declared here first".to_vec(alloc)?;
        explanation.relate(place, words)?;
    }
    Ok(Some(explanation))
}

fn is_repeated(mention: &Mention) -> bool {
    mention.declarer.is_some() && mention.held_by.is_some()
}

// The place of the declaration that holds at a mention.
fn place_of_first(view: &RuleView<'_>, at: usize) -> Option<Place> {
    view.place_of_mention(view.mention(at)?.held_by?)
}
