//! Refusals of rules in words.
ghost use Rattle.std.specs.Prelude.{◌≡◌, Ok};
ghost use Rattle.rif_lex.specs.Lexing.{lexed};

use crate::branching::explain_branches;
use crate::explaining::{sentence_of, whole_text};
use crate::rule_view::RuleView;
use crate::scoping::{explain_repeated, explain_undeclared};
use crate::unbound::explain_unbound;
use prd_leaves::leaves;
use refusal_lines::{Explanation, push_number};
use rif_lex::Token;
use rif_refusals::Refusal;
use rif_tree::Doc;
use rif_values::OutOfMemory;
use rule_outline::outline_of;
use std::alloc::Global;

/// What is said of a refusal of a rule of a document: the place of the variable or of the condition that it names,
/// the places that it has to do with, and how it may be mended. The conditions are that the tokens are those of the
/// bytes; the document is what they stand for. A refusal that names no rule has its own text alone.
///
/// The cost is that of reading the document, and for a variable without a value that of putting the rule's condition
/// in order once for each variable and conjunct. No clause says what the words are.
///
/// Source: our own (docs/REFUSALS.md).
pub fn explain_rule(
    alloc: Global,
    tokens: &[Token],
    bytes: &[u8],
    doc: &Doc,
    refusal: &Refusal,
) -> Result<Explanation, OutOfMemory>
    requires { lexed bytes.now ≡ Ok tokens.now }
{
    match explained(alloc, tokens, bytes, doc, refusal)? {
        Some(explanation) => Ok(explanation),
        None => Ok(Explanation::new(alloc, None, whole_text(alloc, refusal)?)),
    }
}

// What is said, where the rule and the place are found.
fn explained(
    alloc: Global,
    tokens: &[Token],
    bytes: &[u8],
    doc: &Doc,
    refusal: &Refusal,
) -> Result<Option<Explanation>, OutOfMemory>
    requires { lexed bytes.now ≡ Ok tokens.now }
{
    let number = rule_of(refusal);
    let Some(rule) = doc.rules.as_slice().get(place_of_rule(number)) else {
        return Ok(None);
    };
    let (leaves, _) = leaves(alloc, tokens, bytes)?;
    match outline_of(alloc, rule, leaves.as_slice(), number)? {
        Some(outline) => {
            let view = RuleView {
                bytes,
                tokens,
                number,
                rule,
                outline: &outline,
            };
            explain_in(alloc, &view, refusal)
        }
        None => Ok(None),
    }
}

fn explain_in(
    alloc: Global,
    view: &RuleView<'_>,
    refusal: &Refusal,
) -> Result<Option<Explanation>, OutOfMemory> {
    let sentence = rule_sentence(alloc, view, refusal)?;
    match refusal {
        Refusal::Undeclared { .. } => explain_undeclared(alloc, view, sentence),
        Refusal::DeclaredTwice { .. } => explain_repeated(alloc, view, sentence),
        Refusal::TooManyBranches { .. } => explain_branches(alloc, view, sentence),
        Refusal::Unsafe { .. } => explain_unbound(alloc, view, sentence),
        _ => Ok(None),
    }
}

// A refusal's own text with its rule.
fn rule_sentence(
    alloc: Global,
    view: &RuleView<'_>,
    refusal: &Refusal,
) -> Result<Vec<u8>, OutOfMemory> {
    let mut out = Vec::new(alloc);
    out.extend_from_slice(b"in rule ")?;
    push_number(&mut out, view.number as u64)?;
    out.push(b' ')?;
    let own = sentence_of(alloc, refusal)?;
    out.extend_from_slice(own.as_slice())?;
    Ok(out)
}

// The number of the rule that a refusal names, and 0 where it names none.
fn rule_of(refusal: &Refusal) -> u32 {
    match refusal {
        Refusal::Undeclared { rule, .. }
        | Refusal::DeclaredTwice { rule, .. }
        | Refusal::Unsafe { rule, .. }
        | Refusal::TooManyBranches { rule } => *rule,
        _ => 0,
    }
}

// The place, counted from 0, of the rule of a number; of 0, one behind all.
fn place_of_rule(number: u32) -> usize {
    match number.checked_sub(1) {
        Some(place) => place as usize,
        None => usize::MAX,
    }
}
