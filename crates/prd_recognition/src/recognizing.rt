//! Whether leaves are a document at which no refusal stands, or else where the first one stands.
ghost use Rattle.std.specs.Prelude.{◌≡◌, ◌++◌, IfOk, OnOk};
ghost use Rattle.prd_grammar.specs.declared.leaf.Leaf.TheVariants.{Close};
ghost use Rattle.prd_recognition.specs.Reached.{names_seen};
ghost use Rattle.prd_recognition.specs.Recognizing.{LeadsTo, Recognizes};

use crate::following::{advance, is_done};
use crate::progress::Reading;
use crate::refusing::{cause_at, unexpected};
use crate::want::Want;
use prd_grammar::{Cause, Leaf};
use rif_values::{OutOfMemory, Text};
use sqlite_items::Items;
use std::alloc::Global;
use std::collections::VecDeque;

/// What leaves lead to.
#[derive(Drop)]
pub enum Outcome {
    /// They are a document; the names of each rule, in order.
    Document(Items<Items<Text>>),
    /// A refusal decides at a place.
    Refused { place: usize, cause: Cause },
}

/// What the leaves lead to: a document at which no refusal stands, or the refusal that decides. An error is want of
/// memory.
///
/// One pass over the leaves. It takes memory for the open brackets, for what has still to come, and for the names of
/// the rules, whose texts are shared.
///
/// Source: our own (docs/FORMATS.md, "Grammar" and "Refusals").
pub fn recognize(alloc: Global, leaves: &[Leaf]) -> Result<Outcome, OutOfMemory>
    ensures { IfOk result (LeadsTo leaves.now) }
{
    recognize_from(alloc, leaves, &Leaf::Close)
}

// The same, where a closing bracket stands for the leaf before the first.
fn recognize_from<'a>(
    alloc: Global,
    leaves: &'a [Leaf],
    close: &'a Leaf,
) -> Result<Outcome, OutOfMemory>
    requires { close.now ≡ Close }
    ensures { IfOk result (Recognizes leaves.now) }
{
    let mut stack = VecDeque::new(alloc);
    stack.push_front(Want::Document)?;
    let mut reading = Reading::new(alloc, close);
    let mut names = Items::new(alloc);
    for (place, leaf) in leaves.iter().enumerate() {
        if !advance(&mut stack, leaf)? {
            let cause = unexpected(leaf);
            return Ok(Outcome::Refused { place, cause });
        }
        if let Some(cause) = cause_at(&reading, leaf) {
            return Ok(Outcome::Refused { place, cause });
        }
        let ended = reading.go_on(alloc, leaf)?;
        put_ended(&mut names, ended)?;
    }
    if is_done(&stack) {
        Ok(Outcome::Document(names))
    } else {
        Ok(Outcome::Refused {
            place: leaves.len(),
            cause: Cause::Expected,
        })
    }
}

// Adds the names of a rule that has ended, if one has.
fn put_ended(names: &mut Items<Items<Text>>, ended: Option<Items<Text>>) -> Result<(), OutOfMemory>
    ensures { OnOk result (names.new ≡ names.old ++ names_seen ended) }
{
    match ended {
        None => Ok(()),
        Some(rule) => Ok(names.push(rule)?),
    }
}
