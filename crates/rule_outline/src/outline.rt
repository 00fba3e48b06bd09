//! The outline of a rule.
use crate::branches::branches_of;
use crate::mention::{Declarer, Mention};
use crate::part::Part;
use crate::rule_walk::walk_rule;
use crate::sign::start_of_rule;
use crate::walk::Walk;
use prd_grammar::Leaf;
use rif_tree::Rule;
use rif_values::OutOfMemory;
use std::alloc::Global;

/// Where a rule's variables and the parts of its conditions stand, in the order of the text.
#[derive(Drop)]
pub struct Outline {
    pub mentions: Vec<Mention>,
    /// The condition comes first, and each part before what stands in it.
    pub parts: Vec<Part>,
}

/// The outline of the rule that these leaves of a document spell as the one of a number, counted from 1; None where
/// they spell another. The cost is that of a walk through the rule, and at each variable through what holds.
///
/// Source: our own (docs/REFUSALS.md).
pub fn outline_of(
    alloc: Global,
    rule: &Rule,
    leaves: &[Leaf],
    number: u32,
) -> Result<Option<Outline>, OutOfMemory> {
    match start_of_rule(leaves, number) {
        Some(start) => {
            let mut walk = Walk::new(alloc, leaves, start);
            walk_rule(&mut walk, rule)?;
            Ok(where_not_lost(walk))
        }
        None => Ok(None),
    }
}

fn where_not_lost(walk: Walk<'_>) -> Option<Outline> {
    if walk.is_lost() {
        return None;
    }
    let Walk {
        mentions,
        parts,
        ..
    } = walk;
    Some(Outline { mentions, parts })
}

impl Outline {
    /// The number of branches of what stands in each part, cut at `u64::MAX`; that of a `Not` is its formula's. One
    /// pass over the parts.
    pub fn branches(&self, alloc: Global) -> Result<Vec<u64>, OutOfMemory> {
        branches_of(alloc, self.parts.as_slice())
    }

    /// Which mention declares the variable of a number: `Forall` variables are counted first, then those of `Exists`,
    /// then those of the block.
    pub fn declaration_of(&self, number: u32) -> Option<usize> {
        let mut left = number;
        for declarer in [Declarer::Forall, Declarer::Exists, Declarer::Block] {
            match self.declaration_by(declarer, left) {
                Ok(place) => return Some(place),
                Err(rest) => left = rest,
            }
        }
        None
    }

    // Which mention is the declaration of this kind that so many stand before; or how many of those aren't of it.
    fn declaration_by(&self, declarer: Declarer, number: u32) -> Result<usize, u32> {
        let mut left = number;
        for (place, mention) in self.mentions.iter().enumerate() {
            if mention.declarer == Some(declarer) {
                if left == 0 {
                    return Ok(place);
                }
                left -= 1;
            }
        }
        Err(left)
    }
}
