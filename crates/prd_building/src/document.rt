//! Groups and the document.
ghost use Rattle.std.specs.Prelude.{◌≡◌, ◌∷◌, ◌++◌, [], pos, drop, IfOk, OnOk};
ghost use Rattle.prd_building.specs.Building.{Builds, behind_priority, with_rest, next_rule_at, members_at};
ghost use Rattle.prd_building.specs.Building.{opened_by};
ghost use Rattle.prd_building.specs.Building.{behind_member, behind_strategy};

use crate::rules::rule;
use crate::signs::{MemberSign, member_sign, past, priority_at, priority_width, strategy_width};
use prd_grammar::Leaf;
use rif_tree::{Doc, Rule};
use rif_values::{OutOfMemory, Text};
use sqlite_items::Items;
use std::alloc::Global;
use std::collections::VecDeque;

// The place behind a strategy.
fn behind_strategy(leaves: &[Leaf], at: usize) -> usize
    ensures { drop result leaves.now ≡ behind_strategy (drop at leaves.now) }
{
    past(leaves, at, strategy_width(leaves, at))
}

// The place behind a priority and the bracket of the members.
fn behind_priority(leaves: &[Leaf], at: usize) -> usize
    ensures { drop result leaves.now ≡ behind_priority (drop at leaves.now) }
{
    past(leaves, past(leaves, at, priority_width(leaves, at)), 1)
}

// The place behind the leaves of a member that is no rule. A group that is opened or goes on is put on the
// others, with its priority.
fn passed(
    groups: &mut VecDeque<i32>,
    leaves: &[Leaf],
    sign: MemberSign,
    priority: i32,
    at: usize,
) -> Result<usize, OutOfMemory>
    ensures groups { OnOk result (groups.new.items
        ≡ opened_by sign priority (drop at leaves.now) ++ groups.old.items) }
    ensures behind { IfOk result (λ next. drop next leaves.now ≡ behind_member sign (drop at leaves.now)) }
{
    match sign {
        MemberSign::Close => Ok(past(leaves, at, 1)),
        MemberSign::Prefix => {
            groups.push_front(priority)?;
            Ok(past(leaves, at, 5))
        }
        MemberSign::Group => {
            let head = behind_strategy(leaves, past(leaves, at, 1));
            groups.push_front(priority)?;
            groups.push_front(priority_at(priority, leaves, head)?)?;
            Ok(behind_priority(leaves, head))
        }
        MemberSign::Rule => {
            groups.push_front(priority)?;
            Ok(at)
        }
    }
}

// The rule at a place, which so many rules stand before.
fn next_rule(
    alloc: Global,
    names: &[Items<Text>],
    count: usize,
    leaves: &[Leaf],
    priority: i32,
    at: usize,
    left: usize,
) -> Result<Option<(Rule, usize)>, OutOfMemory>
    ensures { IfOk result (λ o. with_rest leaves.now o
        ≡ next_rule_at priority (drop count names.now) left (drop at leaves.now)) }
{
    match names.get(count) {
        None => Ok(None),
        Some(own) => {
            let found = rule(alloc, own.as_slice(), leaves, priority, at, left)?;
            Ok(found)
        }
    }
}

// The rules from a place up to where the group ends that is open there.
fn members(
    alloc: Global,
    names: &[Items<Text>],
    leaves: &[Leaf],
    from: usize,
    most: usize,
) -> Result<Option<(Items<Rule>, usize)>, OutOfMemory>
    ensures { IfOk result (λ o. with_rest leaves.now o
        ≡ members_at most (pos 0 ∷ []) names.now most (drop from leaves.now)) }
{
    let mut groups = VecDeque::new(alloc);
    groups.push_front(0)?;
    let mut rules = Items::new(alloc);
    let mut at = from;
    let mut left = most;
    while left > 0 {
        left -= 1;
        let Some(priority) = groups.pop_front() else {
            return Ok(Some((rules, at)));
        };
        let sign = member_sign(leaves, at);
        at = passed(&mut groups, leaves, sign, priority, at)?;
        if let MemberSign::Rule = sign {
            match next_rule(alloc, names, rules.len(), leaves, priority, at, most)? {
                None => return Ok(None),
                Some((one, next)) => {
                    rules.push(one)?;
                    at = next;
                }
            }
        }
    }
    Ok(None)
}

/// The document of leaves that are known to be one, with the names of each of its rules in first-seen order.
///
/// Where they are none, the answer is left open. It reads each leaf once, and costs their number and a copy in
/// constant time of each text.
///
/// Source: our own (docs/FORMATS.md, "The document's tree").
pub fn build(
    alloc: Global,
    leaves: &[Leaf],
    names: &[Items<Text>],
) -> Result<Option<Doc>, OutOfMemory>
    ensures { IfOk result (λ o. Builds leaves.now names.now o) }
{
    match members(alloc, names, leaves, past(leaves, 0, 2), leaves.len())? {
        None => Ok(None),
        Some((rules, _)) => Ok(Some(Doc { rules })),
    }
}
