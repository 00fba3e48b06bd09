//! Where a condition has too many branches, and what they come from.
use crate::outline::Outline;
use crate::part::{Form, Part};
use rif_refusals::limits::MOST_BRANCHES;
use rif_values::OutOfMemory;
use std::alloc::Global;

/// A part, and how many branches it counts for.
#[derive(Clone, Copy, Debug)]
pub struct Share {
    /// Which part it is.
    pub part: usize,
    /// The number of its branches, cut at `u64::MAX`.
    pub branches: u64,
}

/// What has too many branches: the condition of a rule, or what stands inside a `Not` or an `Exists`.
#[derive(Drop)]
pub struct Excess {
    /// Which part it is: the `Not` or the `Exists`, or of the condition the first formula that has several branches;
    /// and how many branches it has.
    pub whole: Share,
    /// Whether several formulas of the condition have branches, which are multiplied.
    pub is_joint: bool,
    /// Each `Or` whose branches multiply; or where there is one alone, each of its branches.
    pub shares: Vec<Share>,
    /// Whether the numbers of the shares are summed, and not multiplied.
    pub is_sum: bool,
}

/// Where a rule has too many branches: the first in the text in which nothing else has. None where none has. The cost
/// is at most the square of the number of its parts.
///
/// Source: our own (docs/REFUSALS.md).
pub fn excess_of(alloc: Global, outline: &Outline) -> Result<Option<Excess>, OutOfMemory> {
    let parts = outline.parts.as_slice();
    let counts = outline.branches(alloc)?;
    match first_over(parts, counts.as_slice()) {
        Some(place) => Ok(Some(excess_at(alloc, parts, counts.as_slice(), place)?)),
        None => Ok(None),
    }
}

fn excess_at(
    alloc: Global,
    parts: &[Part],
    branches: &[u64],
    place: usize,
) -> Result<Excess, OutOfMemory> {
    let factors = factors_in(alloc, parts, branches, place)?;
    let alone = single(factors.as_slice());
    let shares = match alone {
        Some(one) => members_of(alloc, parts, branches, one)?,
        None => factors,
    };
    let (part, is_joint) = told_at(parts, branches, place);
    Ok(Excess {
        whole: Share {
            part,
            branches: share_at(branches, place).branches,
        },
        is_joint,
        shares,
        is_sum: alone.is_some(),
    })
}

// Of the condition, the first formula with several branches, and whether there is another one.
fn told_at(parts: &[Part], branches: &[u64], place: usize) -> (usize, bool) {
    if place != 0 {
        return (place, false);
    }
    let mut tops = (1..parts.len()).filter(|at| has_branches(parts, branches, *at));
    match tops.next() {
        Some(first) => (first, tops.next().is_some()),
        None => (0, false),
    }
}

// Whether a part is one of the condition's formulas and has several branches.
fn has_branches(parts: &[Part], branches: &[u64], place: usize) -> bool {
    match (parts.get(place), branches.get(place)) {
        (Some(part), Some(count)) => part.parent == 0 && 1 < *count,
        _ => false,
    }
}

fn share_at(branches: &[u64], part: usize) -> Share {
    Share {
        part,
        branches: branches.get(part).copied().unwrap_or(1),
    }
}

// The part, if it is one alone.
fn single(shares: &[Share]) -> Option<usize> {
    match shares {
        [one] => Some(one.part),
        _ => None,
    }
}

// The first part that is over the limit while none inside is.
fn first_over(parts: &[Part], branches: &[u64]) -> Option<usize> {
    for (place, part) in parts.iter().enumerate() {
        if is_over(parts, branches, place) && !is_any_over(parts, branches, place, part.end) {
            return Some(place);
        }
    }
    None
}

fn is_any_over(parts: &[Part], branches: &[u64], outside: usize, end: usize) -> bool {
    (outside.saturating_add(1)..end).any(|place| is_over(parts, branches, place))
}

// Whether what stands in a part is counted by itself, and has too many branches.
fn is_over(parts: &[Part], branches: &[u64], place: usize) -> bool {
    match (parts.get(place), branches.get(place)) {
        (Some(part), Some(count)) => MOST_BRANCHES < *count && is_counted(part.form),
        _ => false,
    }
}

fn is_counted(form: Form) -> bool {
    match form {
        Form::Condition | Form::Not | Form::Exists => true,
        _ => false,
    }
}

// Each `Or` with more than one branch whose number multiplies those of a part.
fn factors_in(
    alloc: Global,
    parts: &[Part],
    branches: &[u64],
    whole: usize,
) -> Result<Vec<Share>, OutOfMemory> {
    let mut found = Vec::new(alloc);
    for place in whole.saturating_add(1)..end_of(parts, whole) {
        if is_factor(parts, branches, place) && is_multiplied(parts, whole, place) {
            found.push(share_at(branches, place))?;
        }
    }
    Ok(found)
}

fn is_factor(parts: &[Part], branches: &[u64], place: usize) -> bool {
    match (parts.get(place), branches.get(place)) {
        (Some(part), Some(count)) => part.form == Form::Or && 1 < *count,
        _ => false,
    }
}

// Whether no `Or` and no `Not` stands between a part and what it stands in.
fn is_multiplied(parts: &[Part], whole: usize, place: usize) -> bool {
    let mut at = place;
    for _ in whole..place {
        match parts.get(at) {
            Some(part) if part.parent == whole => return true,
            Some(part) => at = part.parent,
            None => return false,
        }
        if !is_passed(parts, at) {
            return false;
        }
    }
    false
}

fn is_passed(parts: &[Part], place: usize) -> bool {
    match parts.get(place) {
        Some(part) => part.form.is_joined() || part.form == Form::Exists,
        None => false,
    }
}

// The parts that stand straight in one, as it counts them.
fn members_of(
    alloc: Global,
    parts: &[Part],
    branches: &[u64],
    whole: usize,
) -> Result<Vec<Share>, OutOfMemory> {
    let mut found = Vec::new(alloc);
    for place in whole.saturating_add(1)..end_of(parts, whole) {
        if let Some(share) = member_at(parts, branches, whole, place) {
            found.push(share)?;
        }
    }
    Ok(found)
}

// A part, if it stands straight in the whole. A `Not` counts for one.
fn member_at(parts: &[Part], branches: &[u64], whole: usize, place: usize) -> Option<Share> {
    match parts.get(place) {
        Some(part) if part.parent != whole => None,
        Some(part) if part.form == Form::Not => Some(Share {
            part: place,
            branches: 1,
        }),
        Some(_) => Some(share_at(branches, place)),
        None => None,
    }
}

fn end_of(parts: &[Part], place: usize) -> usize {
    match parts.get(place) {
        Some(part) => part.end,
        None => 0,
    }
}
