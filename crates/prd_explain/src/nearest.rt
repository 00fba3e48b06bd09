//! Names that are near to one another.
use crate::holding::Holding;
use crate::rule_view::RuleView;
use rif_values::OutOfMemory;
use std::alloc::Global;
use strsim::damerau_levenshtein;

/// The bytes that a name has at most to be compared.
const MOST_BYTES: usize = 256;

/// Of some variables those with the names that are nearest to that of another; none where no name is near. One edit
/// may be needed for each three characters, and one in a name of two. Of those that are as near, the ones that are
/// never used come alone, if there are any.
pub fn nearest_to(
    alloc: Global,
    view: &RuleView<'_>,
    var: u32,
    holding: &[Holding],
) -> Result<Vec<Holding>, OutOfMemory> {
    let mut nearest = Vec::new(alloc);
    let mut least = usize::MAX;
    let mut is_used = true;
    for one in holding {
        let distance = distance_of(alloc, view, var, one.var)?;
        let is_nearer = distance < least || distance == least && is_used && !one.is_used;
        if is_nearer {
            nearest.clear();
            least = distance;
            is_used = one.is_used;
        }
        if distance < usize::MAX && distance == least && is_used == one.is_used {
            nearest.push(*one)?;
        }
    }
    Ok(nearest)
}

// How many edits lead from one name to another; the greatest number where they are too many.
fn distance_of(
    alloc: Global,
    view: &RuleView<'_>,
    one: u32,
    other: u32,
) -> Result<usize, OutOfMemory> {
    let (Some(name), Some(near)) = (short_name(view, one), short_name(view, other)) else {
        return Ok(usize::MAX);
    };
    let distance = damerau_levenshtein(alloc, name, near)?;
    if distance <= most_edits(name) {
        Ok(distance)
    } else {
        Ok(usize::MAX)
    }
}

// How many edits a name may be away from one that is near. A name of one character is near to no other.
fn most_edits(name: &str) -> usize {
    match name.chars().count() {
        0 | 1 => 0,
        more => (more / 3).max(1),
    }
}

fn short_name<'a>(view: &RuleView<'a>, var: u32) -> Option<&'a str> {
    match view.rule.names.as_slice().get(var as usize) {
        Some(name) if name.bytes().len() <= MOST_BYTES => Some(name.as_str()),
        _ => None,
    }
}
