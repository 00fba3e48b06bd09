//! How many branches each part of a rule's conditions has.
use crate::part::{Form, Part};
use rif_values::OutOfMemory;
use std::alloc::Global;

/// The number of branches of what stands in each part, cut at `u64::MAX`: the sum for an `Or`, and else the product.
/// That of a `Not` is its formula's; round it, it counts as one.
pub fn branches_of(alloc: Global, parts: &[Part]) -> Result<Vec<u64>, OutOfMemory> {
    let mut counts = Vec::new(alloc);
    for part in parts {
        counts.push(if part.form == Form::Or { 0u64 } else { 1u64 })?;
    }
    for place in (1..parts.len()).rev() {
        fold_into_parent(parts, counts.as_mut_slice(), place);
    }
    Ok(counts)
}

// What stands in a part is counted before it, since its parts stand behind it.
fn fold_into_parent(parts: &[Part], counts: &mut [u64], place: usize) {
    let (Some(part), Some(found)) = (parts.get(place), counts.get(place)) else {
        return;
    };
    let count = if part.form == Form::Not { 1 } else { *found };
    let (Some(parent), Some(total)) = (parts.get(part.parent), counts.get_mut(part.parent)) else {
        return;
    };
    *total = if parent.form == Form::Or {
        total.saturating_add(count)
    } else {
        total.saturating_mul(count)
    };
}
