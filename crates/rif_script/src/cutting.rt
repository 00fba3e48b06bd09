//! The batches of a job for one thread.
ghost use Rattle.std.specs.Prelude.{◌≡◌, ◌≤◌, ◌<◌, IfOk, [], drop, length, take};
ghost use Rattle.rif_refusals.specs.Limits.{most_batch_items};
ghost use Rattle.rif_script.specs.Cutting.{script_entries, is_control, ends_behind, served_count};
ghost use Rattle.rif_script.specs.Cutting.{batches_behind, batches_of_entries, left_of_entries};
ghost use Rattle.rif_script.specs.Ranks.{sent_so_far};

use crate::job::Job;
use rif_refusals::limits::MOST_BATCH_ITEMS;
use rif_values::{Listed, OutOfMemory};
use session_states::{Batch, Entry, Item};
use std::alloc::Global;
use std::collections::BTreeMap;
use std::mem;

/// The batches of a job's items for one thread, and the entries that are left. A batch ends after a control
/// item, after 1,024 items or at the end of the script; what stands behind the first Dispose is left.
/// The cost is a copy of each item, and for each a look-up of its client among those that have sent some, which
/// grows with the logarithm of their number.
///
/// Source: our own (docs/PROFILE.md, "Replay").
pub fn batches_of(alloc: Global, job: &Job) -> Result<(Vec<Batch>, Vec<Entry>), OutOfMemory>
    ensures batches { IfOk result (λ cut. cut.0.items ≡ batches_of_entries (script_entries job.now)) }
    ensures left { IfOk result (λ cut. cut.1.items ≡ left_of_entries (script_entries job.now)) }
{
    let mut entries = entries_of(alloc, job)?;
    let left = entries.split_off(served(&entries))?;
    Ok((batches(alloc, entries)?, left))
}

// The entries of a job's items. The number of items that each client has sent so far is its next rank.
fn entries_of(alloc: Global, job: &Job) -> Result<Vec<Entry>, OutOfMemory>
    ensures { IfOk result (λ entries. entries.items ≡ script_entries job.now) }
{
    let mut entries = Vec::new(alloc);
    let mut sent = BTreeMap::new(alloc);
    for (client, item) in job.items.as_slice() {
        let rank = sent_so_far(&sent, *client);
        entries.push(Entry {
            client: *client,
            rank,
            item: item.copy()?,
        })?;
        sent.insert(*client, rank + 1)?;
    }
    Ok(entries)
}

// How many items a client has sent, where the map has these numbers of all that have sent some.
fn sent_so_far(sent: &BTreeMap<u32, u64>, client: u32) -> u64
    ensures { result ≡ sent_so_far sent.now client }
{
    match sent.get(&client) {
        Some(count) => *count,
        None => 0,
    }
}

// How many entries there are up to the first Dispose, and with it.
fn served(entries: &[Entry]) -> usize
    ensures is { result ≡ served_count entries.now }
    ensures within { result ≤ length entries.now }
{
    for (before, entry) in entries.iter().enumerate() {
        if let Item::Dispose = entry.item {
            return before + 1;
        }
    }
    entries.len()
}

// The batches of entries that are served.
fn batches(alloc: Global, entries: Vec<Entry>) -> Result<Vec<Batch>, OutOfMemory>
    ensures { IfOk result (λ batches. batches.items ≡ batches_behind 0 entries.items) }
{
    let mut batches = Vec::new(alloc);
    let mut open = Listed::new(alloc);
    for entry in entries {
        let ends = is_last(open.len(), &entry.item);
        open.push(entry)?;
        if ends {
            let batch = mem::replace(&mut open, Listed::new(alloc));
            batches.push(Batch::from_entries(batch))?;
        }
    }
    if open.is_empty() {
        return Ok(batches);
    }
    batches.push(Batch::from_entries(open))?;
    Ok(batches)
}

// Whether an item ends a batch in which so many stand before it.
fn is_last(before: usize, item: &Item) -> bool
    requires { before < most_batch_items }
    ensures { result ≡ ends_behind before item.now }
{
    is_control_item(item) || before + 1 == MOST_BATCH_ITEMS
}

fn is_control_item(item: &Item) -> bool
    ensures { result ≡ is_control item.now }
{
    match item {
        Item::Change(_) => false,
        Item::Fire(_) | Item::Until(_) | Item::Halt | Item::Dispose => true,
    }
}
