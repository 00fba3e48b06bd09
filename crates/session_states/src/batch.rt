ghost use Rattle.std.specs.Prelude.{◌≡◌, ◌↔◌, [], IfOk, IsTrue};
ghost use Rattle.std.specs.List.{list_any};
ghost use Rattle.session_states.specs.Batches.{ends_batch, EndsLast, IsLawful};

use crate::item::{Entry, Item};
use rif_refusals::limits::MOST_BATCH_ITEMS;
use rif_values::{Listed, OutOfMemory};
use std::alloc::{AllocError, Global};
use std::marker::Model;

/// The entries that enter a session between two firings, in the order in which they were taken.
/// Contracts see it as their list, which is lawful: at most 1,024 entries, and Halt or Dispose only at
/// its end.
///
/// Source: our own (docs/PROFILE.md, "Batches").
#[derive(Debug, PartialEq, Eq, Drop)]
pub struct Batch {
    entries: Listed<Entry>,
}

impl Model for Batch {
    ghost use Rattle.std.specs.Prelude.{List};
    ghost use Rattle.session_states.specs.declared.item.Entry.{Entry};
    ghost use Rattle.session_states.specs.Batches.{IsLawful};

    ghost Value = { List Entry };

    ghost view = { λ batch. batch.entries };

    ghost invariant = { λ batch. IsLawful batch.entries };

    ghost inverse = { λ entries. record { entries = entries } };
}

impl Batch {
    /// The empty batch. It takes no memory.
    pub fn new(alloc: Global) -> Batch
        ensures { result ≡ [] }
    {
        Batch {
            entries: Listed::new(alloc),
        }
    }

    /// Whether these entries may be one batch: at most 1,024, and Halt or Dispose only at the end. It looks
    /// at each entry once at most.
    pub fn is_lawful(entries: &[Entry]) -> bool
        ensures { IsTrue result ↔ IsLawful entries.now }
    {
        entries.len() <= MOST_BATCH_ITEMS && is_ended_last(entries)
    }

    /// The batch of these entries, for which `is_lawful` must hold, in constant time.
    pub fn from_entries(entries: Listed<Entry>) -> Batch
        requires { IsLawful entries }
        ensures { result ≡ entries }
    {
        Batch { entries }
    }

    /// The entries, in order, in constant time.
    pub fn entries(&self) -> &[Entry]
        ensures entries { result.now ≡ self.now }
        ensures lawful { IsLawful self.now }
    {
        self.entries.as_slice()
    }

    /// The entries, in order, in constant time.
    pub fn into_entries(self) -> Listed<Entry>
        ensures entries { result ≡ self }
        ensures lawful { IsLawful self }
    {
        self.entries
    }

    /// An equal batch, at the cost of a copy of each entry.
    pub fn copy(&self) -> Result<Batch, OutOfMemory>
        ensures { IfOk result (λ copy. copy ≡ self.now) }
    {
        Ok(self.clone()?)
    }
}

impl Clone for Batch {
    ghost is_clone = { λ batch copy. copy ≡ batch };

    fn clone(&self) -> Result<Batch, AllocError> {
        Ok(Batch {
            entries: self.entries.clone()?,
        })
    }
}

// Whether no entry but the last ends a batch.
fn is_ended_last(entries: &[Entry]) -> bool
    ensures { IsTrue result ↔ EndsLast entries.now }
{
    match entries.split_last() {
        Some((_, before)) => !has_ending(before),
        None => true,
    }
}

// Whether one of the entries ends a batch.
fn has_ending(entries: &[Entry]) -> bool
    ensures { result ≡ list_any (λ entry. ends_batch entry.item) entries.now }
{
    entries.iter().any(|entry| is_ending(&entry.item))
}

pub(crate) fn is_ending(item: &Item) -> bool
    ensures { result ≡ ends_batch item.now }
{
    match item {
        Item::Halt | Item::Dispose => true,
        Item::Change(_) | Item::Fire(_) | Item::Until(_) => false,
    }
}
