ghost use Rattle.std.specs.Prelude.{◌≡◌, ◌↔◌, ◌++◌, ◌∷◌, [], IfErr, IsOk, IsTrue, OnErr, OnOk, true};
ghost use Rattle.session_states.specs.Batches.{IsLawful};
ghost use Rattle.session_states.specs.OpenBatches.{takes_more};

use crate::batch::{Batch, is_ending};
use crate::item::Entry;
use rif_refusals::limits::MOST_BATCH_ITEMS;
use rif_values::{Listed, OutOfMemory};
use std::alloc::Global;
use std::marker::Model;

/// A batch that is open: entries are added to it one by one, until it is closed. Contracts see its entries, which
/// are lawful, and whether there is room for one more.
///
/// Room is made ahead, so that taking an entry from where clients put it can't fail for want of memory.
///
/// Source: our own (docs/PROFILE.md, "Batches").
#[derive(Debug, Drop)]
pub struct OpenBatch {
    entries: Vec<Entry>,
}

impl Model for OpenBatch {
    ghost use Rattle.std.specs.Prelude.{nat_lt, vec_capacity, vec_len};
    ghost use Rattle.session_states.specs.Batches.{IsLawful};
    ghost use Rattle.session_states.specs.OpenBatches.{BatchWithRoom};

    ghost Value = { BatchWithRoom };

    ghost view = { λ batch. record {
      entries = batch.entries.items;
      has_room = nat_lt (vec_len batch.entries) (vec_capacity batch.entries);
    } };

    ghost invariant = { λ batch. IsLawful batch.entries.items };
}

impl OpenBatch {
    /// The empty batch, without room. It takes no memory.
    pub fn new(alloc: Global) -> OpenBatch
        ensures { result.entries ≡ [] }
    {
        OpenBatch {
            entries: Vec::new(alloc),
        }
    }

    /// A batch that is open again, in constant time: one that couldn't enter a session takes more entries so.
    pub fn reopen(batch: Batch) -> OpenBatch
        ensures { result.entries ≡ batch }
    {
        OpenBatch {
            entries: batch.into_entries().into_vec(),
        }
    }

    /// The entries, in order, in constant time.
    pub fn entries(&self) -> &[Entry]
        ensures entries { result.now ≡ self.now.entries }
        ensures lawful { IsLawful self.now.entries }
    {
        self.entries.as_slice()
    }

    /// Makes room for one more entry, in constant time where there is room already, and amortised else. After want
    /// of memory the batch is as before.
    pub fn reserve(&mut self) -> Result<(), OutOfMemory>
        ensures entries { self.new.entries ≡ self.old.entries }
        ensures ok { OnOk result (self.new.has_room ≡ true) }
        ensures err { OnErr result (self.new ≡ self.old) }
    {
        self.entries.reserve(1)?;
        Ok(())
    }

    /// Puts an entry at the end, in constant time and without memory; or hands it back, exactly where the batch has
    /// 1,024 entries or ends in Halt or Dispose. The condition is that there is room.
    pub fn add(&mut self, entry: Entry) -> Result<(), Entry>
        requires { self.old.has_room ≡ true }
        ensures takes { IsOk result ↔ IsTrue (takes_more self.old.entries) }
        ensures ok { OnOk result (self.new.entries ≡ self.old.entries ++ entry ∷ []) }
        ensures err { OnErr result (self.new ≡ self.old) }
        ensures back { IfErr result (λ back. back ≡ entry) }
    {
        if !self.takes_more() {
            return Err(entry);
        }
        match self.entries.push(entry) {
            Ok(()) => Ok(()),
            Err(_) => unreachable!(),
        }
    }

    /// Whether one more entry may stand in the batch: it has fewer than 1,024, and the last one is neither Halt nor
    /// Dispose. In constant time.
    pub fn takes_more(&self) -> bool
        ensures { result ≡ takes_more self.now.entries }
    {
        match self.entries.last() {
            Some(last) => self.entries.len() < MOST_BATCH_ITEMS && !is_ending(&last.item),
            None => true,
        }
    }

    /// The batch of the entries, in constant time.
    pub fn close(self) -> Batch
        ensures { result ≡ self.entries }
    {
        Batch::from_entries(Listed::from_vec(self.entries))
    }
}
