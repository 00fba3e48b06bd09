ghost use Rattle.std.specs.Prelude.{◌≡◌, IfOk, IsTrue, ◌↔◌};

use rif_values::{Change, OutOfMemory};
use std::alloc::AllocError;

/// What a client sends: a change of facts, or a control item.
///
/// Source: our own (docs/PROFILE.md, "The session machine").
#[derive(Debug, PartialEq, Eq, Drop)]
pub enum Item {
    Change(Change),
    /// Fires rules until none is eligible, with a budget in firings.
    Fire(u64),
    /// Fires rules until a halt, with a budget in firings.
    Until(u64),
    Halt,
    Dispose,
}

impl Item {
    /// An equal item, at the cost of a copy of its change.
    pub fn copy(&self) -> Result<Item, OutOfMemory>
        ensures { IfOk result (λ copy. copy ≡ self.now) }
    {
        Ok(self.clone()?)
    }
}

impl Clone for Item {
    ghost is_clone = { λ item copy. copy ≡ item };

    fn clone(&self) -> Result<Item, AllocError> {
        match self {
            Item::Change(change) => Ok(Item::Change(change.clone()?)),
            Item::Fire(budget) => Ok(Item::Fire(*budget)),
            Item::Until(budget) => Ok(Item::Until(*budget)),
            Item::Halt => Ok(Item::Halt),
            Item::Dispose => Ok(Item::Dispose),
        }
    }
}

/// A client's item: the client's number, from 0; the number of its items before this one; and the item.
///
/// Source: our own (docs/PROFILE.md, "Clients").
#[derive(Debug, PartialEq, Eq, Drop)]
pub struct Entry {
    pub client: u32,
    pub rank: u64,
    pub item: Item,
}

impl Entry {
    /// An equal entry, at the cost of a copy of its item.
    pub fn copy(&self) -> Result<Entry, OutOfMemory>
        ensures { IfOk result (λ copy. copy ≡ self.now) }
    {
        Ok(self.clone()?)
    }
}

impl Clone for Entry {
    ghost is_clone = { λ entry copy. copy ≡ entry };

    fn clone(&self) -> Result<Entry, AllocError> {
        Ok(Entry {
            client: self.client,
            rank: self.rank,
            item: self.item.clone()?,
        })
    }
}
