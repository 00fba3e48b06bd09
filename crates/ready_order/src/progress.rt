//! How far some conjuncts are arranged.
ghost use Rattle.std.specs.Prelude.{◌≡◌, ◌<◌, ◌++◌, [], ◌∷◌, true, false, length, replicate, set, IfOk, OnOk};
ghost use Rattle.std.specs.List.{list_all};

use rif_tree::Formula;
use rif_values::OutOfMemory;
use sqlite_items::Items;
use std::alloc::Global;

/// The conjuncts that were taken, in order and arranged within, whether each of all was, and what is bound then.
#[derive(Drop)]
pub(crate) struct Progress {
    pub(crate) taken: Items<Formula>,
    pub(crate) is_taken: Items<bool>,
    pub(crate) bound: Items<u32>,
}

/// A conjunct that is taken: its place, how it stands arranged within, and what it binds.
#[derive(Drop)]
pub(crate) struct Found {
    pub(crate) place: usize,
    pub(crate) taken: Formula,
    pub(crate) binds: Items<u32>,
}

impl Progress {
    /// None of so many conjuncts is taken, and these variables are bound before.
    pub(crate) fn new(alloc: Global, bound: &[u32], count: usize) -> Result<Progress, OutOfMemory>
        ensures { IfOk result
            (λ begun. begun ≡ record { taken = []; is_taken = replicate count false; bound = bound.now }) }
    {
        Ok(Progress {
            taken: Items::new(alloc),
            is_taken: Items::from_vec(vec![in alloc; false; count]?),
            bound: Items::from_slice(alloc, bound)?,
        })
    }

    /// One more is taken.
    pub(crate) fn take(&mut self, found: Found) -> Result<(), OutOfMemory>
        requires within { found.place < length self.old.is_taken }
        ensures { OnOk result
            (self.new
            ≡ record {
              taken = self.old.taken ++ found.taken ∷ [];
              is_taken = set self.old.is_taken found.place true;
              bound = self.old.bound ++ found.binds;
            }) }
    {
        self.taken.push(found.taken)?;
        self.is_taken.set(found.place, true);
        self.bound.append(found.binds)?;
        Ok(())
    }
}

/// Whether each of some marks is set.
pub(crate) fn are_all(marks: &[bool]) -> bool
    ensures { result ≡ list_all (λ mark. mark) marks.now }
{
    for mark in marks {
        if !*mark {
            return false;
        }
    }
    true
}
