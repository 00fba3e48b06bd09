ghost use Rattle.std.specs.Prelude.{◌≡◌, IfOk};

use rif_values::{OutOfMemory, Text};
use sqlite_items::Items;
use std::alloc::Global;

/// A part of a document's tree that can be copied.
pub trait CopyIn: Drop {
    /// An equal value, in memory of this allocator.
    fn copy_in(&self, alloc: Global) -> Result<Self, OutOfMemory>
        ensures { IfOk result (λ copy. copy ≡ self.now) };
}

/// An equal list.
pub fn copy_items<T: CopyIn>(alloc: Global, all: &[T]) -> Result<Items<T>, OutOfMemory>
    ensures { IfOk result (λ copy. copy ≡ all.now) }
{
    let mut items = Vec::new(alloc);
    for item in all {
        items.push(item.copy_in(alloc)?)?;
    }
    Ok(Items::from_vec(items))
}

impl CopyIn for Text {
    fn copy_in(&self, _alloc: Global) -> Result<Text, OutOfMemory> {
        self.copy()
    }
}
