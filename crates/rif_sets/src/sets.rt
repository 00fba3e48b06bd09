ghost use Rattle.std.specs.Prelude.{◌≡◌, true, false, length, IfOk, IfErr};
ghost use Rattle.std.specs.List.{HoldsAt, insert};
ghost use Rattle.std.specs.List.Sorted.{IsSearchInRange};
ghost use Rattle.std.specs.BTreeSet.{insert_key};
ghost use Rattle.rif_values.specs.Sets.{has, IsSet, ordered};

use rif_values::{Listed, OutOfMemory};
use std::alloc::Global;
use std::cmp::Ordering;

/// The items in order, each once: a finite set as a list. Of items that compare alike the first stays.
///
/// It takes time as n log n in the number n of items, and as n where they come in order or the other way
/// round. While it sorts it takes memory for n items, and none where they come so or are 20 at most. The
/// list has the room of the `Vec`.
///
/// Source: the project's own way to write finite sets.
pub fn sorted_set<K: Ord + Drop>(alloc: Global, mut items: Vec<K>) -> Result<Listed<K>, OutOfMemory>
    ensures { IfOk result (λ set. set ≡ ordered K.cmp items.items) }
{
    items.as_mut_slice().sort(alloc)?;
    items.dedup();
    Ok(Listed::from_vec(items))
}

/// The place of an item in a set, counted from 0, or else the place at which it would be put. The items of
/// the set must stand in order, each once. It compares the item with as many as the logarithm of their
/// number.
pub fn find_in_set<K: Ord>(set: &[K], item: &K) -> Result<usize, usize>
    requires { IsSet K.cmp set.now }
    ensures bound { IsSearchInRange result (length set.now) }
    ensures found { IfOk result (λ at. has K.cmp set.now item.now ≡ true) }
    ensures stands { IfOk result (HoldsAt (λ x. K.cmp x item.now ≡ Ordering.Equal) set.now) }
    ensures absent { IfErr result (λ at. has K.cmp set.now item.now ≡ false) }
    ensures place { IfErr result (λ at. insert_key K.cmp set.now item.now ≡ insert set.now at item.now) }
{
    set.binary_search(item)
}
