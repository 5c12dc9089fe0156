//! Maps by hashes, whose keys are put in order where a list of them is asked for. The hash is SipHash:
//! of the faster one that maps have by default, keys that collide can be worked out from its constants.
ghost use Rattle.std.specs.Prelude.{◌≡◌, [], IfOk};
ghost use Rattle.std.specs.HashMap.{keys, IsUnique};
ghost use Rattle.std.specs.List.Sorted.{IsPermutation, IsSorted};

use grid_base::NoMemory;
use std::alloc::Global;
use std::collections::HashMap;
use std::hash::{BuildHasherDefault, DefaultHasher, Hash};

pub(crate) type Hashed<K, V> = HashMap<K, V, BuildHasherDefault<DefaultHasher>>;

// A map without keys.
pub(crate) fn empty<K: Eq + Hash, V>(alloc: Global) -> Hashed<K, V>
    ensures { result.entries ≡ [] }
{
    HashMap::with_hasher(alloc, BuildHasherDefault::new())
}

// The keys, in order.
pub(crate) fn keys_in_order<K: Ord + Hash + Copy + Drop, V>(
    alloc: Global,
    map: &Hashed<K, V>,
) -> Result<Vec<K>, NoMemory>
    ensures in_order { IfOk result
        (λ list. IsPermutation (keys map.now) list.items × IsSorted K.cmp list.items) }
    ensures unique { IsUnique K.eq map.now }
{
    let mut list: Vec<K> = map.keys().copied().collect(alloc)?;
    list.sort_unstable();
    Ok(list)
}
