ghost use Rattle.std.specs.Prelude.{◌≡◌, OnOk, unwrap_or, true, false};
ghost use Rattle.cedr_living.specs.Counts.{key_count, CountsOne};

use cedr_base::OutOfMemory;
use std::collections::BTreeMap;

/// How many of a key there are.
fn count_in<K: Ord>(counts: &BTreeMap<K, usize>, key: &K) -> usize
    ensures { result ≡ unwrap_or (key_count K.cmp counts.now.entries key.now) 0 }
{
    counts.get(key).copied().unwrap_or(0)
}

/// Counts one more of a key.
pub(crate) fn raise<K: Ord + Drop>(
    counts: &mut BTreeMap<K, usize>,
    key: K,
) -> Result<(), OutOfMemory>
    ensures { OnOk result (CountsOne true K.cmp key counts.old.entries counts.new.entries) }
{
    let count = count_in(counts, &key);
    if count == usize::MAX {
        return Err(OutOfMemory);
    }
    counts.insert(key, count + 1)?;
    Ok(())
}

/// Counts one less of a key, which goes with the last one.
pub(crate) fn lower<K: Ord + Drop>(counts: &mut BTreeMap<K, usize>, key: &K)
    ensures { CountsOne false K.cmp key.now counts.old.entries counts.new.entries }
{
    let count = count_in(counts, key);
    if count <= 1 {
        counts.remove(key);
    } else if let Some(there) = counts.get_mut(key) {
        *there = count - 1;
    }
}
