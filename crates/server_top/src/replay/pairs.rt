//! The pairs of the service in an ordered map of std.
ghost use Rattle.std.specs.Prelude.{◌≡◌, ◌≤◌, ◌^◌, IfOk, OnOk, OnErr};
ghost use Rattle.std.specs.Option.{option_map};
ghost use Rattle.std.specs.FinMap.{entries, get, insert};
ghost use Rattle.server_top.specs.ReplayRun.{stored_pairs, AreStorable};

use image_text::PairList;
use std::alloc::Global;
use std::collections::BTreeMap;
use vm_base::{Bytes, NoMemory};

/// The value of a key, copied.
pub(crate) fn value_of(
    alloc: Global,
    pairs: &BTreeMap<Vec<u8>, Vec<u8>>,
    key: &[u8],
) -> Result<Option<Bytes>, NoMemory>
    ensures { IfOk result (λ value. value ≡ get (stored_pairs pairs.now.entries) key.now) }
{
    let Some(found) = pairs.get(key) else {
        return Ok(None);
    };
    let mut value = Bytes::new(alloc);
    value.push_all(found)?;
    Ok(Some(value))
}

/// Lets the key stand for the value. After `NoMemory` the pairs are as they were.
pub(crate) fn set_pair(
    alloc: Global,
    pairs: &mut BTreeMap<Vec<u8>, Vec<u8>>,
    key: &[u8],
    value: &[u8],
) -> Result<(), NoMemory>
    ensures ok { OnOk result
        (stored_pairs pairs.new.entries
        ≡ insert (stored_pairs pairs.old.entries) key.now value.now) }
    ensures no_memory { OnErr result
        (stored_pairs pairs.new.entries ≡ stored_pairs pairs.old.entries) }
{
    let key = Vec::from_slice(alloc, key)?;
    let value = Vec::from_slice(alloc, value)?;
    match pairs.insert(key, value) {
        Ok(_) => Ok(()),
        Err(_) => Err(NoMemory),
    }
}

/// All pairs, copied.
pub(crate) fn copy_pairs(
    alloc: Global,
    pairs: &BTreeMap<Vec<u8>, Vec<u8>>,
) -> Result<PairList, NoMemory>
    requires { AreStorable (2 ^ 28) (stored_pairs pairs.now.entries) }
    ensures { IfOk result (λ list. list ≡ entries (stored_pairs pairs.now.entries)) }
{
    let mut list = PairList::new(alloc);
    for (key, value) in pairs {
        list.push(key, value)?;
    }
    Ok(list)
}
