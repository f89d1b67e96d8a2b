//! Files in memory, which the sure and the failing implementation share.

ghost use Rattle.std.specs.Prelude.{◌≡◌, ℕ, List, OnOk, OnErr, IfOk, Some, MatchOption, option_map};
ghost use Rattle.fv_base.specs.Outside.{Holds, SameFiles};
ghost use Rattle.fv_base.specs.Store.{Store, names_in, no_files, with_pairs};

use fv_text::Memory;
use std::alloc::Global;
use std::collections::BTreeMap;

pub(crate) type Store = BTreeMap<Vec<u8>, Vec<u8>>;

/// What the name holds.
pub(crate) fn look_up<'a>(store: &'a Store, name: &[u8]) -> Option<&'a [u8]>
    ensures { MatchOption result (names_in store.now name.now ≡ None)
        (λ bytes. names_in store.now name.now ≡ Some bytes.now) }
{
    match store.get(name) {
        None => None,
        Some(bytes) => Some(bytes.as_slice()),
    }
}

/// Makes the name hold the bytes.
pub(crate) fn put(alloc: Global, store: &mut Store, name: &[u8], bytes: &[u8]) -> Result<(), Memory>
    ensures ok { OnOk result (Holds (Some (names_in store.old)) (Some (names_in store.new)) name.now bytes.now) }
    ensures err { OnErr result (SameFiles (Some (names_in store.old)) (Some (names_in store.new))) }
{
    let name = Vec::from_slice(alloc, name)?;
    let bytes = Vec::from_slice(alloc, bytes)?;
    store.insert(name, bytes)?;
    Ok(())
}

/// The names with what they hold; of several pairs with one name the last counts.
pub(crate) fn from_pairs(alloc: Global, pairs: &[(String, Vec<u8>)]) -> Result<Store, Memory>
    ensures { IfOk result (λ store. SameFiles (Some (with_pairs no_files pairs.now)) (Some (names_in store))) }
{
    let mut store = BTreeMap::new(alloc);
    for (name, bytes) in pairs {
        put(alloc, &mut store, name.as_bytes(), bytes.as_slice())?;
    }
    Ok(store)
}
