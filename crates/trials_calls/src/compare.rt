//! How two values compare.

use anyhow::Result;
use std::alloc::Global;
use std::hash::{BuildHasher, BuildHasherDefault, DefaultHasher, Hash};

/// Whether the first value is below the other, whether they are equal, and whether they are hashed alike.
pub(crate) fn compared<T: Ord + Hash>(alloc: Global, one: &T, other: &T) -> Result<String> {
    let hashes: BuildHasherDefault<DefaultHasher> = BuildHasherDefault::new();
    let hash = hashes.hash_one(one);
    let order = if one < other { "below" } else { "not below" };
    let same = if one == other { "equal" } else { "different" };
    let hashed = if hash == hashes.hash_one(other) {
        "alike"
    } else {
        "apart"
    };
    Ok(format!(in alloc; "{order}, {same}, hashed {hashed}")?)
}
