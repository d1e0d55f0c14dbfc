//! Objects of JSON whose members are the entries of a map.

ghost use Rattle.std.specs.Prelude.{◌≡◌, ℕ, List, [], Option, map, true};
ghost use Rattle.serde_json.specs.Data.{Data};
ghost use Rattle.serde_json.specs.View.{view, members_view};
ghost use Rattle.tough_json.specs.Results.{Reads};
ghost use Rattle.tough_json.specs.Table.{table_from};

use crate::error::ReadError;
use serde_json::{Map, Value};
use std::alloc::Global;
use std::collections::BTreeMap;

/// What is read from a member of an object, under a key of its own. `doc` is a value's plain data; `at` says which members are
/// read, and as what.
pub trait FromEntry<K> {
    ghost Doc: { Type 0 };

    ghost doc: { Self → Doc };

    ghost at: { List ℕ → Data → Option (K × Doc) };

    /// What the member is; `Shape` where it is none.
    fn from_entry(alloc: Global, name: &str, value: Value) -> Result<(K, Self), ReadError>
        ensures { Reads (λ p. (p.0, doc p.1)) result (at name.now (view value)) };
}

/// The map of the members, read one after another.
pub fn table_of<K: Ord + Drop, T: FromEntry<K> + Drop>(
    alloc: Global,
    members: Map<String, Value>,
) -> Result<BTreeMap<K, T>, ReadError>
    ensures { Reads (λ m. map (λ e. (e.0, T.doc e.1)) m.entries) result
        (table_from (λ there. true) K.cmp T.at [] (members_view members.entries)) }
{
    let mut table = BTreeMap::new(alloc);
    for (name, value) in members {
        let (key, entry) = T::from_entry(alloc, name.as_str(), value)?;
        drop(table.insert(key, entry)?);
    }
    Ok(table)
}
