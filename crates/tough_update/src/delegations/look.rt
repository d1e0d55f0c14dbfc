//! Looking at a list of roles.

ghost use Rattle.std.specs.Prelude.{◌≡◌, IfOk, drop, option_map};
ghost use Rattle.tough_roles.specs.Timestamp.{metafile_doc};
ghost use Rattle.tough_update.specs.delegations.Growing.{listed_as, look};
ghost use Rattle.tough_trust.specs.delegations.Indexed.{names_of};
ghost use Rattle.tough_trust.specs.delegations.Dressed.{entries_of};
ghost use Rattle.tough_update.specs.delegations.View.{metas_of, look_doc};
ghost use Rattle.tough_trust.specs.View.{index_doc};

use std::alloc::{AllocError, Global};
use tough_roles::{Metafile, Snapshot};
use tough_schema::DelegatedRole;
use tough_trust::Index;

/// What comes next in a list of roles.
#[derive(Drop)]
pub(crate) enum Look<'a> {
    /// Nothing more is to be fetched.
    Through,
    /// This name isn't in the snapshot.
    Unlisted(String),
    /// The document of the role at this place is to be fetched, as the snapshot's entry says.
    Wanted(usize, &'a Metafile),
}

// What the snapshot lists for a role.
fn entry_of<'a>(
    alloc: Global,
    snapshot: &'a Snapshot,
    name: &str,
) -> Result<Option<&'a Metafile>, AllocError>
    ensures { IfOk result (λ o. option_map (λ m. metafile_doc m.now) o
        ≡ listed_as (metas_of snapshot.now) name.now) }
{
    let file = format!(in alloc; "{name}.json")?;
    Ok(snapshot.metafile(file.as_str()))
}

// The first role from this place on whose name had no turn: its document is to be fetched.
pub(crate) fn look_from<'a>(
    alloc: Global,
    snapshot: &'a Snapshot,
    index: &Index,
    roles: &[DelegatedRole],
    from: usize,
) -> Result<Look<'a>, AllocError>
    ensures { IfOk result (λ l. look_doc (entries_of roles.now) l
        ≡ look (metas_of snapshot.now) (names_of (index_doc index.now))
        (drop from (entries_of roles.now))) }
{
    let mut at = from;
    while let Some(role) = roles.get(at) {
        if !index.contains(role.name.as_str()) {
            return match entry_of(alloc, snapshot, role.name.as_str())? {
                Some(entry) => Ok(Look::Wanted(at, entry)),
                None => Ok(Look::Unlisted(role.name.clone()?)),
            };
        }
        at += 1;
    }
    Ok(Look::Through)
}
