//! The editor.

ghost use Rattle.tough_signed.specs.Roles.{signed_of, buffer_of};
ghost use Rattle.tough_release.specs.Roots.{IsRootFile};

use crate::heading::Heading;
use tough_edit::TargetEdits;
use tough_roles::{Root, Signed};
use tough_schema::Targets;
use tough_signed::SignedRole;

/// An editor of a repository (TUF specification 1.0, section 4), without a transport: a root, signed targets with the documents of their roles, an
/// editor of one of these documents, and what the snapshot and the timestamp will state of themselves.
#[derive(Drop)]
pub struct RepositoryEdits {
    pub(crate) root: SignedRole<Root>,
    pub(crate) targets: Option<Signed<Targets>>,
    pub(crate) editor: Option<TargetEdits>,
    pub(crate) snapshot: Heading,
    pub(crate) timestamp: Heading,
    ghost rooted: { IsRootFile (signed_of root) (buffer_of root) },
}
