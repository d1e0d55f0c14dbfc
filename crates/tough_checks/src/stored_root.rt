//! The stored root: a file that can't be read as a root, or whose root doesn't verify itself, holds none.

ghost use Rattle.std.specs.Prelude.{◌≡◌, IfOk};
ghost use Rattle.tough_checks.specs.StoredDocuments.{IsAcceptedRoot, content, root_where, stored_root, newer_root};

use std::alloc::{AllocError, Global};
use tough_roles::{Error, ReadError, Root, Signed, Verify};

// The root that was read, if it could be read and verifies itself. The only refusal is out of memory.
fn accepted<V: Verify>(
    alloc: Global,
    verifier: &V,
    read: Result<Signed<Root>, ReadError>,
) -> Result<Option<Signed<Root>>, AllocError>
    ensures { IfOk result (IsAcceptedRoot (V.verifies verifier.now) read) }
{
    let root = match read {
        Ok(root) => root,
        Err(ReadError::Memory) => return Err(AllocError),
        Err(_) => return Ok(None),
    };
    match root.signed.verify_role(alloc, &root, verifier) {
        Ok(()) => Ok(Some(root)),
        Err(Error::Memory) => Err(AllocError),
        Err(_) => Ok(None),
    }
}

/// The stored root, if the file can be read and the root verifies itself. The only refusal is out of memory.
pub fn read_root<V: Verify>(
    alloc: Global,
    verifier: &V,
    found: &Option<Vec<u8>>,
) -> Result<Option<Signed<Root>>, AllocError>
    ensures { IfOk result (λ old. root_where old
        ≡ stored_root (V.verifies verifier.now) (content found.now)) }
{
    let Some(bytes) = found else {
        return Ok(None);
    };
    let read = Signed::<Root>::read(alloc, bytes.as_slice());
    accepted(alloc, verifier, read)
}

/// The root, where it is newer than this version.
pub fn newer_root(first: u64, root: Option<Signed<Root>>) -> Option<Signed<Root>>
    ensures { root_where result ≡ newer_root first (root_where root) }
{
    let Some(root) = root else {
        return None;
    };
    if root.signed.version.get() <= first {
        return None;
    }
    Some(root)
}
