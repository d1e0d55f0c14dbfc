//! What a store holds: a file that can't be read as what it should be, or that the root doesn't verify, holds nothing.

ghost use Rattle.std.specs.Prelude.{◌≡◌, IfOk};
ghost use Rattle.tough_roles.specs.Root.{root_doc};
ghost use Rattle.tough_checks.specs.Checks.{timestamp_where};
ghost use Rattle.tough_checks.specs.StoredDocuments.{IsAccepted, content, stored_timestamp, stored_time};
ghost use Rattle.tough_checks.specs.Versions.{time_where};

use jiff::Timestamp as Instant;
use serde_json::Value;
use std::alloc::{AllocError, Global};
use tough_json::text::value_of;
use tough_roles::{Error, ReadError, Role, Root, Signed, Timestamp, Verify};

/// The document that was read, if it could be read and the root verifies it. The only refusal is out of memory.
pub(crate) fn accepted<T: Role + Drop, V: Verify>(
    alloc: Global,
    verifier: &V,
    root: &Root,
    read: Result<Signed<T>, ReadError>,
) -> Result<Option<T>, AllocError>
    ensures { IfOk result
        (IsAccepted (V.verifies verifier.now) (root_doc root.now) T.TYPE T.json read) }
{
    let signed = match read {
        Ok(signed) => signed,
        Err(ReadError::Memory) => return Err(AllocError),
        Err(_) => return Ok(None),
    };
    match root.verify_role(alloc, &signed, verifier) {
        Ok(()) => Ok(Some(signed.signed)),
        Err(Error::Memory) => Err(AllocError),
        Err(_) => Ok(None),
    }
}

/// The stored timestamp, if the file can be read and the root verifies it. The only refusal is out of memory.
pub fn read_timestamp<V: Verify>(
    alloc: Global,
    verifier: &V,
    root: &Root,
    found: &Option<Vec<u8>>,
) -> Result<Option<Timestamp>, AllocError>
    ensures { IfOk result (λ old. timestamp_where old
        ≡ stored_timestamp (V.verifies verifier.now) (root_doc root.now) (content found.now)) }
{
    let Some(bytes) = found else {
        return Ok(None);
    };
    let read = Signed::<Timestamp>::read(alloc, bytes.as_slice());
    accepted(alloc, verifier, root, read)
}

/// The stored instant, if the file can be read as one. The only refusal is out of memory.
pub fn read_time(alloc: Global, found: &Option<Vec<u8>>) -> Result<Option<Instant>, AllocError>
    ensures { IfOk result (λ time. time_where time ≡ stored_time (content found.now)) }
{
    let Some(bytes) = found else {
        return Ok(None);
    };
    match value_of(alloc, bytes.as_slice()) {
        Ok(Value::String(text)) => match text.as_str().parse::<Instant>() {
            Ok(instant) => Ok(Some(instant)),
            Err(_) => Ok(None),
        },
        Ok(_) => Ok(None),
        Err(ReadError::Memory) => Err(AllocError),
        Err(_) => Ok(None),
    }
}
