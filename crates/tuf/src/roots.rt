//! Root documents of files: read, written, and which of their keys signed.

use crate::fault::{Fault, about};
use crate::files;
use crate::host::Host;
use std::alloc::Global;
use tough::editor::signed::SignedRole;
use tough::schema::decoded::{Decoded, Hex};
use tough::schema::{Key, Role, RoleType, Root, Signature, Signed, Verify};
use tough_ceremony::{CeremonyError, Tally, tally_root};
use tough_signatures::StandardVerify;

/// The roles of a root, in the order in which they are told.
pub(crate) const ROLES: [RoleType; 4] = [
    RoleType::Root,
    RoleType::Targets,
    RoleType::Snapshot,
    RoleType::Timestamp,
];

/// A signed root, with the bytes of its file.
#[derive(Drop)]
pub(crate) struct RootFile {
    pub(crate) signed: Signed<Root>,
    pub(crate) bytes: Vec<u8>,
}

/// The role of a signed document, without its signatures.
pub(crate) fn unsigned<T: Drop>(document: Signed<T>) -> T {
    let Signed { signed, signatures } = document;
    drop(signatures);
    signed
}

/// The signed root of a file.
pub(crate) fn read<R: Host>(rt: &R, path: &str) -> Result<RootFile, Fault> {
    let alloc = rt.alloc();
    let bytes = files::read(rt, path)?;
    match Signed::<Root>::read(alloc, bytes.as_slice()) {
        Ok(signed) => Ok(RootFile { signed, bytes }),
        Err(error) => Err(about(alloc, path, &error)),
    }
}

/// The text of a signed root, as its file has it.
pub(crate) fn text(alloc: Global, path: &str, signed: Signed<Root>) -> Result<Vec<u8>, Fault> {
    match SignedRole::from_signed(alloc, signed) {
        Ok(role) => Ok(role.buffer().clone()?),
        Err(error) => Err(about(alloc, path, &error)),
    }
}

/// What the signatures of a root are over.
pub(crate) fn message(alloc: Global, path: &str, root: &Root) -> Result<Vec<u8>, Fault> {
    match root.canonical_form(alloc) {
        Ok(text) => Ok(text),
        Err(error) => Err(about(alloc, path, &error)),
    }
}

/// The identifier under which the root lists the key for the role, if it does.
pub(crate) fn listed<'a>(root: &'a Root, role: RoleType, key: &Key) -> Option<&'a Decoded<Hex>> {
    let keys = root.roles.get(&role)?;
    for id in &keys.keyids {
        if let Some(known) = root.keys.get(id) {
            if known == key {
                return Some(id);
            }
        }
    }
    None
}

/// Whether the key of the identifier signed the message.
pub(crate) fn is_signed_by(
    root: &Root,
    id: &Decoded<Hex>,
    message: &[u8],
    signatures: &[Signature],
) -> bool {
    let Some(key) = root.keys.get(id) else {
        return false;
    };
    for signature in signatures {
        if signature.keyid == *id && StandardVerify.verify(key, message, signature.sig.as_slice()) {
            return true;
        }
    }
    false
}

/// What an error of an edit, of signing or of counting says about a file, a role or a word.
pub(crate) fn told_of(alloc: Global, what: &str, error: CeremonyError) -> Fault {
    match error {
        CeremonyError::Memory => Fault::Memory,
        error => about(alloc, what, &error),
    }
}

/// Which of the keys that this root lists for roots signed the root of the file; none where it lists none.
pub(crate) fn count_signed<'a>(
    alloc: Global,
    path: &str,
    root: &'a Root,
    document: &Signed<Root>,
) -> Result<Option<Tally<'a>>, Fault> {
    match tally_root(alloc, root, document, &StandardVerify) {
        Ok(tally) => Ok(Some(tally)),
        Err(CeremonyError::NoRole { .. }) => Ok(None),
        Err(error) => Err(told_of(alloc, path, error)),
    }
}

// What a root lacks that isn't complete: other signatures, keys, or those keys that may still sign.
fn wants(alloc: Global, tally: &Tally<'_>) -> Result<String, Fault> {
    let mut text = String::new(alloc);
    if !tally.is_once() {
        text.push_str(", two signatures by one key")?;
    } else if tally.waiting().is_empty() {
        text.push_str(", lacks keys")?;
    } else {
        text.push_str(", waits for")?;
        for id in tally.waiting() {
            text.push_str(" ")?;
            text.push_str(id.as_str())?;
        }
    }
    Ok(text)
}

/// A line that says who signed, and who may still.
pub(crate) fn line(alloc: Global, whose: &str, tally: &Option<Tally<'_>>) -> Result<String, Fault> {
    let Some(tally) = tally else {
        return Ok(format!(in alloc; "{whose}: no keys for roots\n")?);
    };
    let (signed, threshold) = (tally.signed().len(), tally.threshold());
    let mut text = format!(in alloc; "{whose}: {signed} of {threshold} signatures")?;
    if !tally.is_reached() {
        text.push_str(wants(alloc, tally)?.as_str())?;
    }
    text.push_str("\n")?;
    Ok(text)
}
