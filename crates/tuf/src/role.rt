//! `tuf role sign`: who holds keys of a delegated role makes its document, and signs it, alone.

use crate::fault::{Fault, about, misspelt, or_told, refused};
use crate::files::{self, Disk};
use crate::found::{Found, Listing, find};
use crate::host::Host;
use crate::keys::{identifier, public_of, read_signer, read_signers};
use crate::putting::measure;
use crate::roots::unsigned;
use crate::shares::check_name;
use crate::version::after;
use crate::{expiry, when};
use std::alloc::Global;
use std::num::NonZeroU64;
use tough::editor::signed::SignedRole;
use tough::editor::targets::TargetEdits;
use tough::jiff::Timestamp;
use tough::schema::decoded::Decoded;
use tough::schema::{DelegatedTargets, Role, Sign, Signature, Signed, Targets};

const NOTHING: &str = "nothing stands there; --targets names the folder of its files";

/// Which role's document is signed, and by whom.
#[derive(Drop)]
pub(crate) struct Signing<'a> {
    /// The role.
    pub(crate) name: &'a str,
    /// The file of its document.
    pub(crate) file: &'a str,
    /// The files of the keys that sign.
    pub(crate) keys: &'a [&'a str],
    /// When the document expires; none: in the time that is usual.
    pub(crate) expires: Option<Timestamp>,
}

// The document of the file, if one stands.
fn standing<R: Host>(rt: &R, path: &str) -> Result<Option<Signed<Targets>>, Fault> {
    let alloc = rt.alloc();
    let mut disk = files::disk(rt)?;
    if !files::stands(alloc, &mut disk, path)? {
        return Ok(None);
    }
    let bytes = files::read(rt, path)?;
    match Signed::<Targets>::read(alloc, bytes.as_slice()) {
        Ok(document) => Ok(Some(document)),
        Err(error) => Err(about(alloc, path, &error)),
    }
}

// Writes the document: its bytes in the file.
fn write<R: Host, T: Role + Drop>(rt: &R, path: &str, document: Signed<T>) -> Result<(), Fault> {
    match SignedRole::from_signed(rt.alloc(), document) {
        Ok(role) => files::write(rt, path, role.buffer().as_slice()),
        Err(error) => Err(about(rt.alloc(), path, &error)),
    }
}

// What was signed.
fn told(
    alloc: Global,
    words: &Signing<'_>,
    document: &Targets,
    signatures: usize,
) -> Result<String, Fault> {
    let (file, role) = (words.file, words.name);
    let (version, expires, count) = (document.version, document.expires, document.targets.len());
    Ok(format!(in alloc;
        "{file}: role {role}, version {version}, {count} files, {signatures} signatures, expires {expires}\n"
    )?)
}

// The edits of the next document, and its version.
fn edits(
    alloc: Global,
    words: &Signing<'_>,
    standing: Option<Signed<Targets>>,
) -> Result<(TargetEdits, NonZeroU64), Fault> {
    let Some(document) = standing else {
        return Ok((TargetEdits::new(alloc, words.name)?, NonZeroU64::MIN));
    };
    let version = after(alloc, words.file, document.signed.version)?;
    Ok((
        TargetEdits::over(alloc, words.name, unsigned(document))?,
        version,
    ))
}

// Has the document list the files, and nothing else.
fn list<R: Host>(
    alloc: Global,
    disk: &mut Disk<R>,
    edits: &mut TargetEdits,
    files: &[Found],
) -> Result<(), Fault> {
    edits.clear_targets();
    for file in files {
        let target = measure(alloc, disk, file.path.as_str())?;
        edits.add_target(file.name.clone()?, target)?;
    }
    Ok(())
}

// The edits of the next document, which lists the folder's files.
fn edited<R: Host>(
    rt: &R,
    words: &Signing<'_>,
    listing: &Listing,
    disk: &mut Disk<R>,
) -> Result<TargetEdits, Fault> {
    let alloc = rt.alloc();
    let expires = match words.expires {
        Some(expires) => expires,
        None => when::from_now(rt, expiry::OTHERS)?,
    };
    let (mut edits, version) = edits(alloc, words, standing(rt, words.file)?)?;
    edits.version(version);
    edits.expires(expires);
    list(alloc, disk, &mut edits, listing.files.as_slice())?;
    Ok(edits)
}

// The next document of the role, which lists the folder's files, signed.
fn signed<R: Host>(
    rt: &R,
    words: &Signing<'_>,
    listing: &Listing,
) -> Result<Signed<DelegatedTargets>, Fault> {
    let alloc = rt.alloc();
    let signers = read_signers(rt, words.keys)?;
    let mut disk = files::disk(rt)?;
    let edits = edited(rt, words, listing, &mut disk)?;
    let outcome = edits.create_signed(alloc, signers.as_slice());
    or_told(alloc, words.name, outcome)
}

/// Makes the next document of the role, which lists the folder's files, signs it, and writes it into the file: what was signed.
pub(crate) fn make<R: Host>(rt: &R, words: &Signing<'_>, folder: &str) -> Result<String, Fault> {
    let alloc = rt.alloc();
    check_name(alloc, words.name)?;
    let mut disk = files::disk(rt)?;
    let listing = find(alloc, &mut disk, folder)?;
    let document = signed(rt, words, &listing)?;
    let told = told(
        alloc,
        words,
        &document.signed.targets,
        document.signatures.len(),
    )?;
    write(rt, words.file, document)?;
    let mut text = String::new(alloc);
    for path in &listing.others {
        let line = format!(in alloc; "left out {path}: no plain file\n")?;
        text.push_str(line.as_str())?;
    }
    text.push_str(told.as_str())?;
    Ok(text)
}

// The signature of the message by the key of a file.
fn signature<R: Host>(rt: &R, path: &str, message: &[u8]) -> Result<Signature, Fault> {
    let alloc = rt.alloc();
    let signer = read_signer(rt, path)?;
    let keyid = identifier(alloc, &public_of(alloc, &signer)?)?;
    match signer.sign(alloc, message) {
        Ok(sig) => Ok(Signature {
            keyid,
            sig: Decoded::from_vec(alloc, sig)?,
        }),
        Err(error) => Err(about(alloc, path, &error)),
    }
}

// Adds the signatures by the keys, each in the place of one under its identifier, else behind the others.
fn sign<R: Host>(rt: &R, words: &Signing<'_>, document: &mut Signed<Targets>) -> Result<(), Fault> {
    let message = or_told(
        rt.alloc(),
        words.file,
        document.signed.canonical_form(rt.alloc()),
    )?;
    for path in words.keys {
        let signature = signature(rt, path, message.as_slice())?;
        document.signatures.retain(|it| it.keyid != signature.keyid);
        document.signatures.push(signature)?;
    }
    Ok(())
}

/// Adds signatures to those that the role's document in the file has: what is signed then.
pub(crate) fn add<R: Host>(rt: &R, words: &Signing<'_>) -> Result<String, Fault> {
    let alloc = rt.alloc();
    check_name(alloc, words.name)?;
    if words.expires.is_some() {
        return Err(misspelt(alloc, "--expires", "--targets beside it"));
    }
    let Some(mut document) = standing(rt, words.file)? else {
        return Err(refused(alloc, words.file, NOTHING));
    };
    sign(rt, words, &mut document)?;
    let told = told(alloc, words, &document.signed, document.signatures.len())?;
    write(rt, words.file, document)?;
    Ok(told)
}
