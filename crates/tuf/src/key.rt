//! `tuf key`: keys are made and shown.

use crate::fault::{Fault, about, misspelt, refused};
use crate::host::Host;
use crate::keys::{Scheme, identifier, make, public_of, public_text, read_public};
use crate::report::{Form, Object, Report};
use std::alloc::Global;
use std::io::ErrorKind;
use tough::schema::Key;
use tough_signatures::{SigningKey, write_new};

// The scheme of this name.
fn scheme<R: Host>(rt: &R, name: &str) -> Result<Scheme, Fault> {
    match name {
        "ed25519" => Ok(Scheme::Ed25519),
        "ecdsa-p256" => Ok(Scheme::EcdsaP256),
        _ => Err(misspelt(rt.alloc(), name, "ed25519 or ecdsa-p256")),
    }
}

// Writes a secret into a new file, which its owner alone may read.
fn write_secret<R: Host>(rt: &R, path: &str, signer: &SigningKey) -> Result<(), Fault> {
    let alloc = rt.alloc();
    let text = match signer.to_pem(alloc) {
        Ok(text) => text,
        Err(error) => return Err(about(alloc, path, &error)),
    };
    match write_new(rt, path, text.as_str()) {
        Ok(()) => Ok(()),
        Err(error) if error.kind() == ErrorKind::AlreadyExists => {
            Err(refused(
                alloc,
                path,
                "a file is there, which stays; take another name",
            ))
        }
        Err(error) => Err(about(alloc, path, &error)),
    }
}

/// Makes a secret in a new file: the identifier of its key.
pub(crate) fn new<R: Host>(rt: &R, path: &str, scheme_name: &str) -> Result<String, Fault> {
    let alloc = rt.alloc();
    let signer = make(rt, scheme(rt, scheme_name)?)?;
    let id = identifier(alloc, &public_of(alloc, &signer)?)?;
    write_secret(rt, path, &signer)?;
    Ok(format!(in alloc; "{}\n", id.as_str())?)
}

// Tells of a key.
fn add_key(alloc: Global, report: &mut Report, path: &str, key: &Key) -> Result<(), Fault> {
    let id = identifier(alloc, key)?;
    let id = id.as_str();
    let scheme = key.kind().scheme();
    let public = public_text(key).trim_end();
    let words = format!(in alloc; "{path}\nidentifier {id}\nscheme {scheme}\npublic {public}\n")?;
    let mut object = Object::new(alloc);
    object.text("file", path)?;
    object.text("keyid", id)?;
    object.text("scheme", scheme)?;
    object.text("public", public)?;
    Ok(report.add(words.as_str(), &object)?)
}

/// What is told of the keys of files: the path, the identifier, the scheme and the public key.
pub(crate) fn show<R: Host>(rt: &R, paths: &[&str], form: Form) -> Result<String, Fault> {
    let mut report = Report::new(rt.alloc(), form);
    for path in paths {
        let key = read_public(rt, path)?;
        add_key(rt.alloc(), &mut report, path, &key)?;
    }
    Ok(report.into_text())
}

/// The public keys of files alone, as a file has them.
pub(crate) fn publics<R: Host>(rt: &R, paths: &[&str]) -> Result<String, Fault> {
    let mut text = String::new(rt.alloc());
    for path in paths {
        let key = read_public(rt, path)?;
        let public = public_text(&key);
        text.push_str(public)?;
        if !public.ends_with('\n') {
            text.push_str("\n")?;
        }
    }
    Ok(text)
}
