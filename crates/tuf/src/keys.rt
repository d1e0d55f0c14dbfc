//! Keys of files: secrets that sign, and public keys.

use crate::fault::{Fault, about, or_told, refused};
use crate::files;
use crate::host::Host;
use std::alloc::Global;
use std::str;
use tough::schema::decoded::{Decoded, Hex};
use tough::schema::{Key, Sign};
use tough_signatures::{SecretError, SigningKey, new_ecdsa, new_ed25519, public_key};

const NO_SECRET: &str = "no secret key of Ed25519 or P-256 in PKCS #8, as `tuf key new` writes";

const NO_KEY: &str = "no key: neither a secret, nor a public key in PEM, nor 64 hexadecimal digits";

/// The schemes by which new keys sign.
#[derive(Clone, Copy, Drop)]
pub(crate) enum Scheme {
    Ed25519,
    EcdsaP256,
}

/// A new key that signs by the scheme.
pub(crate) fn make<R: Host>(rt: &R, scheme: Scheme) -> Result<SigningKey, Fault> {
    let alloc = rt.alloc();
    let made = match scheme {
        Scheme::Ed25519 => new_ed25519(alloc, rt),
        Scheme::EcdsaP256 => new_ecdsa(alloc, rt),
    };
    or_told(alloc, "key", made)
}

/// The path that a word names: `-` is standard input.
pub(crate) fn path_of(word: &str) -> &str {
    if word == "-" { "/dev/stdin" } else { word }
}

/// The key of a file that signs.
pub(crate) fn read_signer<R: Host>(rt: &R, path: &str) -> Result<SigningKey, Fault> {
    let alloc = rt.alloc();
    let bytes = files::read(rt, path_of(path))?;
    match SigningKey::read(alloc, bytes.as_slice()) {
        Ok(signer) => Ok(signer),
        Err(SecretError::Memory) => Err(Fault::Memory),
        Err(SecretError::NotASecret) => Err(refused(alloc, path, NO_SECRET)),
    }
}

/// The keys of files that sign, in their order.
pub(crate) fn read_signers<R: Host>(rt: &R, paths: &[&str]) -> Result<Vec<SigningKey>, Fault> {
    let mut signers = Vec::new(rt.alloc());
    for path in paths {
        signers.push(read_signer(rt, path)?)?;
    }
    Ok(signers)
}

/// The public key of a key that signs.
pub(crate) fn public_of(alloc: Global, signer: &SigningKey) -> Result<Key, Fault> {
    match signer.tuf_key(alloc) {
        Ok(key) => Ok(key),
        Err(error) => Err(about(alloc, "key", &error)),
    }
}

// The public key of a text: PEM, or the digits of an Ed25519 key.
fn public_in(alloc: Global, path: &str, text: &str) -> Result<Key, Fault> {
    if let Ok(key) = Key::from_str(alloc, text.trim()) {
        return Ok(key);
    }
    match public_key(alloc, text) {
        Ok(key) => Ok(key),
        Err(_) => Err(refused(alloc, path, NO_KEY)),
    }
}

/// The public key of a file, which has a secret or a public key.
pub(crate) fn read_public<R: Host>(rt: &R, path: &str) -> Result<Key, Fault> {
    let alloc = rt.alloc();
    let bytes = files::read(rt, path_of(path))?;
    if let Ok(signer) = SigningKey::read(alloc, bytes.as_slice()) {
        return public_of(alloc, &signer);
    }
    match str::from_utf8(bytes.as_slice()) {
        Ok(text) => public_in(alloc, path, text),
        Err(_) => Err(refused(alloc, path, NO_KEY)),
    }
}

/// The identifier of a key.
pub(crate) fn identifier(alloc: Global, key: &Key) -> Result<Decoded<Hex>, Fault> {
    match key.key_id(alloc) {
        Ok(id) => Ok(id),
        Err(error) => Err(about(alloc, "key", &error)),
    }
}

/// The public key as a file has it: PEM, or the digits of an Ed25519 key.
pub(crate) fn public_text(key: &Key) -> &str {
    match key {
        Key::Rsa { keyval, .. } => keyval.public.as_str(),
        Key::Ed25519 { keyval, .. } => keyval.public.as_str(),
        Key::Ecdsa { keyval, .. } => keyval.public.as_str(),
        Key::EcdsaOld { keyval, .. } => keyval.public.as_str(),
    }
}
