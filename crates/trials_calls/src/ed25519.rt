//! Ed25519 on bytes.

use crate::case::{list, text};
use anyhow::{Result, anyhow};
use serde_json::Value;
use std::alloc::Global;
use tough_ed25519::{key_of, sign, verify};

// The bytes of a member, which is a text of digits.
fn bytes(alloc: Global, case: &Value, name: &str) -> Result<Vec<u8>> {
    Ok(hex::decode(alloc, text(case, name))?)
}

/// The secret of a case.
pub(crate) fn secret(alloc: Global, case: &Value) -> Result<[u8; 32]> {
    match <[u8; 32]>::try_from(bytes(alloc, case, "secret")?.as_slice()) {
        Ok(secret) => Ok(secret),
        Err(_) => Err(anyhow!("a secret has 32 bytes")),
    }
}

// How many of the eight signatures verify that have one bit of the byte at this place flipped.
fn verified_flipped(key: &[u8], message: &[u8], signature: &mut [u8], place: usize) -> usize {
    let mut count = 0usize;
    for bit in 0..8u8 {
        if let Some(byte) = signature.get_mut(place) {
            *byte ^= 1 << bit;
        }
        if verify(key, message, signature) {
            count = count.saturating_add(1);
        }
        if let Some(byte) = signature.get_mut(place) {
            *byte ^= 1 << bit;
        }
    }
    count
}

// Whether the signature of the case verifies, and how many of those do that have one bit flipped at the places that it names.
fn verified(alloc: Global, case: &Value) -> Result<String> {
    let (key, message) = (bytes(alloc, case, "key")?, bytes(alloc, case, "message")?);
    let mut signature = bytes(alloc, case, "signature")?;
    let told = verify(key.as_slice(), message.as_slice(), signature.as_slice());
    if case.get("flips").is_none() {
        return Ok(format!(in alloc; "{told}")?);
    }
    let (mut tried, mut count) = (0usize, 0usize);
    for place in list(case, "flips") {
        let place = place.as_u64().and_then(|n| usize::try_from(n).ok());
        let flipped = verified_flipped(
            key.as_slice(),
            message.as_slice(),
            signature.as_mut_slice(),
            place.unwrap_or(0),
        );
        tried = tried.saturating_add(8);
        count = count.saturating_add(flipped);
    }
    Ok(format!(in alloc; "{told}, and {count} of {tried} with a bit flipped")?)
}

// The signature of the message by the secret.
fn signature(alloc: Global, case: &Value) -> Result<String> {
    let message = bytes(alloc, case, "message")?;
    let signature = sign(&secret(alloc, case)?, message.as_slice());
    Ok(hex::encode(alloc, &signature)?)
}

/// What a call on bytes answers, if it is one.
pub(crate) fn answer(alloc: Global, call: &str, case: &Value) -> Result<Option<String>> {
    Ok(match call {
        "verify" => Some(verified(alloc, case)?),
        "key_of" => Some(hex::encode(alloc, &key_of(&secret(alloc, case)?))?),
        "sign" => Some(signature(alloc, case)?),
        _ => None,
    })
}
