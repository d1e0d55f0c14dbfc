//! Keys, and what verifies and signs by them.

use crate::case::text;
use crate::ed25519::secret;
use anyhow::{Result, anyhow};
use serde_json::Value;
use std::alloc::Global;
use tough_ed25519::{Ed25519Sign, Ed25519Verify, NoVerify, Verifiers};
use tough_keys::{DemoSign, DemoVerify, Key, Sign, Verify};
use tough_signatures::{EcdsaVerify, RsaVerify, StandardVerify};

// The key of a text of digits.
fn key_of_text(alloc: Global, text: &str) -> Result<Key> {
    match Key::from_str(alloc, text) {
        Ok(key) => Ok(key),
        Err(error) => Err(anyhow!("{error:?}")),
    }
}

// The key of a member, which is a text of digits or the key's JSON.
fn key_of(alloc: Global, case: &Value, name: &str) -> Result<Key> {
    let given = case.get(name).unwrap_or(&Value::Null);
    if let Some(text) = given.as_str() {
        return key_of_text(alloc, text);
    }
    match Key::from_value(alloc, given.clone()?) {
        Ok(key) => Ok(key),
        Err(error) => Err(anyhow!("{error:?}")),
    }
}

// The JSON of a key, or why there is none.
fn key_json(alloc: Global, case: &Value) -> Result<String> {
    match key_of(alloc, case, "key") {
        Ok(key) => Ok(key.to_value(alloc)?.to_string(alloc)?),
        Err(error) => Ok(format!(in alloc; "{error}")?),
    }
}

// The identifier of a key, or that it has none.
fn key_id(alloc: Global, key: &Key) -> Result<String> {
    match key.key_id(alloc) {
        Ok(id) => Ok(String::from_str(alloc, id.as_str())?),
        Err(_) => Ok(String::from_str(alloc, "refused")?),
    }
}

// The identifiers of a key and of its clone.
fn key_ids(alloc: Global, case: &Value) -> Result<String> {
    let key = key_of(alloc, case, "key")?;
    let id = key_id(alloc, &key)?;
    let cloned = key_id(alloc, &key.clone()?)?;
    Ok(format!(in alloc; "{id}, cloned {cloned}")?)
}

// Whether the key is equal to the other.
fn key_equals(alloc: Global, case: &Value) -> Result<String> {
    let other = key_of(alloc, case, "other")?;
    let same = key_of(alloc, case, "key")? == other;
    Ok(format!(in alloc; "{same}")?)
}

// Whether the signature over the message is by the key.
fn verify<V: Verify>(alloc: Global, case: &Value, verifier: &V) -> Result<String> {
    let signature = hex::decode(alloc, text(case, "signature"))?;
    let key = key_of(alloc, case, "key")?;
    let verified = verifier.verify(&key, text(case, "message").as_bytes(), signature.as_slice());
    Ok(format!(in alloc; "{verified}")?)
}

// The same of a message in hexadecimal digits.
fn verify_digits<V: Verify>(alloc: Global, case: &Value, verifier: &V) -> Result<String> {
    let signature = hex::decode(alloc, text(case, "signature"))?;
    let message = hex::decode(alloc, text(case, "message"))?;
    let key = key_of(alloc, case, "key")?;
    let verified = verifier.verify(&key, message.as_slice(), signature.as_slice());
    Ok(format!(in alloc; "{verified}")?)
}

// The signature of a message, with the public bytes of the signer's key, or why there is none.
fn signature_by<S: Sign>(alloc: Global, signer: &S, message: &str) -> Result<String> {
    let Ok(key) = signer.tuf_key(alloc) else {
        return Err(anyhow!("no key"));
    };
    match signer.sign(alloc, message.as_bytes()) {
        Ok(signature) => {
            let digits = hex::encode(alloc, signature.as_slice())?;
            Ok(format!(in alloc; "{digits} by {:?}", key.public_bytes())?)
        }
        Err(error) => Ok(format!(in alloc; "{error}")?),
    }
}

// The signature of a message by a signer, and by the signer as it is lent.
fn sign<S: Sign>(alloc: Global, case: &Value, signer: &S) -> Result<String> {
    let message = text(case, "message");
    let own = signature_by(alloc, signer, message)?;
    let lent = signature_by(alloc, &signer, message)?;
    Ok(format!(in alloc; "{own}, lent {lent}")?)
}

// The same by a signer of demonstrations.
fn sign_demo(alloc: Global, case: &Value) -> Result<String> {
    let key = key_of(alloc, case, "key")?;
    sign(alloc, case, &DemoSign { key })
}

// The same by an Ed25519 key and a secret.
fn sign_ed25519(alloc: Global, case: &Value) -> Result<String> {
    let secret = secret(alloc, case)?;
    let key = key_of(alloc, case, "key")?;
    sign(alloc, case, &Ed25519Sign { secret, key })
}

// Whether the signature is by the key, by Ed25519, or for keys of ECDSA by the scheme for demonstrations.
fn verify_by_kind(alloc: Global, case: &Value) -> Result<String> {
    let verifiers = Verifiers {
        ed25519: Ed25519Verify,
        rsa: NoVerify,
        ecdsa: DemoVerify,
    };
    verify(alloc, case, &verifiers)
}

/// What a call on keys answers, if it is one.
pub(crate) fn answer(alloc: Global, call: &str, case: &Value) -> Result<Option<String>> {
    Ok(match call {
        "Key" => Some(key_json(alloc, case)?),
        "Key::key_id" => Some(key_ids(alloc, case)?),
        "Key::eq" => Some(key_equals(alloc, case)?),
        "DemoVerify" => Some(verify(alloc, case, &DemoVerify)?),
        "DemoSign" => Some(sign_demo(alloc, case)?),
        "Ed25519Verify" => Some(verify(alloc, case, &Ed25519Verify)?),
        "Ed25519Sign" => Some(sign_ed25519(alloc, case)?),
        "Verifiers" => Some(verify_by_kind(alloc, case)?),
        "RsaVerify" => Some(verify_digits(alloc, case, &RsaVerify)?),
        "EcdsaVerify" => Some(verify_digits(alloc, case, &EcdsaVerify)?),
        "StandardVerify" => Some(verify_digits(alloc, case, &StandardVerify)?),
        _ => None,
    })
}
