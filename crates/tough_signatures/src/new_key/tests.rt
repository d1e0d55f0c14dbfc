use super::*;
use crate::StandardVerify;
use std::test::Fail;
use tough_keys::{Sign, Verify};

// Whether the key signs, and what it signs verifies.
fn signs(rt: &HostRuntime, signer: &SigningKey) -> Result<bool, Fail> {
    let alloc = rt.alloc();
    let key = signer.tuf_key(alloc)?;
    let signature = signer.sign(alloc, b"a message")?;
    Ok(StandardVerify.verify(&key, b"a message", signature.as_slice()))
}

#[test]
fn a_new_ed25519_key_signs(rt: HostRuntime) -> Result<(), Fail> {
    let signer = new_ed25519(rt.alloc(), &rt)?;
    assert!(rt; signs(&rt, &signer)?);
    Ok(())
}

#[test]
fn a_new_ecdsa_key_signs(rt: HostRuntime) -> Result<(), Fail> {
    let signer = new_ecdsa(rt.alloc(), &rt)?;
    assert!(rt; signs(&rt, &signer)?);
    Ok(())
}

#[test]
fn two_new_keys_differ(rt: HostRuntime) -> Result<(), Fail> {
    let alloc = rt.alloc();
    let (first, second) = (new_ed25519(alloc, &rt)?, new_ed25519(alloc, &rt)?);
    assert!(rt; first.tuf_key(alloc)? != second.tuf_key(alloc)?);
    let (first, second) = (new_ecdsa(alloc, &rt)?, new_ecdsa(alloc, &rt)?);
    assert!(rt; first.tuf_key(alloc)? != second.tuf_key(alloc)?);
    Ok(())
}
