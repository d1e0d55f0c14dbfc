//! Keys and signatures, written.

ghost use Rattle.std.specs.Prelude.{◌≡◌, ◌+◌, ◌<◌, ◌≤◌, ◌∷◌, ◌++◌, length, vec_len, OnOk, IfOk};
ghost use Rattle.tough_der.specs.Der.{shorten, der_integer, sig_value, spki_p256, spki_ed25519, pkcs8_ed25519, pkcs8_p256};

use crate::public::{ED25519_FRONT, P256_FRONT};
use crate::secret::{ED25519_SECRET_FRONT, P256_POINT_FRONT, P256_SECRET_FRONT};
use std::alloc::{AllocError, Global};

// Without the zeros in front that the sign does without.
fn shorten(bytes: &[u8]) -> &[u8]
    ensures { result.now ≡ shorten bytes.now }
{
    let mut start = 0;
    while start + 1 < bytes.len() && bytes[start] == 0 && bytes[start + 1] < 128 {
        start += 1;
    }
    &bytes[start..]
}

// A number behind a zero, the sign.
fn with_sign(number: &[u8; 32]) -> [u8; 33]
    ensures { result ≡ 0 ∷ number.now }
{
    let mut wide = [0; 33];
    let (_, tail) = wide.split_at_mut(1);
    tail.copy_from_slice(number);
    wide
}

// Appends the integer.
fn push_integer(bytes: &mut Vec<u8>, number: &[u8; 32]) -> Result<(), AllocError>
    ensures integer { OnOk result (bytes.new.items ≡ bytes.old.items ++ der_integer number.now) }
    ensures len { OnOk result (vec_len bytes.new ≤ vec_len bytes.old + 35) }
{
    let wide = with_sign(number);
    let contents = shorten(&wide);
    bytes.push(2)?;
    bytes.push(contents.len() as u8)?;
    bytes.extend_from_slice(contents)?;
    Ok(())
}

/// The `Ecdsa-Sig-Value` of the halves, the highest byte first (RFC 3279, 2.2.3).
pub fn write_signature(alloc: Global, r: &[u8; 32], s: &[u8; 32]) -> Result<Vec<u8>, AllocError>
    ensures { IfOk result (λ v. v.items ≡ sig_value r.now s.now) }
{
    let mut halves = Vec::new(alloc);
    push_integer(&mut halves, r)?;
    push_integer(&mut halves, s)?;
    let mut bytes = Vec::new(alloc);
    bytes.push(0x30)?;
    bytes.push(halves.len() as u8)?;
    bytes.extend_from_slice(halves.as_slice())?;
    Ok(bytes)
}

/// The `SubjectPublicKeyInfo` of the point of P-256 (RFC 5480, 2).
pub fn write_p256(alloc: Global, point: &[u8; 65]) -> Result<Vec<u8>, AllocError>
    ensures { IfOk result (λ v. v.items ≡ spki_p256 point.now) }
{
    let mut bytes = Vec::from_slice(alloc, &P256_FRONT)?;
    bytes.extend_from_slice(point)?;
    Ok(bytes)
}

/// The `SubjectPublicKeyInfo` of the key of Ed25519 (RFC 8410, 4).
pub fn write_ed25519(alloc: Global, key: &[u8; 32]) -> Result<Vec<u8>, AllocError>
    ensures { IfOk result (λ v. v.items ≡ spki_ed25519 key.now) }
{
    let mut bytes = Vec::from_slice(alloc, &ED25519_FRONT)?;
    bytes.extend_from_slice(key)?;
    Ok(bytes)
}

/// The `OneAsymmetricKey` of the secret of Ed25519 (RFC 8410, 7).
pub fn write_ed25519_secret(alloc: Global, secret: &[u8; 32]) -> Result<Vec<u8>, AllocError>
    ensures { IfOk result (λ v. v.items ≡ pkcs8_ed25519 secret.now) }
{
    let mut bytes = Vec::from_slice(alloc, &ED25519_SECRET_FRONT)?;
    bytes.extend_from_slice(secret)?;
    Ok(bytes)
}

/// The `OneAsymmetricKey` of the secret of P-256 and its point (RFC 5958, 2; RFC 5915, 3).
pub fn write_p256_secret(
    alloc: Global,
    secret: &[u8; 32],
    point: &[u8; 65],
) -> Result<Vec<u8>, AllocError>
    ensures { IfOk result (λ v. v.items ≡ pkcs8_p256 secret.now point.now) }
{
    let mut bytes = Vec::from_slice(alloc, &P256_SECRET_FRONT)?;
    bytes.extend_from_slice(secret)?;
    bytes.extend_from_slice(&P256_POINT_FRONT)?;
    bytes.extend_from_slice(point)?;
    Ok(bytes)
}
