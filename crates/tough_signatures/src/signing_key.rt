//! Keys that sign, from files and for them.

ghost use Rattle.std.specs.Prelude.{◌≡◌, ◌≤◌, ◌∷◌, length, Some, None, true, string_bytes, IfOk, IfErr, MatchOption};
ghost use Rattle.tough_keys.specs.Key.{key_doc};
ghost use Rattle.tough_keys.specs.Same.{data_of};
ghost use Rattle.tough_keys.specs.declared.kind.Kind.{Kind};
ghost use Rattle.tough_p256.specs.Signing.{public_key};
ghost use Rattle.tough_signatures.specs.Verifying.{standard_verifies};
ghost use Rattle.tough_signatures.specs.Secrets.{ecdsa_key, with_point, secret_by, secret_of};
ghost use Rattle.tough_signatures.specs.SigningKeys.{secret_in, key_in, secret_text, IsSigner, RefusesSecret, ReadsSecret};

use crate::ecdsa_sign::EcdsaSign;
use crate::public::{ecdsa_text_key, ed25519_key};
use std::alloc::{AllocError, Global};
use tough_der::{
    read_ed25519_secret, read_p256_secret, read_pem, write_ed25519_secret, write_p256,
    write_p256_secret, write_pem,
};
use tough_ed25519::Ed25519Sign;
use tough_keys::{Key, Sign, SignError};

/// Why bytes are no key that signs.
#[derive(Debug, Drop, thiserror::Error)]
pub enum SecretError {
    /// They are no key of a kind that signs, or the secret is out of range.
    #[error("unrecognized or invalid private key")]
    NotASecret,
    /// A request for memory was refused.
    #[error("out of memory")]
    Memory,
}

impl From<AllocError> for SecretError {
    ghost use Rattle.tough_signatures.specs.declared.signing_key.SecretError.TheVariants.{Memory};

    ghost from_gives = { λ _ e. e ≡ Memory };

    fn from(_: AllocError) -> SecretError {
        SecretError::Memory
    }
}

/// A key that signs.
#[derive(Drop)]
pub enum SigningKey {
    Ed25519(Ed25519Sign),
    Ecdsa(EcdsaSign),
}

// The point of the two coordinates (SEC 1, 2.3.3).
fn point_of(coordinates: &[u8; 64]) -> [u8; 65]
    ensures { result ≡ 4 ∷ coordinates.now }
{
    let mut point = [4; 65];
    let (_, rest) = point.split_at_mut(1);
    rest.copy_from_slice(coordinates);
    point
}

// The key of the two coordinates.
fn ecdsa_key(alloc: Global, coordinates: &[u8; 64]) -> Result<Key, AllocError>
    ensures { IfOk result (λ k. key_doc k ≡ ecdsa_key coordinates.now) }
{
    let der = write_p256(alloc, &point_of(coordinates))?;
    let text = write_pem(alloc, "PUBLIC KEY", der.as_slice())?;
    match ecdsa_text_key(alloc, text.as_str()) {
        Ok(key) => Ok(key),
        Err(_) => Err(AllocError),
    }
}

// The key that signs by a secret whose key has these coordinates.
fn with_coordinates(
    alloc: Global,
    secret: &[u8; 32],
    coordinates: &[u8; 64],
) -> Result<SigningKey, AllocError>
    requires { public_key secret.now ≡ Some coordinates.now }
    ensures { IfOk result (IsSigner Kind.Ecdsa secret.now) }
{
    let key = ecdsa_key(alloc, coordinates)?;
    Ok(SigningKey::Ecdsa(EcdsaSign {
        secret: *secret,
        key,
    }))
}

// The key that signs by this secret, whose point this must be.
fn with_point(alloc: Global, secret: &[u8], point: &[u8]) -> Result<SigningKey, SecretError>
    requires { length secret.now ≡ 32 }
    ensures { ReadsSecret result (with_point (secret.now, point.now)) }
{
    let mut number = [0; 32];
    number.copy_from_slice(secret);
    let Some(coordinates) = tough_p256::public_key(&number) else {
        return Err(SecretError::NotASecret);
    };
    if point != point_of(&coordinates).as_slice() {
        return Err(SecretError::NotASecret);
    }
    Ok(with_coordinates(alloc, &number, &coordinates)?)
}

// The key that signs by this secret.
fn with_seed(alloc: Global, secret: &[u8]) -> Result<SigningKey, AllocError>
    requires { length secret.now ≡ 32 }
    ensures { IfOk result (IsSigner Kind.Ed25519 secret.now) }
{
    let mut seed = [0; 32];
    seed.copy_from_slice(secret);
    SigningKey::ed25519(alloc, &seed)
}

// The key of this encoding.
#[tactic(auto, unfolding(crate::specs::Secrets::secret_by))]
fn read_der(alloc: Global, bytes: &[u8]) -> Result<SigningKey, SecretError>
    ensures { ReadsSecret result (secret_by bytes.now) }
{
    if let Some(secret) = read_ed25519_secret(bytes) {
        return Ok(with_seed(alloc, secret)?);
    }
    match read_p256_secret(bytes) {
        None => Err(SecretError::NotASecret),
        Some((secret, point)) => with_point(alloc, secret, point),
    }
}

// The key of the file, for which the bytes are lent.
#[tactic(auto, unfolding(crate::specs::Secrets::secret_of))]
fn read_in(alloc: Global, bytes: &mut [u8], file: &[u8]) -> Result<SigningKey, SecretError>
    requires { 3072 ≤ length bytes.old }
    ensures { ReadsSecret result (secret_of file.now) }
{
    match read_pem(b"PRIVATE KEY", file, bytes) {
        None => read_der(alloc, file),
        Some(len) => read_der(alloc, &bytes[..len]),
    }
}

impl SigningKey {
    /// The Ed25519 key of a secret of 32 bytes (RFC 8032, 5.1.5).
    pub fn ed25519(alloc: Global, secret: &[u8; 32]) -> Result<SigningKey, AllocError>
        ensures { IfOk result (IsSigner Kind.Ed25519 secret.now) }
    {
        let key = ed25519_key(alloc, &tough_ed25519::key_of(secret))?;
        Ok(SigningKey::Ed25519(Ed25519Sign {
            secret: *secret,
            key,
        }))
    }

    /// The ECDSA key of a secret of 32 bytes, the highest first (FIPS 186-5, 6.2); none where it isn't in [1, n - 1].
    pub fn ecdsa(alloc: Global, secret: &[u8; 32]) -> Result<Option<SigningKey>, AllocError>
        ensures { IfOk result
            (λ o. MatchOption o (public_key secret.now ≡ None) (IsSigner Kind.Ecdsa secret.now)) }
    {
        match tough_p256::public_key(secret) {
            None => Ok(None),
            Some(coordinates) => Ok(Some(with_coordinates(alloc, secret, &coordinates)?)),
        }
    }

    /// The key of a file: a `OneAsymmetricKey` of Ed25519 (RFC 8410, 7) or of P-256 (RFC 5958, 2; RFC 5915, 3), or its text (RFC 7468, 10);
    /// `NotASecret` for other bytes, for a secret of P-256 that isn't in [1, n - 1], and where the point isn't the secret's.
    pub fn read(alloc: Global, file: &[u8]) -> Result<SigningKey, SecretError>
        ensures { ReadsSecret result (secret_of file.now) }
    {
        read_in(alloc, &mut [0; 3072], file)
    }

    /// The text of the secret, as a file has it (RFC 7468, 10); `NotASecret` where a secret of P-256 isn't in [1, n - 1].
    pub fn to_pem(&self, alloc: Global) -> Result<String, SecretError>
        ensures text { IfOk result
            (λ t. secret_text (secret_in self.now).0 (secret_in self.now).1 ≡ Some (string_bytes t)) }
        ensures refused { IfErr result (λ e.
            RefusesSecret e (secret_text (secret_in self.now).0 (secret_in self.now).1)) }
    {
        match self {
            SigningKey::Ed25519(signer) => {
                let der = write_ed25519_secret(alloc, &signer.secret)?;
                Ok(write_pem(alloc, "PRIVATE KEY", der.as_slice())?)
            }
            SigningKey::Ecdsa(signer) => {
                let Some(coordinates) = tough_p256::public_key(&signer.secret) else {
                    return Err(SecretError::NotASecret);
                };
                let der = write_p256_secret(alloc, &signer.secret, &point_of(&coordinates))?;
                Ok(write_pem(alloc, "PRIVATE KEY", der.as_slice())?)
            }
        }
    }
}

impl Sign for SigningKey {
    ghost key = { key_in };

    ghost signs = { λ s m x. standard_verifies (data_of (key_in s)) m x ≡ true };

    /// A copy of the key.
    fn tuf_key(&self, alloc: Global) -> Result<Key, SignError> {
        match self {
            SigningKey::Ed25519(signer) => signer.tuf_key(alloc),
            SigningKey::Ecdsa(signer) => signer.tuf_key(alloc),
        }
    }

    /// The signature of the message; `Failed` where the key isn't that of the secret.
    fn sign(&self, alloc: Global, msg: &[u8]) -> Result<Vec<u8>, SignError> {
        match self {
            SigningKey::Ed25519(signer) => signer.sign(alloc, msg),
            SigningKey::Ecdsa(signer) => signer.sign(alloc, msg),
        }
    }
}
