//! The digests that bytes are to have.

ghost use Rattle.std.specs.Prelude.{◌≡◌, ◌≢◌, ◌++◌, List, ℕ, [], Some, None, option_map, IfOk, IfSome, IsNone, IsSomeAnd};
ghost use Rattle.sha2.specs.Sha256.{sha256};
ghost use Rattle.sha2.specs.Sha512.{sha512};
ghost use Rattle.tough_net.specs.Digests.{digests_of, no_digests, is_digest, has_digests, HasDigests, IsFirstWrong, Says, bytes_in, Takes256, Takes512, HasTakenIn};

use crate::TransportError;
use sha2::{Digest, Sha256, Sha512};
use std::alloc::{AllocError, Global};

/// The digests that are stated of bytes. One of another length than its hash function's is that of no bytes.
#[derive(Drop)]
pub struct Digests {
    pub sha256: Option<Vec<u8>>,
    pub sha512: Option<Vec<u8>>,
}

// A digest that bytes have, where another is stated.
#[derive(Clone, Copy, Drop)]
pub(crate) enum WrongDigest {
    Sha256([u8; 32]),
    Sha512([u8; 64]),
}

// A hasher for each digest that is stated.
#[derive(Drop)]
pub(crate) struct Hashers {
    sha256: Option<Sha256>,
    sha512: Option<Sha512>,
}

// The same bytes, where there are some.
fn copied(bytes: &Option<Vec<u8>>) -> Result<Option<Vec<u8>>, AllocError>
    ensures { IfOk result (λ c. option_map (λ v. v.items) c
        ≡ option_map (λ v. v.items) bytes.now) }
{
    match bytes {
        None => Ok(None),
        Some(bytes) => Ok(Some(bytes.clone()?)),
    }
}

impl Clone for Digests {
    ghost is_clone = { λ d c. digests_of c ≡ digests_of d };

    fn clone(&self) -> Result<Digests, AllocError> {
        let sha256 = copied(&self.sha256)?;
        let sha512 = copied(&self.sha512)?;
        Ok(Digests { sha256, sha512 })
    }
}

// Whether this is the digest of SHA-256, where one is stated.
fn is_256(expected: &Option<Vec<u8>>, bytes: &[u8]) -> bool
    ensures { result ≡ is_digest (option_map (λ v. v.items) expected.now) (sha256 bytes.now) }
{
    match expected {
        None => true,
        Some(expected) => Sha256::digest(bytes).as_slice() == expected.as_slice(),
    }
}

// The same of SHA-512.
fn is_512(expected: &Option<Vec<u8>>, bytes: &[u8]) -> bool
    ensures { result ≡ is_digest (option_map (λ v. v.items) expected.now) (sha512 bytes.now) }
{
    match expected {
        None => true,
        Some(expected) => Sha512::digest(bytes).as_slice() == expected.as_slice(),
    }
}

// The digest of SHA-256 of what a hasher took in, where another is stated.
fn wrong_256(expected: &Option<Vec<u8>>, hasher: &Option<Sha256>) -> Option<[u8; 32]>
    ensures right { IsNone result
        → (m : List ℕ) → Takes256 (option_map (λ v. v.items) expected.now) hasher.now m
        → IfSome (option_map (λ v. v.items) expected.now) (λ x. sha256 m ≡ x) }
    ensures wrong { IfSome result
        (λ c. (m : List ℕ) → Takes256 (option_map (λ v. v.items) expected.now) hasher.now m
        → (c ≡ sha256 m)
        × IsSomeAnd (option_map (λ v. v.items) expected.now) (λ x. sha256 m ≢ x)) }
{
    let (Some(expected), Some(hasher)) = (expected, hasher) else {
        return None;
    };
    let Ok(hasher) = hasher.clone() else {
        unreachable!()
    };
    let calculated = hasher.finalize();
    if calculated.as_slice() == expected.as_slice() {
        None
    } else {
        Some(calculated)
    }
}

// The same of SHA-512.
fn wrong_512(expected: &Option<Vec<u8>>, hasher: &Option<Sha512>) -> Option<[u8; 64]>
    ensures right { IsNone result
        → (m : List ℕ) → Takes512 (option_map (λ v. v.items) expected.now) hasher.now m
        → IfSome (option_map (λ v. v.items) expected.now) (λ x. sha512 m ≡ x) }
    ensures wrong { IfSome result
        (λ c. (m : List ℕ) → Takes512 (option_map (λ v. v.items) expected.now) hasher.now m
        → (c ≡ sha512 m)
        × IsSomeAnd (option_map (λ v. v.items) expected.now) (λ x. sha512 m ≢ x)) }
{
    let (Some(expected), Some(hasher)) = (expected, hasher) else {
        return None;
    };
    let Ok(hasher) = hasher.clone() else {
        unreachable!()
    };
    let calculated = hasher.finalize();
    if calculated.as_slice() == expected.as_slice() {
        None
    } else {
        Some(calculated)
    }
}

// The bytes of a digest that is stated.
fn stated_bytes(digest: &Option<Vec<u8>>) -> &[u8]
    ensures { result.now ≡ bytes_in (option_map (λ v. v.items) digest.now) }
{
    match digest {
        None => b"",
        Some(digest) => digest.as_slice(),
    }
}

impl Digests {
    /// No digest is stated.
    pub fn none() -> Digests
        ensures { digests_of result ≡ no_digests }
    {
        Digests {
            sha256: None,
            sha512: None,
        }
    }

    /// Whether the bytes have each digest that is stated.
    pub fn are_of(&self, bytes: &[u8]) -> bool
        ensures { result ≡ has_digests (digests_of self.now) bytes.now }
    {
        is_256(&self.sha256, bytes) && is_512(&self.sha512, bytes)
    }

    // The first digest of the bytes that isn't the stated one.
    pub(crate) fn first_wrong(&self, bytes: &[u8]) -> Option<WrongDigest>
        ensures right { IsNone result → HasDigests (digests_of self.now) bytes.now }
        ensures wrong { IfSome result (IsFirstWrong (digests_of self.now) bytes.now) }
    {
        let mut hashers = Hashers::new(self);
        hashers.update(bytes);
        hashers.first_wrong(self)
    }

    // The error that bytes at this URL have this digest, and not the stated one.
    pub(crate) fn mismatch(&self, alloc: Global, url: &str, wrong: &WrongDigest) -> TransportError
        ensures { Says url.now (digests_of self.now) wrong.now result }
    {
        match wrong {
            WrongDigest::Sha256(calculated) => {
                let expected = stated_bytes(&self.sha256);
                TransportError::mismatch(alloc, url, expected, calculated.as_slice())
            }
            WrongDigest::Sha512(calculated) => {
                let expected = stated_bytes(&self.sha512);
                TransportError::mismatch(alloc, url, expected, calculated.as_slice())
            }
        }
    }
}

impl Hashers {
    // Hashers of no bytes, for what is stated.
    pub(crate) fn new(digests: &Digests) -> Hashers
        ensures { HasTakenIn (digests_of digests.now) result [] }
    {
        let sha256 = match &digests.sha256 {
            None => None,
            Some(_) => Some(Sha256::new()),
        };
        let sha512 = match &digests.sha512 {
            None => None,
            Some(_) => Some(Sha512::new()),
        };
        Hashers { sha256, sha512 }
    }

    // Takes in more bytes.
    pub(crate) fn update(&mut self, bytes: &[u8])
        ensures { (d : _) (m : List ℕ) → HasTakenIn d self.old m
            → HasTakenIn d self.new (m ++ bytes.now) }
    {
        if let Some(hasher) = &mut self.sha256 {
            hasher.update(bytes);
        }
        if let Some(hasher) = &mut self.sha512 {
            hasher.update(bytes);
        }
    }

    // The first digest of what was taken in that isn't the stated one.
    pub(crate) fn first_wrong(&self, digests: &Digests) -> Option<WrongDigest>
        ensures right { IsNone result
            → (m : List ℕ) → HasTakenIn (digests_of digests.now) self.now m
            → HasDigests (digests_of digests.now) m }
        ensures wrong { IfSome result
            (λ w. (m : List ℕ) → HasTakenIn (digests_of digests.now) self.now m
            → IsFirstWrong (digests_of digests.now) m w) }
    {
        if let Some(calculated) = wrong_256(&digests.sha256, &self.sha256) {
            return Some(WrongDigest::Sha256(calculated));
        }
        match wrong_512(&digests.sha512, &self.sha512) {
            Some(calculated) => Some(WrongDigest::Sha512(calculated)),
            None => None,
        }
    }
}
