ghost use Rattle.std.specs.Prelude.{◌≡◌, ◌≢◌, ◌↔◌, ℕ, IsTrue, List, Option, Some, None, IfOk, IfErr, string_bytes};
ghost use Rattle.std.specs.Ordering.{nat_cmp, on, as_partial_cmp};
ghost use Rattle.std.specs.Cmp.{partial_order_from_own_ties};
ghost use Rattle.std.specs.Cmp.Rules.{comparing, hashing};
ghost use Rattle.std.specs.Hash as fed;
ghost use Rattle.hex.specs.Hex.{encode_lower};
ghost use Rattle.std.proofs.Common.{rules};
ghost use Rattle.tough_decoded.specs.Spelled.{Spelled};
ghost use Rattle.std.specs.Cmp.Lexicographic.{slice_cmp};
ghost use Rattle.std.specs.Str.{bytes_eq};
ghost use Rattle.tough_decoded.specs.Spelled.{hex_bytes, is_armour, pem_bytes, flex_bytes};

use hex::FromHexError;
use std::alloc::{AllocError, Global};
use std::cmp::Ordering;
use std::hash::{Hash, Hasher};
use std::marker::{Model, PhantomData};
use thiserror::Error;

/// Why a text stands for no bytes.
#[derive(Debug, Drop, PartialEq, Eq, Error)]
pub enum DecodeError {
    #[error("Invalid hex string")]
    HexDecode,
    #[error("Invalid PEM string")]
    PemDecode,
    #[error("out of memory")]
    Memory,
}

impl From<AllocError> for DecodeError {
    ghost use Rattle.tough_decoded.specs.declared.decoded.DecodeError.TheVariants.{Memory};

    ghost from_gives = { λ _ e. e ≡ Memory };

    fn from(_: AllocError) -> DecodeError {
        DecodeError::Memory
    }
}

/// How a text stands for bytes.
pub trait Decode {
    ghost use Rattle.tough_decoded.specs.declared.decoded.DecodeError.{DecodeError};

    // The bytes of a text, if it stands for some.
    ghost decodes: { List ℕ → Option (List ℕ) };
    // Why a text stands for none.
    ghost refusal: { DecodeError };

    fn decode(alloc: Global, text: &str) -> Result<Vec<u8>, DecodeError>
        ensures ok { IfOk result (λ v. decodes text.now ≡ Some v.items) }
        ensures err { IfErr result (λ e. e ≢ DecodeError.Memory → decodes text.now ≡ None) }
        ensures refusal { IfErr result (λ e. e ≢ DecodeError.Memory → e ≡ refusal) };
}

/// How bytes are spelled.
pub trait Encode {
    ghost encodes: { List ℕ → List ℕ };

    fn encode(alloc: Global, bytes: &[u8]) -> Result<String, AllocError>
        ensures { IfOk result (λ text. string_bytes text ≡ encodes bytes.now) };
}

/// Hexadecimal digits (RFC 4648, section 8): read in both cases, written in lower case.
#[derive(Clone, Copy, Debug)]
pub struct Hex;

impl Decode for Hex {
    ghost use Rattle.tough_decoded.specs.declared.decoded.DecodeError.TheVariants.{HexDecode};

    ghost decodes = { hex_bytes };

    ghost refusal = { HexDecode };

    fn decode(alloc: Global, text: &str) -> Result<Vec<u8>, DecodeError> {
        match hex::decode(alloc, text) {
            Ok(bytes) => Ok(bytes),
            Err(FromHexError::OutOfMemory) => Err(DecodeError::Memory),
            Err(_) => Err(DecodeError::HexDecode),
        }
    }
}

impl Encode for Hex {
    ghost encodes = { encode_lower };

    fn encode(alloc: Global, bytes: &[u8]) -> Result<String, AllocError> {
        digits(alloc, bytes)
    }
}

// The lower-case digits, which stand for the bytes.
fn digits(alloc: Global, bytes: &[u8]) -> Result<String, AllocError>
    ensures text { IfOk result (λ text. string_bytes text ≡ encode_lower bytes.now) }
    ensures read { IfOk result (λ text. hex_bytes (string_bytes text) ≡ Some bytes.now) }
{
    hex::encode(alloc, bytes)
}

// Whether the text begins as armour does.
fn is_armour(text: &str) -> bool
    ensures { result ≡ is_armour text.now }
{
    text.as_bytes().starts_with(b"-----BEGIN ")
}

// The armour's own bytes.
fn armour(alloc: Global, text: &str) -> Result<Vec<u8>, DecodeError>
    ensures ok { IfOk result (λ v. pem_bytes text.now ≡ Some v.items) }
    ensures err { IfErr result (λ e. e ≢ DecodeError.Memory → pem_bytes text.now ≡ None) }
    ensures refusal { IfErr result (λ e. e ≢ DecodeError.Memory → e ≡ DecodeError.PemDecode) }
{
    if is_armour(text) {
        Ok(Vec::from_slice(alloc, text.as_bytes())?)
    } else {
        Err(DecodeError::PemDecode)
    }
}

/// The armour (RFC 7468) of an RSA key, kept as it stands: its bytes are those of the text.
#[derive(Clone, Copy, Debug)]
pub struct RsaPem;

impl Decode for RsaPem {
    ghost use Rattle.tough_decoded.specs.declared.decoded.DecodeError.TheVariants.{PemDecode};

    ghost decodes = { pem_bytes };

    ghost refusal = { PemDecode };

    fn decode(alloc: Global, text: &str) -> Result<Vec<u8>, DecodeError> {
        armour(alloc, text)
    }
}

/// The armour (RFC 7468) of an ECDSA key, kept as it stands: its bytes are those of the text.
#[derive(Clone, Copy, Debug)]
pub struct EcdsaPem;

impl Decode for EcdsaPem {
    ghost use Rattle.tough_decoded.specs.declared.decoded.DecodeError.TheVariants.{PemDecode};

    ghost decodes = { pem_bytes };

    ghost refusal = { PemDecode };

    fn decode(alloc: Global, text: &str) -> Result<Vec<u8>, DecodeError> {
        armour(alloc, text)
    }
}

/// Armour, kept as it stands, or else hexadecimal digits.
#[derive(Clone, Copy, Debug)]
pub struct EcdsaFlex;

impl Decode for EcdsaFlex {
    ghost use Rattle.tough_decoded.specs.declared.decoded.DecodeError.TheVariants.{HexDecode};

    ghost decodes = { flex_bytes };

    ghost refusal = { HexDecode };

    fn decode(alloc: Global, text: &str) -> Result<Vec<u8>, DecodeError> {
        if is_armour(text) {
            Ok(Vec::from_slice(alloc, text.as_bytes())?)
        } else {
            Hex::decode(alloc, text)
        }
    }
}

/// Bytes, with the text that they were read from. Two are equal, ordered and hashed by the bytes.
#[derive(Debug, Drop)]
pub struct Decoded<T: Decode> {
    spelling: String,
    bytes: Vec<u8>,
    kind: PhantomData<T>,
}

impl<T: Decode> Model for Decoded<T> {
    ghost use Rattle.std.specs.Prelude.{◌≡◌, Some, string_bytes};
    ghost use Rattle.tough_decoded.specs.Spelled.{Spelled};

    ghost Value = { Spelled };

    ghost view = { λ d. record { spelling = string_bytes d.spelling; bytes = d.bytes.items } };

    ghost invariant = { λ d. T.decodes (string_bytes d.spelling) ≡ Some d.bytes.items };
}

impl<T: Decode> Decoded<T> {
    /// The bytes that the text stands for.
    pub fn from_str(alloc: Global, text: &str) -> Result<Decoded<T>, DecodeError>
        ensures spelling { IfOk result (λ d. d.spelling ≡ text.now) }
        ensures bytes { IfOk result (λ d. T.decodes text.now ≡ Some d.bytes) }
        ensures err { IfErr result (λ e. e ≢ DecodeError.Memory → T.decodes text.now ≡ None) }
        ensures refusal { IfErr result (λ e. e ≢ DecodeError.Memory → e ≡ T.refusal) }
    {
        let bytes = T::decode(alloc, text)?;
        Ok(Decoded {
            spelling: String::from_str(alloc, text)?,
            bytes,
            kind: PhantomData,
        })
    }

    /// The bytes that the text stands for, which keeps its place.
    pub fn from_string(alloc: Global, text: String) -> Result<Decoded<T>, DecodeError>
        ensures spelling { IfOk result (λ d. d.spelling ≡ string_bytes text) }
        ensures bytes { IfOk result (λ d. T.decodes (string_bytes text) ≡ Some d.bytes) }
        ensures err { IfErr result (λ e. e ≢ DecodeError.Memory → T.decodes (string_bytes text) ≡ None) }
        ensures refusal { IfErr result (λ e. e ≢ DecodeError.Memory → e ≡ T.refusal) }
    {
        let bytes = T::decode(alloc, text.as_str())?;
        Ok(Decoded {
            spelling: text,
            bytes,
            kind: PhantomData,
        })
    }

    /// The bytes.
    pub fn as_slice(&self) -> &[u8]
        ensures { result.now ≡ self.now.bytes }
    {
        self.bytes.as_slice()
    }

    /// The bytes, without the text.
    pub fn into_vec(self) -> Vec<u8>
        ensures { result.items ≡ self.bytes }
    {
        self.bytes
    }

    /// Whether these are the bytes.
    pub fn eq_bytes(&self, bytes: &[u8]) -> bool
        ensures { IsTrue result ↔ (self.now.bytes ≡ bytes.now) }
    {
        self.as_slice() == bytes
    }

    /// The text as it was read.
    pub fn as_str(&self) -> &str
        ensures text { result.now ≡ self.now.spelling }
        ensures read { T.decodes result.now ≡ Some self.now.bytes }
    {
        self.spelling.as_str()
    }
}

impl Decoded<Hex> {
    /// The bytes, spelled in lower-case digits.
    pub fn from_vec(alloc: Global, bytes: Vec<u8>) -> Result<Decoded<Hex>, AllocError>
        ensures bytes { IfOk result (λ d. d.bytes ≡ bytes.items) }
        ensures spelling { IfOk result (λ d. d.spelling ≡ encode_lower bytes.items) }
    {
        Ok(Decoded {
            spelling: digits(alloc, bytes.as_slice())?,
            bytes,
            kind: PhantomData,
        })
    }
}

impl<T: Decode> Clone for Decoded<T> {
    ghost is_clone = { λ d e. e ≡ d };

    fn clone(&self) -> Result<Decoded<T>, AllocError> {
        Ok(Decoded {
            spelling: self.spelling.clone()?,
            bytes: self.bytes.clone()?,
            kind: PhantomData,
        })
    }
}

impl<T: Decode> PartialEq for Decoded<T> {
    ghost eq = { on (λ d. d.bytes) bytes_eq };

    ghost laws = { Prim.search (comparing, rules) };

    fn eq(&self, other: &Decoded<T>) -> bool {
        self.bytes == other.bytes
    }
}

impl<T: Decode> Eq for Decoded<T> {
    ghost laws = { Prim.search (comparing, rules) };
}

impl<T: Decode> PartialOrd for Decoded<T> {
    ghost partial_cmp = { as_partial_cmp (on (λ d. d.bytes) (slice_cmp nat_cmp)) };

    ghost laws = { partial_order_from_own_ties (Prim.search (comparing, rules))
        (Prim.search (comparing, rules)) };

    fn partial_cmp(&self, other: &Decoded<T>) -> Option<Ordering> {
        Some(self.cmp(other))
    }
}

impl<T: Decode> Ord for Decoded<T> {
    ghost cmp = { on (λ d. d.bytes) (slice_cmp nat_cmp) };

    ghost total = { Prim.search (comparing, rules) };

    ghost matches_partial_cmp = { Prim.search (comparing, rules) };

    ghost matches_eq = { Prim.search (comparing, rules) };

    fn cmp(&self, other: &Decoded<T>) -> Ordering {
        self.bytes.cmp(&other.bytes)
    }
}

impl<T: Decode> Hash for Decoded<T> {
    ghost hash_input = { λ d. fed.slice fed.u8 d.bytes };

    ghost respects_eq = { Prim.search (hashing, rules) };

    fn hash<H: Hasher>(&self, state: &mut H) {
        self.bytes.hash(state);
    }
}
