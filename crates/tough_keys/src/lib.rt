//! Keys: their JSON, their identifiers, and what verifies and signs by them.
#![tactic(auto)]

pub mod clone;
mod demo;
mod equal;
mod id;
mod key;
mod kind;
mod parse;
mod read;
mod sign;
mod verify;
mod write;

pub use demo::{DemoSign, DemoVerify};
pub use id::text_of;
pub use key::{EcdsaKey, EcdsaScheme, Ed25519Key, Ed25519Scheme, Key, RsaKey, RsaScheme};
pub use kind::Kind;
pub use parse::KeyParseError;
pub use sign::{Sign, SignError};
pub use verify::Verify;
