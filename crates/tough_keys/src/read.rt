ghost use Rattle.std.specs.Prelude.{◌≡◌};
ghost use Rattle.serde_json.specs.View.{view, members_view};
ghost use Rattle.tough_json.specs.Reading.{required};
ghost use Rattle.tough_json.specs.Results.{Reads, Takes};
ghost use Rattle.tough_keys.specs.Key.{KeyDoc, key_doc, key_at, keyval_at, kind_at, scheme_at};

use crate::key::{EcdsaKey, EcdsaScheme, Ed25519Key, Ed25519Scheme, Key, RsaKey, RsaScheme};
use crate::kind::Kind;
use serde_json::{Map, Value};
use std::alloc::Global;
use tough_decoded::{Decode, Decoded};
use tough_json::error::{ReadError, member_shape, missing, shape, within};
use tough_json::member::{decoded, take};

fn keytype(alloc: Global, members: &mut Map<String, Value>, name: &str) -> Result<Kind, ReadError>
    ensures { Takes (λ k. k) result (members_view members.new.entries)
        (required name.now kind_at (members_view members.old.entries)) }
{
    match take(members, name) {
        Some(Value::String(text)) => match Kind::of(text.as_str()) {
            Some(kind) => Ok(kind),
            None => Err(member_shape(alloc, name, "(no known kind of key)")),
        },
        Some(_) => Err(member_shape(alloc, name, "(no text)")),
        None => Err(missing(alloc, name)),
    }
}

fn scheme(
    alloc: Global,
    members: &mut Map<String, Value>,
    name: &str,
    kind: Kind,
) -> Result<(), ReadError>
    ensures { Takes (λ k. k) result (members_view members.new.entries)
        (required name.now (scheme_at kind) (members_view members.old.entries)) }
{
    match take(members, name) {
        Some(Value::String(text)) => {
            if text.as_str() == kind.scheme() {
                Ok(())
            } else {
                Err(member_shape(alloc, name, "(not the scheme of its kind)"))
            }
        }
        Some(_) => Err(member_shape(alloc, name, "(no text)")),
        None => Err(missing(alloc, name)),
    }
}

#[tactic(auto, unfolding(crate::specs::Key::keyval_at))]
fn keyval_of<T: Decode>(
    alloc: Global,
    value: Value,
) -> Result<(Decoded<T>, Map<String, Value>), ReadError>
    ensures { Reads (λ p. (p.0, members_view p.1.entries)) result
        (keyval_at T.decodes (view value)) }
{
    let Value::Object(mut members) = value else {
        return Err(shape(alloc, "(no object)"));
    };
    let public = decoded(alloc, &mut members, "public")?;
    Ok((public, members))
}

fn keyval<T: Decode>(
    alloc: Global,
    members: &mut Map<String, Value>,
    name: &str,
) -> Result<(Decoded<T>, Map<String, Value>), ReadError>
    ensures { Takes (λ p. (p.0, members_view p.1.entries)) result (members_view members.new.entries)
        (required name.now (keyval_at T.decodes) (members_view members.old.entries)) }
{
    match take(members, name) {
        Some(value) => match keyval_of(alloc, value) {
            Ok(keyval) => Ok(keyval),
            Err(error) => Err(within(alloc, name, error)),
        },
        None => Err(missing(alloc, name)),
    }
}

impl Key {
    /// The key that the value is; `Shape` where it is none.
    #[tactic(auto, unfolding(crate::specs::Key::key_at))]
    pub fn from_value(alloc: Global, value: Value) -> Result<Key, ReadError>
        ensures { Reads key_doc result (key_at (view value)) }
    {
        let Value::Object(mut members) = value else {
            return Err(shape(alloc, "(no object)"));
        };
        let kind = keytype(alloc, &mut members, "keytype")?;
        scheme(alloc, &mut members, "scheme", kind)?;
        match kind {
            Kind::Rsa => {
                let (public, inner) = keyval(alloc, &mut members, "keyval")?;
                Ok(Key::Rsa {
                    keyval: RsaKey {
                        public,
                        _extra: inner,
                    },
                    scheme: RsaScheme::RsassaPssSha256,
                    _extra: members,
                })
            }
            Kind::Ed25519 => {
                let (public, inner) = keyval(alloc, &mut members, "keyval")?;
                Ok(Key::Ed25519 {
                    keyval: Ed25519Key {
                        public,
                        _extra: inner,
                    },
                    scheme: Ed25519Scheme::Ed25519,
                    _extra: members,
                })
            }
            Kind::Ecdsa => {
                let (public, inner) = keyval(alloc, &mut members, "keyval")?;
                Ok(Key::Ecdsa {
                    keyval: EcdsaKey {
                        public,
                        _extra: inner,
                    },
                    scheme: EcdsaScheme::EcdsaSha2Nistp256,
                    _extra: members,
                })
            }
            Kind::EcdsaOld => {
                let (public, inner) = keyval(alloc, &mut members, "keyval")?;
                Ok(Key::EcdsaOld {
                    keyval: EcdsaKey {
                        public,
                        _extra: inner,
                    },
                    scheme: EcdsaScheme::EcdsaSha2Nistp256,
                    _extra: members,
                })
            }
        }
    }
}
