ghost use Rattle.std.specs.Prelude.{◌≡◌, Some, IfOk};
ghost use Rattle.serde_json.specs.View.{view, members_view};
ghost use Rattle.tough_json.specs.Results.{Writes};
ghost use Rattle.tough_keys.specs.Key.{key_doc, key_at, key_json, keyval_json, kind_json};

use crate::key::Key;
use crate::kind::Kind;
use serde_json::{Map, Value};
use std::alloc::Global;
use tough_decoded::{Decode, Decoded};
use tough_json::error::WriteError;
use tough_json::write::{copy_members, digits, with, with_text};

#[tactic(auto, unfolding(crate::specs::Key::keyval_json))]
fn keyval_value<T: Decode>(
    alloc: Global,
    public: &Decoded<T>,
    extra: &Map<String, Value>,
) -> Result<Value, WriteError>
    ensures { Writes view result
        (keyval_json T.decodes public.now (members_view extra.now.entries)) }
{
    let value = digits(alloc, public)?;
    let members = with(alloc, copy_members(alloc, extra)?, "public", value)?;
    Ok(Value::Object(members))
}

#[tactic(auto, unfolding(crate::specs::Key::kind_json))]
fn kind_value(
    alloc: Global,
    kind: Kind,
    inner: Value,
    extra: &Map<String, Value>,
) -> Result<Value, WriteError>
    ensures { Writes view result (kind_json kind (view inner) (members_view extra.now.entries)) }
{
    let keyval = with(alloc, copy_members(alloc, extra)?, "keyval", inner)?;
    let scheme = with_text(alloc, keyval, "scheme", kind.scheme())?;
    let members = with_text(alloc, scheme, "keytype", kind.name())?;
    Ok(Value::Object(members))
}

impl Key {
    /// The kind of the key.
    pub fn kind(&self) -> Kind
        ensures { result ≡ (key_doc self.now).kind }
    {
        match self {
            Key::Rsa { .. } => Kind::Rsa,
            Key::Ed25519 { .. } => Kind::Ed25519,
            Key::Ecdsa { .. } => Kind::Ecdsa,
            Key::EcdsaOld { .. } => Kind::EcdsaOld,
        }
    }

    /// The bytes that the key's public part stands for.
    pub fn public_bytes(&self) -> &[u8]
        ensures { result.now ≡ (key_doc self.now).public.bytes }
    {
        match self {
            Key::Rsa { keyval, .. } => keyval.public.as_slice(),
            Key::Ed25519 { keyval, .. } => keyval.public.as_slice(),
            Key::Ecdsa { keyval, .. } => keyval.public.as_slice(),
            Key::EcdsaOld { keyval, .. } => keyval.public.as_slice(),
        }
    }

    #[tactic(auto, unfolding(crate::specs::Key::key_json))]
    fn json(&self, alloc: Global) -> Result<Value, WriteError>
        ensures { Writes view result (key_json (key_doc self.now)) }
    {
        match self {
            Key::Rsa { keyval, _extra, .. } => {
                let inner = keyval_value(alloc, &keyval.public, &keyval._extra)?;
                kind_value(alloc, Kind::Rsa, inner, _extra)
            }
            Key::Ed25519 { keyval, _extra, .. } => {
                let inner = keyval_value(alloc, &keyval.public, &keyval._extra)?;
                kind_value(alloc, Kind::Ed25519, inner, _extra)
            }
            Key::Ecdsa { keyval, _extra, .. } => {
                let inner = keyval_value(alloc, &keyval.public, &keyval._extra)?;
                kind_value(alloc, Kind::Ecdsa, inner, _extra)
            }
            Key::EcdsaOld { keyval, _extra, .. } => {
                let inner = keyval_value(alloc, &keyval.public, &keyval._extra)?;
                kind_value(alloc, Kind::EcdsaOld, inner, _extra)
            }
        }
    }

    /// The key as JSON, which is read as it.
    pub fn to_value(&self, alloc: Global) -> Result<Value, WriteError>
        ensures written { Writes view result (key_json (key_doc self.now)) }
        ensures back { IfOk result (λ v. key_at (view v) ≡ Some (key_doc self.now)) }
    {
        let value = self.json(alloc)?;
        Ok(value)
    }
}
