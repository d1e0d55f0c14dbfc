//! Whether two keys are equal.

ghost use Rattle.std.specs.Prelude.{◌≡◌, Decides};
ghost use Rattle.serde_json.specs.View.{view, items_view, members_view, number_view};
ghost use Rattle.tough_keys.specs.Equal.{same, same_number, same_items, same_members, same_key};
ghost use Rattle.tough_keys.specs.Same.{key_data};
ghost use Rattle.tough_keys.specs.Equals.{same_key-per, same_key-equiv};

use crate::key::Key;
use serde_json::{Map, Number, Value};

// Whether two numbers are equal, where two floats count as equal.
fn same_num(x: Number, y: Number) -> bool
    ensures { result ≡ same_number (number_view x) (number_view y) }
{
    if x.is_f64() || y.is_f64() {
        return x.is_f64() && y.is_f64();
    }
    if let Some(n) = x.as_u64() {
        return match y.as_u64() {
            Some(m) => n == m,
            None => false,
        };
    }
    if y.as_u64().is_some() {
        return false;
    }
    match x.as_i64() {
        Some(n) => match y.as_i64() {
            Some(m) => n == m,
            None => false,
        },
        None => false,
    }
}

#[cycle(same)]
fn same_value(a: &Value, b: &Value) -> bool
    ensures { result ≡ same (view a.now) (view b.now) }
{
    match a {
        Value::Null => matches!(b, Value::Null),
        Value::Bool(x) => match b {
            Value::Bool(y) => x == y,
            _ => false,
        },
        Value::Number(x) => match b {
            Value::Number(y) => same_num(*x, *y),
            _ => false,
        },
        Value::String(x) => match b {
            Value::String(y) => x == y,
            _ => false,
        },
        Value::Array(x) => match b {
            Value::Array(y) => same_list(x.as_slice(), y.as_slice()),
            _ => false,
        },
        Value::Object(x) => match b {
            Value::Object(y) => same_map(x, y),
            _ => false,
        },
    }
}

#[cycle(same)]
fn same_list(a: &[Value], b: &[Value]) -> bool
    ensures { result ≡ same_items (items_view a.now) (items_view b.now) }
{
    if a.len() != b.len() {
        return false;
    }
    for (x, y) in a.iter().zip(b.iter()) {
        if !same_value(x, y) {
            return false;
        }
    }
    true
}

#[cycle(same)]
fn same_map(a: &Map<String, Value>, b: &Map<String, Value>) -> bool
    ensures { result ≡ same_members (members_view a.now.entries) (members_view b.now.entries) }
{
    if a.len() != b.len() {
        return false;
    }
    for ((name, x), (other, y)) in a.iter().zip(b.iter()) {
        if name != other || !same_value(x, y) {
            return false;
        }
    }
    true
}

impl PartialEq for Key {
    ghost use Rattle.tough_keys.specs.Equal.{same_key};

    ghost eq = { same_key };

    ghost laws = { same_key-per };

    /// Keys are equal by kind, public bytes and extras, where two floats count as equal; the scheme is that of the kind.
    fn eq(&self, other: &Key) -> bool {
        match self {
            Key::Rsa { keyval, _extra, .. } => match other {
                Key::Rsa {
                    keyval: its,
                    _extra: extra,
                    ..
                } => {
                    keyval.public == its.public
                        && same_map(&keyval._extra, &its._extra)
                        && same_map(_extra, extra)
                }
                _ => false,
            },
            Key::Ed25519 { keyval, _extra, .. } => match other {
                Key::Ed25519 {
                    keyval: its,
                    _extra: extra,
                    ..
                } => {
                    keyval.public == its.public
                        && same_map(&keyval._extra, &its._extra)
                        && same_map(_extra, extra)
                }
                _ => false,
            },
            Key::Ecdsa { keyval, _extra, .. } => match other {
                Key::Ecdsa {
                    keyval: its,
                    _extra: extra,
                    ..
                } => {
                    keyval.public == its.public
                        && same_map(&keyval._extra, &its._extra)
                        && same_map(_extra, extra)
                }
                _ => false,
            },
            Key::EcdsaOld { keyval, _extra, .. } => match other {
                Key::EcdsaOld {
                    keyval: its,
                    _extra: extra,
                    ..
                } => {
                    keyval.public == its.public
                        && same_map(&keyval._extra, &its._extra)
                        && same_map(_extra, extra)
                }
                _ => false,
            },
        }
    }
}

impl Eq for Key {
    ghost laws = { same_key-equiv };
}

/// Two keys are equal exactly if what a verifier sees of them is the same.
pub fn equal_keys()
    ensures { (a b : Key) → Decides (same_key a b) (key_data a ≡ key_data b) }
{}
