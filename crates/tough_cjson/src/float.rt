//! Whether a value holds a number that is no whole number.

ghost use Rattle.std.specs.Prelude.{◌≡◌, false};
ghost use Rattle.serde_json.specs.Data as Data;
ghost use Rattle.serde_json.specs.View.{view, number_view, items_view, members_view};
ghost use Rattle.serde_json.specs.Written.{has_float, items_have_float, members_have_float};
ghost use Rattle.tough_cjson.specs.Small.{IsSmall, AreItemsSmall, AreMembersSmall};

use serde_json::{Map, Number, Value};

// Whether the number is no whole number. A whole one has at most 64 bits and a sign.
fn is_float(number: &Number) -> bool
    ensures float { result ≡ has_float (Data.number (number_view number.now)) }
    ensures small { IsSmall (Data.number (number_view number.now)) }
{
    match number.as_i128() {
        Some(_) => false,
        None => true,
    }
}

/// Whether a float stands anywhere in the value: a number that is no whole one of 64 bits with its sign. Canonical JSON has no text for it.
#[cycle(float)]
pub fn holds_float(value: &Value) -> bool
    ensures float { result ≡ has_float (view value.now) }
    ensures small { result ≡ false → IsSmall (view value.now) }
{
    match value {
        Value::Null => false,
        Value::Bool(_) => false,
        Value::Number(number) => is_float(number),
        Value::String(_) => false,
        Value::Array(items) => items_hold_float(items),
        Value::Object(members) => members_hold_float(members),
    }
}

#[cycle(float)]
fn items_hold_float(items: &Vec<Value>) -> bool
    ensures float { result ≡ items_have_float (items_view items.now.items) }
    ensures small { result ≡ false → AreItemsSmall (items_view items.now.items) }
{
    for item in items {
        if holds_float(item) {
            return true;
        }
    }
    false
}

#[cycle(float)]
fn members_hold_float(members: &Map<String, Value>) -> bool
    ensures float { result ≡ members_have_float (members_view members.now.entries) }
    ensures small { result ≡ false → AreMembersSmall (members_view members.now.entries) }
{
    for (_, member) in members.iter() {
        if holds_float(member) {
            return true;
        }
    }
    false
}
