//! Whether a value's numbers are of 64 bits, as those of each value are.

ghost use Rattle.std.specs.Prelude.{◌≡◌, IsTrue};
ghost use Rattle.serde_json.specs.Data as Data;
ghost use Rattle.serde_json.specs.View.{view, number_view, items_view, members_view};
ghost use Rattle.tough_roles.specs.Orderly.{IsOrderly, AreOrderly, HasOrder};

use serde_json::{Map, Number, Value};

// Whether the number is of 64 bits, and held as negative only where it is.
fn is_word(number: &Number) -> bool
    ensures { IsTrue result → IsOrderly (Data.number (number_view number.now)) }
{
    if number.is_f64() {
        return true;
    }
    if let Some(_) = number.as_u64() {
        return true;
    }
    match number.as_i64() {
        Some(found) => found < 0,
        None => false,
    }
}

/// Whether the value is known to be read again from its text: each number in it is one of 64 bits, and the members of each
/// object stand in order. `false` says nothing.
#[cycle(orderly)]
pub fn is_orderly(value: &Value) -> bool
    ensures { IsTrue result → IsOrderly (view value.now) }
{
    match value {
        Value::Null => true,
        Value::Bool(_) => true,
        Value::Number(number) => is_word(number),
        Value::String(_) => true,
        Value::Array(items) => are_orderly(items),
        Value::Object(members) => has_order(members),
    }
}

#[cycle(orderly)]
fn are_orderly(items: &Vec<Value>) -> bool
    ensures { IsTrue result → AreOrderly (items_view items.now.items) }
{
    for item in items {
        if !is_orderly(item) {
            return false;
        }
    }
    true
}

/// The same of an object's members.
#[cycle(orderly)]
pub fn has_order(members: &Map<String, Value>) -> bool
    ensures { IsTrue result → HasOrder (members_view members.now.entries) }
{
    for (_, member) in members.iter() {
        if !is_orderly(member) {
            return false;
        }
    }
    true
}
