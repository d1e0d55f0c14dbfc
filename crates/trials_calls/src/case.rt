//! Members of cases, with a value for those that aren't there.

use serde_json::Value;

/// The text of a member, empty where there is none.
pub fn text<'a>(case: &'a Value, name: &str) -> &'a str {
    case.get(name).and_then(Value::as_str).unwrap_or("")
}

/// The text of a member, or where it has none, of the same member of another object.
pub fn text_of_either<'a>(case: &'a Value, other: &'a Value, name: &str) -> &'a str {
    match case.get(name).and_then(Value::as_str) {
        Some(text) => text,
        None => text(other, name),
    }
}

/// Whether a member is `true`.
pub fn flag(case: &Value, name: &str) -> bool {
    case.get(name).and_then(Value::as_bool).unwrap_or(false)
}

/// The number of a member, if there is one.
pub fn number(case: &Value, name: &str) -> Option<u64> {
    case.get(name).and_then(Value::as_u64)
}

/// The items of a member, none where there is no list.
pub fn list<'a>(case: &'a Value, name: &str) -> &'a [Value] {
    match case.get(name).and_then(Value::as_array) {
        Some(items) => items.as_slice(),
        None => &[],
    }
}
