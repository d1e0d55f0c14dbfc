//! Whether an answer is the one that is wanted.

use serde_json::Value;

/// What is wanted of the case's answer and isn't so: the whole answer, or the first word that doesn't stand behind those before it.
pub fn misses<'a>(case: &'a Value, told: &str) -> Option<&'a str> {
    if let Some(wanted) = case.get("answer").and_then(Value::as_str) {
        return if wanted == told { None } else { Some(wanted) };
    }
    let mut rest = told;
    if let Some(words) = case.get("words").and_then(Value::as_array) {
        for word in words {
            let word = word.as_str().unwrap_or("");
            match rest.split_once(word) {
                Some((_, after)) => rest = after,
                None => return Some(word),
            }
        }
    }
    None
}
