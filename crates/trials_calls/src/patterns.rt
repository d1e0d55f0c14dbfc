//! Patterns, and prefixes of names' digests.

use crate::case::text;
use anyhow::Result;
use serde_json::Value;
use std::alloc::Global;
use tough_names::{PathHashPrefix, PathPattern, TargetName};

// Whether a pattern matches the name, or why its text is no pattern.
fn pattern_matches(alloc: Global, input: &str, target: &str) -> Result<String> {
    let name = TargetName::from_str(alloc, target)?;
    match PathPattern::from_str(alloc, input) {
        Ok(pattern) => Ok(format!(in alloc; "{}", pattern.matches(&name))?),
        Err(error) => Ok(format!(in alloc; "{error:?}")?),
    }
}

// The text of a pattern's clone, and whether it is equal to another pattern.
fn compare_patterns(alloc: Global, input: &str, other: &str) -> Result<String> {
    let other = PathPattern::new(alloc, String::from_str(alloc, other)?)?;
    let again = PathPattern::from_str(alloc, input)?.clone()?;
    Ok(format!(in alloc; "{}, {}", again.value(), again == other)?)
}

// Whether a prefix matches the name.
fn prefix_matches(alloc: Global, input: &str, target: &str) -> Result<String> {
    let name = TargetName::from_str(alloc, target)?;
    let prefix = PathHashPrefix::from_str(alloc, input)?;
    Ok(format!(in alloc; "{}", prefix.matches(&name))?)
}

// The text of a prefix's clone, and whether it is equal to another prefix.
fn compare_prefixes(alloc: Global, input: &str, other: &str) -> Result<String> {
    let other = PathHashPrefix::new(String::from_str(alloc, other)?);
    let again = PathHashPrefix::from_str(alloc, input)?.clone()?;
    Ok(format!(in alloc; "{}, {}", again.value(), again == other)?)
}

/// What a call on patterns or prefixes answers, if it is one.
pub(crate) fn answer(alloc: Global, call: &str, case: &Value) -> Result<Option<String>> {
    let (input, target, other) = (
        text(case, "input"),
        text(case, "target"),
        text(case, "other"),
    );
    Ok(match call {
        "PathPattern::matches" => Some(pattern_matches(alloc, input, target)?),
        "PathPattern::eq" => Some(compare_patterns(alloc, input, other)?),
        "PathHashPrefix::matches" => Some(prefix_matches(alloc, input, target)?),
        "PathHashPrefix::eq" => Some(compare_prefixes(alloc, input, other)?),
        _ => None,
    })
}
