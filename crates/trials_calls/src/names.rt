//! Names of targets and files.

use crate::case::text;
use crate::compare::compared;
use anyhow::Result;
use serde_json::Value;
use std::alloc::Global;
use tough_decoded::SafeUrlPath;
use tough_names::{TargetName, encode_filename};
use url::Url;

// A name as it resolves. Its raw text is told where it isn't the one that was given.
fn new_name(alloc: Global, input: &str) -> Result<String> {
    match TargetName::from_str(alloc, input) {
        Ok(name) if name.raw() == input => Ok(String::from_str(alloc, name.resolved())?),
        Ok(name) => Ok(format!(in alloc; "{} of {}", name.resolved(), name.raw())?),
        Err(error) => Ok(format!(in alloc; "{error:?}")?),
    }
}

// How the clone of a name compares with another.
fn compare_names(alloc: Global, input: &str, other: &str) -> Result<String> {
    let other = TargetName::try_from(String::from_str(alloc, other)?)?;
    let name = TargetName::from_str(alloc, input)?;
    let again = name.clone()?;
    compared(alloc, &again, &other)
}

// The path of a URL.
fn url_path(alloc: Global, input: &str) -> Result<String> {
    let url = Url::parse(alloc, input)?;
    Ok(String::from_str(alloc, url.safe_url_filepath())?)
}

/// What a call on names answers, if it is one.
pub(crate) fn answer(alloc: Global, call: &str, case: &Value) -> Result<Option<String>> {
    let input = text(case, "input");
    Ok(match call {
        "TargetName::new" => Some(new_name(alloc, input)?),
        "TargetName::cmp" => Some(compare_names(alloc, input, text(case, "other"))?),
        "encode_filename" => Some(encode_filename(alloc, input)?),
        "Url::safe_url_filepath" => Some(url_path(alloc, input)?),
        _ => None,
    })
}
