use serde_json::{Map, Value};
use tough_roles::Hashes;

/// The metadata of a target file: its length, its digest, and the application's own members (TUF specification 1.0,
/// section 4.5, TARGETS).
#[derive(Debug, Drop, PartialEq)]
pub struct Target {
    pub length: u64,
    pub hashes: Hashes,
    pub custom: Map<String, Value>,
    pub _extra: Map<String, Value>,
}
