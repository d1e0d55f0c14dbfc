//! What the process has taken.

use anyhow::Error;
use std::alloc::Global;
use std::fs;
use std::rt::Runtime;

/// The most memory that the process has held, in kilobytes, as Linux tells it; 0 where it doesn't.
pub fn peak_kilobytes(rt: &impl Runtime<A = Global>) -> Result<u64, Error> {
    let status = fs::read_to_string(rt, "/proc/self/status")?;
    for line in status.lines() {
        if let Some(rest) = line.strip_prefix("VmHWM:") {
            let digits = rest.trim().trim_end_matches("kB").trim();
            return Ok(digits.parse()?);
        }
    }
    Ok(0)
}
