//! When documents expire: as words say, else by the kind of their role.

use crate::fault::{Fault, misspelt};
use crate::host::Host;
use crate::shares::Share;
use crate::when::{DAY, from_now, instant};
use tough::jiff::Timestamp;

const WANTED: &str = "ROLE=WHEN, of targets, snapshot, timestamp or a delegated role";

/// How long a timestamp lasts, in seconds.
pub(crate) const TIMESTAMP: i64 = 7 * DAY;

/// How long other documents last, in seconds.
pub(crate) const OTHERS: i64 = 30 * DAY;

// Whether a document of the name is published.
fn is_known(name: &str, shares: &[Share]) -> bool {
    match name {
        "targets" | "snapshot" | "timestamp" => true,
        _ => shares.iter().any(|share| share.name.as_str() == name),
    }
}

/// Whether each word names a document that is published.
pub(crate) fn check<R: Host>(rt: &R, words: &[&str], shares: &[Share]) -> Result<(), Fault> {
    for word in words {
        match word.split_once('=') {
            Some((name, _)) if is_known(name, shares) => {}
            _ => return Err(misspelt(rt.alloc(), word, WANTED)),
        }
    }
    Ok(())
}

/// Whether a word says when the document of the role expires.
pub(crate) fn is_given(words: &[&str], role: &str) -> bool {
    words.iter().any(|word| match word.split_once('=') {
        Some((name, _)) => name == role,
        None => false,
    })
}

/// When the document of the role expires: as its last word says, else so many seconds from now.
pub(crate) fn of<R: Host>(
    rt: &R,
    words: &[&str],
    role: &str,
    seconds: i64,
) -> Result<Timestamp, Fault> {
    for word in words.iter().rev() {
        if let Some((name, when)) = word.split_once('=') {
            if name == role {
                return instant(rt, when);
            }
        }
    }
    from_now(rt, seconds)
}
