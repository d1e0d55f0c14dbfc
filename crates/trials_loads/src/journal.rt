//! A journal in words.

use anyhow::Result;
use std::alloc::{AllocError, Global};
use tough_vault::Entry;

// An entry.
fn entry(alloc: Global, entry: &Entry) -> Result<String, AllocError> {
    match entry {
        Entry::Noted(_) => format!(in alloc; "Noted"),
        Entry::Root(version, false) => format!(in alloc; "Root {version}"),
        Entry::Root(version, true) => format!(in alloc; "Root {version} cleared"),
        Entry::Timestamp(versions, _) => format!(in alloc; "Timestamp {}", versions.version),
        Entry::Snapshot(versions, _) => format!(in alloc; "Snapshot {}", versions.version),
        Entry::Cleared => format!(in alloc; "Cleared"),
        Entry::Document(name) => format!(in alloc; "Document {name}"),
        Entry::Broken => format!(in alloc; "Broken"),
    }
}

/// The entries, in their order.
pub(crate) fn journal(alloc: Global, entries: &[Entry]) -> Result<String> {
    let mut texts = Vec::new(alloc);
    for it in entries {
        texts.push(entry(alloc, it)?)?;
    }
    Ok(texts.as_slice().join(alloc, ", ")?)
}

/// Whether two entries say the same.
pub(crate) fn is_entry(one: &Entry, other: &Entry) -> bool {
    match (one, other) {
        (Entry::Noted(one), Entry::Noted(other)) => *one == *other,
        (Entry::Root(one, first), Entry::Root(other, second)) => *one == *other
            && *first == *second,
        (Entry::Timestamp(one, _), Entry::Timestamp(other, _)) => one.version == other.version,
        (Entry::Snapshot(one, _), Entry::Snapshot(other, _)) => one.version == other.version,
        (Entry::Cleared, Entry::Cleared) => true,
        (Entry::Document(one), Entry::Document(other)) => *one == *other,
        _ => false,
    }
}

/// Whether no accepted timestamp or snapshot is older than one before it, but for those that were cleared in between.
pub(crate) fn rises(entries: &[Entry]) -> bool {
    let (mut timestamp, mut snapshot) = (0u64, 0u64);
    for entry in entries {
        match entry {
            Entry::Timestamp(versions, _) if versions.version < timestamp => return false,
            Entry::Snapshot(versions, _) if versions.version < snapshot => return false,
            Entry::Timestamp(versions, _) => timestamp = versions.version,
            Entry::Snapshot(versions, _) => snapshot = versions.version,
            Entry::Cleared => (timestamp, snapshot) = (0, 0),
            _ => {}
        }
    }
    true
}
