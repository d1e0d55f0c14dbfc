//! Two loads, interleaved over one store that is lent to both in turn: one takes a timestamp of version 4, and the
//! other, which then offers version 3, is refused.
#![tactic(auto)]

mod load;

use crate::load::{Load, tell};
use std::num::NonZeroU64;
use tough::schema::{DemoSign, Root, Signed, Timestamp};
use tough::{MemoryStore, Vault};

// A timestamp that names a snapshot, signed.
fn timestamp(
    rt: &HostRuntime,
    signer: &DemoSign,
    version: u64,
    snapshot: u64,
) -> anyhow::Result<Signed<Timestamp>> {
    let version = NonZeroU64::new(version).unwrap_or(NonZeroU64::MIN);
    let snapshot = NonZeroU64::new(snapshot).unwrap_or(NonZeroU64::MIN);
    let made = tough_demo::timestamp(rt.alloc(), version, snapshot)?;
    Ok(tough_demo::sign(rt.alloc(), made, signer)?)
}

// The root, signed by its one key.
fn root(rt: &HostRuntime, public: &str, signer: &DemoSign) -> anyhow::Result<Signed<Root>> {
    let key = tough_demo::ed25519(rt.alloc(), public)?;
    let made = tough_demo::root(rt.alloc(), NonZeroU64::MIN, key)?;
    Ok(tough_demo::sign(rt.alloc(), made, signer)?)
}

// Both loads verify the root; then the one puts its timestamp on the vault, and then the other.
fn interleave(
    rt: &HostRuntime,
    root: &Signed<Root>,
    newer: &Signed<Timestamp>,
    older: &Signed<Timestamp>,
) -> anyhow::Result<()> {
    let a = Load::begin(rt, root)?;
    let b = Load::begin(rt, root)?;
    let mut vault = Vault::new(rt.alloc(), MemoryStore::new(rt.alloc()));
    tell(rt, "A", a.take(&mut vault, newer))?;
    tell(rt, "B", b.take(&mut vault, older))?;
    println!(rt; "journal: {}", vault.journal().len())?;
    Ok(())
}

fn main(rt: HostRuntime) -> anyhow::Result<()> {
    let public = "3b6a27bcceb6a42d62a3a8d02a6f0d73653215771de243a63ac048a18b59da29";
    let signer = DemoSign {
        key: tough_demo::ed25519(rt.alloc(), public)?,
    };
    let root = root(&rt, public, &signer)?;
    let newer = timestamp(&rt, &signer, 4, 8)?;
    let older = timestamp(&rt, &signer, 3, 7)?;
    interleave(&rt, &root, &newer, &older)
}
