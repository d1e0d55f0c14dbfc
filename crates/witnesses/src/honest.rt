//! What is served is loaded.

ghost use Rattle.std.specs.Prelude.{◌≡◌, false, None, Some, IfOk, OnOk};
ghost use Rattle.std.specs.Str.{bytes_eq};
ghost use Rattle.url.specs.Parts.{serialize};
ghost use Rattle.tough_net.specs.MemoryFiles.{file_at};
ghost use Rattle.tough_load.specs.Loader.{clock_of};
ghost use Rattle.tough_honest.specs.Loads.{BeganAt};
ghost use Rattle.witnesses.specs.Devices.{IsAt, ServesFour, fixed_gives, HasHonestLoad};

use crate::Unmet;
use crate::update::loadable;
use bytes::Bytes;
use jiff::Timestamp as Instant;
use std::alloc::{AllocGlobal, Global};
use std::random::RandomSource;
use tough_load::{FixedClock, MemoryStore, RepositoryLoader, Vault, drive};
use tough_net::{Limits, MemoryTransport, join, with_slash};
use tough_roles::DemoVerify;
use url::Url;

// The URL of the name.
fn at(base: &Url, name: &str) -> Result<Url, Unmet>
    ensures { IfOk result (IsAt base.now name.now) }
{
    if base.as_str().len() > 1_000_000 || name.len() > 1_000_000 {
        return Err(Unmet::Input);
    }
    match join(base, name) {
        Ok(url) => Ok(url),
        Err(_) => Err(Unmet::Input),
    }
}

// Two URLs that aren't one.
fn differ(one: &Url, other: &Url) -> Result<(), Unmet>
    ensures { OnOk result (bytes_eq (serialize one.now) (serialize other.now) ≡ false) }
{
    if one.as_str() == other.as_str() {
        return Err(Unmet::Input);
    }
    Ok(())
}

// A transport that has these files at three URLs, and none at the fourth.
fn hold(
    alloc: Global,
    none: &Url,
    first: &Url,
    second: &Url,
    third: &Url,
    timestamp: &[u8],
    snapshot: &[u8],
    targets: &[u8],
) -> Result<MemoryTransport, Unmet>
    ensures none { IfOk result (λ t. file_at t (serialize none.now) ≡ None) }
    ensures first { IfOk result (λ t. file_at t (serialize first.now) ≡ Some timestamp.now) }
    ensures second { IfOk result (λ t. file_at t (serialize second.now) ≡ Some snapshot.now) }
    ensures third { IfOk result (λ t. file_at t (serialize third.now) ≡ Some targets.now) }
{
    differ(first, none)?;
    differ(second, none)?;
    differ(third, none)?;
    differ(second, first)?;
    differ(third, first)?;
    differ(third, second)?;
    let mut transport = MemoryTransport::new(alloc);
    transport.insert(first.as_str(), Bytes::copy_from_slice(alloc, timestamp)?)?;
    transport.insert(second.as_str(), Bytes::copy_from_slice(alloc, snapshot)?)?;
    transport.insert(third.as_str(), Bytes::copy_from_slice(alloc, targets)?)?;
    Ok(transport)
}

// The repository's files below this URL.
fn transport(
    alloc: Global,
    base: &Url,
    timestamp: &[u8],
    snapshot: &[u8],
    targets: &[u8],
) -> Result<MemoryTransport, Unmet>
    ensures { (trusted : _) → IfOk result (λ t. ServesFour t base.now
        (record { trusted = trusted; timestamp = timestamp.now; snapshot = snapshot.now; targets = targets.now })) }
{
    let none = at(base, "2.root.json")?;
    let first = at(base, "timestamp.json")?;
    let second = at(base, "snapshot.json")?;
    let third = at(base, "targets.json")?;
    hold(
        alloc, &none, &first, &second, &third, timestamp, snapshot, targets,
    )
}

/// Witness of `tough_honest::laws::honest_loads`: a repository that was read, its files in memory below this URL, an empty store in memory, a
/// clock that stands still, and a load that ended with documents; so, by the law, with those of the moment that the clock shows.
pub fn honest_load<R: RandomSource + AllocGlobal>(
    rt: &R,
    alloc: Global,
    start: Instant,
    metadata: Url,
    trusted: &[u8],
    timestamp: &[u8],
    snapshot: &[u8],
    targets: &[u8],
) -> Result<(), Unmet>
    ensures { OnOk result ((h : HasHonestLoad start.nanosecond)
        × BeganAt fixed_gives (clock_of h.loader) (λ now. h.outcome ≡ Ok (h.d now))) }
{
    tough_honest::laws::honest_loads::<MemoryTransport, DemoVerify, FixedClock, MemoryStore>();
    loadable(
        alloc,
        &Limits::default(),
        start,
        trusted,
        timestamp,
        snapshot,
        targets,
    )?;
    let base = match with_slash(alloc, metadata.clone()?) {
        Ok(base) => base,
        Err(_) => return Err(Unmet::Input),
    };
    let transport = transport(alloc, &base, timestamp, snapshot, targets)?;
    let mut vault = Vault::new(alloc, MemoryStore::new(alloc));
    let loader = RepositoryLoader::new(alloc, trusted, metadata.clone()?, metadata)
        .transport(transport)
        .verifier(DemoVerify)
        .clock(FixedClock(start))
        .keeper(&mut vault);
    let mut load = match loader.load() {
        Ok(load) => load,
        Err(_) => return Err(Unmet::Input),
    };
    match drive(rt, &mut load) {
        Ok(Ok(_)) => Ok(()),
        _ => Err(Unmet::Input),
    }
}
