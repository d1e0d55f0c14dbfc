//! Steps on a vault.

use crate::case::{flag, list, number, text};
use crate::shelf::{Shelf, held};
use anyhow::anyhow;
use serde_json::Value;
use std::alloc::{AllocError, Global};
use std::fmt::Debug;
use tough_roles::{DemoVerify, Root, Signed, Snapshot, Timestamp};
use tough_vault::{DocumentName, ExpirationEnforcement, Receipt, Store, StoreError, Vault};

/// Whether what has expired is refused.
pub fn enforcement(case: &Value) -> ExpirationEnforcement {
    if flag(case, "unsafe") {
        ExpirationEnforcement::Unsafe
    } else {
        ExpirationEnforcement::Safe
    }
}

/// What a switch is as an enforcement, and that as a switch again.
pub(crate) fn switch(alloc: Global, case: &Value) -> Result<String, AllocError> {
    let enforcement = ExpirationEnforcement::from(flag(case, "refused"));
    let refused = bool::from(enforcement);
    format!(in alloc; "{enforcement:?} {refused}")
}

// What a step came to.
fn came_to<E: Debug + Drop>(
    alloc: Global,
    taken: Result<Receipt, E>,
) -> Result<String, AllocError> {
    match taken {
        Ok(receipt) => format!(in alloc; "{} {:?}", receipt.number(), receipt.entry()),
        Err(error) => format!(in alloc; "{error:?}"),
    }
}

// Puts a timestamp on the vault.
fn advance_timestamp(
    alloc: Global,
    vault: &mut Vault<Shelf>,
    root: &Root,
    step: &Value,
) -> anyhow::Result<String> {
    let now = text(step, "now").parse()?;
    let timestamp = Signed::<Timestamp>::read(alloc, text(step, "text").as_bytes())?;
    let taken = vault.advance_timestamp(root, &timestamp, now, enforcement(step), &DemoVerify);
    Ok(came_to(alloc, taken)?)
}

// Puts a snapshot on the vault.
fn advance_snapshot(
    alloc: Global,
    vault: &mut Vault<Shelf>,
    root: &Root,
    step: &Value,
) -> anyhow::Result<String> {
    let now = text(step, "now").parse()?;
    let listed = number(step, "listed").unwrap_or(0);
    let snapshot = Signed::<Snapshot>::read(alloc, text(step, "text").as_bytes())?;
    let enforcement = enforcement(step);
    let taken = vault.advance_snapshot(root, listed, &snapshot, now, enforcement, &DemoVerify);
    Ok(came_to(alloc, taken)?)
}

// Stores a timestamp in the place of the targets, or of a delegated document where the step names one.
fn put_document(alloc: Global, vault: &mut Vault<Shelf>, step: &Value) -> anyhow::Result<String> {
    let name = match text(step, "name") {
        "" => Some(DocumentName::targets(alloc)?),
        name => DocumentName::delegated(String::from_str(alloc, name)?),
    };
    let Some(name) = name else {
        return Ok(String::from_str(alloc, "no name")?);
    };
    let timestamp = Signed::<Timestamp>::read(alloc, text(step, "text").as_bytes())?;
    Ok(came_to(alloc, vault.put_document(&name, &timestamp))?)
}

// Stores the root of the step, or the case's where the step has none.
fn put_root(
    alloc: Global,
    vault: &mut Vault<Shelf>,
    root: &Signed<Root>,
    step: &Value,
) -> anyhow::Result<String> {
    match text(step, "text") {
        "" => Ok(came_to(alloc, vault.put_root(root, &DemoVerify))?),
        own => {
            let own = Signed::<Root>::read(alloc, own.as_bytes())?;
            Ok(came_to(alloc, vault.put_root(&own, &DemoVerify))?)
        }
    }
}

// Looks at the stored root, and tells its version where it is newer.
fn read_root(alloc: Global, vault: &mut Vault<Shelf>, step: &Value) -> Result<String, AllocError> {
    let first = number(step, "first").unwrap_or(0);
    match vault.read_root(first, &DemoVerify) {
        Ok(Some(root)) => format!(in alloc; "stored root {}", root.signed.version),
        Ok(None) => format!(in alloc; "no newer root"),
        Err(error) => format!(in alloc; "{error:?}"),
    }
}

// Takes a step on the vault, and tells what it came to.
fn take(
    alloc: Global,
    vault: &mut Vault<Shelf>,
    root: &Signed<Root>,
    step: &Value,
) -> anyhow::Result<String> {
    match text(step, "step") {
        "time" => {
            let now = text(step, "now").parse()?;
            Ok(came_to(alloc, vault.note_time(now))?)
        }
        "root" => put_root(alloc, vault, root, step),
        "read" => Ok(read_root(alloc, vault, step)?),
        "timestamp" => advance_timestamp(alloc, vault, &root.signed, step),
        "snapshot" => advance_snapshot(alloc, vault, &root.signed, step),
        "document" => put_document(alloc, vault, step),
        "clear" => Ok(came_to(alloc, vault.clear_rotated())?),
        "journal" => Ok(format!(in alloc; "{:?}", vault.journal())?),
        "tip" => Ok(format!(in alloc; "{:?}", vault.tip())?),
        other => Err(anyhow!("no step {other}")),
    }
}

// Takes a step on the vault, and adds what it came to.
fn take_and_tell(
    alloc: Global,
    vault: &mut Vault<Shelf>,
    root: &Signed<Root>,
    step: &Value,
    told: &mut String,
) -> anyhow::Result<()> {
    let line = take(alloc, vault, root, step)?;
    told.push_str(format!(in alloc; "\n  {line}")?.as_str())?;
    Ok(())
}

// Adds what the store holds in the files that the case names.
fn read_back(
    alloc: Global,
    store: &mut Shelf,
    case: &Value,
    told: &mut String,
) -> anyhow::Result<()> {
    for name in list(case, "read") {
        let name = name.as_str().unwrap_or("");
        let held = match store.read(alloc, name) {
            Ok(Some(bytes)) => held(alloc, bytes.as_slice())?,
            Err(StoreError::Memory) => return Err(StoreError::Memory.into()),
            _ => String::from_str(alloc, "nothing")?,
        };
        told.push_str(format!(in alloc; "\n  {name}: {held}")?.as_str())?;
    }
    Ok(())
}

// Takes the steps of the case on a vault over the store, which is given back.
fn take_all(
    alloc: Global,
    store: Shelf,
    root: &Signed<Root>,
    case: &Value,
    told: &mut String,
) -> anyhow::Result<Shelf> {
    let mut vault = Vault::new(alloc, store);
    for step in list(case, "steps") {
        if flag(step, "reopened") {
            vault = Vault::new(alloc, vault.into_store());
        }
        take_and_tell(alloc, &mut vault, root, step, told)?;
    }
    Ok(vault.into_store())
}

/// Takes the steps of a case on a vault over memory, and tells what each came to, and then what the files hold that the case names.
pub fn steps(alloc: Global, case: &Value) -> anyhow::Result<String> {
    let mut told = String::new(alloc);
    let store = Shelf::new(alloc, case)?;
    let root = Signed::<Root>::read(alloc, text(case, "root").as_bytes())?;
    let taken = take_all(alloc, store, &root, case, &mut told);
    drop(root);
    let mut store = taken?;
    read_back(alloc, &mut store, case, &mut told)?;
    Ok(told)
}
