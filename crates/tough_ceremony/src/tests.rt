use super::*;
use jiff::Timestamp as Instant;
use serde_json::Map;
use std::alloc::Global;
use std::num::NonZeroU64;
use std::test::Fail;
use tough_decoded::Decoded;
use tough_keys::{DemoSign, DemoVerify, Ed25519Key, Ed25519Scheme, Key};
use tough_roles::{RoleType, Root, Signed, Timestamp};

// A holder of the key with these digits.
fn holder(alloc: Global, digits: &str) -> Result<DemoSign, Fail> {
    Ok(DemoSign {
        key: Key::Ed25519 {
            keyval: Ed25519Key {
                public: Decoded::from_str(alloc, digits)?,
                _extra: Map::new(alloc),
            },
            scheme: Ed25519Scheme::Ed25519,
            _extra: Map::new(alloc),
        },
    })
}

// A root that lists the keys of the digits for roots, and of which so many must sign.
fn root_of(alloc: Global, digits: &[&str], threshold: u64) -> Result<Root, Fail> {
    let mut root = empty_root(alloc, Instant::UNIX_EPOCH)?;
    for digit in digits {
        list_key(alloc, &mut root, RoleType::Root, holder(alloc, digit)?.key)?;
    }
    if let Some(threshold) = NonZeroU64::new(threshold) {
        set_threshold(&mut root, RoleType::Root, threshold)?;
    }
    Ok(root)
}

// The root without signatures.
fn unsigned(alloc: Global, root: Root) -> Signed<Root> {
    Signed {
        signed: root,
        signatures: Vec::new(alloc),
    }
}

// How many keys of the root signed the document, how many still have to, and whether that is enough: a client says the same.
fn told(alloc: Global, by: &Root, document: &Signed<Root>) -> Result<(usize, usize, bool), Fail> {
    let tally = tally_root(alloc, by, document, &DemoVerify)?;
    let is_accepted = by.verify_role(alloc, document, &DemoVerify).is_ok();
    if tally.is_reached() != is_accepted {
        return Ok((0, 0, false));
    }
    Ok((
        tally.signed().len(),
        tally.waiting().len(),
        tally.is_reached(),
    ))
}

#[test]
fn a_root_is_complete_when_as_many_signed_as_must(rt: HostRuntime) -> Result<(), Fail> {
    let alloc = rt.alloc();
    let mut document = unsigned(alloc, root_of(alloc, &["0a", "0b", "0c"], 2)?);
    let root = root_of(alloc, &["0a", "0b", "0c"], 2)?;
    assert_eq!(rt; told(alloc, &root, &document)?, (0, 3, false));
    sign_root(alloc, &mut document, None, &holder(alloc, "0a")?)?;
    assert_eq!(rt; told(alloc, &root, &document)?, (1, 2, false));
    sign_root(alloc, &mut document, None, &holder(alloc, "0a")?)?;
    assert_eq!(rt; told(alloc, &root, &document)?, (1, 2, false));
    sign_root(alloc, &mut document, None, &holder(alloc, "0c")?)?;
    assert_eq!(rt; told(alloc, &root, &document)?, (2, 1, true));
    assert!(rt; sign_root(alloc, &mut document, None, &holder(alloc, "0d")?).is_err());
    Ok(())
}

#[test]
fn keys_of_the_root_before_sign_too(rt: HostRuntime) -> Result<(), Fail> {
    let alloc = rt.alloc();
    let old = root_of(alloc, &["0a"], 1)?;
    let mut next = root_of(alloc, &["0b"], 1)?;
    next_version(&mut next)?;
    let mut document = unsigned(alloc, next);
    sign_root(alloc, &mut document, Some(&old), &holder(alloc, "0a")?)?;
    sign_root(alloc, &mut document, Some(&old), &holder(alloc, "0b")?)?;
    assert_eq!(rt; told(alloc, &old, &document)?, (1, 0, true));
    assert_eq!(rt; told(alloc, &document.signed, &document)?, (1, 0, true));
    assert_eq!(rt; document.signed.version.get(), 2);
    Ok(())
}

#[test]
fn a_key_goes_where_no_role_lists_it(rt: HostRuntime) -> Result<(), Fail> {
    let alloc = rt.alloc();
    let mut root = root_of(alloc, &["0a"], 1)?;
    let id = holder(alloc, "0a")?.key.key_id(alloc)?;
    list_key(
        alloc,
        &mut root,
        RoleType::Targets,
        holder(alloc, "0a")?.key,
    )?;
    assert!(rt;
        list_key(
            alloc,
            &mut root,
            RoleType::Targets,
            holder(alloc, "0a")?.key
        )
        .is_err()
    );
    unlist_key(&mut root, RoleType::Root, &id)?;
    assert!(rt; root.keys.contains_key(&id));
    unlist_key(&mut root, RoleType::Targets, &id)?;
    assert!(rt; !root.keys.contains_key(&id));
    assert!(rt; unlist_key(&mut root, RoleType::Targets, &id).is_err());
    Ok(())
}

#[test]
fn a_timestamp_is_renewed(rt: HostRuntime) -> Result<(), Fail> {
    let alloc = rt.alloc();
    let version = String::from_str(alloc, "1.0.0")?;
    let mut timestamp = Timestamp::new(alloc, version, NonZeroU64::MIN, Instant::UNIX_EPOCH);
    renew_timestamp(&mut timestamp, Instant::MAX)?;
    assert_eq!(rt; timestamp.version.get(), 2);
    timestamp.version = NonZeroU64::MAX;
    assert!(rt; renew_timestamp(&mut timestamp, Instant::MAX).is_err());
    Ok(())
}
