//! Delegated roles (TUF specification 1.0, section 4.5).
ghost use Rattle.std.specs.Prelude.{◌≡◌, [], ◌∷◌, IfOk, OnOk};
ghost use Rattle.sha2.specs.Sha256.{sha256};
ghost use Rattle.tough_keys.specs.Key.{key_doc};
ghost use Rattle.tough_schema.specs.declared.delegations.Delegations.{Delegations};
ghost use Rattle.tough_schema.specs.Delegations.{delegations_doc, no_delegations};
ghost use Rattle.tough_schema.specs.Paths.{paths_doc, patterns, prefixes};
ghost use Rattle.tough_demo.specs.Demo.{IsDelegated};

use crate::entries::hashes;
use crate::error::DemoError;
use crate::keys::identifier;
use serde_json::Map;
use std::alloc::Global;
use std::num::NonZeroU64;
use tough_names::{PathHashPrefix, PathPattern};
use tough_schema::{DelegatedRole, Delegations, Ed25519Key, Ed25519Scheme, Hashes, Key, PathSet};

/// The key that signs alone for the role of this name: its public part is the digest of the name.
pub fn role_key(alloc: Global, name: &str) -> Result<Key, DemoError>
    ensures { IfOk result (λ k. (key_doc k).public.bytes ≡ sha256 name.now) }
{
    let Hashes { sha256, _extra, .. } = hashes(alloc, name.as_bytes())?;
    Ok(Key::Ed25519 {
        keyval: Ed25519Key {
            public: sha256,
            _extra,
        },
        scheme: Ed25519Scheme::Ed25519,
        _extra: Map::new(alloc),
    })
}

/// The names that this pattern fits.
pub fn by_pattern(alloc: Global, pattern: &str) -> Result<PathSet, DemoError>
    ensures { IfOk result (λ p. paths_doc p ≡ patterns (pattern.now ∷ [])) }
{
    let mut patterns = Vec::new(alloc);
    patterns.push(PathPattern::from_str(alloc, pattern)?)?;
    Ok(PathSet::Paths(patterns))
}

/// The names whose digest begins with these digits.
pub fn by_prefix(alloc: Global, prefix: &str) -> Result<PathSet, DemoError>
    ensures { IfOk result (λ p. paths_doc p ≡ prefixes (prefix.now ∷ [])) }
{
    let mut prefixes = Vec::new(alloc);
    prefixes.push(PathHashPrefix::from_str(alloc, prefix)?)?;
    Ok(PathSet::PathHashPrefixes(prefixes))
}

/// Delegates to the role of this name, after the others. Its own key signs it alone.
pub fn delegate(
    alloc: Global,
    delegations: &mut Delegations,
    name: &str,
    paths: PathSet,
    terminating: bool,
) -> Result<(), DemoError>
    ensures { OnOk result (IsDelegated name.now (paths_doc paths) terminating
        delegations.old delegations.new) }
{
    let key = role_key(alloc, name)?;
    let keyid = identifier(alloc, &key)?;
    let mut keyids = Vec::new(alloc);
    keyids.push(keyid.clone()?)?;
    let role = DelegatedRole {
        name: String::from_str(alloc, name)?,
        keyids,
        threshold: NonZeroU64::MIN,
        paths,
        terminating,
        targets: None,
    };
    drop(delegations.keys.insert(keyid, key)?);
    delegations.roles.push(role)?;
    Ok(())
}

/// Delegations to the role of this name alone, as `delegate` makes them.
pub fn delegation(
    alloc: Global,
    name: &str,
    paths: PathSet,
    terminating: bool,
) -> Result<Delegations, DemoError>
    ensures { IfOk result (λ g. (e : Delegations) × (delegations_doc e ≡ no_delegations)
        × IsDelegated name.now (paths_doc paths) terminating e g) }
{
    let mut delegations = Delegations::new(alloc);
    delegate(alloc, &mut delegations, name, paths, terminating)?;
    Ok(delegations)
}
