//! What steps on editors are given: signers, keys, paths, targets and files.

use anyhow::Result;
use serde_json::{Map, Value};
use std::alloc::Global;
use std::collections::BTreeMap;
use std::num::NonZeroU64;
use tough_decoded::{Decoded, Hex};
use tough_demo::role_key;
use tough_error::Error;
use tough_files::{Files, MemoryFiles};
use tough_names::PathPattern;
use tough_schema::{DemoSign, Key, PathSet, Sign, SignError, Target};
use trials_calls::case::{list, number, text};

/// Keys under their identifiers.
pub(crate) type Keys = BTreeMap<Decoded<Hex>, Key>;

/// What a call on an editor answers, but for the editor.
pub(crate) type Called = std::result::Result<(), Error>;

// How a signer signs.
#[derive(Drop)]
enum Manner {
    // As the demonstration's signer.
    Well,
    // It doesn't tell its key.
    Mute,
    // It tells its key, and signs nothing.
    Failing,
    // Its signatures have no bytes.
    Empty,
}

/// A signer of a case, which may fail.
#[derive(Drop)]
pub(crate) struct CaseSign {
    demo: DemoSign,
    manner: Manner,
}

impl Sign for CaseSign {
    ghost use Rattle.tough_keys.specs.Key.{key_doc};

    ghost key = { λ s. key_doc s.demo.key };

    ghost signs = { λ _ _ _. Unit {0} };

    fn tuf_key(&self, alloc: Global) -> std::result::Result<Key, SignError> {
        match &self.manner {
            Manner::Mute => Err(SignError::Failed(String::from_str(alloc, "no key")?)),
            _ => self.demo.tuf_key(alloc),
        }
    }

    fn sign(&self, alloc: Global, msg: &[u8]) -> std::result::Result<Vec<u8>, SignError> {
        match &self.manner {
            Manner::Failing => Err(SignError::Failed(String::from_str(alloc, "no hand")?)),
            Manner::Empty => Ok(Vec::new(alloc)),
            _ => self.demo.sign(alloc, msg),
        }
    }
}

// The key with a member that is no whole number, so that it has no canonical form.
fn with_float(alloc: Global, key: Key) -> Result<Key> {
    match key {
        Key::Ed25519 {
            keyval,
            scheme,
            _extra,
        } => {
            let mut members = _extra;
            let name = String::from_str(alloc, "x")?;
            members.insert(name, Value::from_slice(alloc, b"1.5")?)?;
            Ok(Key::Ed25519 {
                keyval,
                scheme,
                _extra: members,
            })
        }
        other => Ok(other),
    }
}

// The signer by the key of a name: `NAME`, or one that can't sign, as `mute NAME`, `failing NAME`, `empty NAME` and `float NAME`.
fn signer(alloc: Global, text: &str) -> Result<CaseSign> {
    let (manner, name) = text.split_once(" ").unwrap_or(("", text));
    let mut key = role_key(alloc, name)?;
    if manner == "float" {
        key = with_float(alloc, key)?;
    }
    let manner = match manner {
        "mute" => Manner::Mute,
        "failing" => Manner::Failing,
        "empty" => Manner::Empty,
        _ => Manner::Well,
    };
    Ok(CaseSign {
        demo: DemoSign { key },
        manner,
    })
}

/// The signers of these names.
pub(crate) fn signers(alloc: Global, names: &[Value]) -> Result<Vec<CaseSign>> {
    let mut signers = Vec::new(alloc);
    for name in names {
        signers.push(signer(alloc, name.as_str().unwrap_or(""))?)?;
    }
    Ok(signers)
}

/// Adds a step's extras to those of a document.
pub(crate) fn put_extras(extras: &mut Map<String, Value>, step: &Value) -> Result<()> {
    if let Some(given) = step.get("extra").and_then(Value::as_object) {
        for (name, value) in given {
            drop(extras.insert(name.clone()?, value.clone()?)?);
        }
    }
    Ok(())
}

/// The key of a name, under its identifier.
pub(crate) fn key(alloc: Global, name: &str) -> Result<(Decoded<Hex>, Key)> {
    let key = role_key(alloc, name)?;
    let digest = key.digest(alloc)?;
    let keyid = Decoded::from_vec(alloc, Vec::from_slice(alloc, digest.as_slice())?)?;
    Ok((keyid, key))
}

/// The keys of these names, under their identifiers.
pub(crate) fn keys(alloc: Global, names: &[Value]) -> Result<Keys> {
    let mut keys = BTreeMap::new(alloc);
    for name in names {
        let (keyid, key) = key(alloc, name.as_str().unwrap_or(""))?;
        drop(keys.insert(keyid, key)?);
    }
    Ok(keys)
}

/// The names that a step's pattern matches.
pub(crate) fn paths(alloc: Global, step: &Value) -> Result<PathSet> {
    let mut patterns = Vec::new(alloc);
    patterns.push(PathPattern::from_str(alloc, text(step, "pattern"))?)?;
    Ok(PathSet::Paths(patterns))
}

/// A number of a step from 1 on, or 1.
pub(crate) fn positive(step: &Value, name: &str) -> NonZeroU64 {
    NonZeroU64::new(number(step, name).unwrap_or(1)).unwrap_or(NonZeroU64::MIN)
}

/// The target of a file with this content.
pub(crate) fn target(alloc: Global, content: &str) -> Result<Target> {
    let mut files = MemoryFiles::new(alloc);
    files.create("/f")?;
    files.append("/f", content.as_bytes())?;
    Ok(Target::from_path(alloc, &mut files, "/f")?)
}

/// Files with one at `/f` and a folder at `/d`.
pub(crate) fn small_files(alloc: Global) -> Result<MemoryFiles> {
    let mut files = MemoryFiles::new(alloc);
    files.create("/f")?;
    files.make_folders("/d")?;
    Ok(files)
}

/// The folders, the files and the links of a case.
pub(crate) fn given_files(alloc: Global, case: &Value) -> Result<MemoryFiles> {
    let mut files = MemoryFiles::new(alloc);
    for folder in list(case, "folders") {
        files.make_folders(folder.as_str().unwrap_or(""))?;
    }
    if let Some(contents) = case.get("files").and_then(Value::as_object) {
        for (path, content) in contents {
            files.create(path.as_str())?;
            files.append(path.as_str(), content.as_str().unwrap_or("").as_bytes())?;
        }
    }
    if let Some(links) = case.get("links").and_then(Value::as_object) {
        for (path, original) in links {
            files.link(original.as_str().unwrap_or(""), path.as_str())?;
        }
    }
    Ok(files)
}

/// What a call answers.
pub(crate) fn outcome(alloc: Global, done: Called) -> Result<String> {
    match done {
        Ok(()) => Ok(String::from_str(alloc, "ok")?),
        Err(error) => Ok(format!(in alloc; "{error}")?),
    }
}
