//! `tuf demo`: a repository from its keys to a client, in a folder of its own.

use crate::check::{Look, Looking};
use crate::fault::{Fault, refused};
use crate::files::{self, canonical};
use crate::get::{Fetching, Wish, get};
use crate::host::Host;
use crate::publish::{Publishing, publish};
use crate::refresh::{Refreshing, refresh};
use crate::report::Form;
use crate::root_edit::{Editing, edit};
use crate::root_sign::{Signing, sign};
use crate::{check, key, root};
use std::alloc::Global;
use std::str;

const APP: &str = "packages/app.txt";

const STANDS: &str = "something is there; name a folder that isn't";

// The folder in which all of it takes place.
#[derive(Drop)]
struct Stage<'a, R> {
    rt: &'a R,
    folder: &'a str,
}

impl<R: Host> Stage<'_, R> {
    // The path of a file or folder there.
    fn at(&self, name: &str) -> Result<String, Fault> {
        Ok(format!(in self.alloc(); "{}/{name}", self.folder)?)
    }

    fn alloc(&self) -> Global {
        self.rt.alloc()
    }

    // Says what was done.
    fn say(&self, line: &str) -> Result<(), Fault> {
        println!(self.rt; "{line}")?;
        Ok(())
    }

    // The bytes of a file.
    fn read(&self, name: &str) -> Result<Vec<u8>, Fault> {
        files::read(self.rt, self.at(name)?.as_str())
    }

    // Writes a file, whose folder is made where it is missing.
    fn write(&self, name: &str, bytes: &[u8]) -> Result<(), Fault> {
        let path = self.at(name)?;
        let (folder, _) = files::split(path.as_str());
        files::make_folders(self.rt, folder)?;
        files::write(self.rt, path.as_str(), bytes)
    }
}

// Makes the folder, where nothing stands, and the keys of the roles in it.
fn make_keys<R: Host>(stage: &Stage<'_, R>) -> Result<(), Fault> {
    let mut disk = files::disk(stage.rt)?;
    if files::stands(stage.alloc(), &mut disk, stage.folder)? {
        return Err(refused(stage.alloc(), stage.folder, STANDS));
    }
    files::make_folders(stage.rt, stage.at("keys")?.as_str())?;
    for role in ["root", "targets", "snapshot", "timestamp"] {
        let path = format!(in stage.alloc(); "{}/keys/{role}", stage.folder)?;
        drop(key::new(stage.rt, path.as_str(), "ed25519")?);
    }
    drop(key::new(stage.rt, stage.at("keys/packages")?.as_str(), "ecdsa-p256")?);
    stage.say("made keys: root, targets, snapshot, timestamp by ed25519, packages by ecdsa-p256")
}

// A key for the role of its name.
fn key_word<R: Host>(stage: &Stage<'_, R>, role: &str) -> Result<String, Fault> {
    Ok(format!(in stage.alloc(); "{role}={}/keys/{role}", stage.folder)?)
}

// Makes a root.
fn new_root<R: Host>(stage: &Stage<'_, R>) -> Result<(), Fault> {
    let path = stage.at("root.json")?;
    drop(root::new(stage.rt, path.as_str(), "in 1 year")?);
    Ok(())
}

// Has the root list a key for each role.
fn list_keys<R: Host>(stage: &Stage<'_, R>) -> Result<(), Fault> {
    let path = stage.at("root.json")?;
    let first = key_word(stage, "root")?;
    let second = key_word(stage, "targets")?;
    let third = key_word(stage, "snapshot")?;
    let fourth = key_word(stage, "timestamp")?;
    let added = [
        first.as_str(),
        second.as_str(),
        third.as_str(),
        fourth.as_str(),
    ];
    let editing = Editing {
        root: path.as_str(),
        add: added.as_slice(),
        remove: &[],
        thresholds: &[],
        expires: None,
        bump: false,
    };
    drop(edit(stage.rt, &editing)?);
    Ok(())
}

// Signs the root.
fn sign_root<R: Host>(stage: &Stage<'_, R>) -> Result<(), Fault> {
    let path = stage.at("root.json")?;
    let key = stage.at("keys/root")?;
    let keys = [key.as_str()];
    let signing = Signing {
        root: path.as_str(),
        keys: keys.as_slice(),
    };
    drop(sign(stage.rt, &signing, None)?);
    Ok(())
}

// Makes a root that lists a key for each role, and signs it.
fn make_root<R: Host>(stage: &Stage<'_, R>) -> Result<(), Fault> {
    new_root(stage)?;
    list_keys(stage)?;
    sign_root(stage)?;
    stage.say("made root 1: a key for each role, signed by its own")
}

// Publishes what the folder of files has.
fn publish_files<R: Host>(stage: &Stage<'_, R>) -> Result<(), Fault> {
    let (root, key) = (stage.at("root.json")?, key_word(stage, "packages")?);
    let (targets, snapshot) = (stage.at("keys/targets")?, stage.at("keys/snapshot")?);
    let (timestamp, folder) = (stage.at("keys/timestamp")?, stage.at("files")?);
    let repo = stage.at("repository")?;
    let roots = [root.as_str()];
    let keys = [targets.as_str(), snapshot.as_str(), timestamp.as_str()];
    let role_keys = [key.as_str()];
    let words = Publishing {
        roots: roots.as_slice(),
        keys: keys.as_slice(),
        targets: folder.as_str(),
        repo: repo.as_str(),
        roles: &["packages=packages/*"],
        role_keys: role_keys.as_slice(),
        expires: &[],
        taken: &[],
        delegating: None,
    };
    drop(publish(stage.rt, &words)?);
    Ok(())
}

// Makes the files, and publishes them.
fn publish_first<R: Host>(stage: &Stage<'_, R>) -> Result<(), Fault> {
    stage.write("files/hello.txt", b"hello\n")?;
    stage.write("files/packages/app.txt", b"the first\n")?;
    publish_files(stage)?;
    stage.say("published version 1: hello.txt by targets, packages/app.txt by packages")
}

// Changes a file, and publishes the next version.
fn publish_second<R: Host>(stage: &Stage<'_, R>) -> Result<(), Fault> {
    stage.write("files/packages/app.txt", b"the second\n")?;
    publish_files(stage)?;
    stage.say("published version 2: packages/app.txt has changed")
}

// Loads the repository as a client does, and saves a target: what is told of it.
fn fetch<R: Host>(stage: &Stage<'_, R>) -> Result<String, Fault> {
    let mut disk = files::disk(stage.rt)?;
    let real = canonical(stage.alloc(), &mut disk, stage.folder)?;
    let metadata = format!(in stage.alloc(); "file://{real}/repository/metadata")?;
    let targets = format!(in stage.alloc(); "file://{real}/repository/targets")?;
    let (root, store) = (stage.at("root.json")?, stage.at("client/store")?);
    let out = stage.at("client/files")?;
    let words = Fetching {
        wish: Wish::Targets,
        root: root.as_str(),
        metadata: metadata.as_str(),
        targets: targets.as_str(),
        store: store.as_str(),
        out: out.as_str(),
        names: &[APP],
        form: Form::Words,
    };
    get(stage.rt, &words, None)
}

// Saves a target, and says what it has.
fn fetch_and_say<R: Host>(stage: &Stage<'_, R>) -> Result<(), Fault> {
    drop(fetch(stage)?);
    let bytes = stage.read("client/files/packages/app.txt")?;
    let text = str::from_utf8(bytes.as_slice()).unwrap_or("?");
    let line = format!(in stage.alloc(); "loaded it, and saved packages/app.txt: {}", text.trim())?;
    stage.say(line.as_str())
}

// What a refusal says behind the place of the metadata.
fn reason(alloc: Global, fault: &Fault) -> Result<String, Fault> {
    let text = format!(in alloc; "{fault}")?;
    match text.as_str().split_once("/metadata: ") {
        Some((_, reason)) => Ok(String::from_str(alloc, reason)?),
        None => Ok(text),
    }
}

// Puts the first version back, which the client refuses, and then the second one again.
fn go_back<R: Host>(stage: &Stage<'_, R>, first: &[u8]) -> Result<(), Fault> {
    let second = stage.read("repository/metadata/timestamp.json")?;
    stage.write("repository/metadata/timestamp.json", first)?;
    let outcome = fetch(stage);
    stage.write("repository/metadata/timestamp.json", second.as_slice())?;
    let Err(fault) = outcome else {
        return Err(refused(stage.alloc(), "demo", "the first version came back"));
    };
    let reason = reason(stage.alloc(), &fault)?;
    let line = format!(in stage.alloc(); "put version 1 back: refused, {reason}")?;
    stage.say(line.as_str())
}

// Signs a new timestamp.
fn refresh_it<R: Host>(stage: &Stage<'_, R>) -> Result<(), Fault> {
    let (root, key) = (stage.at("root.json")?, stage.at("keys/timestamp")?);
    let repo = stage.at("repository")?;
    let (roots, keys) = ([root.as_str()], [key.as_str()]);
    let words = Refreshing {
        roots: roots.as_slice(),
        keys: keys.as_slice(),
        repo: repo.as_str(),
        expires: None,
    };
    drop(refresh(stage.rt, &words)?);
    stage.say("refreshed it: timestamp 3")
}

// Looks whether a client would take the repository.
fn check_it<R: Host>(stage: &Stage<'_, R>) -> Result<(), Fault> {
    let (root, repo) = (stage.at("root.json")?, stage.at("repository")?);
    let looking = Looking {
        repo: repo.as_str(),
        root: root.as_str(),
        at: None,
        look: Look::Check,
        form: Form::Words,
    };
    drop(check::run(stage.rt, &looking)?);
    stage.say("checked it: a client loads it and reads every target")
}

/// Makes keys, a root and a repository in a new folder, and plays a client of it; a line for each step.
pub(crate) fn run<R: Host>(rt: &R, folder: &str) -> Result<String, Fault> {
    let stage = &Stage { rt, folder };
    make_keys(stage)?;
    make_root(stage)?;
    publish_first(stage)?;
    let first = stage.read("repository/metadata/timestamp.json")?;
    fetch_and_say(stage)?;
    publish_second(stage)?;
    fetch_and_say(stage)?;
    go_back(stage, first.as_slice())?;
    refresh_it(stage)?;
    check_it(stage)?;
    Ok(String::new(rt.alloc()))
}
