use super::*;
use jiff::Timestamp;
use std::test::Fail;
use tough_demo::{RepositoryFiles, repository};
use tough_load::{FixedClock, MemoryStore, RepositoryLoader, Vault};
use tough_net::{Limits, MemoryTransport};
use tough_roles::DemoVerify;
use url::Url;

// The bytes of the file at this path.
fn file<'a>(files: &'a RepositoryFiles, path: &str) -> &'a [u8] {
    for file in &files.files {
        if file.path.as_str() == path {
            return file.bytes.as_slice();
        }
    }
    &[]
}

// A repository without a delegated role.
fn plain(rt: &HostRuntime) -> Result<RepositoryFiles, Fail> {
    Ok(repository(rt.alloc(), 3, false)?)
}

#[test]
fn a_repository_is_loadable(rt: HostRuntime) -> Result<(), Fail> {
    let alloc = rt.alloc();
    let files = plain(&rt)?;
    update::loadable(
        alloc,
        &Limits::default(),
        Timestamp::UNIX_EPOCH,
        files.root.as_slice(),
        file(&files, "metadata/timestamp.json"),
        file(&files, "metadata/snapshot.json"),
        file(&files, "metadata/targets.json"),
    )?;
    Ok(())
}

#[test]
fn an_honest_load_ends_well(rt: HostRuntime) -> Result<(), Fail> {
    let alloc = rt.alloc();
    let files = plain(&rt)?;
    honest::honest_load(
        &rt,
        alloc,
        Timestamp::UNIX_EPOCH,
        Url::parse(alloc, "http://localhost/metadata/")?,
        files.root.as_slice(),
        file(&files, "metadata/timestamp.json"),
        file(&files, "metadata/snapshot.json"),
        file(&files, "metadata/targets.json"),
    )?;
    Ok(())
}

// A transport that has the repository's files.
fn serve(rt: &HostRuntime, files: &RepositoryFiles) -> Result<MemoryTransport, Fail> {
    let alloc = rt.alloc();
    let mut transport = MemoryTransport::new(alloc);
    for file in &files.files {
        let url = format!(in alloc; "http://localhost/{}", file.path)?;
        transport.insert(
            url.as_str(),
            bytes::Bytes::copy_from_slice(alloc, file.bytes.as_slice())?,
        )?;
    }
    Ok(transport)
}

#[test]
fn a_load_ends_with_documents(rt: HostRuntime) -> Result<(), Fail> {
    let alloc = rt.alloc();
    let files = plain(&rt)?;
    let mut vault = Vault::new(alloc, MemoryStore::new(alloc));
    let metadata = Url::parse(alloc, "http://localhost/metadata/")?;
    let targets = Url::parse(alloc, "http://localhost/targets/")?;
    let loader = RepositoryLoader::new(alloc, files.root.as_slice(), metadata, targets)
        .transport(serve(&rt, &files)?)
        .verifier(DemoVerify)
        .clock(FixedClock(Timestamp::UNIX_EPOCH))
        .keeper(&mut vault);
    drop(load::ended_load(&rt, loader)?);
    Ok(())
}

#[test]
fn steps_are_taken(rt: HostRuntime) -> Result<(), Fail> {
    let alloc = rt.alloc();
    let files = plain(&rt)?;
    steps::accepted_steps(
        alloc,
        &Limits::default(),
        Timestamp::UNIX_EPOCH,
        files.root.as_slice(),
        file(&files, "metadata/timestamp.json"),
        file(&files, "metadata/snapshot.json"),
    )?;
    let mut vault = Vault::new(alloc, MemoryStore::new(alloc));
    let mut keeper = &mut vault;
    let moment = Timestamp::UNIX_EPOCH;
    drop(steps::two_steps(alloc, &mut keeper, &DemoVerify, moment, moment)?);
    Ok(())
}

#[test]
fn lives_are_lived(rt: HostRuntime) -> Result<(), Fail> {
    let alloc = rt.alloc();
    let files = plain(&rt)?;
    let moment = Timestamp::UNIX_EPOCH;
    let limits = Limits::default();
    lives::root_is_stored(alloc, limits, files.root.as_slice(), moment, moment)?;
    lives::noted_moments(alloc, limits, files.root.as_slice(), moment, moment)?;
    Ok(())
}
