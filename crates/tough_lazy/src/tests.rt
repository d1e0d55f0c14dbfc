use super::*;
use bytes::Bytes;
use jiff::Timestamp;
use std::test::Fail;
use tough_client::{
    Extent, FixedClock, MemoryStore, Repository, RepositoryLoader, Vault, drive, finish,
};
use tough_demo::{RepositoryFiles, chain, fan};
use tough_names::TargetName;
use tough_net::MemoryTransport;
use tough_roles::DemoVerify;
use url::Url;

type Opened<'a> = Repository<MemoryTransport, &'a mut Vault<MemoryStore>, FixedClock>;

// A transport that has the repository's files, but for those whose path ends so.
fn serve(rt: &HostRuntime, files: &RepositoryFiles, lost: &str) -> Result<MemoryTransport, Fail> {
    let alloc = rt.alloc();
    let mut transport = MemoryTransport::new(alloc);
    for file in &files.files {
        if file.path.as_str().ends_with(lost) {
            continue;
        }
        let url = format!(in alloc; "http://localhost/{}", file.path)?;
        let bytes = Bytes::copy_from_slice(alloc, file.bytes.as_slice())?;
        transport.insert(url.as_str(), bytes)?;
    }
    Ok(transport)
}

// Loads the top-level documents.
fn open<'a>(
    rt: &HostRuntime,
    files: &RepositoryFiles,
    lost: &str,
    vault: &'a mut Vault<MemoryStore>,
) -> Result<Opened<'a>, Fail> {
    let alloc = rt.alloc();
    let metadata = Url::parse(alloc, "http://localhost/metadata/")?;
    let targets = Url::parse(alloc, "http://localhost/targets/")?;
    let load = RepositoryLoader::new(alloc, files.root.as_slice(), metadata, targets)
        .transport(serve(rt, files, lost)?)
        .verifier(DemoVerify)
        .clock(FixedClock(Timestamp::UNIX_EPOCH))
        .keeper(vault)
        .extent(Extent::TopLevel)
        .load()?;
    Ok(drive(rt, load)??)
}

// Fetches what a search for the name comes to.
fn seek(
    rt: &HostRuntime,
    repository: &mut Opened<'_>,
    name: &str,
    most: u64,
) -> Result<Result<(), FetchRolesError>, Fail> {
    let name = TargetName::from_str(rt.alloc(), name)?;
    Ok(finish(rt, fetch_roles(repository, &DemoVerify, &name, most))?)
}

// Whether a search of what was loaded finds the name.
fn is_found(rt: &HostRuntime, repository: &Opened<'_>, name: &str) -> Result<bool, Fail> {
    let name = TargetName::from_str(rt.alloc(), name)?;
    let targets = &repository.targets().signed;
    Ok(targets.find_target(rt.alloc(), &name, false).is_ok())
}

#[test]
fn a_role_of_a_fan_is_fetched_alone(rt: HostRuntime) -> Result<(), Fail> {
    let files = fan(rt.alloc(), 10, 1)?;
    let mut vault = Vault::new(rt.alloc(), MemoryStore::new(rt.alloc()));
    let mut repository = open(&rt, &files, ".r5.json", &mut vault)?;
    seek(&rt, &mut repository, "r3/target-000000.txt", 1)??;
    assert!(rt; is_found(&rt, &repository, "r3/target-000000.txt")?);
    assert!(rt; repository.documents().received().len() == 1);
    seek(&rt, &mut repository, "r3/target-000000.txt", 0)??;
    seek(&rt, &mut repository, "elsewhere.txt", 0)??;
    assert!(rt; repository.documents().received().len() == 1);
    Ok(())
}

#[test]
fn a_broken_role_stops_the_searches_that_reach_it(rt: HostRuntime) -> Result<(), Fail> {
    let files = fan(rt.alloc(), 10, 1)?;
    let mut vault = Vault::new(rt.alloc(), MemoryStore::new(rt.alloc()));
    let mut repository = open(&rt, &files, ".r5.json", &mut vault)?;
    assert!(rt; seek(&rt, &mut repository, "r5/target-000000.txt", 32)?.is_err());
    seek(&rt, &mut repository, "r4/target-000000.txt", 32)??;
    assert!(rt; is_found(&rt, &repository, "r4/target-000000.txt")?);
    Ok(())
}

#[test]
fn a_chain_is_followed_as_far_as_allowed(rt: HostRuntime) -> Result<(), Fail> {
    let files = chain(rt.alloc(), 5, 1)?;
    let mut vault = Vault::new(rt.alloc(), MemoryStore::new(rt.alloc()));
    let mut repository = open(&rt, &files, ".none", &mut vault)?;
    match seek(&rt, &mut repository, "elsewhere.txt", 3)? {
        Err(FetchRolesError::TooMany { most }) => assert!(rt; most == 3),
        _ => assert!(rt; false),
    }
    assert!(rt; repository.documents().received().len() == 3);
    seek(&rt, &mut repository, "elsewhere.txt", 2)??;
    assert!(rt; repository.documents().received().len() == 5);
    assert!(rt; !is_found(&rt, &repository, "elsewhere.txt")?);
    Ok(())
}
