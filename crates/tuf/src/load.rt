//! Repositories are loaded, over files and HTTP.

ghost use Rattle.std.specs.Prelude.{⊤};

use crate::fault::{Fault, about, refused};
use crate::files::{Disk, canonical};
use crate::host::Host;
use std::alloc::Global;
use std::io;
use std::time::Duration;
use tough::http::HttpTransportBuilder;
use tough::jiff::Timestamp;
use tough::{
    DefaultTransport, Error, ExpirationEnforcement, FixedClock, Keeper, Limits, LocalRuntime,
    Repository, RepositoryLoader, Transport, UpdateError, Url, open_on,
};
use tough_signatures::StandardVerify;

const ESCAPED: &str = "a URL spells this path otherwise; take a folder of letters and digits";

/// What is loaded, and how.
#[derive(Drop)]
pub(crate) struct Wanted<'a> {
    /// The bytes of the root that is trusted.
    pub(crate) root: &'a [u8],
    /// Below which the metadata lies.
    pub(crate) metadata: Url,
    /// Below which the targets lie.
    pub(crate) targets: Url,
    /// Whether documents that have expired are refused.
    pub(crate) enforcement: ExpirationEnforcement,
    /// The moment at which the update begins, which stands for all of it (TUF specification 1.0, section 5.1).
    pub(crate) start: Timestamp,
}

/// The URL of a word.
pub(crate) fn url(alloc: Global, word: &str) -> Result<Url, Fault> {
    match Url::parse(alloc, word) {
        Ok(url) => Ok(url),
        Err(error) => Err(about(alloc, word, &error)),
    }
}

// The URL of a path, which must be spelled as the path.
fn file_url(alloc: Global, path: &str) -> Result<Url, Fault> {
    let text = format!(in alloc; "file://{path}")?;
    let url = url(alloc, text.as_str())?;
    if url.as_str() != text.as_str() {
        return Err(refused(alloc, path, ESCAPED));
    }
    Ok(url)
}

/// The URLs of the metadata and of the targets of a repository in a folder.
pub(crate) fn urls_in<R: Host>(
    alloc: Global,
    disk: &mut Disk<R>,
    folder: &str,
) -> Result<(Url, Url), Fault> {
    let real = canonical(alloc, disk, folder)?;
    let metadata = file_url(alloc, format!(in alloc; "{real}/metadata")?.as_str())?;
    let targets = file_url(alloc, format!(in alloc; "{real}/targets")?.as_str())?;
    Ok((metadata, targets))
}

// A pause of 5 ms before a request and before it is repeated, since a load asks for a file a role; eight times as long before each later one, up
// to a second.
fn settings() -> HttpTransportBuilder {
    HttpTransportBuilder::new()
        .initial_backoff(Duration::from_millis(5))
        .backoff_factor(8, 1)
}

/// A transport over files and HTTP, and the event loop that serves it.
pub(crate) fn connect<R: Host>(rt: &R) -> Result<(LocalRuntime, DefaultTransport<R>), Fault> {
    let runtime = LocalRuntime::new(rt)?;
    let handle = runtime.handle().clone()?;
    let transport = DefaultTransport::new_with_http_settings(rt.clone()?, handle, settings())?;
    Ok((runtime, transport))
}

// What an update takes at most. A timestamp, and a root, are parsed before it is known whether they are signed, so they are bounded more narrowly
// than by default: the one has three entries, the other hundreds of keys.
fn limits() -> Limits {
    let mut limits = Limits::default();
    limits.max_root_size = 524_288;
    limits.max_timestamp_size = 65_536;
    limits
}

// A loader of what is wanted.
fn loader_of<'a, T: Transport, K: Keeper>(
    alloc: Global,
    transport: T,
    keeper: K,
    wanted: Wanted<'a>,
) -> RepositoryLoader<'a, T, StandardVerify, FixedClock, K> {
    let Wanted {
        root,
        metadata,
        targets,
        enforcement,
        start,
    } = wanted;
    RepositoryLoader::new(alloc, root, metadata, targets)
        .transport(transport)
        .verifier(StandardVerify)
        .clock(FixedClock(start))
        .keeper(keeper)
        .limits(limits())
        .expiration_enforcement(enforcement)
}

// Why a repository wasn't loaded.
#[derive(Drop)]
enum Unloaded {
    Refused(Error),
    System(io::Error),
}

impl From<UpdateError> for Unloaded {
    ghost from_gives = { λ _ _. ⊤ };

    fn from(error: UpdateError) -> Unloaded {
        Unloaded::Refused(Error::from(error))
    }
}

impl From<Error> for Unloaded {
    ghost from_gives = { λ _ _. ⊤ };

    fn from(error: Error) -> Unloaded {
        Unloaded::Refused(error)
    }
}

impl From<io::Error> for Unloaded {
    ghost from_gives = { λ _ _. ⊤ };

    fn from(error: io::Error) -> Unloaded {
        Unloaded::System(error)
    }
}

// Ends the load that the loader begins.
fn load_by<R: Host, T: Transport, K: Keeper>(
    rt: &R,
    runtime: &mut LocalRuntime,
    loader: RepositoryLoader<'_, T, StandardVerify, FixedClock, K>,
) -> Result<Repository<T, K, FixedClock>, Unloaded> {
    let load = loader.load()?;
    Ok(open_on(rt, runtime, load)??)
}

// What was loaded from a place, or why it wasn't.
fn told<T>(alloc: Global, place: &str, outcome: Result<T, Unloaded>) -> Result<T, Fault> {
    match outcome {
        Ok(loaded) => Ok(loaded),
        Err(Unloaded::Refused(error)) => Err(about(alloc, place, &error)),
        Err(Unloaded::System(error)) => Err(Fault::System(error)),
    }
}

/// Loads a repository as a client does.
pub(crate) fn open<R: Host, T: Transport, K: Keeper>(
    rt: &R,
    runtime: &mut LocalRuntime,
    transport: T,
    keeper: K,
    wanted: Wanted<'_>,
) -> Result<Repository<T, K, FixedClock>, Fault> {
    let alloc = rt.alloc();
    let place = String::from_str(alloc, wanted.metadata.as_str())?;
    let loader = loader_of(alloc, transport, keeper, wanted);
    let outcome = load_by(rt, runtime, loader);
    told(alloc, place.as_str(), outcome)
}
