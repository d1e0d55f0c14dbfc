//! The transport that keeps what it receives.

ghost use Rattle.std.specs.Prelude.{◌≡◌, ◌⊎◌, true, false, IfOk, IfErr};
ghost use Rattle.futures.specs.Runs.{Within};
ghost use Rattle.tough_net.specs.Errors.{IsMemory};
ghost use Rattle.tough_cache.specs.Streams.{within_of, is_anew, MayBeKept};
ghost use Rattle.tough_cache.specs.Versioned.{names_version};
ghost use Rattle.tough_cache.specs.declared.caching.CachingStream.TheVariants.{Fetched, Kept};

use crate::keeping::Keeping;
use crate::kept::KeptFile;
use crate::name::{name_place, names_version};
use bytes::Bytes;
use futures::Stream;
use futures::task::{Context, Poll};
use std::alloc::{AllocError, AllocGlobal};
use std::fs;
use std::rt::Files;
use tough_net::{Transport, TransportError};
use url::Url;

/// Serves what another transport does, and keeps in a folder each document that it received under a name with a version, as `3.snapshot.json`:
/// such a file is served from there the next time. With consistent snapshots a second load of an unchanged repository then asks the other transport for
/// the next root and the timestamp alone. A folder keeps the files of one repository.
///
/// What stands in the folder is believed as little as what a server sends. Where a load refuses it, a load by `anew` fetches everything.
#[derive(Drop)]
pub struct CachingTransport<T, R> {
    rt: R,
    within: T,
    folder: String,
    is_anew: bool,
}

impl<T, R> CachingTransport<T, R> {
    /// The transport over another one, which takes what the folder keeps.
    pub fn new(rt: R, within: T, folder: String) -> CachingTransport<T, R>
        ensures within { within_of result ≡ within }
        ensures kept { is_anew result ≡ false }
    {
        CachingTransport {
            rt,
            within,
            folder,
            is_anew: false,
        }
    }

    /// The same, which takes nothing from the folder and puts what it receives in the place of what is there.
    pub fn anew(rt: R, within: T, folder: String) -> CachingTransport<T, R>
        ensures within { within_of result ≡ within }
        ensures anew { is_anew result ≡ true }
    {
        CachingTransport {
            rt,
            within,
            folder,
            is_anew: true,
        }
    }
}

/// The pieces of a file that was kept, or those of the transport within.
#[derive(Drop)]
pub enum CachingStream<S, R: Files + Drop> {
    Kept(KeptFile<R::File>),
    Fetched(Keeping<S, R>),
}

impl<S: Stream<Item = Result<Bytes, TransportError>>, R: Files + Drop> Stream
    for CachingStream<S, R> {
    type Item = Result<Bytes, TransportError>;

    ghost can_poll = { elim [
      | Kept s ↦ ⟦<KeptFile<R::File> as Stream>⟧.can_poll s
      | Fetched s ↦ ⟦<Keeping<S, R> as Stream>⟧.can_poll s
    ] };

    ghost needs = { elim [
      | Kept s ↦ ⟦<KeptFile<R::File> as Stream>⟧.needs s
      | Fetched s ↦ ⟦<Keeping<S, R> as Stream>⟧.needs s
    ] };

    ghost yields = { elim [
      | Kept s ↦ ⟦<KeptFile<R::File> as Stream>⟧.yields s
      | Fetched s ↦ ⟦<Keeping<S, R> as Stream>⟧.yields s
    ] };

    fn poll_next(&mut self, cx: &mut Context<'_>) -> Poll<Option<Self::Item>> {
        match self {
            CachingStream::Kept(pieces) => pieces.poll_next(cx),
            CachingStream::Fetched(pieces) => pieces.poll_next(cx),
        }
    }
}

// The file at the path, if a plain one is there.
fn open_kept<R: Files>(rt: &R, path: &str) -> Option<R::File> {
    match fs::metadata(rt, path) {
        Ok(found) if found.is_file() => fs::open(rt, path).ok(),
        _ => None,
    }
}

impl<T: Transport, R: Files + AllocGlobal + Clone + Drop> CachingTransport<T, R> {
    // Where the file of the URL is kept.
    fn path_of(&self, url: &Url) -> Result<String, AllocError> {
        let path = url.path();
        let name = path.get(name_place(path.as_bytes())..).unwrap_or("");
        Ok(format!(in self.rt.alloc(); "{}/{name}", self.folder)?)
    }

    // Fetches a file that is kept then.
    fn fetch_to_keep(
        &self,
        url: &Url,
        path: String,
    ) -> Result<CachingStream<T::Stream, R>, TransportError>
        ensures can_poll { IfOk result (⟦<CachingStream<T::Stream, R> as Stream>⟧.can_poll) }
        ensures served { IfOk result (λ s. Within (T.serves (within_of self.now) url.now)
            (⟦<CachingStream<T::Stream, R> as Stream>⟧.yields s)) }
        ensures refused { IfErr result
            (λ e. T.refuses (within_of self.now) url.now e ⊎ IsMemory e) }
    {
        let temp = format!(in self.rt.alloc(); "{path}.part")?;
        let rt = self.rt.clone()?;
        let stream = self.within.fetch(url)?;
        Ok(CachingStream::Fetched(Keeping::new(rt, stream, path, temp)))
    }

    // Takes a file that was kept, or fetches it.
    fn fetch_versioned(&self, url: &Url) -> Result<CachingStream<T::Stream, R>, TransportError>
        requires { names_version url.now.path ≡ true }
        ensures can_poll { IfOk result (⟦<CachingStream<T::Stream, R> as Stream>⟧.can_poll) }
        ensures served { IfOk result (λ s. Within
            (λ xs last. MayBeKept self.now url.now ⊎ T.serves (within_of self.now) url.now xs last)
            (⟦<CachingStream<T::Stream, R> as Stream>⟧.yields s)) }
        ensures refused { IfErr result
            (λ e. T.refuses (within_of self.now) url.now e ⊎ IsMemory e) }
    {
        let path = self.path_of(url)?;
        if !self.is_anew {
            if let Some(file) = open_kept(&self.rt, path.as_str()) {
                let alloc = self.rt.alloc();
                let text = String::from_str(alloc, url.as_str())?;
                return Ok(CachingStream::Kept(KeptFile::new(alloc, file, text)));
            }
        }
        self.fetch_to_keep(url, path)
    }
}

impl<T: Transport, R: Files + AllocGlobal + Clone + Drop> Transport for CachingTransport<T, R> {
    type Stream = CachingStream<T::Stream, R>;

    ghost refuses = { λ t url e. T.refuses (within_of t) url e ⊎ IsMemory e };

    // What the folder doesn't hold is the other transport's.
    ghost serves = { λ t url xs last. MayBeKept t url ⊎ T.serves (within_of t) url xs last };

    fn fetch(&self, url: &Url) -> Result<Self::Stream, TransportError> {
        if names_version(url.path().as_bytes()) {
            return self.fetch_versioned(url);
        }
        Ok(CachingStream::Fetched(Keeping::plain(self.within.fetch(url)?)))
    }
}
