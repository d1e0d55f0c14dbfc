//! A transport over files in memory.
ghost use Rattle.std.specs.Prelude.{◌≡◌, ◌<◌, List, ℕ, Some, None, IfOk, IfErr, OnOk, OnErr};
ghost use Rattle.std.specs.BTreeMap.{get_by_text};
ghost use Rattle.std.specs.Map.{update};
ghost use Rattle.std.specs.Str.{bytes_eq};
ghost use Rattle.url.specs.Parts.{serialize};
ghost use Rattle.tough_net.specs.MemoryFiles.{file_at, left_in, piece_len_in, Cuts, CutsFile, RefusesFile, NextPiece};

use crate::{Transport, TransportError, TransportErrorKind};
use bytes::Bytes;
use futures::Stream;
use futures::task::{Context, Poll};
use std::alloc::{AllocError, Global};
use std::collections::BTreeMap;
use std::num::NonZeroUsize;
use url::Url;

/// Serves the files that it holds, by the texts of their URLs. To any other URL it answers `FileNotFound`.
#[derive(Drop)]
pub struct MemoryTransport {
    alloc: Global,
    files: BTreeMap<String, Bytes>,
    piece_len: NonZeroUsize,
}

impl MemoryTransport {
    /// A transport without files, which gives each file in one piece.
    pub fn new(alloc: Global) -> MemoryTransport
        ensures { (url : List ℕ) → file_at result url ≡ None }
    {
        MemoryTransport::cut(alloc, NonZeroUsize::MAX)
    }

    /// A transport without files, which gives each file in pieces of at most `piece_len` bytes.
    pub fn in_pieces(alloc: Global, piece_len: usize) -> MemoryTransport
        requires { 0 < piece_len }
        ensures { (url : List ℕ) → file_at result url ≡ None }
    {
        let Some(piece_len) = NonZeroUsize::new(piece_len) else {
            unreachable!();
        };
        MemoryTransport::cut(alloc, piece_len)
    }

    fn cut(alloc: Global, piece_len: NonZeroUsize) -> MemoryTransport
        ensures { (url : List ℕ) → file_at result url ≡ None }
    {
        MemoryTransport {
            alloc,
            files: BTreeMap::new(alloc),
            piece_len,
        }
    }

    /// Puts a file at the URL of this text, in the place of the one that is there.
    pub fn insert(&mut self, url: &str, bytes: Bytes) -> Result<(), AllocError>
        ensures ok { OnOk result ((other : List ℕ)
            → file_at self.new other ≡ update bytes_eq (file_at self.old)
            url.now (Some bytes) other) }
        ensures err { OnErr result
            ((other : List ℕ) → file_at self.new other ≡ file_at self.old other) }
    {
        let url = String::from_str(self.alloc, url)?;
        self.files.insert(url, bytes)?;
        Ok(())
    }

    // The stream of the file at the URL of this text.
    fn open(&self, url: &str) -> Result<MemoryStream, TransportError>
        ensures ok { IfOk result (λ s. file_at self.now url.now ≡ Some (left_in s)) }
        ensures err { IfErr result (RefusesFile (file_at self.now url.now) url.now) }
    {
        let Some(bytes) = self.files.get(url) else {
            let kind = TransportErrorKind::FileNotFound;
            return Err(TransportError::new(self.alloc, kind, url)?);
        };
        Ok(MemoryStream {
            left: bytes.clone()?,
            piece_len: self.piece_len,
        })
    }
}

impl Transport for MemoryTransport {
    type Stream = MemoryStream;

    ghost refuses = { λ t url. RefusesFile (file_at t (serialize url)) (serialize url) };

    ghost serves = { λ t url. CutsFile (file_at t (serialize url)) };

    fn fetch(&self, url: &Url) -> Result<MemoryStream, TransportError> {
        self.open(url.as_str())
    }
}

/// The pieces of a file in memory.
#[derive(Drop)]
pub struct MemoryStream {
    left: Bytes,
    piece_len: NonZeroUsize,
}

impl MemoryStream {
    // The next piece, as long as may be. None where nothing is left.
    fn next_piece(&mut self) -> Option<Result<Bytes, TransportError>>
        ensures { NextPiece (piece_len_in self.old) (left_in self.old) result (left_in self.new) }
    {
        if self.left.is_empty() {
            return None;
        }
        let len = self.left.len().min(self.piece_len.get());
        match self.left.split_to(len) {
            Ok(piece) => Some(Ok(piece)),
            Err(e) => Some(Err(e.into())),
        }
    }
}

impl Stream for MemoryStream {
    type Item = Result<Bytes, TransportError>;

    ghost yields = { λ m. Cuts (left_in m) };

    fn poll_next(&mut self, _cx: &mut Context<'_>) -> Poll<Option<Self::Item>> {
        Poll::Ready(self.next_piece())
    }
}
