//! A transport that answers by a script, and counts the pieces that it gives.

ghost use Rattle.std.specs.Prelude.{⊤};

use anyhow::Result;
use bytes::Bytes;
use futures::Stream;
use futures::task::{Context, Poll};
use serde_json::Value;
use std::alloc::{AllocError, Global};
use std::collections::BTreeMap;
use std::sync::Arc;
use std::sync::atomic::{AtomicU64, Ordering};
use tough_net::{Transport, TransportError, TransportErrorKind};
use trials_calls::case::{flag, list, text};
use url::Url;

// What one fetch of a file gives: its pieces, the last one first, and then the end, or this piece without end.
#[derive(Drop)]
struct Answer {
    pieces: Vec<Bytes>,
    endless: Option<Bytes>,
}

// What the fetches of a file give, one after another; the last answer again and again. How many there were.
#[derive(Drop)]
struct Script {
    answers: Vec<Answer>,
    fetches: AtomicU64,
}

/// Files by the texts of their URLs, each with its script.
#[derive(Drop)]
pub(crate) struct Scripted {
    alloc: Global,
    files: BTreeMap<String, Script>,
    given: Arc<AtomicU64>,
}

/// The pieces of one fetch.
#[derive(Drop)]
pub(crate) struct Pieces {
    left: Vec<Bytes>,
    endless: Option<Bytes>,
    given: Arc<AtomicU64>,
}

// Bytes in pieces of this length, the last one first.
fn cut(alloc: Global, bytes: &[u8], len: usize) -> Result<Vec<Bytes>> {
    let mut pieces = Vec::new(alloc);
    for piece in bytes.chunks(len.max(1)) {
        pieces.push(Bytes::copy_from_slice(alloc, piece)?)?;
    }
    pieces.reverse();
    Ok(pieces)
}

// A part of a script: a text that comes in pieces of this length, or pieces, of which the last may come without end.
fn answer_of(alloc: Global, part: &Value, len: usize) -> Result<Answer> {
    if let Some(text) = part.as_str() {
        return Ok(Answer {
            pieces: cut(alloc, text.as_bytes(), len)?,
            endless: None,
        });
    }
    let mut pieces = Vec::new(alloc);
    for piece in list(part, "pieces") {
        let bytes = piece.as_str().unwrap_or("").as_bytes();
        pieces.push(Bytes::copy_from_slice(alloc, bytes)?)?;
    }
    pieces.reverse();
    let endless = if flag(part, "endless") {
        Some(Bytes::copy_from_slice(alloc, text(part, "piece").as_bytes())?)
    } else {
        None
    };
    Ok(Answer { pieces, endless })
}

// What the fetches of a file give.
fn script_of(alloc: Global, value: &Value, len: usize) -> Result<Script> {
    let mut answers = Vec::new(alloc);
    match value.as_array() {
        Some(parts) => {
            for part in parts {
                answers.push(answer_of(alloc, part, len)?)?;
            }
        }
        None => answers.push(answer_of(alloc, value, len)?)?,
    }
    Ok(Script {
        answers,
        fetches: AtomicU64::new(0),
    })
}

impl Scripted {
    /// The files of an object below a URL, whose texts come in pieces of this length; what it gives is counted there.
    pub(crate) fn new(
        alloc: Global,
        files: &Value,
        base: &str,
        len: usize,
        given: Arc<AtomicU64>,
    ) -> Result<Scripted> {
        let mut scripts = BTreeMap::new(alloc);
        if let Some(files) = files.as_object() {
            for (name, value) in files {
                let url = format!(in alloc; "{base}{name}")?;
                scripts.insert(url, script_of(alloc, value, len)?)?;
            }
        }
        Ok(Scripted {
            alloc,
            files: scripts,
            given,
        })
    }
}

// The answer of this number, or the last one.
fn nth(answers: &[Answer], number: u64) -> Option<&Answer> {
    match usize::try_from(number).ok().and_then(|at| answers.get(at)) {
        Some(answer) => Some(answer),
        None => answers.last(),
    }
}

// The pieces once more.
fn copied(alloc: Global, pieces: &[Bytes]) -> std::result::Result<Vec<Bytes>, TransportError> {
    let mut copies = Vec::new(alloc);
    for piece in pieces {
        let copy = piece.clone()?;
        if copies.push(copy).is_err() {
            return Err(AllocError.into());
        }
    }
    Ok(copies)
}

impl Transport for Scripted {
    type Stream = Pieces;

    ghost refuses = { λ _ _ _. ⊤ };

    ghost serves = { λ _ _ _ _. ⊤ };

    fn fetch(&self, url: &Url) -> std::result::Result<Pieces, TransportError> {
        let answer = match self.files.get(url.as_str()) {
            Some(script) => nth(
                script.answers.as_slice(),
                script.fetches.fetch_add(1, Ordering::SeqCst),
            ),
            None => None,
        };
        let Some(answer) = answer else {
            let kind = TransportErrorKind::FileNotFound;
            return Err(TransportError::new(self.alloc, kind, url.as_str())?);
        };
        let left = copied(self.alloc, answer.pieces.as_slice())?;
        let endless = match &answer.endless {
            Some(piece) => Some(piece.clone()?),
            None => None,
        };
        Ok(Pieces {
            left,
            endless,
            given: self.given.clone()?,
        })
    }
}

impl Pieces {
    // The next piece, if there is one.
    fn next(&mut self) -> std::result::Result<Option<Bytes>, TransportError> {
        if let Some(piece) = self.left.pop() {
            return Ok(Some(piece));
        }
        match &self.endless {
            Some(piece) => Ok(Some(piece.clone()?)),
            None => Ok(None),
        }
    }
}

impl Stream for Pieces {
    type Item = std::result::Result<Bytes, TransportError>;

    fn poll_next(&mut self, _cx: &mut Context<'_>) -> Poll<Option<Self::Item>> {
        match self.next() {
            Ok(Some(piece)) => {
                self.given.fetch_add(1, Ordering::SeqCst);
                Poll::Ready(Some(Ok(piece)))
            }
            Ok(None) => Poll::Ready(None),
            Err(error) => Poll::Ready(Some(Err(error))),
        }
    }
}
