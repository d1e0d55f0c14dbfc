//! The list of calls that files in memory keep.
ghost use Rattle.std.specs.Prelude.{◌≡◌, ◌++◌, ◌<◌, [], OnOk, vec_len, vec_capacity};
ghost use Rattle.tough_files.specs.Calls.{told_of, count_after, done_or};
ghost use Rattle.tough_files.specs.Notes.{asked_of, answered_of, all_told, log_told};

use crate::files::{FileKind, FilesError};
use std::alloc::{AllocError, Global};

/// What files were asked: the call by its name, with its arguments. Of `read` the length of the buffer is kept.
#[derive(Debug, PartialEq, Eq, Drop)]
pub enum Request {
    Kind(String, bool),
    Read(String, u64, usize),
    Create(String),
    CreateTemp(String),
    Append(String, Vec<u8>),
    Rename(String, String),
    Copy(String, String),
    Link(String, String),
    Remove(String),
    MakeFolders(String),
    Canonical(String),
    List(String),
}

/// What they answered.
#[derive(Debug, PartialEq, Eq, Drop)]
pub enum Answer {
    Done,
    Found(FileKind),
    Got(Vec<u8>),
    Named(String),
    Listed(Vec<String>),
    Refused(FilesError),
}

/// A call and its answer.
#[derive(Debug, PartialEq, Eq, Drop)]
pub struct Call {
    pub request: Request,
    pub answer: Answer,
}

/// The calls so far, and how many of them answered `Failed`, modulo 2^64.
#[derive(Drop)]
pub(crate) struct Log {
    calls: Vec<Call>,
    failures: u64,
}

impl Log {
    pub(crate) fn new(alloc: Global) -> Log
        ensures told { log_told result ≡ [] }
        ensures failures { result.failures ≡ 0 }
    {
        Log {
            calls: Vec::new(alloc),
            failures: 0,
        }
    }

    pub(crate) fn calls(&self) -> &[Call]
        ensures { result.now ≡ self.now.calls.items }
    {
        self.calls.as_slice()
    }

    pub(crate) fn failures(&self) -> u64
        ensures { result ≡ self.now.failures }
    {
        self.failures
    }

    // Makes room for one more call.
    pub(crate) fn reserve(&mut self) -> Result<(), AllocError>
        ensures room { OnOk result (vec_len self.new.calls < vec_capacity self.new.calls) }
        ensures told { log_told self.new ≡ log_told self.old }
        ensures failures { self.new.failures ≡ self.old.failures }
    {
        match self.calls.reserve(1) {
            Ok(()) => Ok(()),
            Err(_) => Err(AllocError),
        }
    }

    // Notes a call, unless it found no memory. There is room for it.
    pub(crate) fn note(&mut self, request: Request, answer: Answer)
        requires { vec_len self.old.calls < vec_capacity self.old.calls }
        ensures told { log_told self.new
            ≡ log_told self.old ++ told_of (asked_of request) (answered_of answer) }
        ensures failures { self.new.failures ≡ count_after (answered_of answer) self.old.failures }
    {
        match &answer {
            Answer::Refused(FilesError::Memory) => return,
            Answer::Refused(FilesError::Failed) => {
                self.failures = self.failures.wrapping_add(1);
            }
            _ => {}
        }
        let pushed = self.calls.push(Call { request, answer });
        let Ok(()) = pushed else { unreachable!() };
    }

    // Notes a call that answers nothing but that it is done.
    pub(crate) fn note_done(&mut self, request: Request, outcome: Result<(), FilesError>)
        requires { vec_len self.old.calls < vec_capacity self.old.calls }
        ensures told { log_told self.new
            ≡ log_told self.old ++ told_of (asked_of request) (done_or outcome) }
        ensures failures { self.new.failures ≡ count_after (done_or outcome) self.old.failures }
    {
        match outcome {
            Ok(()) => self.note(request, Answer::Done),
            Err(e) => self.note(request, Answer::Refused(e)),
        }
    }
}
