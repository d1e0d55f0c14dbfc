//! `tuf`: the tool of who publishes a repository of The Update Framework, and of who updates from one. It signs by Ed25519 and ECDSA keys, and
//! verifies those of RSA too.
//!
//! Each verb answers lines on standard output and status 0, or one line on standard error and status 1, or 2 where the words ask for nothing that
//! there is. `--help` stands behind each verb.
#![tactic(auto)]

mod begin;
mod chain;
mod check;
mod delegating;
mod demo;
mod editing;
mod expiry;
mod fault;
mod files;
mod found;
mod get;
mod host;
mod kept;
mod key;
mod keys;
mod load;
mod mirror;
mod nowhere;
mod publish;
mod putting;
mod refresh;
mod report;
mod role;
mod root;
mod root_edit;
mod root_sign;
mod roots;
mod saving;
mod shares;
mod standing;
mod synced;
mod taken;
mod unchanged;
mod verbs;
mod version;
mod when;
mod words;
mod writing;

use crate::fault::Fault;
use clap::error::ErrorKind;
use std::io::IsTerminal;
use std::process::ExitCode;
use std::{env, io};

// What was done, or why it wasn't.
fn tell(rt: &HostRuntime, outcome: Result<String, Fault>) -> io::Result<ExitCode> {
    match outcome {
        Ok(done) => {
            print!(rt; "{done}")?;
            Ok(ExitCode::SUCCESS)
        }
        Err(fault) => {
            eprintln!(rt; "tuf: {fault}")?;
            Ok(ExitCode::from(fault.status()))
        }
    }
}

fn main(rt: HostRuntime) -> io::Result<ExitCode> {
    let alloc = rt.alloc();
    let given: Vec<String> = env::args(&rt)?.collect(alloc)?;
    let command = words::command(alloc)?;
    let stderr = rt.stderr();
    let err = if stderr.is_terminal() {
        Some(&stderr)
    } else {
        None
    };
    match command.try_get_matches_from(given.as_slice()) {
        Ok(matches) => tell(&rt, verbs::run(&rt, &matches, err)),
        Err(error) if error.kind() == ErrorKind::OutOfMemory => tell(&rt, Err(Fault::Memory)),
        Err(error) => {
            error.print(&rt)?;
            Ok(ExitCode::from(error.exit_code() as u8))
        }
    }
}
