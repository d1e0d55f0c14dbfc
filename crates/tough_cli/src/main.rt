//! The program `tough`: loads a repository over files or HTTP, and saves a target of it.
#![tactic(auto)]

use std::env;
use std::io::{self, ErrorKind, IsTerminal};
use std::process::ExitCode;

// The words behind the program's name: none where one of them is no UTF-8, since no command has such a word.
fn words(rt: &HostRuntime) -> io::Result<Vec<String>> {
    let mut words = Vec::new(rt.alloc());
    match env::args(rt) {
        Ok(args) => {
            for word in args.skip(1) {
                words.push(word)?;
            }
        }
        Err(error) if error.kind() == ErrorKind::OutOfMemory => return Err(error),
        Err(_) => {}
    }
    Ok(words)
}

fn main(rt: HostRuntime) -> io::Result<ExitCode> {
    let words = words(&rt)?;
    let mut out = rt.stdout();
    let mut err = rt.stderr();
    let is_watched = err.is_terminal();
    let words = words.as_slice();
    let status = tough::program::run_watched(&rt, words, &mut out, &mut err, is_watched);
    Ok(ExitCode::from(status))
}
