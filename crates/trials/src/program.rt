//! Runs of the program over files in a folder of its own, which the case calls `DIR`.

use crate::http::run_beside_server;
use anyhow::Result;
use serde_json::Value;
use std::alloc::AllocGlobal;
use std::fs::File;
use std::net::Net;
use std::random::RandomSource;
use std::rt::{Clock, Files};
use std::sync::Wait;
use std::thread::Threads;
use std::{env, fs, process};
use trials_calls::case::{list, number, text};
use trials_calls::shelf::held;

// Writes a file: the text of the step, or as many blanks as it says.
fn put(rt: &HostRuntime, at: &str, step: &Value) -> Result<()> {
    let blanks = number(step, "blanks")
        .and_then(|n| usize::try_from(n).ok())
        .unwrap_or(0);
    let mut bytes = Vec::from_elem(rt.alloc(), b' ', blanks)?;
    bytes.extend_from_slice(text(step, "text").as_bytes())?;
    fs::write(rt, at, bytes.as_slice())?;
    Ok(())
}

// The text up to the moment of an expired document's update, which is another one in each run.
fn without_moment(text: &str) -> &str {
    match text.split_once(" and the update began at ") {
        Some((before, _)) => before,
        None => text,
    }
}

/// Runs the program on the words of the step, in which `HOST` stands for a server, and tells its status and what it wrote on its output and
/// beside it.
pub(crate) fn run<R>(rt: &R, folder: &str, host: &str, step: &Value) -> Result<String>
where
    R: Files<File = File> + Net + Wait + Clock + RandomSource + AllocGlobal + Clone + Drop,
{
    let alloc = rt.alloc();
    let (mut words, mut out, mut err) = (Vec::new(alloc), Vec::new(alloc), Vec::new(alloc));
    for word in list(step, "words") {
        let word = word.as_str().unwrap_or("").replace(alloc, "DIR", folder)?;
        words.push(word.replace(alloc, "HOST", host)?)?;
    }
    let status = tough::program::run(rt, words.as_slice(), &mut out, &mut err);
    let out = String::from_utf8(out)?.replace(alloc, folder, "DIR")?;
    let err = String::from_utf8(err)?.replace(alloc, folder, "DIR")?;
    let err = err.replace(alloc, host, "HOST")?;
    Ok(format!(in alloc; "{status}\n{out}{}", without_moment(err.as_str()))?)
}

// The names in a folder, in order, each with a blank before it.
fn names(rt: &HostRuntime, at: &str) -> Result<String> {
    let alloc = rt.alloc();
    let mut names = Vec::new(alloc);
    for entry in fs::read_dir(rt, at)? {
        names.push(format!(in alloc; " {}", entry?.file_name())?)?;
    }
    names.sort()?;
    Ok(names.concat(alloc)?)
}

// Takes a step below the folder, and tells what it came to.
fn take<R>(rt: &HostRuntime, waiting: &R, folder: &str, step: &Value) -> Result<String>
where
    R: Files<File = File>
        + Net
        + Threads
        + Wait
        + Clock
        + RandomSource
        + AllocGlobal
        + Clone
        + Drop,
{
    let alloc = rt.alloc();
    let at = format!(in alloc; "{folder}/{}", text(step, "path"))?;
    match text(step, "step") {
        "run" => run(waiting, folder, "HOST", step),
        "run over HTTP" => run_beside_server(rt, waiting, folder, step),
        "names" => names(rt, at.as_str()),
        "held" => held(alloc, fs::read(rt, at.as_str())?.as_slice()),
        "make folder" => {
            fs::create_dir_all(rt, at.as_str())?;
            Ok(String::from_str(alloc, "made")?)
        }
        _ => {
            put(rt, at.as_str(), step)?;
            Ok(String::from_str(alloc, "put")?)
        }
    }
}

// Makes the folder, with folders for metadata, targets and a store, and the case's files.
fn prepare(rt: &HostRuntime, folder: &str, case: &Value) -> Result<()> {
    for below in ["metadata", "targets", "store"] {
        fs::create_dir_all(rt, format!(in rt.alloc(); "{folder}/{below}")?.as_str())?;
    }
    if let Some(files) = case.get("files").and_then(Value::as_object) {
        for (name, value) in files {
            let at = format!(in rt.alloc(); "{folder}/{name}")?;
            fs::write(rt, at.as_str(), value.as_str().unwrap_or("").as_bytes())?;
        }
    }
    Ok(())
}

/// Takes the steps of a case in a new folder with the case's files, and tells what each came to. The program waits by the second runtime.
pub(crate) fn play<R>(rt: &HostRuntime, waiting: &R, case: &Value) -> Result<String>
where
    R: Files<File = File>
        + Net
        + Threads
        + Wait
        + Clock
        + RandomSource
        + AllocGlobal
        + Clone
        + Drop,
{
    let alloc = rt.alloc();
    let number = process::id(rt.process());
    let folder = format!(in alloc; "{}/tough_trials_{number}", env::temp_dir(rt)?.display())?;
    let mut told = String::new(alloc);
    prepare(rt, folder.as_str(), case)?;
    for step in list(case, "steps") {
        let line = take(rt, waiting, folder.as_str(), step)?;
        told.push_str(format!(in alloc; "\n  {line}")?.as_str())?;
    }
    fs::remove_dir_all(rt, folder.as_str())?;
    Ok(told)
}
