//! Steps on files, played in memory and on the files of the system. A step is an object with what is done (`op`), its path below the base
//! folder and its other input, and the answer that is wanted, as a case has it.

use crate::case::{flag, number, text};
use crate::judge::misses;
use anyhow::Result;
use serde_json::Value;
use std::alloc::Global;
use std::fs;
use tough_files::{Files, FilesError, MemoryFiles, OsFiles};

// The base folder on the system, below the folder that the program runs in.
const FOLDER: &str = "steps";

// The path of a step: below the base, that of a temporary file that was made, or one that is always there.
fn path_of(alloc: Global, base: &str, temporary: &[String], step: &Value) -> Result<String> {
    let path = text(step, "path");
    let known = match path {
        "first temporary" => temporary.first().map(String::as_str),
        "last temporary" => temporary.last().map(String::as_str),
        "the root" => Some("/"),
        "the current folder" => Some(""),
        _ => None,
    };
    match known {
        Some(path) => Ok(String::from_str(alloc, path)?),
        None => Ok(format!(in alloc; "{base}{path}")?),
    }
}

// Does a step that only says whether it was done, if it is one.
fn change<F: Files>(
    files: &mut F,
    step: &Value,
    path: &str,
    to: &str,
) -> Option<Result<(), FilesError>> {
    match text(step, "op") {
        "create" => Some(files.create(path)),
        "append" => Some(files.append(path, text(step, "text").as_bytes())),
        "rename" => Some(files.rename(path, to)),
        "copy" => Some(files.copy(path, to)),
        "link" => Some(files.link(path, to)),
        "remove" => Some(files.remove(path)),
        "make_folders" => Some(files.make_folders(path)),
        _ => None,
    }
}

// How much was read, and the buffer.
fn read<F: Files>(alloc: Global, files: &mut F, step: &Value, path: &str) -> Result<String> {
    let mut buffer = Vec::from_slice(alloc, text(step, "buffer").as_bytes())?;
    let from = number(step, "from").unwrap_or(0);
    let count = files.read(path, from, buffer.as_mut_slice());
    Ok(format!(in alloc; "{count:?} {}", str::from_utf8(buffer.as_slice())?)?)
}

// The names in a folder, in their order.
fn list<F: Files>(alloc: Global, files: &mut F, path: &str) -> Result<String> {
    let mut names = files.list(path);
    if let Ok(names) = &mut names {
        names.sort()?;
    }
    Ok(format!(in alloc; "{names:?}")?)
}

// Makes a temporary file and notes its path, and tells whether that is below the folder.
fn create_temp<F: Files>(
    alloc: Global,
    files: &mut F,
    temporary: &mut Vec<String>,
    folder: &str,
) -> Result<String> {
    match files.create_temp(folder) {
        Ok(path) => {
            let place = if path.starts_with(folder) {
                "Ok, below the folder"
            } else {
                "Ok, elsewhere"
            };
            temporary.push(path)?;
            Ok(String::from_str(alloc, place)?)
        }
        Err(error) => Ok(format!(in alloc; "Err({error:?})")?),
    }
}

// A path as it is below the base.
fn canonical<F: Files>(alloc: Global, files: &mut F, base: &str, path: &str) -> Result<String> {
    match files.canonical(path) {
        Ok(path) => {
            let below = path.strip_prefix(base).unwrap_or(path.as_str());
            Ok(String::from_str(alloc, below)?)
        }
        Err(error) => Ok(format!(in alloc; "Err({error:?})")?),
    }
}

// Does a step that tells more than whether it was done.
fn look<F: Files>(
    alloc: Global,
    files: &mut F,
    step: &Value,
    base: &str,
    path: &str,
) -> Result<String> {
    match text(step, "op") {
        "kind" => {
            let kind = files.kind(path, flag(step, "follow"));
            Ok(format!(in alloc; "{kind:?}")?)
        }
        "read" => read(alloc, files, step, path),
        "list" => list(alloc, files, path),
        "canonical" => canonical(alloc, files, base, path),
        "failures" => Ok(format!(in alloc; "{}", files.failures())?),
        other => Ok(format!(in alloc; "no step {other}")?),
    }
}

// Does a step, and tells what it answers.
fn play_step<F: Files>(
    alloc: Global,
    files: &mut F,
    temporary: &mut Vec<String>,
    base: &str,
    step: &Value,
) -> Result<String> {
    let path = path_of(alloc, base, temporary.as_slice(), step)?;
    if text(step, "op") == "create_temp" {
        return create_temp(alloc, files, temporary, path.as_str());
    }
    let to = format!(in alloc; "{base}{}", text(step, "to"))?;
    match change(files, step, path.as_str(), to.as_str()) {
        Some(done) => Ok(format!(in alloc; "{done:?}")?),
        None => look(alloc, files, step, base, path.as_str()),
    }
}

// A line for a step, which tells also what was wanted where that isn't what was answered.
fn line(alloc: Global, step: &Value, told: &str, missed: Option<&str>) -> Result<String> {
    let (op, path, to) = (text(step, "op"), text(step, "path"), text(step, "to"));
    let space = if to.is_empty() { "" } else { " " };
    Ok(match missed {
        Some(wanted) => format!(in alloc; "\n  {op} {path}{space}{to}: {told} WANTED {wanted}")?,
        None => format!(in alloc; "\n  {op} {path}{space}{to}: {told}")?,
    })
}

// Plays the steps of a case, and tells what each answers and how many were answered otherwise than is wanted.
fn play<F: Files>(alloc: Global, files: &mut F, base: &str, case: &Value) -> Result<String> {
    let mut out = String::new(alloc);
    let mut temporary = Vec::new(alloc);
    let (mut count, mut others) = (0usize, 0usize);
    if let Some(steps) = case.get("steps").and_then(Value::as_array) {
        for step in steps {
            let told = play_step(alloc, files, &mut temporary, base, step)?;
            let missed = misses(step, told.as_str());
            count = count.saturating_add(1);
            if missed.is_some() {
                others = others.saturating_add(1);
            }
            out.push_str(line(alloc, step, told.as_str(), missed)?.as_str())?;
        }
    }
    Ok(format!(in alloc; "{count} steps, {others} answered otherwise{out}")?)
}

// Plays the steps in memory.
fn play_in_memory(alloc: Global, case: &Value) -> Result<String> {
    let mut files = MemoryFiles::new(alloc);
    files.make_folders("/base")?;
    play(alloc, &mut files, "/base", case)
}

// Plays the steps on the files of the system, in a folder that is made for them and removed again.
fn play_on_system(rt: &HostRuntime, case: &Value) -> Result<String> {
    fs::create_dir(rt, FOLDER)?;
    let mut files = OsFiles::new(rt.clone()?);
    let base = files.canonical(FOLDER)?;
    let told = play(rt.alloc(), &mut files, base.as_str(), case)?;
    fs::remove_dir_all(rt, FOLDER)?;
    Ok(told)
}

// Plays the steps in memory, and tells the calls that the files keep.
fn calls(alloc: Global, case: &Value) -> Result<String> {
    let mut files = MemoryFiles::new(alloc);
    let mut out = play(alloc, &mut files, "", case)?;
    let calls = files.calls();
    out.push_str(format!(in alloc; "\n  {} calls", calls.len())?.as_str())?;
    for call in calls {
        out.push_str(format!(in alloc; "\n  {call:?}")?.as_str())?;
    }
    Ok(out)
}

/// What a call on files answers, if it is one.
pub(crate) fn answer(rt: &HostRuntime, call: &str, case: &Value) -> Result<Option<String>> {
    let alloc = rt.alloc();
    Ok(match call {
        "Files" => {
            let memory = play_in_memory(alloc, case)?;
            let system = play_on_system(rt, case)?;
            Some(format!(in alloc; "\n in memory: {memory}\n of the system: {system}")?)
        }
        "MemoryFiles::calls" => Some(calls(alloc, case)?),
        _ => None,
    })
}
