//! Bytes that come in: over memory and from files, bounded and checked.

use crate::case::{number, text};
use anyhow::{Result, anyhow};
use bytes::Bytes;
use futures::{FutureExt, Stream, StreamExt};
use serde_json::Value;
use std::alloc::{AllocError, Global};
use std::{env, fs, process, str};
use tough_net::{
    Cause, Digests, FilesystemTransport, HttpError, IntoVec, LastRequest, MemoryTransport,
    RequestError, Transport, TransportError, TransportErrorKind, fetch_digests, fetch_max_size,
    fetch_sha256, fetch_whole,
};
use url::Url;

// Files in memory: those of the case, in pieces of as many bytes as it says, or each in one.
fn memory(alloc: Global, case: &Value) -> Result<MemoryTransport> {
    let piece = number(case, "piece").and_then(|n| usize::try_from(n).ok());
    let mut transport = match piece {
        Some(piece) if piece > 0 => MemoryTransport::in_pieces(alloc, piece),
        _ => MemoryTransport::new(alloc),
    };
    if let Some(files) = case.get("files").and_then(Value::as_object) {
        for (url, value) in files {
            let bytes = value.as_str().unwrap_or("").as_bytes();
            transport.insert(url.as_str(), Bytes::copy_from_slice(alloc, bytes)?)?;
        }
    }
    Ok(transport)
}

// The SHA-256 that the case states.
fn digest(case: &Value) -> [u8; 32] {
    let mut bytes = [0u8; 32];
    let _ = hex::decode_to_slice(text(case, "sha256"), &mut bytes);
    bytes
}

// The bytes of the digits under the name, if the case has some.
fn stated(alloc: Global, case: &Value, name: &str) -> Result<Option<Vec<u8>>> {
    let digits = text(case, name);
    if digits.is_empty() {
        return Ok(None);
    }
    Ok(Some(hex::decode(alloc, digits)?))
}

// The digests that the case states.
fn digests(alloc: Global, case: &Value) -> Result<Digests> {
    let sha256 = stated(alloc, case, "sha256")?;
    let sha512 = stated(alloc, case, "sha512")?;
    Ok(Digests { sha256, sha512 })
}

// A fault, with its kind and its place.
fn fault(alloc: Global, error: &TransportError) -> Result<String> {
    Ok(format!(in alloc; "{:?} {} {error}", error.kind(), error.url())?)
}

// The same of a fault that isn't needed any more.
fn failed(alloc: Global, error: TransportError) -> Result<String> {
    let told = fault(alloc, &error);
    drop(error);
    told
}

/// A fault as a transport makes it: with a cause of HTTP, for want of memory, or with no cause.
pub(crate) fn made(alloc: Global, case: &Value) -> Result<String> {
    let (kind, url) = (TransportErrorKind::FileNotFound, text(case, "url"));
    let error = match text(case, "cause") {
        "http" => {
            let source = RequestError {
                requests: 1,
                received: 0,
                last: LastRequest::Status(404),
            };
            let cause = Cause::Http(HttpError::FetchFileNotFound { source });
            TransportError::new_with_cause(alloc, kind, url, cause)?
        }
        "memory" => TransportError::from(AllocError),
        _ => TransportError::new(alloc, kind, url)?,
    };
    let has_cause = error.cause().is_some();
    Ok(format!(in alloc; "{} {has_cause}", failed(alloc, error)?)?)
}

// Items, each with a stroke behind it.
fn tell(alloc: Global, items: &[std::result::Result<Bytes, TransportError>]) -> Result<String> {
    let mut told = String::new(alloc);
    for item in items {
        match item {
            Ok(bytes) => told.push_str(str::from_utf8(bytes.as_slice())?)?,
            Err(error) => told.push_str(fault(alloc, error)?.as_str())?,
        }
        told.push('|')?;
    }
    Ok(told)
}

// The first items of a stream, each with a stroke behind it.
fn shown<S>(rt: &HostRuntime, stream: S, most: usize) -> Result<String>
where
    S: Stream<Item = Result<Bytes, TransportError>>,
    requires { S.can_poll stream }
{
    let alloc = rt.alloc();
    let collected = stream.take(most).collect(alloc).now_or_never(rt)?;
    let items = collected.ok_or_else(|| anyhow!("the stream waits"))??;
    let told = tell(alloc, items.as_slice());
    drop(items);
    told
}

// All bytes of a file, or why they didn't come.
fn whole(alloc: Global, outcome: Option<Result<Vec<u8>, TransportError>>) -> Result<String> {
    match outcome {
        Some(Ok(bytes)) => Ok(String::from_utf8(bytes)?),
        Some(Err(error)) => failed(alloc, error),
        None => Err(anyhow!("the stream waits")),
    }
}

// The greatest number of bytes that the case allows.
fn limit(case: &Value) -> u64 {
    number(case, "limit").unwrap_or(u64::MAX)
}

// The first items of a bounded stream.
fn bounded(rt: &HostRuntime, transport: &MemoryTransport, case: &Value) -> Result<String> {
    let alloc = rt.alloc();
    let url = Url::parse(alloc, text(case, "url"))?;
    match fetch_max_size(alloc, transport, &url, limit(case), "a limit") {
        Ok(stream) => shown(rt, stream, 9),
        Err(error) => failed(alloc, error),
    }
}

// The first items of a stream whose digest is checked.
fn checked(rt: &HostRuntime, transport: &MemoryTransport, case: &Value) -> Result<String> {
    let alloc = rt.alloc();
    let url = Url::parse(alloc, text(case, "url"))?;
    match fetch_sha256(alloc, transport, &url, limit(case), "a limit", digest(case)) {
        Ok(stream) => shown(rt, stream, 5),
        Err(error) => failed(alloc, error),
    }
}

// The same where each digest that the case states is checked.
fn checked_by_each(rt: &HostRuntime, transport: &MemoryTransport, case: &Value) -> Result<String> {
    let alloc = rt.alloc();
    let url = Url::parse(alloc, text(case, "url"))?;
    let digests = digests(alloc, case)?;
    match fetch_digests(alloc, transport, &url, limit(case), "a limit", digests) {
        Ok(stream) => shown(rt, stream, 5),
        Err(error) => failed(alloc, error),
    }
}

// All bytes, if they fit.
fn collected(rt: &HostRuntime, transport: &MemoryTransport, case: &Value) -> Result<String> {
    let alloc = rt.alloc();
    let url = Url::parse(alloc, text(case, "url"))?;
    let digests = digests(alloc, case)?;
    match fetch_whole(alloc, transport, &url, limit(case), "a limit", digests) {
        Ok(future) => whole(alloc, future.now_or_never(rt)?),
        Err(error) => failed(alloc, error),
    }
}

// All bytes of a file of the transport.
fn fetched<T: Transport>(rt: &HostRuntime, transport: &T, url: &str) -> Result<String> {
    let alloc = rt.alloc();
    let url = Url::parse(alloc, url)?;
    match transport.fetch(&url) {
        Ok(stream) => whole(alloc, stream.into_vec(alloc).now_or_never(rt)?),
        Err(error) => failed(alloc, error),
    }
}

/// What a fetch over memory gives.
pub(crate) fn fetch(rt: &HostRuntime, call: &str, case: &Value) -> Result<String> {
    let transport = memory(rt.alloc(), case)?;
    let told = match call {
        "fetch_max_size" => bounded(rt, &transport, case),
        "fetch_sha256" => checked(rt, &transport, case),
        "fetch_digests" => checked_by_each(rt, &transport, case),
        "fetch_whole" => collected(rt, &transport, case),
        "MemoryTransport" => fetched(rt, &transport, text(case, "url")),
        _ => Err(anyhow!("no call {call}")),
    };
    drop(transport);
    told
}

/// What a fetch from a new folder, which the case calls `DIR`, gives: it holds a file `a b` and one of 20,000 letters, of which the number is told.
pub(crate) fn fetch_file(rt: &HostRuntime, case: &Value) -> Result<String> {
    let alloc = rt.alloc();
    let number = process::id(rt.process());
    let folder = format!(in alloc; "{}/tough_trials_{number}", env::temp_dir(rt)?.display())?;
    let url = text(case, "url").replace(alloc, "DIR", folder.as_str())?;
    let long = Vec::from_elem(alloc, b'x', 20_000)?;
    fs::create_dir(rt, folder.as_str())?;
    fs::write(rt, format!(in alloc; "{folder}/a b")?.as_str(), b"x")?;
    fs::write(
        rt,
        format!(in alloc; "{folder}/long")?.as_str(),
        long.as_slice(),
    )?;
    let transport = FilesystemTransport::new(rt.clone()?);
    let told = fetched(rt, &transport, url.as_str())?;
    fs::remove_dir_all(rt, folder.as_str())?;
    if told.len() == long.len() {
        return Ok(format!(in alloc; "{} bytes", told.len())?);
    }
    Ok(told.replace(alloc, folder.as_str(), "DIR")?)
}
