//! Fetches over HTTP.

use crate::gateway::Gateway;
use anyhow::Result;
use bytes::Bytes;
use futures::StreamExt;
use serde_json::Value;
use std::alloc::{AllocGlobal, Global};
use std::io::Write;
use std::net::{Net, SocketAddr, TcpStream};
use std::random::RandomSource;
use std::rt::Files;
use std::str;
use std::sync::Wait;
use std::time::{Clock, Duration};
use tough::{DefaultTransport, HttpTransportBuilder, LocalRuntime, Transport, TransportError, Url};
use trials_calls::case::{number, text};

// The time of a member in milliseconds, else the other.
fn time(case: &Value, name: &str, other: u64) -> Duration {
    Duration::from_millis(number(case, name).unwrap_or(other))
}

// The settings of the case.
fn settings(case: &Value) -> HttpTransportBuilder {
    if case.get("defaults").is_some() {
        return HttpTransportBuilder::new();
    }
    let tries = number(case, "tries").and_then(|n| u32::try_from(n).ok());
    let builder = HttpTransportBuilder::new()
        .timeout(time(case, "timeout", 30_000))
        .connect_timeout(time(case, "connect_timeout", 10_000))
        .tries(tries.unwrap_or(4))
        .initial_backoff(time(case, "initial_backoff", 10))
        .max_backoff(time(case, "max_backoff", 1000));
    if case.get("doubles").is_some() {
        return builder.backoff_factor(2, 1);
    }
    builder
}

// The URL of the case.
fn url(alloc: Global, addr: SocketAddr, case: &Value) -> Result<Url> {
    let whole = text(case, "url");
    if !whole.is_empty() {
        return Ok(Url::parse(alloc, whole)?);
    }
    let (host, path) = (text(case, "host"), text(case, "path"));
    let host = if host.is_empty() { "127.0.0.1" } else { host };
    let port = addr.port();
    let made = format!(in alloc; "http://{host}:{port}{path}")?;
    Ok(Url::parse(alloc, made.as_str())?)
}

// Why a fetch failed, without the URL, whose port another run picks anew.
fn fault(alloc: Global, error: &TransportError) -> Result<String> {
    Ok(match error.cause() {
        Some(cause) => format!(in alloc; "[{}: {cause}]", error.kind())?,
        None => format!(in alloc; "[{}]", error.kind())?,
    })
}

// What came: the bytes, or how many, and each error.
fn shown(alloc: Global, items: &[std::result::Result<Bytes, TransportError>]) -> Result<String> {
    let mut bytes = Vec::new(alloc);
    let mut told = String::new(alloc);
    for item in items {
        match item {
            Ok(piece) => bytes.extend_from_slice(piece.as_slice())?,
            Err(error) => told.push_str(fault(alloc, error)?.as_str())?,
        }
    }
    if bytes.len() > 64 {
        return Ok(format!(in alloc; "{} bytes {told}", bytes.len())?);
    }
    Ok(format!(in alloc; "'{}' {told}", str::from_utf8(bytes.as_slice())?)?)
}

// What a transport's stream of a URL yields.
fn fetch_by<R, T>(rt: &R, runtime: &mut LocalRuntime, transport: T, url: &Url) -> Result<String>
where
    R: Wait + Clock + RandomSource + AllocGlobal,
    T: Transport,
{
    let alloc = rt.alloc();
    match transport.fetch(url) {
        Ok(stream) => {
            let items = runtime.block_on(rt, stream.collect(alloc))??;
            shown(alloc, items.as_slice())
        }
        Err(error) => fault(alloc, &error),
    }
}

// The same by a gateway, which is asked for `https`.
fn fetch_by_gateway<R, T>(
    rt: &R,
    runtime: &mut LocalRuntime,
    base: String,
    within: T,
    url: &Url,
) -> Result<String>
where
    R: Wait + Clock + RandomSource + AllocGlobal,
    T: Transport,
{
    let alloc = rt.alloc();
    let gateway = Gateway {
        alloc,
        base,
        within,
    };
    fetch_by(rt, runtime, gateway, url)
}

// The URL of the case's gateway: the server, if there is one.
fn gateway_of(alloc: Global, addr: SocketAddr, case: &Value) -> Result<String> {
    if case.get("gateway").is_none() {
        return Ok(String::from_str(alloc, "none:")?);
    }
    Ok(format!(in alloc; "http://127.0.0.1:{}", addr.port())?)
}

// What the stream of the case's URL yields.
fn fetch<R>(rt: &R, addr: SocketAddr, case: &Value) -> Result<String>
where
    R: Files + Net + Wait + Clock + RandomSource + AllocGlobal + Clone + Drop,
{
    let alloc = rt.alloc();
    let url = url(alloc, addr, case)?;
    let base = gateway_of(alloc, addr, case)?;
    let mut runtime = LocalRuntime::new(rt)?;
    let handle = runtime.handle().clone()?;
    let transport = DefaultTransport::new_with_http_settings(rt.clone()?, handle, settings(case))?;
    fetch_by_gateway(rt, &mut runtime, base, transport, &url)
}

/// What the case's stream yields. Then the server is told to end.
pub(crate) fn fetch_and_end<R>(
    rt: &HostRuntime,
    waiting: &R,
    addr: SocketAddr,
    case: &Value,
) -> Result<String>
where
    R: Files + Net + Wait + Clock + RandomSource + AllocGlobal + Clone + Drop,
{
    let told = fetch(waiting, addr, case);
    TcpStream::connect(rt, addr)?.write_all(b"END\r\n\r\n")?;
    told
}
