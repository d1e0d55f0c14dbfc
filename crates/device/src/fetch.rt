//! Fetches of files by their URLs.

use crate::files::word;
use anyhow::{Result, anyhow};
use bytes::Bytes;
use futures::{FutureExt, Stream, StreamExt};
use std::str;
use tough_cache::CachingTransport;
use tough_net::{FilesystemTransport, Transport, TransportError};
use url::Url;

// Tells each item of a stream.
fn tell_all<S>(rt: &HostRuntime, stream: S) -> Result<()>
where
    S: Stream<Item = std::result::Result<Bytes, TransportError>>,
    requires { S.can_poll stream }
{
    let collected = stream.take(9).collect(rt.alloc()).now_or_never(rt)?;
    let items = collected.ok_or_else(|| anyhow!("the stream waits"))??;
    for item in &items {
        match item {
            Ok(bytes) => {
                let text = str::from_utf8(bytes.as_slice()).unwrap_or("?");
                println!(rt; "piece {text}")?;
            }
            Err(error) => println!(rt; "{error}")?,
        }
    }
    Ok(())
}

// Fetches the file at the URL of this text, and tells its pieces.
fn tell_of<T: Transport>(rt: &HostRuntime, transport: &T, url: &str) -> Result<()> {
    let url = Url::parse(rt.alloc(), url)?;
    match transport.fetch(&url) {
        Ok(stream) => tell_all(rt, stream),
        Err(error) => {
            println!(rt; "{error}")?;
            Ok(())
        }
    }
}

/// Fetches the file at the URL of this text.
pub(crate) fn tell(rt: &HostRuntime, words: &[String]) -> Result<()> {
    tell_of(rt, &FilesystemTransport::new(rt.clone()?), word(words, 0))
}

/// Fetches the file at the URL of the second text by way of the folder at the first, from which nothing is taken where `anew` stands behind.
pub(crate) fn tell_kept(rt: &HostRuntime, words: &[String]) -> Result<()> {
    let folder = String::from_str(rt.alloc(), word(words, 0))?;
    let (within, rt_of) = (FilesystemTransport::new(rt.clone()?), rt.clone()?);
    let transport = match word(words, 2) {
        "anew" => CachingTransport::anew(rt_of, within, folder),
        _ => CachingTransport::new(rt_of, within, folder),
    };
    tell_of(rt, &transport, word(words, 1))
}
