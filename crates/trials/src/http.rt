//! A server of plain HTTP for the files of a folder.

use crate::program::run;
use anyhow::Result;
use serde_json::Value;
use std::alloc::{AllocGlobal, Global};
use std::fs::File;
use std::io::{Read, Write};
use std::net::{Ipv4Addr, Net, SocketAddr, TcpListener, TcpStream};
use std::random::RandomSource;
use std::rt::{Clock, Files};
use std::sync::Wait;
use std::thread::Threads;
use std::{fs, thread};

// The most connections of a run.
const MOST: usize = 256;

/// A request's head.
pub(crate) fn read_head(alloc: Global, socket: &mut TcpStream) -> Result<String> {
    let mut head = Vec::new(alloc);
    let mut buffer = [0u8; 1024];
    for _ in 0..64 {
        let len = socket.read(&mut buffer)?;
        head.extend_from_slice(&buffer[..len])?;
        if len == 0 || head.as_slice().ends_with(b"\r\n\r\n") {
            break;
        }
    }
    Ok(String::from_utf8(head)?)
}

// The path that a request asks for.
fn path_of(head: &str) -> &str {
    match head.strip_prefix("GET ") {
        Some(rest) => rest.split_once(' ').map_or("", |(path, _)| path),
        None => "",
    }
}

// Answers by the file of this path, or that there is none.
fn answer(rt: &HostRuntime, socket: &mut TcpStream, folder: &str, path: &str) -> Result<()> {
    let alloc = rt.alloc();
    match fs::read(rt, format!(in alloc; "{folder}{path}")?.as_str()) {
        Ok(bytes) => {
            let head = format!(in alloc;
                "HTTP/1.1 200 OK\r\ncontent-length: {}\r\n\r\n",
                bytes.len()
            )?;
            socket.write_all(head.as_bytes())?;
            socket.write_all(bytes.as_slice())?;
        }
        Err(_) => {
            socket.write_all(b"HTTP/1.1 404 Not Found\r\ncontent-length: 0\r\n\r\n")?;
        }
    }
    Ok(())
}

// Answers connections until one asks for nothing, and tells what was asked for.
fn serve(rt: &HostRuntime, listener: &TcpListener, folder: &str) -> Result<String> {
    let mut asked = String::new(rt.alloc());
    for _ in 0..MOST {
        let (mut socket, _) = listener.accept()?;
        let head = read_head(rt.alloc(), &mut socket)?;
        let path = path_of(head.as_str());
        if path.is_empty() {
            break;
        }
        asked.push_str(" ")?;
        asked.push_str(path)?;
        answer(rt, &mut socket, folder, path)?;
    }
    Ok(asked)
}

// Runs the program on the step's words, and then tells the server to end.
fn run_and_end<R>(
    rt: &HostRuntime,
    waiting: &R,
    folder: &str,
    step: &Value,
    addr: SocketAddr,
) -> Result<String>
where
    R: Files<File = File> + Net + Wait + Clock + RandomSource + AllocGlobal + Clone + Drop,
{
    let host = format!(in rt.alloc(); "127.0.0.1:{}", addr.port())?;
    let told = run(waiting, folder, host.as_str(), step);
    TcpStream::connect(rt, addr)?.write_all(b"END\r\n\r\n")?;
    told
}

/// Runs the program on the words of the step beside a server of the folder's files, which they call `HOST`, and tells besides which paths
/// it asked for.
pub(crate) fn run_beside_server<R>(
    rt: &HostRuntime,
    waiting: &R,
    folder: &str,
    step: &Value,
) -> Result<String>
where
    R: Files<File = File>
        + Net
        + Threads
        + Wait
        + Clock
        + RandomSource
        + AllocGlobal
        + Clone
        + Drop,
{
    let listener = TcpListener::bind(rt, SocketAddr::from((Ipv4Addr::LOCALHOST, 0)))?;
    let addr = listener.local_addr()?;
    let listener = &listener;
    let (asked, told) = thread::join(
        waiting,
        move || serve(rt, listener, folder),
        move || run_and_end(rt, waiting, folder, step, addr),
    );
    let (told, asked) = (told?, asked?);
    Ok(format!(in rt.alloc(); "{told}asked:{asked}")?)
}
