//! What the program asks of the system.

use std::alloc::AllocGlobal;
use std::fs::File;
use std::net::Net;
use std::random::RandomSource;
use std::rt;
use std::sync::Wait;

/// The runtime: files, sockets, the clock, randomness, memory and standard output.
pub(crate) trait Host: rt::Files<File = File>
    + Net
    + Wait
    + rt::Clock
    + RandomSource
    + AllocGlobal
    + Print
    + Clone
    + Drop {}

impl<R> Host for R
where
    R: rt::Files<File = File>
        + Net
        + Wait
        + rt::Clock
        + RandomSource
        + AllocGlobal
        + Print
        + Clone
        + Drop,
{}
