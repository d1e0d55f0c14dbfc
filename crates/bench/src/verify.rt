//! Reading a timestamp, and verifying it.

use anyhow::Error;
use std::alloc::Global;
use std::num::NonZeroU64;
use std::rt::Runtime;
use std::time::Instant;
use tough::schema::{DemoSign, DemoVerify, Root, Signed, Timestamp};
use tough_json::Form;

const PUBLIC: &str = "3b6a27bcceb6a42d62a3a8d02a6f0d73653215771de243a63ac048a18b59da29";

/// Prints how long it takes to read a signed timestamp, and to verify it under its root, on the average of so many
/// thousand times.
pub fn run(rt: &impl Runtime<A = Global>, thousands: u32) -> Result<(), Error> {
    let alloc = rt.alloc();
    let signer = DemoSign {
        key: tough_demo::ed25519(alloc, PUBLIC)?,
    };
    let root = tough_demo::root(alloc, NonZeroU64::MIN, tough_demo::ed25519(alloc, PUBLIC)?)?;
    let timestamp = tough_demo::timestamp(alloc, NonZeroU64::MIN, NonZeroU64::MIN)?;
    let timestamp = tough_demo::sign(alloc, timestamp, &signer)?;
    measure(rt, &root, &timestamp, thousands)
}

fn measure(
    rt: &impl Runtime<A = Global>,
    root: &Root,
    timestamp: &Signed<Timestamp>,
    thousands: u32,
) -> Result<(), Error> {
    let times = thousands.saturating_mul(1000);
    let Ok(bytes) = timestamp.text(rt.alloc(), Form::Compact) else {
        println!(rt; "the timestamp can't be written")?;
        return Ok(());
    };
    let began = Instant::now(rt)?;
    let mut read = 0u32;
    for _ in 0..times {
        if Signed::<Timestamp>::read(rt.alloc(), bytes.as_slice()).is_ok() {
            read = read.saturating_add(1);
        }
    }
    let reading = began.elapsed(rt)?;
    let began = Instant::now(rt)?;
    let mut verified = 0u32;
    for _ in 0..times {
        if root.verify_role(rt.alloc(), timestamp, &DemoVerify).is_ok() {
            verified = verified.saturating_add(1);
        }
    }
    let verifying = began.elapsed(rt)?;
    let each = times.max(1) as u128;
    println!(rt; "a timestamp of {} bytes", bytes.len())?;
    println!(rt;
        "  read {read} times: {} ns each",
        reading.as_nanos() / each
    )?;
    println!(rt;
        "  verified {verified} times: {} ns each",
        verifying.as_nanos() / each
    )?;
    Ok(())
}
