//! Signatures by Ed25519.

use anyhow::Error;
use std::alloc::Global;
use std::rt::Runtime;
use std::time::{Duration, Instant};
use tough_ed25519::{key_of, sign, verify};

const MESSAGE: &[u8] = b"a message of a few words";

// The time of each, in nanoseconds.
fn each(time: Duration, times: u32) -> u128 {
    time.as_nanos() / times.max(1) as u128
}

/// Prints how long it takes to verify a signature, and to make one, on the average of so many thousand times.
pub fn run(rt: &impl Runtime<A = Global>, thousands: u32) -> Result<(), Error> {
    let times = thousands.saturating_mul(1000);
    let secret = [7u8; 32];
    let key = key_of(&secret);
    let signature = sign(&secret, MESSAGE);
    let (mut verified, mut signed) = (0u32, 0u32);
    let began = Instant::now(rt)?;
    for _ in 0..times {
        if verify(&key, MESSAGE, &signature) {
            verified = verified.saturating_add(1);
        }
    }
    let verifying = each(began.elapsed(rt)?, times);
    let began = Instant::now(rt)?;
    for _ in 0..times {
        if sign(&secret, MESSAGE) == signature {
            signed = signed.saturating_add(1);
        }
    }
    let signing = each(began.elapsed(rt)?, times);
    println!(rt; "Ed25519, a message of {} bytes", MESSAGE.len())?;
    println!(rt; "  verified {verified} times: {verifying} ns each")?;
    println!(rt; "  signed {signed} times: {signing} ns each")?;
    Ok(())
}
