//! Instants as text.

ghost use Rattle.std.specs.Prelude.{◌≡◌, ◌↔◌, ◌<◌, ◌≤◌, ◌++◌, List, ℕ, ℤ, Ok, Some, None, IfOk, OnOk, string_bytes};
ghost use Rattle.tough_json.specs.Moment.{IsMoment, IsBeforeAll, IsShown, WritesMoment, decimals, moment_text};
ghost use Rattle.jiff_core.specs.Timestamp.{IsTimestampNanos};
ghost use Rattle.jiff_fmt.specs.Text.{pad2, date_text, places, time_text};
ghost use Rattle.jiff_fmt.specs.Temporal.{parse_timestamp};

use jiff::Timestamp;
use jiff::civil::{Date, Time};
use jiff::tz::Offset;
use std::alloc::{AllocError, Global};

// How many decimals the nanoseconds need.
fn decimals(nanoseconds: u32) -> Option<u8>
    ensures { result ≡ decimals nanoseconds }
{
    if nanoseconds == 0 {
        None
    } else if nanoseconds % 1_000_000 == 0 {
        Some(3)
    } else if nanoseconds % 1_000 == 0 {
        Some(6)
    } else {
        Some(9)
    }
}

// Two digits of a number below 100.
fn push_two(out: &mut String, number: u8) -> Result<(), AllocError>
    requires { number < 100 }
    ensures { OnOk result (string_bytes out.new ≡ string_bytes out.old ++ pad2 number) }
{
    out.push((b'0' + number / 10) as char)?;
    out.push((b'0' + number % 10) as char)
}

// The year, month and day.
fn push_date(out: &mut String, date: Date) -> Result<(), AllocError>
    requires { IsShown date.year }
    ensures { OnOk result (string_bytes out.new ≡ string_bytes out.old ++ date_text date) }
{
    let year = date.year() as u16;
    push_two(out, (year / 100) as u8)?;
    push_two(out, (year % 100) as u8)?;
    out.push('-')?;
    push_two(out, date.month() as u8)?;
    out.push('-')?;
    push_two(out, date.day() as u8)
}

// So many places of a fraction of nanoseconds.
fn push_places(out: &mut String, count: u8, nanoseconds: u32) -> Result<(), AllocError>
    requires few { count ≤ 9 }
    requires fraction { nanoseconds < 1_000_000_000 }
    ensures { OnOk result (string_bytes out.new
        ≡ string_bytes out.old ++ places count 1_000_000_000 nanoseconds) }
{
    let mut left = nanoseconds;
    let mut place = 1_000_000_000;
    for _ in 0..count {
        place /= 10;
        out.push((b'0' + (left / place) as u8) as char)?;
        left %= place;
    }
    Ok(())
}

// The hour, minute and second, and the decimals that are needed.
fn push_time(out: &mut String, time: Time) -> Result<(), AllocError>
    ensures { OnOk result (string_bytes out.new
        ≡ string_bytes out.old ++ time_text (decimals time.subsec_nanosecond) time) }
{
    push_two(out, time.hour() as u8)?;
    out.push(':')?;
    push_two(out, time.minute() as u8)?;
    out.push(':')?;
    push_two(out, time.second() as u8)?;
    let nanoseconds = time.subsec_nanosecond() as u32;
    match decimals(nanoseconds) {
        None => Ok(()),
        Some(count) => {
            out.push('.')?;
            push_places(out, count, nanoseconds)
        }
    }
}

/// Why an instant has no text.
#[derive(Debug, Drop, thiserror::Error)]
pub enum MomentError {
    /// Its year is before 0.
    #[error("the year is before 0")]
    Year,
    /// A request for memory was refused.
    #[error("out of memory")]
    Memory,
}

impl From<AllocError> for MomentError {
    ghost use Rattle.tough_json.specs.declared.moment.MomentError.TheVariants.{Memory};

    ghost from_gives = { λ _ e. e ≡ Memory };

    fn from(_: AllocError) -> MomentError {
        MomentError::Memory
    }
}

/// The text of an instant: RFC 3339 in UTC, with 0, 3, 6 or 9 decimals; `Year` where four digits don't show the year.
pub fn moment_text(alloc: Global, instant: Timestamp) -> Result<String, MomentError>
    ensures text { WritesMoment result (moment_text instant.nanosecond) }
    ensures back { IfOk result (λ s. parse_timestamp (string_bytes s) ≡ Ok instant.nanosecond) }
{
    let civil = Offset::UTC.to_datetime(instant);
    if civil.year() < 0 {
        return Err(MomentError::Year);
    }
    let mut out = String::new(alloc);
    push_date(&mut out, civil.date())?;
    out.push('T')?;
    push_time(&mut out, civil.time())?;
    out.push('Z')?;
    Ok(out)
}

/// The text of an instant is that of the date and time which a clock in UTC shows, and is read as that instant.
pub fn moment_laws()
    ensures shown { (z : ℤ) (text : List ℕ) → (moment_text z ≡ Some text) ↔ IsMoment z text }
    ensures before { (z : ℤ) → IsBeforeAll z → moment_text z ≡ None }
    ensures back { (z : ℤ) (text : List ℕ) → IsTimestampNanos z → moment_text z ≡ Some text
        → parse_timestamp text ≡ Ok z }
{}
