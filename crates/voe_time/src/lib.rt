//! Times as the texts of packets and messages write them: ISO 8601, as VOEvent 2.0 takes it.
//!
//! The calendar is `jiff`'s, which this crate asks and does not write again.
#![tactic(auto)]

pub mod laws;

ghost use Rattle.std.specs.Prelude.{◌≡◌, ◌≤◌, IfOk};
ghost use Rattle.std.specs.Io.BufRead.{strip_last};
ghost use Rattle.voe_time.specs.Stamp.{IsStamp, is_time_text};

use jiff::Timestamp;
use jiff::civil::DateTime;
use jiff::tz::Offset;
use std::alloc::Global;
use voe_values::{NoMemory, Text};

/// The moment, in milliseconds since 1970 in UTC, as `YYYY-MM-DDTHH:MM:SSZ`. Its milliseconds are dropped.
pub fn stamp(alloc: Global, moment: u64) -> Result<Text, NoMemory>
    requires { moment ≤ 4102444799999 }
    ensures { IfOk result (λ text. IsStamp moment text) }
{
    let second = (moment / 1000) as i64;
    let Ok(instant) = Timestamp::from_second(second) else {
        unreachable!()
    };
    let civil = Offset::UTC.to_datetime(instant);
    let text = format!(in alloc; "{civil}Z")?;
    Ok(Text::from_string(text))
}

/// Whether the text, less one `Z` at its end, is a civil date, or a civil date and time, as `jiff` reads it. It takes
/// no memory.
#[tactic(auto, unfolding(crate::specs::Stamp::is_time_text))]
pub fn is_time(text: &str) -> bool
    ensures { result ≡ is_time_text text.now }
{
    without_zone(text).parse::<DateTime>().is_ok()
}

fn without_zone(text: &str) -> &str
    ensures { result.now ≡ strip_last 90 text.now }
{
    match text.strip_suffix('Z') {
        Some(front) => front,
        None => text,
    }
}
