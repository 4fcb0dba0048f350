//! Times, as texts and as whole numbers of seconds spell them.
ghost use Rattle.std.specs.Prelude.{◌≡◌, IfOk, option_map, pos};
ghost use Rattle.toml.specs.View.{view};
ghost use Rattle.agent_config.specs.Durations.{time_of_pairs, time_of_seconds, time_of_text};
ghost use Rattle.agent_config.specs.Rows.{time_in};

use crate::decimals::pair_of;
use crate::sums::{add, time, zero};
use fixed_num::OutOfMemory;
use std::alloc::Global;
use toml::Value;

/// The nanoseconds of a second.
const SECOND: i64 = 1_000_000_000;

/// The most seconds whose nanoseconds fit.
const MOST_SECONDS: i64 = 9_223_372_036;

/// The time, in nanoseconds, that a whole number of seconds, or a text, gives.
pub(crate) fn time_in(alloc: Global, value: &Value) -> Result<Option<i64>, OutOfMemory>
    ensures { IfOk result (λ time. time ≡ time_in (view value.now)) }
{
    if let Some(seconds) = value.as_integer() {
        return Ok(time_of_seconds(seconds));
    }
    match value.as_str() {
        Some(text) => time_of_text(alloc, text),
        None => Ok(None),
    }
}

/// The nanoseconds of seconds, where they are none below 0 and fit.
fn time_of_seconds(seconds: i64) -> Option<i64>
    ensures { result ≡ option_map pos (time_of_seconds seconds) }
{
    if 0 <= seconds && seconds <= MOST_SECONDS {
        Some(seconds * SECOND)
    } else {
        None
    }
}

/// The nanoseconds that a text spells, which isn't empty, where they are whole and fit.
fn time_of_text(alloc: Global, text: &str) -> Result<Option<i64>, OutOfMemory>
    ensures { IfOk result (λ time. time ≡ option_map pos (time_of_text text.now)) }
{
    if text.is_empty() {
        return Ok(None);
    }
    time_of_pairs(alloc, text)
}

/// The nanoseconds that the pairs of a text spell, where they are whole and fit.
fn time_of_pairs(alloc: Global, text: &str) -> Result<Option<i64>, OutOfMemory>
    ensures { IfOk result (λ time. time ≡ option_map pos (time_of_pairs text.now)) }
{
    let mut rest = text.as_bytes();
    let mut sum = zero(alloc, rest.len())?;
    while !rest.is_empty() {
        let Some(pair) = pair_of(rest) else {
            return Ok(None);
        };
        if !add(&mut sum, &pair) {
            return Ok(None);
        }
        rest = pair.behind;
    }
    Ok(time(&sum))
}
