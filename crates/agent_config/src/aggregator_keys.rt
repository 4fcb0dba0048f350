//! The keys of aggregators.
ghost use Rattle.std.specs.Prelude.{◌≡◌};
ghost use Rattle.agent_config.specs.Keys.{aggregator_key, basicstats_key, final_key};

use crate::plugin_keys::plugin_key;
use crate::shapes::{Shape, time_from};

/// The nanoseconds of a period where nothing is said: 30 seconds.
const USUAL_PERIOD: i64 = 30_000_000_000;

/// The nanoseconds of a delay where nothing is said: 100 milliseconds.
const USUAL_DELAY: i64 = 100_000_000;

/// The nanoseconds of a timeout where nothing is said: five minutes.
const USUAL_TIMEOUT: i64 = 300_000_000_000;

/// What a key takes that each aggregator has; None where not each has it.
pub(crate) fn aggregator_key(key: &str) -> Option<Shape>
    ensures { result ≡ aggregator_key key.now }
{
    match key {
        "period" => time_from(1, USUAL_PERIOD),
        "delay" => time_from(0, USUAL_DELAY),
        "grace" => time_from(0, 0),
        "drop_original" => Some(Shape::Truth(false)),
        _ => plugin_key(key),
    }
}

/// What a key of an aggregator of statistics takes; None where it isn't known.
pub(crate) fn basicstats_key(key: &str) -> Option<Shape>
    ensures { result ≡ basicstats_key key.now }
{
    match key {
        "stats" => Some(Shape::Statistics),
        _ => aggregator_key(key),
    }
}

/// What a key of an aggregator takes that gives last metrics; None where it isn't known.
pub(crate) fn final_key(key: &str) -> Option<Shape>
    ensures { result ≡ final_key key.now }
{
    match key {
        "series_timeout" => time_from(0, USUAL_TIMEOUT),
        _ => aggregator_key(key),
    }
}
