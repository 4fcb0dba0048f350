//! The keys of processors.
ghost use Rattle.std.specs.Prelude.{◌≡◌};
ghost use Rattle.agent_config.specs.Keys.{converter_key, dedup_key, processor_key, regex_key, rename_key};

use crate::inner::Inner;
use crate::plugin_keys::plugin_key;
use crate::shapes::{Shape, time_from};

/// The nanoseconds within which a metric is repeated where nothing is said: ten minutes.
const USUAL_DEDUP_INTERVAL: i64 = 600_000_000_000;

/// What a key takes that each processor has; None where not each has it.
fn processor_key(key: &str) -> Option<Shape>
    ensures { result ≡ processor_key key.now }
{
    match key {
        "order" => Some(Shape::WholeNumber),
        _ => plugin_key(key),
    }
}

/// What a key of a processor takes that converts; None where it isn't known.
pub(crate) fn converter_key(key: &str) -> Option<Shape>
    ensures { result ≡ converter_key key.now }
{
    match key {
        "fields" => Some(Shape::Table(Inner::FieldTargets)),
        "tags" => Some(Shape::Table(Inner::TagTargets)),
        _ => processor_key(key),
    }
}

/// What a key of a processor takes that removes what is repeated; None where it isn't known.
pub(crate) fn dedup_key(key: &str) -> Option<Shape>
    ensures { result ≡ dedup_key key.now }
{
    match key {
        "dedup_interval" => time_from(0, USUAL_DEDUP_INTERVAL),
        _ => processor_key(key),
    }
}

/// What a key of a processor takes that rewrites by patterns; None where it isn't known.
pub(crate) fn regex_key(key: &str) -> Option<Shape>
    ensures { result ≡ regex_key key.now }
{
    match key {
        "fields" | "tags" => Some(Shape::Tables(Inner::Rewriting)),
        _ => processor_key(key),
    }
}

/// What a key of a processor takes that renames; None where it isn't known.
pub(crate) fn rename_key(key: &str) -> Option<Shape>
    ensures { result ≡ rename_key key.now }
{
    match key {
        "replace" => Some(Shape::Tables(Inner::Replacement)),
        _ => processor_key(key),
    }
}
