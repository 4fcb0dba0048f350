//! The keys of the root and of the table `agent`.
ghost use Rattle.std.specs.Prelude.{◌≡◌};
ghost use Rattle.agent_config.specs.Keys.{agent_key, agent_number_key, is_root_key, is_unused};

use crate::shapes::{Shape, UsualText, count_to, time_from};

/// The nanoseconds between two flushes where nothing is said.
const USUAL_INTERVAL: i64 = 10_000_000_000;

/// Is it a table of the root?
pub(crate) fn is_root_key(key: &str) -> bool
    ensures { result ≡ is_root_key key.now }
{
    matches!(
        key,
        "agent" | "global_tags" | "inputs" | "processors" | "aggregators" | "outputs"
    )
}

/// What a key of the table `agent` takes; None where it isn't known.
pub(crate) fn agent_key(key: &str) -> Option<Shape>
    ensures { result ≡ agent_key key.now }
{
    match key {
        "flush_interval" => time_from(1, USUAL_INTERVAL),
        "workers" => Some(Shape::Truth(true)),
        "skip_processors_after_aggregators" => Some(Shape::Truth(false)),
        "journal" => Some(Shape::Place(UsualText::Journal)),
        _ => {
            if is_unused(key) {
                return Some(Shape::Anything);
            }
            agent_number_key(key)
        }
    }
}

/// What a key of the table `agent` takes that is one of its numbers; None where it is none.
pub(crate) fn agent_number_key(key: &str) -> Option<Shape>
    ensures { result ≡ agent_number_key key.now }
{
    match key {
        "metric_batch_size" => count_to(10_000, 1000),
        "metric_buffer_limit" => count_to(10_000, 10_000),
        "gather_pieces" => count_to(10_000, 1000),
        "final_tries" => count_to(100, 3),
        _ => None,
    }
}

/// Has the key of the table `agent` no effect?
fn is_unused(key: &str) -> bool
    ensures { result ≡ is_unused key.now }
{
    matches!(
        key,
        "interval"
            | "collection_jitter"
            | "flush_jitter"
            | "round_interval"
            | "precision"
            | "hostname"
            | "omit_hostname"
            | "debug"
            | "quiet"
            | "logfile"
    )
}
