//! Outputs that write a file.
ghost use Rattle.std.specs.Prelude.{◌≡◌};
ghost use Rattle.agent_config.specs.Keys.{file_output_key};

use crate::agent_keys::agent_number_key;
use crate::plugin_keys::plugin_key;
use crate::shapes::{Names, Shape};

/// What a key takes; None where it isn't known.
pub(crate) fn file_output_key(key: &str) -> Option<Shape>
    ensures { result ≡ file_output_key key.now }
{
    match key {
        "files" => Some(Shape::Files),
        "data_format" => Some(Shape::OneOf(Names::WrittenFormats)),
        "metric_batch_size" | "metric_buffer_limit" => agent_number_key(key),
        _ => plugin_key(key),
    }
}
