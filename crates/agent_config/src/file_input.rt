//! Inputs that read a file.
ghost use Rattle.std.specs.Prelude.{◌≡◌};
ghost use Rattle.agent_config.specs.Keys.{file_input_key};

use crate::plugin_keys::read_format_key;
use crate::shapes::Shape;

/// What a key takes; None where it isn't known.
pub(crate) fn file_input_key(key: &str) -> Option<Shape>
    ensures { result ≡ file_input_key key.now }
{
    match key {
        "files" => Some(Shape::Files),
        _ => read_format_key(key),
    }
}
