//! The keys that plugins share.
ghost use Rattle.std.specs.Prelude.{◌≡◌};
ghost use Rattle.agent_config.specs.Keys.{input_key, plugin_key, read_format_key};

use crate::shapes::{Names, Shape, UsualText, count_to};
use crate::usual::USUAL_UNDELIVERED;

/// What a key takes that each plugin has; None where not each has it.
pub(crate) fn plugin_key(key: &str) -> Option<Shape>
    ensures { result ≡ plugin_key key.now }
{
    match key {
        "alias" => Some(Shape::Anything),
        "namepass" | "namedrop" | "taginclude" | "tagexclude" => Some(Shape::Globs),
        "fieldinclude" | "fieldexclude" | "fieldpass" | "fielddrop" => Some(Shape::Globs),
        "tagpass" | "tagdrop" => Some(Shape::TagGlobs),
        _ => None,
    }
}

/// What a key takes that each input has; None where not each has it.
pub(crate) fn input_key(key: &str) -> Option<Shape>
    ensures { result ≡ input_key key.now }
{
    match key {
        "tracked" => Some(Shape::Truth(false)),
        "max_undelivered_messages" => count_to(100_000, USUAL_UNDELIVERED),
        _ => plugin_key(key),
    }
}

/// What a key takes that says how an input reads its format, or that each input has; None where it is neither.
pub(crate) fn read_format_key(key: &str) -> Option<Shape>
    ensures { result ≡ read_format_key key.now }
{
    match key {
        "data_format" => Some(Shape::OneOf(Names::ReadFormats)),
        "templates" => Some(Shape::Templates),
        "separator" => Some(Shape::AnyText(UsualText::Point)),
        "type_tag" | "pass_out_of_range" => Some(Shape::Truth(false)),
        _ => input_key(key),
    }
}
