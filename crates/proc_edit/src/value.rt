//! Values that are converted.
ghost use Rattle.std.specs.Prelude.{◌≡◌, false, IfOk};
ghost use Rattle.proc_edit.specs.Convert.{converted, text_of};
ghost use Rattle.metric.specs.Numbers.{is_text, number_text};

use crate::Target;
use crate::number::{fixed_of, int_of, truth_of, uint_of};
use fixed_num::OutOfMemory;
use metric::{Text, Value};
use std::alloc::Global;
use std::str;
use text_buffer::TextBuffer;

/// The text of a value: a text as it stands, a number in its shortest decimal digits, `true` or `false`.
pub(crate) fn text_of(alloc: Global, value: &Value) -> Result<Text, OutOfMemory>
    ensures { IfOk result (λ text. text ≡ text_of value.now) }
{
    match value {
        Value::Text(text) => text.copy(),
        Value::Bool(true) => Text::of(alloc, "true"),
        Value::Bool(false) => Text::of(alloc, "false"),
        Value::Int(_) | Value::Uint(_) | Value::Fixed(_) => number_text(alloc, value),
    }
}

/// The digits of a number.
fn number_text(alloc: Global, number: &Value) -> Result<Text, OutOfMemory>
    requires { is_text number.now ≡ false }
    ensures { IfOk result (λ text. text ≡ number_text number.now) }
{
    number.shows_value();
    let mut digits = TextBuffer::new(alloc);
    number.append_number(alloc, &mut digits)?;
    match str::from_utf8(digits.as_slice()) {
        Ok(text) => Text::of(alloc, text),
        Err(_) => unreachable!(),
    }
}

/// The value as another one; None where it doesn't convert, or a tag is wanted.
pub(crate) fn converted(
    alloc: Global,
    target: Target,
    value: &Value,
) -> Result<Option<Value>, OutOfMemory>
    ensures { IfOk result (λ answer. answer ≡ converted target value.now) }
{
    Ok(match target {
        Target::Tag => None,
        Target::Text => Some(Value::Text(text_of(alloc, value)?)),
        Target::Int => int_of(value).map(Value::Int),
        Target::Uint => uint_of(value).map(Value::Uint),
        Target::Bool => truth_of(value).map(Value::Bool),
        Target::Fixed => fixed_of(value).map(Value::Fixed),
    })
}
