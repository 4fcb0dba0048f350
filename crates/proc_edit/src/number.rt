//! Values as numbers and as truth values.
ghost use Rattle.std.specs.Prelude.{◌≡◌};
ghost use Rattle.proc_edit.specs.Convert.{fixed_of, int_of, truth_of, truth_of_text, uint_of, whole_of};

use fixed_num::Fixed;
use metric::Value;

/// How many billionths one is.
const ONE: i128 = 1_000_000_000;

/// The number, without what is behind its point; a truth value is 1 or 0. None where a text spells none.
#[tactic(auto, unfolding(crate::specs::Convert::whole_of))]
fn whole_of(value: &Value) -> Option<i128>
    ensures { result ≡ whole_of value.now }
{
    match value {
        Value::Int(n) => Some(*n as i128),
        Value::Uint(n) => Some(*n as i128),
        Value::Fixed(n) => Some(n.billionths() / ONE),
        Value::Bool(true) => Some(1),
        Value::Bool(false) => Some(0),
        Value::Text(text) => {
            let number = Fixed::read(text.as_str().as_bytes()).ok()?;
            Some(number.billionths() / ONE)
        }
    }
}

/// The signed whole number; None where it is out of range, or there is none.
pub(crate) fn int_of(value: &Value) -> Option<i64>
    ensures { result ≡ int_of value.now }
{
    i64::try_from(whole_of(value)?).ok()
}

/// The unsigned whole number; None where it is out of range, or there is none.
pub(crate) fn uint_of(value: &Value) -> Option<u64>
    ensures { result ≡ uint_of value.now }
{
    u64::try_from(whole_of(value)?).ok()
}

/// The number with nine decimals; a truth value is 1 or 0. None where a text spells none.
pub(crate) fn fixed_of(value: &Value) -> Option<Fixed>
    ensures { result ≡ fixed_of value.now }
{
    match value {
        Value::Int(n) => Fixed::of_billionths(*n as i128 * ONE),
        Value::Uint(n) => Fixed::of_billionths(*n as i128 * ONE),
        Value::Fixed(n) => Some(*n),
        Value::Bool(true) => Fixed::of_billionths(ONE),
        Value::Bool(false) => Fixed::of_billionths(0),
        Value::Text(text) => Fixed::read(text.as_str().as_bytes()).ok(),
    }
}

/// The truth value for which a text stands.
#[tactic(auto, unfolding(crate::specs::Convert::truth_of_text))]
fn truth_of_text(text: &str) -> Option<bool>
    ensures { result ≡ truth_of_text text.now }
{
    match text {
        "1" | "t" | "T" | "true" | "TRUE" | "True" => Some(true),
        "0" | "f" | "F" | "false" | "FALSE" | "False" => Some(false),
        _ => None,
    }
}

/// The truth value: of a number whether it isn't 0. None where a text stands for none.
pub(crate) fn truth_of(value: &Value) -> Option<bool>
    ensures { result ≡ truth_of value.now }
{
    match value {
        Value::Int(n) => Some(*n != 0),
        Value::Uint(n) => Some(*n != 0),
        Value::Fixed(n) => Some(n.billionths() != 0),
        Value::Bool(b) => Some(*b),
        Value::Text(text) => truth_of_text(text.as_str()),
    }
}
