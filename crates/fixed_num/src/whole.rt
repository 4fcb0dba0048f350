//! Whole numbers, read.
ghost use Rattle.std.specs.Prelude.{◌≡◌, ◌^◌, ◌<◌, ◌==◌, slice_index, SomeIff};
ghost use Rattle.std.specs.Str.Parse.{AllDigits, digits_value};
ghost use Rattle.fixed_num.specs.Whole.{as_int, numeral_read_as, int_read_as, uint_read_as};

use crate::fixed::NumFault;
use crate::grammar::{digits_at, sign_at};
use crate::plain::plain_numeral;
use crate::value::value_of_digits;

/// The number that one digit or more spell.
#[tactic(auto, unfolding(crate::specs::Whole::numeral_read_as))]
fn read_numeral(digits: &[u8]) -> Result<u64, NumFault>
    ensures { result ≡ numeral_read_as digits.now }
{
    if let Some(number) = plain_numeral(digits) {
        return Ok(number);
    }
    if digits.is_empty() || digits_at(digits) != digits.len() {
        return Err(NumFault::NotANumber);
    }
    value_of_digits(digits).ok_or(NumFault::NumberRange)
}

/// Whether a minus stands first.
fn is_negative(text: &[u8]) -> bool
    ensures { result ≡ (slice_index text.now 0 == 45) }
{
    matches!(text, [b'-', ..])
}

/// The number or its negative; `NumberRange` where it is no `i64`.
fn signed(negative: bool, number: u64) -> Result<i64, NumFault>
    ensures { result ≡ as_int negative number }
{
    let signed = if negative {
        0_i64.checked_sub_unsigned(number)
    } else {
        0_i64.checked_add_unsigned(number)
    };
    signed.ok_or(NumFault::NumberRange)
}

/// The number that a whole number text spells: an optional sign, and at least one digit.
/// `NotANumber` where the text is none, `NumberRange` where the number is no `i64`.
pub fn read_int(text: &[u8]) -> Result<i64, NumFault>
    ensures { result ≡ int_read_as text.now }
{
    let negative = is_negative(text);
    let number = read_numeral(&text[sign_at(text)..])?;
    signed(negative, number)
}

/// The number that a whole number text without a minus spells: an optional plus, and at least one digit.
/// `NotANumber` where the text is none, `NumberRange` where the number is no `u64`.
pub fn read_uint(text: &[u8]) -> Result<u64, NumFault>
    ensures { result ≡ uint_read_as text.now }
{
    if let [b'-', ..] = text {
        return Err(NumFault::NotANumber);
    }
    read_numeral(&text[sign_at(text)..])
}
