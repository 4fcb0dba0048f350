//! The number and the time of a sample.
ghost use Rattle.std.specs.Prelude.{◌≡◌, Some, option_map};
ghost use Rattle.std.specs.Str.{bytes_eq};
ghost use Rattle.text_parts.specs.Chain.{Gives};
ghost use Rattle.openmetrics_text.specs.Sample.{is_no_decimal, lower, number_of, is_moment, time_at, time_of};

use crate::fault::{ExpositionKind, fault};
use fixed_num::{Fixed, Moment, NumFault};
use text_parts::ReadError;

/// What the text of a number says.
#[derive(Clone, Copy, Debug, PartialEq, Eq)]
pub(crate) enum Number {
    /// A decimal in the range of numbers.
    Decimal(Fixed),
    /// An infinity, or NaN.
    NoDecimal,
    /// A decimal that isn't in the range of numbers.
    OutOfRange,
}

/// What the text of a time says.
#[derive(Clone, Copy, Debug, PartialEq, Eq)]
pub(crate) enum Time {
    /// None is written.
    Unwritten,
    /// The time: nanoseconds since 1970.
    At(Moment),
    /// A decimal that isn't in the range of times.
    OutOfRange,
}

/// Whether a text is a word of small letters, but for the case of its letters.
fn is_word(text: &[u8], word: &[u8]) -> bool
    requires { lower word.now ≡ word.now }
    ensures { result ≡ bytes_eq (lower text.now) word.now }
{
    text.eq_ignore_ascii_case(word)
}

/// Whether a text is an infinity or NaN.
fn is_no_decimal(text: &[u8]) -> bool
    ensures { result ≡ is_no_decimal (lower text.now) }
{
    is_word(text, b"nan")
        || is_word(text, b"inf")
        || is_word(text, b"+inf")
        || is_word(text, b"-inf")
        || is_word(text, b"infinity")
        || is_word(text, b"+infinity")
        || is_word(text, b"-infinity")
}

/// The number that a text says.
#[tactic(auto, unfolding(crate::specs::Sample::number_of))]
pub(crate) fn number_of(text: &[u8]) -> Result<Number, ReadError<ExpositionKind>>
    ensures { Gives (λ x. x) result (number_of text.now) }
{
    match Fixed::read(text) {
        Ok(number) => Ok(Number::Decimal(number)),
        Err(NumFault::NumberRange) => Ok(Number::OutOfRange),
        Err(NumFault::NotANumber) => {
            if is_no_decimal(text) {
                return Ok(Number::NoDecimal);
            }
            Err(fault(ExpositionKind::BadNumber))
        }
    }
}

/// Whether nanoseconds are a moment.
fn is_moment(nanoseconds: i128) -> bool
    ensures { result ≡ is_moment nanoseconds }
{
    i64::MIN as i128 <= nanoseconds && nanoseconds <= i64::MAX as i128
}

/// The time of so many nanoseconds.
fn time_at(nanoseconds: i128) -> Time
    ensures { result ≡ time_at nanoseconds }
{
    if is_moment(nanoseconds) {
        return Time::At(nanoseconds as i64);
    }
    Time::OutOfRange
}

/// The time that a text says, which counts seconds.
#[tactic(auto, unfolding(crate::specs::Sample::time_of))]
fn read_time(text: &[u8]) -> Result<Time, ReadError<ExpositionKind>>
    ensures { Gives (λ x. x) result (time_of (Some text.now)) }
{
    match Fixed::read(text) {
        Ok(number) => Ok(time_at(number.billionths())),
        Err(NumFault::NumberRange) => Ok(Time::OutOfRange),
        Err(NumFault::NotANumber) => Err(fault(ExpositionKind::BadTime)),
    }
}

/// The time of a sample.
#[tactic(auto, unfolding(crate::specs::Sample::time_of))]
pub(crate) fn time_of(text: Option<&str>) -> Result<Time, ReadError<ExpositionKind>>
    ensures { Gives (λ x. x) result (time_of (option_map (λ text. text.now) text.entry)) }
{
    match text {
        Some(text) => read_time(text.as_bytes()),
        None => Ok(Time::Unwritten),
    }
}
