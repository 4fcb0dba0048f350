//! How many billionths a decimal is, rounded half to even.
ghost use Rattle.std.specs.Prelude.{◌≡◌, ℕ, ◌+◌, ◌-◌, ◌*◌, ◌^◌, ◌<◌, ◌≤◌, ◌++◌, List, length, take, drop};
ghost use Rattle.std.specs.Prelude.{min, IfOk, IfSome, SomeIff, IsTrue, ◌↔◌, MatchBool, if◌then◌else◌};
ghost use Rattle.std.specs.Str.Parse.{digits_value_after, digits_value, AllDigits};
ghost use Rattle.fixed_num.specs.Rounded.{rounded, AgreesBelow};
ghost use Rattle.fixed_num.specs.Decimal.{billionths, IsDigital};
ghost use Rattle.fixed_num.specs.View.{decimal};

use crate::fixed::LIMIT;
use crate::grammar::Parts;
use crate::half_even::rounded_of;

/// Above each number that is in range, and above each length of a text.
const CAP: u128 = 1_000_000_000_000_000_000_000_000_000_000;

/// The number that the digits spell behind those of a number, and the cap where it is more.
fn capped(start: u128, digits: &[u8]) -> u128
    requires { AllDigits 10 digits.now }
    ensures value { (n : ℕ) → start ≡ min n CAP → result ≡ min (digits_value_after 10 n digits.now) CAP }
    ensures bound { result ≤ CAP }
{
    let mut value = start.min(CAP);
    for b in digits {
        value = (value * 10 + (b - b'0') as u128).min(CAP);
    }
    value
}

/// The number with zeros behind it, and the cap where it is more.
fn grown(start: u128, zeros: u128) -> u128
    ensures { (n : ℕ) → start ≡ min n CAP → result ≡ min (n * 10 ^ zeros) CAP }
{
    let mut value = start.min(CAP);
    for _zero in 0..zeros.min(31) {
        value = (value * 10).min(CAP);
    }
    value
}

/// Whether the digits spell 0.
fn is_zero(digits: &[u8]) -> bool
    requires { AllDigits 10 digits.now }
    ensures { MatchBool result (digits_value 10 digits.now ≡ 0) (0 < digits_value 10 digits.now) }
{
    for b in digits {
        if *b != b'0' {
            return false;
        }
    }
    true
}

/// A twentieth of twice the number, a mark of what is left behind it counted, rounded half to even.
#[tactic(auto, unfolding(crate::specs::Rounded::rounded))]
fn nearest(value: u128, exact: bool) -> u128
    requires { value ≤ CAP }
    ensures { result ≡ rounded (2 * value + (if exact then 0 else 1)) 20 }
{
    let doubled = if exact { 2 * value } else { 2 * value + 1 };
    rounded_of(20, doubled / 20, doubled % 20)
}

/// The number of the first digits, and whether the others spell 0.
fn kept_of(whole: &[u8], fraction: &[u8], kept: u128) -> (u128, bool)
    requires digits { AllDigits 10 whole.now × AllDigits 10 fraction.now }
    requires within { kept ≤ length whole.now + length fraction.now }
    ensures value { result.0 ≡ min (digits_value 10 (take kept (whole.now ++ fraction.now))) CAP }
    ensures rest { let rest = digits_value 10 (drop kept (whole.now ++ fraction.now)) in
        MatchBool result.1 (rest ≡ 0) (0 < rest) }
{
    let whole_len = whole.len() as u128;
    if kept <= whole_len {
        let (head, tail) = whole.split_at(kept as usize);
        let value = capped(0, head);
        let exact = is_zero(tail) && is_zero(fraction);
        (value, exact)
    } else {
        let (head, tail) = fraction.split_at((kept - whole_len) as usize);
        let value = capped(capped(0, whole), head);
        (value, is_zero(tail))
    }
}

/// The number of the digits divided by a power of ten, where it is in range.
fn shrunk(whole: &[u8], fraction: &[u8], cut: u128) -> u128
    requires digits { AllDigits 10 whole.now × AllDigits 10 fraction.now }
    requires some { 0 < cut }
    ensures { AgreesBelow LIMIT (rounded (digits_value 10 (whole.now ++ fraction.now)) (10 ^ cut)) result }
{
    let len = whole.len() as u128 + fraction.len() as u128;
    if len < cut {
        return 0;
    }
    let (value, exact) = kept_of(whole, fraction, len - cut + 1);
    nearest(value, exact)
}

/// The number of the digits, times one power of ten and divided by another, where it is in range.
fn spelled(whole: &[u8], fraction: &[u8], up: u128, down: u128) -> u128
    requires { AllDigits 10 whole.now × AllDigits 10 fraction.now }
    ensures { AgreesBelow LIMIT (rounded (digits_value 10 (whole.now ++ fraction.now) * 10 ^ up) (10 ^ down))
        result }
{
    if down <= up {
        grown(capped(capped(0, whole), fraction), up - down)
    } else {
        shrunk(whole, fraction, down - up)
    }
}

/// How many billionths the parts spell, where that is in range.
#[tactic(auto, unfolding(crate::specs::Decimal::billionths))]
fn value_of(parts: &Parts) -> u128
    requires { IsDigital (decimal parts.now) }
    ensures { AgreesBelow LIMIT (billionths (decimal parts.now)) result }
{
    let power = capped(0, parts.exponent);
    let places = parts.fraction.len() as u128;
    if parts.shrinks {
        spelled(parts.whole, parts.fraction, 9, places + power)
    } else {
        spelled(parts.whole, parts.fraction, 9 + power, places)
    }
}

/// The number that the digits spell behind those of a number; None where it is 2^64 or more.
fn value_after(start: u64, digits: &[u8]) -> Option<u64>
    requires { AllDigits 10 digits.now }
    ensures { let value = digits_value_after 10 start digits.now in SomeIff result (value < 2 ^ 64) value }
{
    let mut value = start;
    for b in digits {
        value = value.checked_mul(10)?.checked_add((b - b'0') as u64)?;
    }
    Some(value)
}

/// The number that the digits spell behind those of a number, where it is below 2^64.
fn fitting_after(start: u64, digits: &[u8]) -> u64
    requires digits { AllDigits 10 digits.now }
    requires fits { digits_value_after 10 start digits.now < 2 ^ 64 }
    ensures { result ≡ digits_value_after 10 start digits.now }
{
    let mut value = start;
    for b in digits {
        value = value * 10 + (b - b'0') as u64;
    }
    value
}

/// So many digits always spell a number below 2^64.
const FITTING: usize = 19;

/// The number that the digits spell; None where it is 2^64 or more.
pub fn value_of_digits(digits: &[u8]) -> Option<u64>
    requires { AllDigits 10 digits.now }
    ensures { let value = digits_value 10 digits.now in SomeIff result (value < 2 ^ 64) value }
{
    if digits.len() <= FITTING {
        return Some(fitting_after(0, digits));
    }
    value_after(0, digits)
}

/// The number that the digits spell with others behind them, where it is below 2^64.
fn value_of_both(front: &[u8], back: &[u8]) -> Option<u64>
    requires { AllDigits 10 front.now × AllDigits 10 back.now }
    ensures { IfSome result (λ value. value ≡ digits_value 10 (front.now ++ back.now)) }
{
    if front.len() <= FITTING && back.len() <= FITTING - front.len() {
        return Some(fitting_after(fitting_after(0, front), back));
    }
    let first = value_after(0, front)?;
    let number = value_after(first, back)?;
    Some(number)
}

/// The powers of ten that are below 2^63.
static POWERS: [u64; 19] = [
    1,
    10,
    100,
    1_000,
    10_000,
    100_000,
    1_000_000,
    10_000_000,
    100_000_000,
    1_000_000_000,
    10_000_000_000,
    100_000_000_000,
    1_000_000_000_000,
    10_000_000_000_000,
    100_000_000_000_000,
    1_000_000_000_000_000,
    10_000_000_000_000_000,
    100_000_000_000_000_000,
    1_000_000_000_000_000_000,
];

/// A power of ten.
pub(crate) fn power_of_ten(exponent: usize) -> u64
    requires { exponent ≤ 18 }
    ensures { result ≡ 10 ^ exponent }
{
    POWERS[exponent]
}

/// A quotient, rounded half to even.
#[tactic(auto, unfolding(crate::specs::Rounded::rounded))]
fn nearest_quotient(number: u64, divisor: u64) -> u128
    requires { (2 ≤ divisor) × (divisor < 2 ^ 63) }
    ensures { result ≡ rounded number divisor }
{
    let floor = number / divisor;
    let left = number % divisor;
    rounded_of(u128::from(divisor), u128::from(floor), u128::from(left))
}

/// How many billionths the digits spell, all of whose number fits 64 bits, with so many of them behind the
/// point.
fn scaled(number: u64, places: usize) -> u128
    requires { places ≤ 27 }
    ensures { result ≡ rounded (number * 10 ^ 9) (10 ^ places) }
{
    if places <= 9 {
        u128::from(number) * u128::from(power_of_ten(9 - places))
    } else {
        nearest_quotient(number, power_of_ten(places - 9))
    }
}

/// How many billionths the parts of most texts spell: those with no power, whose digits fit 64 bits.
#[tactic(auto, unfolding(crate::specs::Decimal::billionths))]
fn plain_value(parts: &Parts) -> Option<u128>
    requires { IsDigital (decimal parts.now) }
    ensures { IfSome result (λ value. value ≡ billionths (decimal parts.now)) }
{
    let places = parts.fraction.len();
    if 27 < places || !parts.exponent.is_empty() {
        return None;
    }
    let number = value_of_both(parts.whole, parts.fraction)?;
    Some(scaled(number, places))
}

/// How many billionths the parts spell; None where that is out of range.
pub fn magnitude(parts: &Parts) -> Option<u128>
    requires { IsDigital (decimal parts.now) }
    ensures { SomeIff result (billionths (decimal parts.now) < LIMIT) (billionths (decimal parts.now)) }
{
    let value = match plain_value(parts) {
        Some(value) => value,
        None => value_of(parts),
    };
    if value < LIMIT { Some(value) } else { None }
}
