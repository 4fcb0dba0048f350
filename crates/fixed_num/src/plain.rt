//! Plain numbers: few digits, with a point or without.
ghost use Rattle.std.specs.Prelude.{◌≡◌, ◌<◌, ◌≤◌, ◌-◌, ◌*◌, ◌^◌, Ok, length, take, slice_index, IfSome};
ghost use Rattle.fixed_num.specs.Fixed.{read_as};
ghost use Rattle.fixed_num.specs.Digits.{Spells, Pointed};
ghost use Rattle.fixed_num.specs.Whole.{numeral_read_as};

use crate::fixed::Fixed;
use crate::value::power_of_ten;

/// So many digits always spell a number that fits 64 bits.
const FEW: usize = 19;

/// So many decimal places have the billionths of a number.
const PLACES: usize = 9;

/// The number that the digits spell which stand first, and how many they are.
#[inline(always)]
fn first_digits(text: &[u8]) -> (u64, usize)
    requires few { length text.now ≤ FEW }
    ensures bound { result.1 ≤ length text.now }
    ensures spells { Spells (take result.1 text.now) result.0 }
{
    let mut number = 0;
    let mut at = 0;
    while at < text.len() {
        let byte = text[at];
        if !byte.is_ascii_digit() {
            return (number, at);
        }
        number = number * 10 + (byte - b'0') as u64;
        at += 1;
    }
    (number, at)
}

/// The number that the digits before a point spell with those behind it; None where another byte stands there.
#[inline(always)]
fn digits_behind(front: u64, text: &[u8], point: usize) -> Option<u64>
    requires few { length text.now ≤ FEW }
    requires point { point < length text.now }
    requires stands { slice_index text.now point ≡ 46 }
    requires spells { Spells (take point text.now) front }
    ensures { IfSome result (λ number. Pointed text.now point (length text.now) number) }
{
    let mut number = front;
    let mut at = point + 1;
    while at < text.len() {
        let byte = text[at];
        if !byte.is_ascii_digit() {
            return None;
        }
        number = number * 10 + (byte - b'0') as u64;
        at += 1;
    }
    Some(number)
}

/// How many billionths a number is whose last digits are so many decimal places.
#[inline(always)]
fn billionths_of(number: u64, places: usize) -> u128
    requires { places ≤ PLACES }
    ensures { result ≡ number * 10 ^ (9 - places) }
{
    u128::from(number) * u128::from(power_of_ten(PLACES - places))
}

/// The number that few digits spell, with a point among them or behind them or without, as most texts of numbers
/// are; None for any other text.
pub(crate) fn plain_number(text: &[u8]) -> Option<Fixed>
    ensures { IfSome result (λ number. read_as text.now ≡ Ok number) }
{
    if FEW < text.len() {
        return None;
    }
    let (front, point) = first_digits(text);
    if point == 0 {
        return None;
    }
    if point == text.len() {
        return Fixed::of_magnitude(billionths_of(front, 0));
    }
    if text[point] != b'.' || PLACES < text.len() - point - 1 {
        return None;
    }
    let number = digits_behind(front, text, point)?;
    Fixed::of_magnitude(billionths_of(number, text.len() - point - 1))
}

/// The number that few digits spell, with nothing else among them; None for any other text.
#[inline(always)]
pub(crate) fn plain_numeral(text: &[u8]) -> Option<u64>
    ensures { IfSome result (λ number. numeral_read_as text.now ≡ Ok number) }
{
    if FEW < text.len() {
        return None;
    }
    let (number, count) = first_digits(text);
    if count == 0 || count != text.len() {
        return None;
    }
    Some(number)
}
