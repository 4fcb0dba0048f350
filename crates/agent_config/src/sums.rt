//! Sums of decimals, to any number of places.
ghost use Rattle.std.specs.Prelude.{◌≡◌, ◌==◌, ◌+◌, ◌*◌, ◌-◌, ◌^◌, ◌≤◌, IfOk, length, option_map, pos};
ghost use Rattle.std.specs.List.{list_all};
ghost use Rattle.agent_config.specs.Durations.{fitting, number_behind, whole_of};
ghost use Rattle.agent_config.specs.Pairs.{pair_view};
ghost use Rattle.agent_config.specs.Sums.{Adds, AreDigits, places_len, value_of, weight};

use crate::decimals::{LONGEST, Pair, digit_value, number_of};
use fixed_num::OutOfMemory;
use std::alloc::Global;

/// A sum of times.
#[derive(Drop)]
pub(crate) struct Sum {
    /// The whole nanoseconds.
    pub(crate) whole: u64,
    /// The decimal places of one more, each a digit.
    pub(crate) places: Vec<u8>,
}

/// No time, to so many places.
pub(crate) fn zero(alloc: Global, places: usize) -> Result<Sum, OutOfMemory>
    ensures value { IfOk result (λ sum. value_of sum ≡ 0) }
    ensures len { IfOk result (λ sum. places_len sum ≡ places) }
    ensures digits { IfOk result (λ sum. AreDigits sum.places.items) }
{
    Ok(Sum {
        whole: 0,
        places: Vec::from_elem(alloc, 0, places)?,
    })
}

/// Adds a pair; false where no time is so long.
pub(crate) fn add(sum: &mut Sum, pair: &Pair) -> bool
    requires fits { length pair.now.places.now ≤ places_len sum.old }
    requires unit { (1 ≤ pair.now.unit) × (pair.now.unit ≤ 3600000000000) }
    requires digits { AreDigits sum.old.places.items }
    ensures value { Adds result sum.old sum.new (pair_view pair.now) }
    ensures len { places_len sum.new ≡ places_len sum.old }
    ensures digits { AreDigits sum.new.places.items }
{
    let Some(number) = number_of(pair.whole) else {
        return false;
    };
    let carry = add_places(sum.places.as_mut_slice(), pair.places, pair.unit);
    let whole = u128::from(sum.whole)
        + u128::from(number) * u128::from(pair.unit)
        + u128::from(carry);
    if whole > u128::from(LONGEST) {
        return false;
    }
    sum.whole = whole as u64;
    true
}

/// Adds digits of a unit behind the point, and gives what is carried to the whole.
fn add_places(places: &mut [u8], digits: &[u8], unit: u64) -> u64
    requires fits { length digits.now ≤ length places.old }
    requires unit { unit ≤ 3600000000000 }
    requires digits { AreDigits places.old }
    ensures value { weight places.new + result * 10 ^ length places.old
        ≡ weight places.old
        + number_behind 0 digits.now * unit * 10 ^ (length places.old - length digits.now) }
    ensures small { result ≤ 100000000000000 }
    ensures digits { AreDigits places.new }
{
    let mut at = digits.len();
    let mut carry = 0;
    while at > 0 {
        at -= 1;
        let sum = place_sum(places[at], digits[at], unit, carry);
        places[at] = (sum % 10) as u8;
        carry = sum / 10;
    }
    carry
}

/// What comes to one place: what is there, a digit of a unit, and what is carried.
fn place_sum(place: u8, digit: u8, unit: u64, carry: u64) -> u64
    requires unit { unit ≤ 3600000000000 }
    requires carry { carry ≤ 100000000000000 }
    ensures value { result ≡ place + (digit - 48) * unit + carry }
    ensures small { result ≤ 900000000000000 }
{
    u64::from(place) + digit_value(digit) * unit + carry
}

/// The time that a sum is, in nanoseconds, where it is whole and fits.
pub(crate) fn time(sum: &Sum) -> Option<i64>
    requires { AreDigits sum.now.places.items }
    ensures { result ≡ option_map pos (whole_of (places_len sum.now) (value_of sum.now)) }
{
    if are_zero(sum.places.as_slice()) {
        fitting(sum.whole)
    } else {
        None
    }
}

/// A time that fits.
fn fitting(whole: u64) -> Option<i64>
    ensures { result ≡ option_map pos (fitting whole) }
{
    if whole <= LONGEST {
        Some(whole as i64)
    } else {
        None
    }
}

/// Is each of the digits 0?
fn are_zero(digits: &[u8]) -> bool
    ensures { result ≡ list_all (λ digit. digit == 0) digits.now }
{
    digits.iter().all(|digit| *digit == 0)
}
