//! Quotients.
ghost use Rattle.std.specs.Prelude.{◌≡◌, ◌<◌, ◌*◌, ◌^◌};
ghost use Rattle.fixed_num.specs.Rounded.{rounded};

use crate::half_even::rounded_of;

/// How many billionths are one.
const BILLION: u128 = 1_000_000_000;

/// A quotient of whole numbers, rounded half to even.
#[tactic(auto, unfolding(crate::specs::Rounded::rounded))]
fn nearest(number: u128, divisor: u128) -> u128
    requires small { number < 2 ^ 127 }
    requires some { (0 < divisor) × (divisor < 2 ^ 127) }
    ensures { result ≡ rounded number divisor }
{
    rounded_of(divisor, number / divisor, number % divisor)
}

/// How many billionths the quotient of two magnitudes in billionths has, rounded half to even.
pub fn quotient_magnitude(number: u128, divisor: u128) -> u128
    requires number { number < 2 ^ 64 * 10 ^ 9 }
    requires divisor { (0 < divisor) × (divisor < 2 ^ 64 * 10 ^ 9) }
    ensures { result ≡ rounded (number * 10 ^ 9) divisor }
{
    nearest(number * BILLION, divisor)
}
