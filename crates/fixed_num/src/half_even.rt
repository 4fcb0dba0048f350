//! Rounding half to even.
ghost use Rattle.std.specs.Prelude.{◌≡◌, ◌<◌, ◌^◌};
ghost use Rattle.fixed_num.specs.Rounded.{rounded_of};

/// The whole number nearest to a quotient, given its floor and what is left of the division; of two the even one.
#[inline(always)]
pub(crate) fn rounded_of(divisor: u128, floor: u128, left: u128) -> u128
    requires { (floor < 2 ^ 127) × (left < 2 ^ 127) }
    ensures { result ≡ rounded_of divisor floor left }
{
    if 2 * left < divisor {
        floor
    } else if divisor < 2 * left {
        floor + 1
    } else {
        floor + floor % 2
    }
}
