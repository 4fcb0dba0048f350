//! Canonical texts.
ghost use Rattle.std.specs.Prelude.{◌≡◌, ◌≤◌, ◌<◌, ◌^◌, ◌*◌, ◌/◌, ◌%◌, ◌++◌, length, take, drop, slice_range};
ghost use Rattle.fixed_num.specs.Canonical.{fraction_text, front_text, number_text};

use itoa::write_digits;

/// How many billionths are one.
const BILLION: u64 = 1_000_000_000;

/// Where the point stands in a buffer: behind a sign and twenty digits.
const POINT: usize = 21;

/// The length of a buffer, that of the longest text: a sign, twenty digits, a point and nine digits.
pub const LONGEST: usize = 31;

/// The whole part of so many billionths, and the billionths that are left.
pub fn split(magnitude: u128) -> (u64, u32)
    requires { magnitude < 2 ^ 64 * 10 ^ 9 }
    ensures whole { result.0 ≡ magnitude / 10 ^ 9 }
    ensures fraction { result.1 ≡ magnitude % 10 ^ 9 }
{
    match u64::try_from(magnitude) {
        Ok(small) => (small / BILLION, (small % BILLION) as u32),
        Err(_) => {
            let billion = u128::from(BILLION);
            ((magnitude / billion) as u64, (magnitude % billion) as u32)
        }
    }
}

/// Writes the point and the billionths behind it, without the zeros at their end, from the point's index on;
/// nothing where there are none. Gives the index behind them.
fn write_fraction(billionths: u32, buffer: &mut [u8]) -> usize
    requires small { billionths < 10 ^ 9 }
    requires room { length buffer.old ≡ LONGEST }
    ensures bound { (POINT ≤ result) × (result ≤ LONGEST) }
    ensures text { take result buffer.new ≡ take POINT buffer.old ++ fraction_text billionths }
{
    if billionths == 0 {
        return POINT;
    }
    buffer[POINT] = b'.';
    let mut left = billionths;
    let mut scale = 1_000_000_000;
    for end in POINT + 1..LONGEST {
        if left == 0 {
            return end;
        }
        scale /= 10;
        buffer[end] = b'0' + (left / scale) as u8;
        left %= scale;
    }
    LONGEST
}

/// Writes the sign and the whole digits before the point's index. Gives the index at which they begin.
fn write_front(negative: bool, whole: u64, buffer: &mut [u8]) -> usize
    requires { length buffer.old ≡ LONGEST }
    ensures bound { result ≤ POINT }
    ensures text { drop result buffer.new ≡ front_text negative whole ++ drop POINT buffer.old }
{
    let digits = write_digits(whole, buffer, POINT);
    if negative {
        buffer[digits - 1] = b'-';
        return digits - 1;
    }
    digits
}

/// Writes the text of a number, given its sign, whole part and billionths. Gives the indices at which it
/// begins and ends.
pub fn write_number(
    negative: bool,
    whole: u64,
    billionths: u32,
    buffer: &mut [u8],
) -> (usize, usize)
    requires small { billionths < 10 ^ 9 }
    requires room { length buffer.old ≡ LONGEST }
    ensures bound { (result.0 ≤ result.1) × (result.1 ≤ LONGEST) }
    ensures text { slice_range buffer.new result.0 result.1 ≡ number_text negative whole billionths }
{
    let start = write_front(negative, whole, buffer);
    let end = write_fraction(billionths, buffer);
    (start, end)
}
