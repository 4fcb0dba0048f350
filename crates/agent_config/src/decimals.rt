//! The decimals and units that times are written with.
ghost use Rattle.std.specs.Prelude.{◌≡◌, ◌<◌, ◌≤◌, ◌+◌, ◌-◌, IfSome, MatchOption, drop, length, option_map};
ghost use Rattle.std.specs.Prelude.{take};
ghost use Rattle.agent_config.specs.Durations.{behind_places, digits_len, is_digit, longest, number_behind};
ghost use Rattle.agent_config.specs.Durations.{pair_of, places_of, unit_of};
ghost use Rattle.agent_config.specs.Pairs.{pair_view};

/// The greatest number of nanoseconds.
pub(crate) const LONGEST: u64 = 9_223_372_036_854_775_807;

/// A decimal and its unit.
#[derive(Clone, Copy)]
pub(crate) struct Pair<'a> {
    /// The digits before the point.
    pub(crate) whole: &'a [u8],
    /// The digits behind the point.
    pub(crate) places: &'a [u8],
    /// The nanoseconds of the unit.
    pub(crate) unit: u64,
    /// What is behind the unit.
    pub(crate) behind: &'a [u8],
}

/// The decimal and the unit that a text begins with; None where it begins with none.
pub(crate) fn pair_of(text: &[u8]) -> Option<Pair<'_>>
    ensures value { option_map pair_view result ≡ pair_of text.now }
    ensures unit { IfSome result (λ pair. (1 ≤ pair.unit) × (pair.unit ≤ 3600000000000)) }
    ensures places { IfSome result (λ pair. length pair.places.now ≤ length text.now) }
    ensures behind { IfSome result (λ pair. length pair.behind.now < length text.now) }
{
    let (whole, after) = text.split_at(digits_len(text));
    let (places, after) = places_of(after);
    if whole.is_empty() && places.is_empty() {
        return None;
    }
    match unit_of(after) {
        Some((unit, behind)) => Some(Pair {
            whole,
            places,
            unit,
            behind,
        }),
        None => None,
    }
}

/// How many digits a text begins with.
fn digits_len(text: &[u8]) -> usize
    ensures value { result ≡ digits_len text.now }
    ensures within { result ≤ length text.now }
{
    let mut len = 0;
    while len < text.len() && text[len].is_ascii_digit() {
        len += 1;
    }
    len
}

/// The digits behind a point that a text may begin with, and what is behind them.
fn places_of(text: &[u8]) -> (&[u8], &[u8])
    ensures places { result.0.now ≡ places_of text.now }
    ensures behind { result.1.now ≡ behind_places text.now }
    ensures within { length result.0.now + length result.1.now ≤ length text.now }
{
    match text {
        [b'.', after @ ..] => after.split_at(digits_len(after)),
        _ => text.split_at(0),
    }
}

/// The nanoseconds of the unit that a text begins with, and what is behind it.
fn unit_of(text: &[u8]) -> Option<(u64, &[u8])>
    ensures value { option_map (λ unit. (unit.0, unit.1.now)) result ≡ unit_of text.now }
    ensures unit { IfSome result (λ unit. (1 ≤ unit.0) × (unit.0 ≤ 3600000000000)) }
    ensures behind { IfSome result (λ unit. length unit.1.now < length text.now) }
{
    match text {
        [b'n', b's', behind @ ..] => Some((1, behind)),
        [b'u', b's', behind @ ..] => Some((1000, behind)),
        [b'm', b's', behind @ ..] => Some((1_000_000, behind)),
        [b's', behind @ ..] => Some((1_000_000_000, behind)),
        [b'm', behind @ ..] => Some((60_000_000_000, behind)),
        [b'h', behind @ ..] => Some((3_600_000_000_000, behind)),
        _ => None,
    }
}

/// The number that a digit stands for.
pub(crate) fn digit_value(digit: u8) -> u64
    ensures { result ≡ digit - 48 }
{
    u64::from(digit.saturating_sub(b'0'))
}

/// The number that digits spell; None where no time is so long.
pub(crate) fn number_of(digits: &[u8]) -> Option<u64>
    ensures { MatchOption result (longest < number_behind 0 digits.now)
        (λ number. number ≡ number_behind 0 digits.now) }
{
    let mut number: u64 = 0;
    for digit in digits {
        if number > LONGEST / 10 {
            return None;
        }
        number = number * 10 + digit_value(*digit);
    }
    Some(number)
}
