//! The grammar of decimals: a sign, digits with a point, and a power of ten.
ghost use Rattle.std.specs.Prelude.{◌≡◌, ◌≤◌, length, take, option_map, List, IfSome};
ghost use Rattle.std.specs.Str.Parse.{AllDigits};
ghost use Rattle.fixed_num.specs.Decimal.{digits_len, sign_len, point_len, decimal_of, with_exponent};
ghost use Rattle.fixed_num.specs.Decimal.{IsDigital};
ghost use Rattle.fixed_num.specs.View.{decimal};

/// The parts of a decimal: whether it is negative, the digits before and behind the point, whether the power
/// of ten is negative, and its digits.
#[derive(Clone, Copy)]
pub struct Parts<'a> {
    pub negative: bool,
    pub whole: &'a [u8],
    pub fraction: &'a [u8],
    pub shrinks: bool,
    pub exponent: &'a [u8],
}

/// How many digits stand first.
pub fn digits_at(bytes: &[u8]) -> usize
    ensures value { result ≡ digits_len bytes.now }
    ensures bound { result ≤ length bytes.now }
    ensures digits { AllDigits 10 (take result bytes.now) }
{
    for (i, b) in bytes.iter().enumerate() {
        if !b.is_ascii_digit() {
            return i;
        }
    }
    bytes.len()
}

/// How long the sign is that stands first: 1, or 0 where there is none.
pub fn sign_at(bytes: &[u8]) -> usize
    ensures value { result ≡ sign_len bytes.now }
    ensures bound { result ≤ length bytes.now }
{
    match bytes {
        [b'+', ..] => 1,
        [b'-', ..] => 1,
        _ => 0,
    }
}

/// How long the point is that stands first: 1, or 0 where there is none.
fn point_at(bytes: &[u8]) -> usize
    ensures value { result ≡ point_len bytes.now }
    ensures bound { result ≤ length bytes.now }
{
    match bytes {
        [b'.', ..] => 1,
        _ => 0,
    }
}

/// The parts with the power of ten that the rest of the text spells; None where it spells none and is not
/// empty.
#[tactic(auto, unfolding(crate::specs::Decimal::with_exponent))]
fn with_exponent_at<'a>(parts: Parts<'a>, bytes: &'a [u8]) -> Option<Parts<'a>>
    requires { IsDigital (decimal parts) }
    ensures value { option_map decimal result ≡ with_exponent (decimal parts.entry) bytes.now }
    ensures digital { IfSome result (λ p. IsDigital (decimal p)) }
{
    if bytes.is_empty() {
        return Some(parts);
    }
    if bytes[0] != b'e' && bytes[0] != b'E' {
        return None;
    }
    let signed = &bytes[1..];
    let digits = &signed[sign_at(signed)..];
    if digits.is_empty() || digits_at(digits) != digits.len() {
        return None;
    }
    Some(Parts {
        negative: parts.negative,
        whole: parts.whole,
        fraction: parts.fraction,
        shrinks: signed[0] == b'-',
        exponent: digits,
    })
}

/// The parts of the decimal that the text spells; None where it spells none.
#[tactic(auto, unfolding(crate::specs::Decimal::decimal_of))]
pub fn parts_of(text: &[u8]) -> Option<Parts<'_>>
    ensures value { option_map decimal result ≡ decimal_of text.now }
    ensures digital { IfSome result (λ p. IsDigital (decimal p)) }
{
    let unsigned = &text[sign_at(text)..];
    let (whole, after) = unsigned.split_at(digits_at(unsigned));
    let behind = &after[point_at(after)..];
    let (fraction, rest) = behind.split_at(digits_at(behind));
    if whole.is_empty() && fraction.is_empty() {
        return None;
    }
    let parts = Parts {
        negative: text[0] == b'-',
        whole,
        fraction,
        shrinks: false,
        exponent: &[],
    };
    with_exponent_at(parts, rest)
}
