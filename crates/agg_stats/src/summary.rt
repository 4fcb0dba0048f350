//! The summary of a field's numbers.
ghost use Rattle.std.specs.Prelude.{◌≡◌, ◌==◌, ◌≤◌, unsigned_abs, IfSome, Some, None, pos, option_map, if◌then◌else◌};
ghost use Rattle.std.specs.Int.{int_max, int_min};
ghost use Rattle.metric.specs.declared.value.Value.TheVariants.{Fixed as FixedValue, Int, Uint};
ghost use Rattle.metric.specs.Numbers.{billionths_of};
ghost use Rattle.metric.specs.Metric.{IsValue};
ghost use Rattle.agg_stats.specs.Kept.{empty_summary, with_number};
ghost use Rattle.agg_stats.specs.Summary.{fitting_fixed, fitting_int, fitting_uint, is_int, is_uint, value_in};

use fixed_num::Fixed;
use metric::Value;
use std::marker::Model;

/// How many billionths one is.
const ONE: i128 = 1_000_000_000;

/// So many numbers are counted.
const MOST: u64 = 4_294_967_296;

/// The numbers of a field: how many there are, their sum, the least and the greatest in billionths, and whether all are
/// signed whole numbers, or all unsigned ones.
#[derive(Clone, Copy, Debug)]
pub(crate) struct Summary {
    count: u64,
    sum: i128,
    least: i128,
    greatest: i128,
    ints: bool,
    uints: bool,
}

impl Model for Summary {
    ghost use Rattle.std.specs.Prelude.{◌≤◌, ◌*◌, unsigned_abs};
    ghost use Rattle.agg_stats.specs.Summary.{Summary as Numbers};

    ghost Value = { Numbers };

    ghost view = { λ s. record {
      count = s.count;
      sum = s.sum;
      least = s.least;
      greatest = s.greatest;
      ints = s.ints;
      uints = s.uints;
    } };

    ghost invariant = { λ s. record {
      few : s.count ≤ 4294967296;
      sum_within : unsigned_abs s.sum ≤ s.count * 18446744073709551616000000000;
    } };

    ghost inverse = { λ s. record {
      count = s.count;
      sum = s.sum;
      least = s.least;
      greatest = s.greatest;
      ints = s.ints;
      uints = s.uints;
    } };
}

impl Summary {
    /// That of no number.
    pub(crate) fn empty() -> Summary
        ensures { result ≡ empty_summary }
    {
        Summary {
            count: 0,
            sum: 0,
            least: 0,
            greatest: 0,
            ints: true,
            uints: true,
        }
    }

    /// That with a number more. So many are counted at most.
    #[tactic(auto, unfolding(crate::specs::Kept::with_number))]
    pub(crate) fn with(self, number: &Value) -> Summary
        ensures { result ≡ with_number number.now self }
    {
        if MOST <= self.count {
            return self;
        }
        let n = billionths(number);
        Summary {
            count: self.count + 1,
            sum: self.sum + n,
            least: lower(self.count, self.least, n),
            greatest: higher(self.count, self.greatest, n),
            ints: self.ints && is_int(number),
            uints: self.uints && is_uint(number),
        }
    }

    /// How many numbers there are.
    pub(crate) fn count(&self) -> Option<Value>
        ensures value { result ≡ Some (Int (pos self.now.count)) }
        ensures valid { IfSome result IsValue }
    {
        Some(Value::Int(self.count as i64))
    }

    /// Their sum.
    pub(crate) fn sum(&self) -> Option<Value>
        ensures value { result ≡ value_in self.now self.now.sum }
        ensures valid { IfSome result IsValue }
    {
        self.value(self.sum)
    }

    /// The least.
    pub(crate) fn least(&self) -> Option<Value>
        ensures value { result ≡ value_in self.now self.now.least }
        ensures valid { IfSome result IsValue }
    {
        self.value(self.least)
    }

    /// The greatest.
    pub(crate) fn greatest(&self) -> Option<Value>
        ensures value { result ≡ value_in self.now self.now.greatest }
        ensures valid { IfSome result IsValue }
    {
        self.value(self.greatest)
    }

    // So many billionths, in the type of the numbers where they have one and it fits.
    #[tactic(auto, unfolding(crate::specs::Summary::value_in))]
    fn value(&self, n: i128) -> Option<Value>
        ensures value { result ≡ value_in self.now n }
        ensures valid { IfSome result IsValue }
    {
        let whole = n.div_euclid(ONE);
        match int_where(self.ints, whole) {
            Some(whole) => Some(Value::Int(whole)),
            None => match uint_where(self.uints, whole) {
                Some(whole) => Some(Value::Uint(whole)),
                None => fixed_of(n),
            },
        }
    }
}

/// A whole number as a signed one, where that is wanted and it fits.
fn int_where(wanted: bool, n: i128) -> Option<i64>
    ensures { result ≡ if wanted then fitting_int n else None }
{
    if wanted { i64::try_from(n).ok() } else { None }
}

/// A whole number as an unsigned one, where that is wanted and it fits.
fn uint_where(wanted: bool, n: i128) -> Option<u64>
    ensures { result ≡ if wanted then fitting_uint n else None }
{
    if wanted { u64::try_from(n).ok() } else { None }
}

/// Billionths as a number with nine decimals, where they fit.
fn fixed_of(n: i128) -> Option<Value>
    ensures value { result ≡ option_map FixedValue (fitting_fixed n) }
    ensures valid { IfSome result IsValue }
{
    match Fixed::of_billionths(n) {
        Some(number) => Some(Value::Fixed(number)),
        None => None,
    }
}

/// The lower of the least number and another, which is the least where there was none.
fn lower(count: u64, least: i128, n: i128) -> i128
    ensures { result ≡ if count == 0 then n else int_min least n }
{
    if count == 0 { n } else { least.min(n) }
}

/// The higher of the greatest number and another, which is the greatest where there was none.
fn higher(count: u64, greatest: i128, n: i128) -> i128
    ensures { result ≡ if count == 0 then n else int_max greatest n }
{
    if count == 0 { n } else { greatest.max(n) }
}

/// The billionths of a value.
fn billionths(value: &Value) -> i128
    ensures value { result ≡ billionths_of value.now }
    ensures within { unsigned_abs result ≤ 18446744073709551616000000000 }
{
    match value {
        Value::Int(n) => *n as i128 * ONE,
        Value::Uint(n) => *n as i128 * ONE,
        Value::Fixed(n) => n.billionths(),
        Value::Bool(true) => ONE,
        Value::Bool(false) => 0,
        Value::Text(_) => 0,
    }
}

/// Is a value a signed whole number?
fn is_int(value: &Value) -> bool
    ensures { result ≡ is_int value.now }
{
    matches!(value, Value::Int(_))
}

/// Is a value an unsigned whole number?
fn is_uint(value: &Value) -> bool
    ensures { result ≡ is_uint value.now }
{
    matches!(value, Value::Uint(_))
}
