//! Numbers with nine decimals.
ghost use Rattle.std.specs.Prelude.{◌≡◌, ◌<◌, ◌++◌, length, OnOk, OnErr, SomeIff};
ghost use Rattle.std.specs.Prelude.{pos, ◌+ℤ◌};
ghost use Rattle.fixed_num.specs.Quotient.{is_negative, divided};
ghost use Rattle.fixed_num.specs.Range.{InRange};

use crate::grammar::parts_of;
use crate::memory::OutOfMemory;
use crate::plain::plain_number;
use crate::quotient::quotient_magnitude;
use crate::text::{LONGEST, split, write_number};
use crate::value::magnitude;
use std::alloc::Global;
use std::marker::Model;
use text_buffer::TextBuffer;

/// Why a text is no number of a type.
#[derive(Clone, Copy, Debug, PartialEq, Eq)]
pub enum NumFault {
    /// The text spells no number.
    NotANumber,
    /// The text spells a number that is outside the type.
    NumberRange,
}

/// A whole number of billionths whose magnitude is below 2^64 * 10^9 of them.
#[derive(Clone, Copy, Debug, PartialEq, Eq, PartialOrd, Ord)]
pub struct Fixed {
    billionths: i128,
}

/// The first magnitude, in billionths, that is out of range: 2^64 * 10^9.
pub(crate) const LIMIT: u128 = 18_446_744_073_709_551_616_000_000_000;

impl Model for Fixed {
    ghost use Rattle.std.specs.Prelude.{ℤ};
    ghost use Rattle.fixed_num.specs.Range.{InRange};

    ghost Value = { ℤ };

    ghost view = { λ f. f.billionths };

    ghost invariant = { λ f. InRange f.billionths };

    ghost inverse = { λ z. record { billionths = z } };
}

impl Fixed {
    ghost use Rattle.fixed_num.specs.Fixed.{read_as};
    ghost use Rattle.fixed_num.specs.Canonical.{canonical_text};

    /// The number of so many billionths; None where it is out of range.
    pub fn of_billionths(n: i128) -> Option<Fixed>
        ensures { SomeIff result (InRange n) n }
    {
        if n.unsigned_abs() < LIMIT {
            Some(Fixed { billionths: n })
        } else {
            None
        }
    }

    /// The number of so many billionths, none of which is below 0; None where it is out of range.
    pub(crate) fn of_magnitude(n: u128) -> Option<Fixed>
        ensures { SomeIff result (InRange (pos n)) (pos n) }
    {
        if n < LIMIT {
            Some(Fixed {
                billionths: n as i128,
            })
        } else {
            None
        }
    }

    /// How many billionths it is.
    pub fn billionths(self) -> i128
        ensures value { result ≡ self }
        ensures range { InRange self }
    {
        self.billionths
    }

    /// The number that a decimal spells, rounded half to even to a whole number of billionths.
    /// A decimal is an optional sign, then digits with at most one `.` and at least one digit, then
    /// optionally `e` or `E`, an optional sign and at least one digit.
    /// `NotANumber` where the text is no decimal, `NumberRange` where the rounded number is out of range.
    pub fn read(text: &[u8]) -> Result<Fixed, NumFault>
        ensures { result ≡ read_as text.now }
    {
        match plain_number(text) {
            Some(number) => Ok(number),
            None => Fixed::read_parts(text),
        }
    }

    // The same, for any text.
    fn read_parts(text: &[u8]) -> Result<Fixed, NumFault>
        ensures { result ≡ read_as text.now }
    {
        let Some(parts) = parts_of(text) else {
            return Err(NumFault::NotANumber);
        };
        let Some(value) = magnitude(&parts) else {
            return Err(NumFault::NumberRange);
        };
        let value = value as i128;
        Ok(Fixed {
            billionths: if parts.negative { -value } else { value },
        })
    }

    /// The number divided by another, rounded half to even to a whole number of billionths. None exactly
    /// where the other is 0 or the rounded quotient is out of range.
    pub fn divide(self, by: Fixed) -> Option<Fixed>
        ensures { result ≡ divided self by }
    {
        if by.billionths == 0 {
            return None;
        }
        let (number, divisor) = (self.billionths, by.billionths);
        let magnitude = quotient_magnitude(number.unsigned_abs(), divisor.unsigned_abs());
        if LIMIT <= magnitude {
            return None;
        }
        let value = magnitude as i128;
        let negative = is_negative(number) != is_negative(divisor);
        Some(Fixed {
            billionths: if negative { -value } else { value },
        })
    }

    /// The sum of the number and another. None exactly where it is out of range.
    pub fn add(self, other: Fixed) -> Option<Fixed>
        ensures { SomeIff result (InRange (self +ℤ other)) (self +ℤ other) }
    {
        Fixed::of_billionths(self.billionths + other.billionths)
    }

    /// Appends the canonical text: `-` where the number is negative, the whole digits without leading zeros
    /// (`0` where there are none) and, where the fraction is not zero, `.` and its digits without the zeros
    /// at their end. `OutOfMemory`, which comes only where fewer bytes stand ready in `out` than the text has, leaves it
    /// as it was.
    pub fn append(self, _alloc: Global, out: &mut TextBuffer) -> Result<(), OutOfMemory>
        ensures added { OnOk result (out.new.items ≡ out.old.items ++ canonical_text self) }
        ensures kept { OnErr result (out.new.items ≡ out.old.items) }
        ensures full { OnErr result (out.old.ready < length (canonical_text self)) }
    {
        let (whole, billionths) = split(self.billionths.unsigned_abs());
        let mut buffer = [0; LONGEST];
        let (start, end) = write_number(self.billionths < 0, whole, billionths, &mut buffer);
        out.extend_from_slice(&buffer[start..end])?;
        Ok(())
    }
}

/// Whether a number is below 0.
fn is_negative(number: i128) -> bool
    ensures { result ≡ is_negative number }
{
    number < 0
}
