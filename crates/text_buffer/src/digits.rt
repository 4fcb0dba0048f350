//! Numbers in decimal digits.
ghost use Rattle.std.specs.Prelude.{◌≡◌, ◌+◌, ◌<◌, ◌≤◌, ◌++◌, length, decimal, is_ok, if◌then◌else◌, OnErr};
ghost use Rattle.std.specs.Fmt.{signed_decimal};
ghost use Rattle.text_buffer.specs.Placed.{Placed};

use crate::buffer::TextBuffer;
use std::alloc::AllocError;

/// How many digits a number of 64 bits has at most.
pub(crate) const MOST_DIGITS: usize = 20;

// How many digits a number has.
#[inline(always)]
fn digit_count(n: u64) -> usize
    ensures { result ≡ length (decimal n) }
{
    match n.checked_ilog10() {
        Some(power) => power as usize + 1,
        None => 1,
    }
}

// Writes a number's digits.
#[inline(always)]
pub(crate) fn place_digits(cells: &mut [u8], at: usize, n: u64) -> usize
    requires { at + MOST_DIGITS ≤ length cells.old }
    ensures { Placed cells.old cells.new at (decimal n) result }
{
    let end = at + digit_count(n);
    itoa::write_digits(n, cells, end);
    end
}

impl TextBuffer {
    /// Appends a number in decimal digits. `AllocError`, which comes only where fewer than 20 bytes stand ready, leaves
    /// the text as it was.
    #[inline(never)]
    pub fn push_uint(&mut self, n: u64) -> Result<(), AllocError>
        ensures items { self.new.items ≡ (if is_ok result then self.old.items ++ decimal n else self.old.items) }
        ensures full { OnErr result (self.old.ready < 20) }
    {
        self.reserve(MOST_DIGITS)?;
        self.put_uint(n);
        Ok(())
    }

    /// Appends a number in decimal digits, with `-` before them where it is negative. `AllocError`, which comes only
    /// where fewer than 21 bytes stand ready, leaves the text as it was.
    #[inline(never)]
    pub fn push_int(&mut self, n: i64) -> Result<(), AllocError>
        ensures items { self.new.items
            ≡ (if is_ok result then self.old.items ++ signed_decimal n else self.old.items) }
        ensures full { OnErr result (self.old.ready < 21) }
    {
        self.reserve(1 + MOST_DIGITS)?;
        if n < 0 {
            self.put_byte(b'-');
            self.put_uint(n.unsigned_abs());
        } else {
            self.put_uint(n.unsigned_abs());
        }
        Ok(())
    }
}
