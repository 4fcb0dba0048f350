//! Texts as people are shown them.
use std::fmt;

/// A text whose control characters can't make a line of their own, nor act on a terminal: each byte below 32,
/// and 127, is shown as `\x` and two hexadecimal digits.
#[derive(Clone, Copy)]
pub struct Shown<'a>(pub &'a str);

impl fmt::Display for Shown<'_> {
    fn fmt<W: fmt::Write>(&self, f: &mut fmt::Formatter<W>) -> fmt::Result {
        for c in self.0.chars() {
            if c.is_ascii_control() {
                let code = u32::from(c);
                write!(f, "\\x{code:02x}")?;
            } else {
                f.write_char(c)?;
            }
        }
        Ok(())
    }
}

/// Bytes of a piece, in one line: each that is no printable ASCII is shown as `\x` and two hexadecimal digits.
#[derive(Clone, Copy)]
pub struct Excerpt<'a>(pub &'a [u8]);

impl fmt::Display for Excerpt<'_> {
    fn fmt<W: fmt::Write>(&self, f: &mut fmt::Formatter<W>) -> fmt::Result {
        for byte in self.0 {
            let c = char::from(*byte);
            if c == ' ' || c.is_ascii_graphic() {
                f.write_char(c)?;
            } else {
                let code = u32::from(*byte);
                write!(f, "\\x{code:02x}")?;
            }
        }
        Ok(())
    }
}
