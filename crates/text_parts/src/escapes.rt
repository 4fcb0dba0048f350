//! Writing texts with escapes.
ghost use Rattle.std.specs.Prelude.{◌≡◌, not};
ghost use Rattle.std.specs.List.{list_all};
ghost use Rattle.text_parts.specs.Adds.{Adds};
ghost use Rattle.text_parts.specs.Escaped.{escaped_byte, escaped};
ghost use Rattle.text_parts.specs.Marks.{escapes_of};

use crate::append::append_bytes;
use fixed_num::OutOfMemory;
use text_buffer::TextBuffer;

/// What is escaped in a text that is written. Where there are fewer than three such bytes, one of them is written
/// again.
#[derive(Clone, Copy, Debug, PartialEq, Eq)]
pub struct Marks {
    /// The bytes that are written behind a backslash.
    pub bytes: [u8; 3],
    /// The byte that is written for each of them behind its backslash.
    pub written: [u8; 3],
}

impl Marks {
    ghost use Rattle.text_parts.specs.Marks.{is_mark_of, written_of};

    fn contain(&self, byte: u8) -> bool
        ensures { result ≡ is_mark_of self.now byte }
    {
        byte == self.bytes[0] || byte == self.bytes[1] || byte == self.bytes[2]
    }

    fn written_for(&self, byte: u8) -> u8
        ensures { result ≡ written_of self.now byte }
    {
        if byte == self.bytes[0] {
            self.written[0]
        } else if byte == self.bytes[1] {
            self.written[1]
        } else {
            self.written[2]
        }
    }

    fn are_none_of(&self, text: &[u8]) -> bool
        ensures { result ≡ list_all (λ b. not (is_mark_of self.now b)) text.now }
    {
        text.iter().all(|byte| !self.contain(*byte))
    }
}

/// Appends a byte, behind a backslash where it is a mark.
pub fn append_escaped_byte(out: &mut TextBuffer, marks: &Marks, byte: u8) -> Result<(), OutOfMemory>
    ensures { Adds result out.old.items out.new.items (escaped_byte (escapes_of marks.now) byte) }
{
    if marks.contain(byte) {
        out.push(b'\\')?;
        out.push(marks.written_for(byte))?;
    } else {
        out.push(byte)?;
    }
    Ok(())
}

/// Appends a text with its marks escaped. A text without marks is copied whole.
pub fn append_escaped(out: &mut TextBuffer, marks: &Marks, text: &[u8]) -> Result<(), OutOfMemory>
    ensures { Adds result out.old.items out.new.items (escaped (escapes_of marks.now) text.now) }
{
    if marks.are_none_of(text) {
        append_bytes(out, text)?;
        return Ok(());
    }
    for byte in text {
        append_escaped_byte(out, marks, *byte)?;
    }
    Ok(())
}
