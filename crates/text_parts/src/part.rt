//! Parts of a text: what ends them, and what a backslash hides in them.
ghost use Rattle.std.specs.Prelude.{◌≡◌, ◌≤◌, length, drop, IfOk};
ghost use Rattle.text_parts.specs.Part.{part_len, plain, is_escape, text_at};
ghost use Rattle.text_parts.specs.Kinds.{kind_of, IsAsciiPart};
ghost use Rattle.std.specs.Str.{IsCharBoundary};
ghost use Rattle.std.specs.String.{string_bytes};

use std::alloc::{AllocError, Global};

/// What ends a part of a text, and what a backslash hides in it. Where there are fewer than three such bytes,
/// one of them is written again.
#[derive(Clone, Copy, Debug, PartialEq, Eq)]
pub struct Part {
    /// The part ends before the first of these bytes that no backslash hides.
    pub ends: [u8; 3],
    /// The bytes that a backslash before them hides; before others it stands for itself.
    pub escapes: [u8; 3],
    /// Whether an `n` that a backslash hides means a newline.
    pub newlines: bool,
}

impl Part {
    ghost use Rattle.text_parts.specs.Kinds.{ends_of, escapes_of, meaning_of};

    fn ends_before(&self, byte: u8) -> bool
        ensures { result ≡ ends_of self.now byte }
    {
        byte == self.ends[0] || byte == self.ends[1] || byte == self.ends[2]
    }

    fn hides(&self, byte: u8) -> bool
        ensures { result ≡ escapes_of self.now byte }
    {
        byte == self.escapes[0] || byte == self.escapes[1] || byte == self.escapes[2]
    }

    fn meaning(&self, byte: u8) -> u8
        ensures { result ≡ meaning_of self.now byte }
    {
        if self.newlines && byte == b'n' {
            b'\n'
        } else {
            byte
        }
    }
}

/// Whether an escape stands at an offset.
fn escape_at(part: &Part, bytes: &[u8], i: usize) -> bool
    requires { i ≤ length bytes.now }
    ensures { result ≡ is_escape (kind_of part.now) (drop i bytes.now) }
{
    match &bytes[i..] {
        [b'\\', c, ..] => part.hides(*c),
        _ => false,
    }
}

/// How many bytes stand before the one that ends the part, escapes counted as they are written.
pub fn part_len(part: &Part, bytes: &[u8]) -> usize
    ensures value { result ≡ part_len (kind_of part.now) bytes.now }
    ensures bound { result ≤ length bytes.now }
{
    let mut i = 0;
    while i < bytes.len() {
        if escape_at(part, bytes, i) {
            i += 2;
        } else if part.ends_before(bytes[i]) {
            return i;
        } else {
            i += 1;
        }
    }
    i
}

/// The bytes of a part without its escapes.
pub fn plain_bytes(alloc: Global, part: &Part, bytes: &[u8]) -> Result<Vec<u8>, AllocError>
    ensures { IfOk result (λ text. text.items ≡ plain (kind_of part.now) bytes.now) }
{
    let mut text = Vec::with_capacity(alloc, bytes.len())?;
    let mut i = 0;
    while i < bytes.len() {
        if escape_at(part, bytes, i) {
            text.push(part.meaning(bytes[i + 1]))?;
            i += 2;
        } else {
            text.push(bytes[i])?;
            i += 1;
        }
    }
    Ok(text)
}

/// The text of the part that begins at an offset of a text, without its escapes.
pub fn part_text(alloc: Global, part: &Part, piece: &str, i: usize) -> Result<String, AllocError>
    requires boundary { IsCharBoundary piece.now i }
    requires ascii { IsAsciiPart part.now }
    ensures { IfOk result (λ text. string_bytes text ≡ text_at (kind_of part.now) piece.now i) }
{
    let bytes = piece.as_bytes();
    let (_, rest) = bytes.split_at(i);
    let (text, _) = rest.split_at(part_len(part, rest));
    let plain = plain_bytes(alloc, part, text)?;
    match String::from_utf8(plain) {
        Ok(text) => Ok(text),
        Err(_) => unreachable!(),
    }
}
