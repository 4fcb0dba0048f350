//! Texts cut at a byte.
ghost use Rattle.std.specs.Prelude.{◌≡◌, ◌<◌, ◌≤◌, ◌==◌, ◌+◌, [], ◌∷◌, length, option_map, MatchOption};
ghost use Rattle.std.specs.Prelude.{IfSome};
ghost use Rattle.std.specs.List.{position_or_len};
ghost use Rattle.text_parts.specs.Split.{first_part, parts_of, Fits, is_byte};

use crate::stops::first_of;
use std::marker::Model;

/// A part of a piece.
#[derive(Clone, Copy, Debug)]
pub struct Placed<'a> {
    /// The offset in the piece where it begins.
    pub offset: usize,
    /// Its text.
    pub text: &'a str,
}

/// The offset of the first such byte; the length where there is none.
fn first_byte(byte: u8, bytes: &[u8]) -> usize
    ensures value { result ≡ position_or_len (is_byte byte) bytes.now }
    ensures bound { result ≤ length bytes.now }
{
    first_of([byte; 4], bytes)
}

/// What stands before the first such byte, and what stands behind it; where there is none the whole text, and
/// nothing behind it.
pub fn first_part<'a>(byte: u8, text: &'a str) -> (&'a str, Option<&'a str>)
    requires ascii { byte < 128 }
    ensures value { (result.0.now, option_map (λ rest. rest.now) result.1) ≡ first_part byte text.now }
    ensures bound { length result.0.now ≤ length text.now }
    ensures rest { IfSome result.1 (λ rest. length result.0.now + length rest.now + 1 ≡ length text.now) }
{
    let at = first_byte(byte, text.as_bytes());
    if at == text.len() {
        return (text, None);
    }
    let (front, _) = text.split_at(at);
    let (_, behind) = text.split_at(at + 1);
    (front, Some(behind))
}

/// The parts of a text between the separators in it, from left to right: at least one, and each may be empty.
#[derive(Debug, Drop)]
pub struct Separated<'a> {
    separator: u8,
    offset: usize,
    rest: Option<&'a str>,
}

impl<'a> Model for Separated<'a> {
    ghost use Rattle.std.specs.Prelude.{ℕ, List, option_map};
    ghost use Rattle.text_parts.specs.Parts.{parts_left, IsLeft};

    ghost Value = { List (ℕ × List ℕ) };

    ghost view = { λ p. parts_left p.separator p.offset (option_map (λ rest. rest.now) p.rest) };

    ghost invariant = { λ p. IsLeft p.separator p.offset (option_map (λ rest. rest.now) p.rest) };
}

impl<'a> Separated<'a> {
    /// The parts of a text of a piece. The separator is ASCII.
    pub fn of(separator: u8, text: Placed<'a>) -> Separated<'a>
        requires ascii { separator < 128 }
        requires fits { Fits (text.offset, text.text.now) }
        ensures { result ≡ parts_of separator (text.entry.offset, text.entry.text.now) }
    {
        Separated {
            separator,
            offset: text.offset,
            rest: Some(text.text),
        }
    }

    /// The next part, with its offset in the piece; None where all were given.
    pub fn next(&mut self) -> Option<Placed<'a>>
        ensures next { MatchOption result (self.old ≡ [])
            (λ part. self.old ≡ (part.offset, part.text.now) ∷ self.new) }
        ensures end { MatchOption result (self.new ≡ []) (λ part. length self.new < length self.old) }
        ensures fits { IfSome result (λ part. Fits (part.offset, part.text.now)) }
    {
        let text = self.rest?;
        let (part, behind) = first_part(self.separator, text);
        let offset = self.offset;
        self.offset += part.len() + 1;
        self.rest = behind;
        Some(Placed { offset, text: part })
    }
}
