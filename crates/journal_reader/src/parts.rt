//! Texts cut at a byte.
ghost use Rattle.std.specs.Prelude.{◌≡◌, ◌<◌, ◌≤◌, ◌+◌, [], ◌∷◌, length, option_map, MatchOption, IfSome};
ghost use Rattle.std.specs.List.{position_or_len, slice_split};
ghost use Rattle.text_parts.specs.Split.{first_part, is_byte};
ghost use Rattle.journal_reader.specs.Words.{cut};

use std::marker::Model;
use text_parts::first_of;

/// The offset of the first such byte; the length where there is none.
fn first_byte(byte: u8, bytes: &[u8]) -> usize
    ensures value { result ≡ position_or_len (is_byte byte) bytes.now }
    ensures bound { result ≤ length bytes.now }
{
    first_of([byte; 4], bytes)
}

/// What stands before the first such byte, and what stands behind it; where there is none the whole text, and
/// nothing behind it.
#[inline(always)]
pub(crate) fn first_part<'a>(byte: u8, text: &'a [u8]) -> (&'a [u8], Option<&'a [u8]>)
    ensures value { (result.0.now, option_map (λ rest. rest.now) result.1) ≡ first_part byte text.now }
    ensures rest { IfSome result.1 (λ rest. length result.0.now + length rest.now + 1 ≡ length text.now) }
{
    let at = first_byte(byte, text);
    if at == text.len() {
        return (text, None);
    }
    let (front, _) = text.split_at(at);
    let (_, behind) = text.split_at(at + 1);
    (front, Some(behind))
}

/// What stands before the first such byte and behind it, where there is one.
#[tactic(auto, unfolding(crate::specs::Words::cut))]
pub(crate) fn cut<'a>(byte: u8, text: &'a [u8]) -> Option<(&'a [u8], &'a [u8])>
    ensures { option_map (λ parts. (parts.0.now, parts.1.now)) result ≡ cut byte text.now }
{
    match first_part(byte, text) {
        (front, Some(behind)) => Some((front, behind)),
        (_, None) => None,
    }
}

/// The parts of a text between the separators in it, from left to right: at least one, and each may be empty.
#[derive(Debug, Drop)]
pub(crate) struct Parts<'a> {
    separator: u8,
    rest: Option<&'a [u8]>,
}

impl<'a> Model for Parts<'a> {
    ghost use Rattle.std.specs.Prelude.{ℕ, List, option_map};
    ghost use Rattle.journal_reader.specs.Words.{parts_left};

    ghost Value = { List (List ℕ) };

    ghost view = { λ p. parts_left p.separator (option_map (λ rest. rest.now) p.rest) };
}

impl<'a> Parts<'a> {
    /// The parts of a text.
    #[inline(always)]
    pub(crate) fn of(separator: u8, text: &'a [u8]) -> Parts<'a>
        ensures { result ≡ slice_split (is_byte separator) text.now }
    {
        Parts {
            separator,
            rest: Some(text),
        }
    }

    /// The next part; None where all were given.
    #[inline(always)]
    pub(crate) fn next(&mut self) -> Option<&'a [u8]>
        ensures next { MatchOption result (self.old ≡ []) (λ part. self.old ≡ part.now ∷ self.new) }
        ensures end { MatchOption result (self.new ≡ []) (λ part. length self.new < length self.old) }
    {
        let text = self.rest?;
        let (part, behind) = first_part(self.separator, text);
        self.rest = behind;
        Some(part)
    }
}
