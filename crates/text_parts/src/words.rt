//! The words of a text.
ghost use Rattle.std.specs.Prelude.{◌≡◌, ◌<◌, [], ◌∷◌, length, MatchOption, IfSome};
ghost use Rattle.text_parts.specs.Split.{Fits};
ghost use Rattle.text_parts.specs.Words.{words_of};

use crate::split::{Placed, Separated};
use std::marker::Model;

/// The words of a text from left to right: what stands between its spaces and isn't empty. Words may have
/// more than one space between them, and spaces may stand at both ends.
#[derive(Debug, Drop)]
pub struct Words<'a> {
    parts: Separated<'a>,
}

impl<'a> Model for Words<'a> {
    ghost use Rattle.std.specs.Prelude.{ℕ, List, filter};
    ghost use Rattle.text_parts.specs.Words.{is_filled};

    ghost Value = { List (ℕ × List ℕ) };

    ghost view = { λ w. filter is_filled w.parts };
}

impl<'a> Words<'a> {
    /// The words of a text of a piece.
    #[tactic(auto, unfolding(crate::specs::Words::words_of))]
    pub fn of(text: Placed<'a>) -> Words<'a>
        requires { Fits (text.offset, text.text.now) }
        ensures { result ≡ words_of (text.entry.offset, text.entry.text.now) }
    {
        Words {
            parts: Separated::of(b' ', text),
        }
    }

    /// The next word, with its offset in the piece; None where all were given.
    pub fn next(&mut self) -> Option<Placed<'a>>
        ensures next { MatchOption result (self.old ≡ [])
            (λ word. self.old ≡ (word.offset, word.text.now) ∷ self.new) }
        ensures end { MatchOption result (self.new ≡ []) (λ word. length self.new < length self.old) }
        ensures filled { IfSome result (λ word. 0 < length word.text.now) }
    {
        while let Some(part) = self.parts.next() {
            if !part.text.is_empty() {
                return Some(part);
            }
        }
        None
    }
}
