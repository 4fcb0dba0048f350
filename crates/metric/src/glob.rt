//! Globs: patterns for whole texts.
ghost use Rattle.std.specs.Prelude.{◌≡◌, ◌↔◌, IsTrue, chars};
ghost use Rattle.metric.specs.Glob.{glob_of, matches, Matches, Reads, TestsMatches};

use crate::glob_scan::found;
use crate::glob_text::read_elements;
use fixed_num::{OutOfMemory, Seq};
use std::alloc::Global;
use std::marker::Model;
use thiserror::Error;

/// Why a text is no glob.
#[derive(Clone, Copy, Debug, Error, PartialEq, Eq)]
pub enum GlobFault {
    /// No memory was left.
    #[error("out of memory")]
    OutOfMemory,
    /// A set isn't closed or is empty, a range's low end is above its high end, a backslash stands last, or a
    /// brace unescaped.
    #[error("the text is no glob")]
    BadGlob,
}

impl From<OutOfMemory> for GlobFault {
    ghost use Rattle.metric.specs.declared.glob.GlobFault.TheVariants.{OutOfMemory};

    ghost from_gives = { λ _ fault. fault ≡ OutOfMemory };

    fn from(_fault: OutOfMemory) -> GlobFault {
        GlobFault::OutOfMemory
    }
}

/// One element of a glob.
#[derive(Debug, Drop)]
pub enum Element {
    /// `*`: any run of characters, the empty one too.
    Run,
    /// `?`: any one character.
    One,
    /// This character.
    Exactly(char),
    /// `[..]`: one character of these ranges.
    OneOf(Seq<(char, char)>),
    /// `[!..]`: one character that is in none of these ranges.
    NoneOf(Seq<(char, char)>),
}

/// A pattern for whole texts, made of elements; it works on characters.
#[derive(Debug, Drop)]
pub struct Glob {
    elements: Seq<Element>,
}

impl Model for Glob {
    ghost use Rattle.std.specs.Prelude.{List};
    ghost use Rattle.metric.specs.declared.glob.Element.{Element};

    ghost Value = { List Element };

    ghost view = { λ g. g.elements };
}

impl Glob {
    /// The glob that a text spells: `*` is any run of characters, `?` any one, `[..]` one of the characters
    /// and ranges in it, `[!..]` one that isn't; a backslash makes the next character stand for itself, and
    /// each other character stands for itself. A set ends at its first unescaped `]`. BadGlob exactly where
    /// a set isn't closed or is empty, a range's low end is above its high end, a backslash stands last, or
    /// a brace unescaped.
    pub fn read(alloc: Global, text: &str) -> Result<Glob, GlobFault>
        ensures { Reads result (glob_of (chars text.now)) }
    {
        match read_elements(alloc, text)? {
            Some(elements) => Ok(Glob {
                elements: Seq::of(elements),
            }),
            None => Err(GlobFault::BadGlob),
        }
    }

    /// Does the glob match the whole text? True exactly where the text is a concatenation of pieces, one for
    /// each element, admitted by it.
    pub fn matches(&self, text: &str) -> bool
        ensures value { result ≡ matches self.now (chars text.now) }
        ensures meaning { IsTrue result ↔ Matches self.now (chars text.now) }
    {
        found(self.elements(), text)
    }

    /// The elements, in order.
    fn elements(&self) -> &[Element]
        ensures { result.now ≡ self.now }
    {
        self.elements.as_slice()
    }
}

/// The test of globs says of each text whether it matches.
pub fn tests_matches()
    ensures { TestsMatches }
{}
