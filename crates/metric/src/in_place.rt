//! Short texts that stand in place.
ghost use Rattle.std.specs.Prelude.{◌≡◌, ◌≤◌, ◌++◌, true, length, take, OnErr, OnOk};

use crate::words::row_with;
use fixed_num::OutOfMemory;
use std::marker::Model;
use std::{fmt, str};
use text_buffer::TextBuffer;

/// The most bytes of a text in place: three words.
pub(crate) const MOST: usize = 24;

/// A UTF-8 text of at most 24 bytes, in place.
#[derive(Drop)]
pub(crate) struct InPlace {
    /// Its bytes. (What stands behind them is for speed: zeros.)
    cells: [u8; MOST],
    /// How many bytes it has.
    len: u32,
}

impl Model for InPlace {
    ghost use Rattle.std.specs.Prelude.{List, ℕ, take};
    ghost use Rattle.metric.specs.InPlace.{IsPlaced};

    ghost Value = { List ℕ };

    ghost view = { λ t. take t.len t.cells };

    ghost invariant = { λ t. IsPlaced t.cells t.len };
}

impl InPlace {
    /// A copy of a text.
    #[inline(always)]
    pub fn of(s: &str) -> InPlace
        requires { length s.now ≤ MOST }
        ensures { result ≡ s.now }
    {
        InPlace {
            cells: row_with(s.as_bytes()),
            len: s.len() as u32,
        }
    }

    /// The text.
    #[inline(always)]
    pub fn as_str(&self) -> &str
        ensures { result.now ≡ self.now }
    {
        let (bytes, _) = self.cells.split_at(self.len as usize);
        unsafe { str::from_utf8_unchecked(bytes) }
    }

    /// Appends the text. All cells are copied, so that the copy has one size.
    /// `OutOfMemory` leaves `out` as it was.
    #[inline(always)]
    pub fn append(&self, out: &mut TextBuffer) -> Result<(), OutOfMemory>
        ensures ok { OnOk result (out.new.items ≡ out.old.items ++ self.now) }
        ensures err { OnErr result (out.new.items ≡ out.old.items) }
    {
        out.extend_from_front(&self.cells, self.len as usize)?;
        Ok(())
    }

    /// An equal text.
    #[inline(always)]
    pub fn copy(&self) -> InPlace
        ensures { result ≡ self.now }
    {
        InPlace {
            cells: self.cells,
            len: self.len,
        }
    }

    /// Whether both are kept alike: then the texts are equal. It takes one comparison for all bytes.
    #[inline(always)]
    pub fn is_kept_as(&self, other: &InPlace) -> bool
        ensures { result ≡ true → self.now ≡ other.now }
    {
        self.len == other.len && self.cells == other.cells
    }
}

impl fmt::Debug for InPlace {
    fn fmt<W: fmt::Write>(&self, f: &mut fmt::Formatter<W>) -> fmt::Result {
        fmt::Debug::fmt(self.as_str(), f)
    }
}
