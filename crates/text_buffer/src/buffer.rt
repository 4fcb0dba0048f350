//! The buffer. What fails for want of memory leaves the text as it was.
ghost use Rattle.std.specs.Prelude.{◌≡◌, ◌==◌, ◌+◌, ◌-◌, ◌<◌, ◌≤◌, ◌++◌, ◌∷◌, [], ℕ, length, take, drop, map};
ghost use Rattle.std.specs.Prelude.{slice_set, is_ok, if◌then◌else◌, decimal, IfOk, OnOk, OnErr};
ghost use Rattle.text_buffer.specs.Tables.{IsTableOf};

use crate::digits::{MOST_DIGITS, place_digits};
use crate::place::{WINDOW, place_all, place_byte, place_start};
use crate::table::translate;
use std::alloc::{AllocError, Global};
use std::fmt;
use std::marker::Model;

/// How many bytes are made ready at once at least. Else it is as many as there are, so that a long text isn't grown
/// often.
const LEAST_AHEAD: usize = 64;

/// How many it is at most, unless more are asked for.
const MOST_AHEAD: usize = 1 << 14;

/// What stands ready.
static ZEROS: [u8; MOST_AHEAD] = [0; MOST_AHEAD];

/// A text of bytes that grows. Behind it bytes stand ready to be written over.
#[derive(Debug, Drop)]
pub struct TextBuffer {
    /// The text, and the bytes that stand ready.
    cells: Vec<u8>,
    /// How many bytes the text has.
    len: usize,
}

impl Model for TextBuffer {
    ghost use Rattle.std.specs.Prelude.{◌-◌, ◌≤◌, length, take};
    ghost use Rattle.text_buffer.specs.Buffered.{Buffered, buffered_code};

    ghost Value = { Buffered };

    ghost coded = { buffered_code };

    ghost view = { λ b. record { items = take b.len b.cells.items; ready = length b.cells.items - b.len } };

    ghost invariant = { λ b. b.len ≤ length b.cells.items };
}

impl TextBuffer {
    /// A buffer without a byte.
    pub fn new(alloc: Global) -> TextBuffer
        ensures items { result.items ≡ [] }
    {
        TextBuffer {
            cells: Vec::new(alloc),
            len: 0,
        }
    }

    /// A buffer with a text.
    pub fn of(text: Vec<u8>) -> TextBuffer
        ensures items { result.items ≡ text.items }
    {
        let len = text.len();
        TextBuffer { cells: text, len }
    }

    /// A buffer without a byte, in which so many stand ready.
    pub fn with_room(alloc: Global, count: usize) -> Result<TextBuffer, AllocError>
        ensures items { IfOk result (λ buffer. buffer.items ≡ []) }
        ensures ready { IfOk result (λ buffer. count ≤ buffer.ready) }
    {
        let mut buffer = TextBuffer::new(alloc);
        buffer.reserve(count)?;
        Ok(buffer)
    }

    /// The text alone.
    pub fn into_vec(self) -> Vec<u8>
        ensures items { result.items ≡ self.items }
    {
        let TextBuffer { mut cells, len } = self;
        cells.truncate(len);
        cells
    }

    /// How many bytes the text has.
    #[inline(always)]
    pub fn len(&self) -> usize
        ensures { result ≡ length self.now.items }
    {
        self.len
    }

    /// Whether the text has no byte.
    #[inline(always)]
    pub fn is_empty(&self) -> bool
        ensures { result ≡ (length self.now.items == 0) }
    {
        self.len == 0
    }

    /// The text.
    #[inline(always)]
    pub fn as_slice(&self) -> &[u8]
        ensures value { result.now ≡ self.now.items }
    {
        &self.cells[..self.len]
    }

    /// Lets all bytes of the text go. Their memory stands ready.
    pub fn clear(&mut self)
        ensures items { self.new.items ≡ [] }
    {
        self.len = 0;
    }

    /// Cuts the text to a length, where it is longer.
    pub fn truncate(&mut self, len: usize)
        ensures items { self.new.items ≡ take len self.old.items }
    {
        if len < self.len {
            self.len = len;
        }
    }

    /// Lets memory go where more than so many bytes are kept, those of the text among them. The text stays.
    pub fn shrink_to(&mut self, most: usize)
        ensures { self.new.items ≡ self.old.items }
    {
        self.cells.truncate(most.max(self.len));
        self.cells.shrink_to(most);
    }

    /// Sets a byte of the text.
    pub fn set(&mut self, at: usize, byte: u8)
        requires { at < length self.old.items }
        ensures { self.new.items ≡ slice_set self.old.items at byte }
    {
        self.cells[at] = byte;
    }

    /// Puts each byte of the text, from an index on, as it stands in a table of all bytes.
    pub fn translate(&mut self, start: usize, table: &[u8; 256])
        requires { start ≤ length self.old.items }
        ensures { (f : ℕ → ℕ) → IsTableOf f table.now
            → self.new.items ≡ take start self.old.items ++ map f (drop start self.old.items) }
    {
        translate(table, &mut self.cells[start..self.len]);
    }

    /// Makes so many bytes ready at least. `OutOfMemory` leaves the text as it was, as each call here that gives it.
    #[inline(always)]
    pub fn reserve(&mut self, count: usize) -> Result<(), AllocError>
        ensures items { self.new.items ≡ self.old.items }
        ensures ready { OnOk result (count ≤ self.new.ready) }
        ensures full { OnErr result (self.old.ready < count) }
    {
        if count <= self.cells.len() - self.len {
            return Ok(());
        }
        self.grow(count)
    }

    // Makes more bytes ready than are.
    #[cold]
    #[inline(never)]
    fn grow(&mut self, count: usize) -> Result<(), AllocError>
        ensures items { self.new.items ≡ self.old.items }
        ensures ready { OnOk result (count ≤ self.new.ready) }
    {
        let filled = self.cells.len();
        let more = count.max(filled.clamp(LEAST_AHEAD, MOST_AHEAD));
        self.cells.reserve(more)?;
        if more <= MOST_AHEAD {
            self.cells.extend_from_slice(&ZEROS[..more])?;
        } else {
            self.cells.resize(filled + more, 0)?;
        }
        Ok(())
    }

    /// Appends a byte that stands ready.
    #[inline(always)]
    pub fn put_byte(&mut self, byte: u8)
        requires { 1 ≤ self.old.ready }
        ensures items { self.new.items ≡ self.old.items ++ byte ∷ [] }
        ensures ready { self.new.ready + 1 ≡ self.old.ready }
    {
        self.len = place_byte(self.cells.as_mut_slice(), self.len, byte);
    }

    /// Appends the first bytes of others, of which it writes 24, so that the copy has one size.
    #[inline(always)]
    pub fn put_front(&mut self, bytes: &[u8], count: usize)
        requires written { (WINDOW ≤ length bytes.now) × (WINDOW ≤ self.old.ready) }
        requires count { count ≤ WINDOW }
        ensures items { self.new.items ≡ self.old.items ++ take count bytes.now }
        ensures ready { self.new.ready + count ≡ self.old.ready }
    {
        self.len = place_start(self.cells.as_mut_slice(), self.len, bytes, count);
    }

    /// Appends bytes that stand ready.
    #[inline(always)]
    pub fn put_slice(&mut self, bytes: &[u8])
        requires { length bytes.now ≤ self.old.ready }
        ensures items { self.new.items ≡ self.old.items ++ bytes.now }
        ensures ready { self.new.ready + length bytes.now ≡ self.old.ready }
    {
        self.len = place_all(self.cells.as_mut_slice(), self.len, bytes);
    }

    // Appends a number's digits, in room that stands ready.
    #[inline(always)]
    pub(crate) fn put_uint(&mut self, n: u64)
        requires { MOST_DIGITS ≤ self.old.ready }
        ensures { self.new.items ≡ self.old.items ++ decimal n }
    {
        self.len = place_digits(self.cells.as_mut_slice(), self.len, n);
    }

    /// Appends a byte.
    #[inline(always)]
    pub fn push(&mut self, byte: u8) -> Result<(), AllocError>
        ensures items { self.new.items ≡ (if is_ok result then self.old.items ++ byte ∷ [] else self.old.items) }
        ensures full { OnErr result (self.old.ready ≡ 0) }
    {
        self.reserve(1)?;
        self.put_byte(byte);
        Ok(())
    }

    /// Appends the first bytes of others. `AllocError`, which comes only where fewer than 24 bytes stand ready, leaves
    /// the text as it was.
    #[inline(always)]
    pub fn extend_from_front(&mut self, bytes: &[u8], count: usize) -> Result<(), AllocError>
        requires { (WINDOW ≤ length bytes.now) × (count ≤ WINDOW) }
        ensures items { self.new.items
            ≡ (if is_ok result then self.old.items ++ take count bytes.now else self.old.items) }
        ensures full { OnErr result (self.old.ready < WINDOW) }
    {
        self.reserve(WINDOW)?;
        self.put_front(bytes, count);
        Ok(())
    }

    /// Appends bytes.
    #[inline(always)]
    pub fn extend_from_slice(&mut self, bytes: &[u8]) -> Result<(), AllocError>
        ensures items { self.new.items ≡ (if is_ok result then self.old.items ++ bytes.now else self.old.items) }
        ensures full { OnErr result (self.old.ready < length bytes.now) }
    {
        self.reserve(bytes.len())?;
        self.put_slice(bytes);
        Ok(())
    }
}

impl fmt::Write for TextBuffer {
    ghost use Rattle.std.specs.Prelude.{◌≡◌, ◌++◌};

    ghost write_str_gives = { λ before text now. now.items ≡ before.items ++ text };

    fn write_str(&mut self, text: &str) -> fmt::Result {
        match self.extend_from_slice(text.as_bytes()) {
            Ok(()) => Ok(()),
            Err(_) => Err(fmt::Error),
        }
    }
}
