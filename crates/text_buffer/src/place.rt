//! Bytes written over cells that are there.
ghost use Rattle.std.specs.Prelude.{◌≡◌, ◌+◌, ◌≤◌, ◌<◌, ◌∷◌, [], length, take};
ghost use Rattle.text_buffer.specs.Placed.{Placed};

use std::simd::Simd;

/// How many bytes are copied of a short text, whatever its length.
pub const WINDOW: usize = 24;

// Writes a byte.
#[inline(always)]
pub fn place_byte(cells: &mut [u8], at: usize, byte: u8) -> usize
    requires { at < length cells.old }
    ensures { Placed cells.old cells.new at (byte ∷ []) result }
{
    cells[at] = byte;
    at + 1
}

// Writes the first bytes of others, in one move.
#[inline(always)]
pub fn place_front<const N: usize>(cells: &mut [u8], at: usize, bytes: &[u8]) -> usize
    requires { (N ≤ length bytes.now) × (at + N ≤ length cells.old) }
    ensures { Placed cells.old cells.new at (take N bytes.now) result }
{
    Simd::<u8, N>::from_slice(bytes).copy_to_slice(&mut cells[at..]);
    at + N
}

// Writes the first 24 bytes of others, in two moves.
#[inline(always)]
pub fn place_window(cells: &mut [u8], at: usize, bytes: &[u8]) -> usize
    requires { (WINDOW ≤ length bytes.now) × (at + WINDOW ≤ length cells.old) }
    ensures { Placed cells.old cells.new at (take WINDOW bytes.now) result }
{
    let mid = place_front::<16>(cells, at, bytes);
    place_front::<8>(cells, mid, &bytes[16..])
}

// Writes 24 bytes, of which the first count, so that the copy has one size whatever the count.
#[inline(always)]
pub fn place_start(cells: &mut [u8], at: usize, bytes: &[u8], count: usize) -> usize
    requires written { (WINDOW ≤ length bytes.now) × (at + WINDOW ≤ length cells.old) }
    requires count { count ≤ WINDOW }
    ensures { Placed cells.old cells.new at (take count bytes.now) result }
{
    place_window(cells, at, bytes);
    at + count
}

// Writes bytes.
#[inline(always)]
pub fn place_all(cells: &mut [u8], at: usize, bytes: &[u8]) -> usize
    requires { at + length bytes.now ≤ length cells.old }
    ensures { Placed cells.old cells.new at bytes.now result }
{
    let end = at + bytes.len();
    cells[at..end].copy_from_slice(bytes);
    end
}
