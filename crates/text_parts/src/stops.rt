//! The first of some bytes, looked for sixteen at a time.
ghost use Rattle.std.specs.Prelude.{◌≡◌, ◌≢◌, ◌<◌, ◌≤◌, ◌==◌, ℕ, length};
ghost use Rattle.std.specs.Int.{bit_at};
ghost use Rattle.std.specs.List.{position_or_len};
ghost use Rattle.text_parts.specs.Stops.{is_any_of, Says};

use std::simd::prelude::*;

/// How many bytes are looked at together.
const LANES: usize = 16;

/// Which lanes hold a byte.
#[inline(always)]
fn equal_bits(lanes: u8x16, byte: u8) -> u64
    ensures { Says (λ b. b == byte) lanes result }
{
    lanes.simd_eq(u8x16::splat(byte)).to_bitmask()
}

/// Which of the first bytes are one of these.
#[inline(always)]
fn any_bits(stops: [u8; 4], bytes: &[u8]) -> u64
    requires { LANES ≤ length bytes.now }
    ensures { Says (is_any_of stops) bytes.now result }
{
    let lanes = u8x16::from_slice(bytes);
    let front = equal_bits(lanes, stops[0]) | equal_bits(lanes, stops[1]);
    front | equal_bits(lanes, stops[2]) | equal_bits(lanes, stops[3])
}

/// The number of the lowest bit.
#[inline(always)]
fn lowest(bits: u64) -> usize
    requires { bits ≢ 0 }
    ensures set { bit_at bits result ≡ 1 }
    ensures below { (k : ℕ) → k < result → bit_at bits k ≡ 0 }
{
    bits.trailing_zeros() as usize
}

/// Whether a byte is one of these.
#[inline(always)]
fn is_any(stops: [u8; 4], byte: u8) -> bool
    ensures { result ≡ is_any_of stops byte }
{
    byte == stops[0] || byte == stops[1] || byte == stops[2] || byte == stops[3]
}

/// The offset of the first byte that is one of four; the length where there is none. Where there are fewer than four
/// such bytes, one of them is given again.
#[inline(always)]
pub fn first_of(stops: [u8; 4], bytes: &[u8]) -> usize
    ensures value { result ≡ position_or_len (is_any_of stops) bytes.now }
    ensures bound { result ≤ length bytes.now }
{
    let mut at = 0;
    while LANES <= bytes.len() - at {
        let bits = any_bits(stops, &bytes[at..]);
        if bits != 0 {
            return at + lowest(bits);
        }
        at += LANES;
    }
    let mut last = at;
    while last < bytes.len() && !is_any(stops, bytes[last]) {
        last += 1;
    }
    last
}
