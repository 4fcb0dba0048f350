//! A few bytes, taken as words: so a short text is made in registers, and no call copies it.
ghost use Rattle.std.specs.Prelude.{◌≡◌, ◌+◌, ◌-◌, ◌≤◌, ◌<◌, ◌++◌, length, take, drop};
ghost use Rattle.std.specs.Int.{w64, to_le_bytes, bytes_low_first};

use crate::in_place::MOST;
use std::simd::Simd;

/// How many bytes a word has.
const WORD: usize = 8;

// The word of eight bytes that stand at an index, the first one lowest.
#[inline(always)]
fn word_at(bytes: &[u8], at: usize) -> u64
    requires { at + WORD ≤ length bytes.now }
    ensures { to_le_bytes w64 result ≡ take WORD (drop at bytes.now) }
{
    u64::from_le_bytes(Simd::<u8, 8>::from_slice(&bytes[at..]).to_array())
}

// The word of fewer than eight bytes.
#[inline(always)]
fn word_of_few(bytes: &[u8]) -> u64
    requires { length bytes.now < WORD }
    ensures { bytes_low_first 0 (length bytes.now) result ≡ bytes.now }
{
    let mut word = 0;
    let mut at = bytes.len();
    while at > 0 {
        at -= 1;
        word = word * 256 + u64::from(bytes[at]);
    }
    word
}

// The highest bytes of a word, as its lowest ones.
#[inline(always)]
fn highest(word: u64, count: usize) -> u64
    requires { (0 < count) × (count ≤ WORD) }
    ensures { bytes_low_first 0 count result ≡ drop (WORD - count) (to_le_bytes w64 word) }
{
    word >> (8 * (WORD - count))
}

// The bytes of three words, one behind the other.
#[inline(always)]
fn row_of(first: u64, second: u64, third: u64) -> [u8; MOST]
    ensures { result ≡ to_le_bytes w64 first ++ (to_le_bytes w64 second ++ to_le_bytes w64 third) }
{
    let a = first.to_le_bytes();
    let b = second.to_le_bytes();
    let c = third.to_le_bytes();
    [
        a[0], a[1], a[2], a[3], a[4], a[5], a[6], a[7], b[0], b[1], b[2], b[3], b[4], b[5], b[6],
        b[7], c[0], c[1], c[2], c[3], c[4], c[5], c[6], c[7],
    ]
}

// The three words that begin with some bytes. (What stands behind these is for speed: zeros.)
#[inline(always)]
fn words_of(bytes: &[u8]) -> (u64, u64, u64)
    requires { length bytes.now ≤ MOST }
    ensures { take (length bytes.now)
        (to_le_bytes w64 result.0 ++ (to_le_bytes w64 result.1 ++ to_le_bytes w64 result.2)) ≡ bytes.now }
{
    let len = bytes.len();
    if len < WORD {
        return (word_of_few(bytes), 0, 0);
    }
    let first = word_at(bytes, 0);
    if len == WORD {
        return (first, 0, 0);
    }
    let last = word_at(bytes, len - WORD);
    if len <= 2 * WORD {
        return (first, highest(last, len - WORD), 0);
    }
    (first, word_at(bytes, WORD), highest(last, len - 2 * WORD))
}

/// A row that begins with some bytes. (What stands behind them is for speed: zeros.)
#[inline(always)]
pub(crate) fn row_with(bytes: &[u8]) -> [u8; MOST]
    requires { length bytes.now ≤ MOST }
    ensures { take (length bytes.now) result ≡ bytes.now }
{
    let (first, second, third) = words_of(bytes);
    row_of(first, second, third)
}
