//! The words of a line, and what one word says.
ghost use Rattle.std.specs.Prelude.{◌≡◌, decimal, option_map, Some, None, if◌then◌else◌};
ghost use Rattle.std.specs.Str.{bytes_eq};
ghost use Rattle.journal_reader.specs.Words.{spelled, taken, behind, is_none_left, number, small_number};
ghost use Rattle.journal_reader.specs.Words.{signed_number, either_of};

use crate::parts::Parts;
use fixed_num::{NumFault, read_int, read_uint};
use itoa::{Buffer, Integer};

/// The words of a line that are left.
pub(crate) type Words<'a> = Parts<'a>;

/// Whether a word is this text.
#[inline(always)]
pub(crate) fn is(word: &[u8], text: &str) -> bool
    ensures { result ≡ bytes_eq word.now text.now }
{
    word == text.as_bytes()
}

/// What was read of a word as a number, where the word is the text of that.
#[inline(always)]
fn spelled<N: Integer>(word: &[u8], read: Result<N, NumFault>) -> Option<N>
    ensures { result ≡ spelled N.text word.now read }
{
    let n = read.ok()?;
    let mut buffer = Buffer::new();
    if is(word, buffer.format(n)) {
        Some(n)
    } else {
        None
    }
}

/// The number whose decimal a word is.
#[inline(always)]
#[tactic(auto, unfolding(crate::specs::Words::number))]
pub(crate) fn number(word: &[u8]) -> Option<u64>
    ensures { result ≡ number word.now }
{
    spelled(word, read_uint(word))
}

/// The number below 2^32 whose decimal a word is.
#[inline(always)]
#[tactic(auto, unfolding(crate::specs::Words::small_number))]
pub(crate) fn small_number(word: &[u8]) -> Option<u32>
    ensures { result ≡ small_number word.now }
{
    let n = number(word)?;
    if n < 1 << 32 { Some(n as u32) } else { None }
}

/// The number that may be negative whose decimal a word is.
#[inline(always)]
#[tactic(auto, unfolding(crate::specs::Words::signed_number))]
pub(crate) fn signed_number(word: &[u8]) -> Option<i64>
    ensures { result ≡ signed_number word.now }
{
    spelled(word, read_int(word))
}

/// Takes the first word where it is this text, and says whether it was.
#[inline(always)]
#[tactic(auto, unfolding(crate::specs::Words::behind))]
pub(crate) fn take_word(words: &mut Words<'_>, text: &str) -> bool
    ensures { behind text.now words.old ≡ (if result then Some words.new else None) }
{
    match words.next() {
        Some(word) => is(word, text),
        None => false,
    }
}

/// Takes the first word where it is the decimal of a number, and says whether it was.
#[tactic(auto, unfolding(crate::specs::Words::behind))]
pub(crate) fn take_decimal(words: &mut Words<'_>, n: u64) -> bool
    ensures { behind (decimal n) words.old ≡ (if result then Some words.new else None) }
{
    let mut buffer = Buffer::new();
    take_word(words, buffer.format(n))
}

/// Takes the first word, and gives the number that it is.
#[inline(always)]
pub(crate) fn take_number(words: &mut Words<'_>) -> Option<u64>
    ensures { taken number words.old ≡ option_map (λ n. (n, words.new)) result }
{
    number(words.next()?)
}

/// Takes the first word, and gives the number below 2^32 that it is.
#[inline(always)]
pub(crate) fn take_small(words: &mut Words<'_>) -> Option<u32>
    ensures { taken small_number words.old ≡ option_map (λ n. (n, words.new)) result }
{
    small_number(words.next()?)
}

/// Takes the first word, and gives the number that it is, which may be negative.
#[inline(always)]
pub(crate) fn take_signed(words: &mut Words<'_>) -> Option<i64>
    ensures { taken signed_number words.old ≡ option_map (λ n. (n, words.new)) result }
{
    signed_number(words.next()?)
}

/// Whether a word is the first of two texts, where it is one of them.
#[tactic(auto, unfolding(crate::specs::Words::either_of))]
fn either_of(word: &[u8], first: &str, second: &str) -> Option<bool>
    ensures { result ≡ either_of first.now second.now word.now }
{
    if is(word, first) {
        return Some(true);
    }
    if is(word, second) {
        return Some(false);
    }
    None
}

/// Takes the first word, and says whether it is the first of two texts, where it is one of them.
pub(crate) fn take_either(words: &mut Words<'_>, first: &str, second: &str) -> Option<bool>
    ensures { taken (either_of first.now second.now) words.old ≡ option_map (λ t. (t, words.new)) result }
{
    either_of(words.next()?, first, second)
}

/// Whether no word is left.
#[inline(always)]
pub(crate) fn is_end(words: &mut Words<'_>) -> bool
    ensures { result ≡ is_none_left words.old }
{
    words.next().is_none()
}
