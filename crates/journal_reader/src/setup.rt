//! The lines of the set-up, by their words.
ghost use Rattle.std.specs.Prelude.{◌≡◌, option_map, Some, None, if◌then◌else◌};
ghost use Rattle.journal_reader.specs.Words.{taken, words_of};
ghost use Rattle.journal_reader.specs.SetupReading.{start_in, numbered_in, tracking_in, tracking_behind, input_in};
ghost use Rattle.journal_reader.specs.SetupReading.{letter_of, statistics_of, kind_behind, kind_of};
ghost use Rattle.journal_reader.specs.SetupReading.{times_in, agg_in, output_in};

use crate::parts::{Parts, cut};
use crate::words::{
    Words, is, is_end, signed_number, take_decimal, take_either, take_signed, take_small, take_word,
};
use account::{AggLine, AggWord};
use fixed_num::Moment;

/// The words of a line.
#[inline(always)]
pub(crate) fn words_of(line: &[u8]) -> Words<'_>
    ensures { result ≡ words_of line.now }
{
    Parts::of(b' ', line)
}

/// `start MOMENT`.
#[tactic(auto, unfolding(crate::specs::SetupReading::start_in))]
pub(crate) fn start_in(words: &mut Words<'_>) -> Option<Moment>
    ensures { result ≡ start_in words.old }
{
    if !take_word(words, "start") {
        return None;
    }
    let moment = take_signed(words)?;
    if is_end(words) { Some(moment) } else { None }
}

/// Takes a word and a number where they stand first, and says whether they did.
#[tactic(auto, unfolding(crate::specs::SetupReading::numbered_in))]
pub(crate) fn take_numbered(words: &mut Words<'_>, word: &str, index: u64) -> bool
    ensures { numbered_in word.now index words.old ≡ (if result then Some words.new else None) }
{
    if !take_word(words, word) {
        return false;
    }
    take_decimal(words, index)
}

/// `plain`, or `tracked MAX`.
fn tracking_in(words: &mut Words<'_>) -> Option<Option<u32>>
    ensures { result ≡ tracking_in words.old }
{
    let word = words.next()?;
    tracking_behind(word, words)
}

#[tactic(auto, unfolding(crate::specs::SetupReading::tracking_behind))]
fn tracking_behind(word: &[u8], words: &mut Words<'_>) -> Option<Option<u32>>
    ensures { result ≡ tracking_behind word.now words.old }
{
    if is(word, "plain") {
        return if is_end(words) { Some(None) } else { None };
    }
    if !is(word, "tracked") {
        return None;
    }
    let most = take_small(words)?;
    if is_end(words) {
        Some(Some(most))
    } else {
        None
    }
}

/// `input I plain` or `input I tracked MAX`, of the input of a number.
#[tactic(auto, unfolding(crate::specs::SetupReading::input_in))]
pub(crate) fn input_in(index: u64, words: &mut Words<'_>) -> Option<Option<u32>>
    ensures { result ≡ input_in index words.old }
{
    if !take_numbered(words, "input", index) {
        return None;
    }
    tracking_in(words)
}

/// Statistics by their letters, in order.
#[tactic(auto, unfolding(crate::specs::SetupReading::statistics_of))]
fn statistics_of(letters: &[u8]) -> Option<AggWord>
    ensures { result ≡ statistics_of letters.now }
{
    let (sum, rest) = take_letter(b's', letters);
    let (count, rest) = take_letter(b'c', rest);
    let (min, rest) = take_letter(b'm', rest);
    let (max, rest) = take_letter(b'x', rest);
    if !rest.is_empty() {
        return None;
    }
    Some(AggWord::Basic {
        sum,
        count,
        min,
        max,
    })
}

/// Whether a letter stands first, and what stands behind it then.
#[tactic(auto, unfolding(crate::specs::SetupReading::letter_of))]
fn take_letter<'a>(letter: u8, letters: &'a [u8]) -> (bool, &'a [u8])
    ensures { (result.0, result.1.now) ≡ letter_of letter letters.now }
{
    match letters {
        [first, rest @ ..] if *first == letter => (true, rest),
        _ => (false, letters),
    }
}

/// The kind of an aggregator.
#[tactic(auto, unfolding(crate::specs::SetupReading::kind_of))]
fn kind_of(word: &[u8]) -> Option<AggWord>
    ensures { result ≡ kind_of word.now }
{
    if is(word, "minmax") {
        return Some(AggWord::MinMax);
    }
    if is(word, "merge") {
        return Some(AggWord::Merge);
    }
    match cut(b':', word) {
        Some((kind, rest)) => kind_behind(kind, rest),
        None => None,
    }
}

/// A kind with something behind its colon.
#[tactic(auto, unfolding(crate::specs::SetupReading::kind_behind))]
fn kind_behind(kind: &[u8], rest: &[u8]) -> Option<AggWord>
    ensures { result ≡ kind_behind kind.now rest.now }
{
    if is(kind, "basicstats") {
        return statistics_of(rest);
    }
    if is(kind, "final") {
        let timeout = signed_number(rest)?;
        return Some(AggWord::Final(timeout));
    }
    None
}

/// Takes the first word, and gives the kind of an aggregator that it is.
fn take_kind(words: &mut Words<'_>) -> Option<AggWord>
    ensures { taken kind_of words.old ≡ option_map (λ kind. (kind, words.new)) result }
{
    kind_of(words.next()?)
}

/// What stands behind the number of an aggregator.
#[tactic(auto, unfolding(crate::specs::SetupReading::times_in))]
fn times_in(kind: AggWord, words: &mut Words<'_>) -> Option<AggLine>
    ensures { result ≡ times_in kind words.old }
{
    let period = take_signed(words)?;
    let delay = take_signed(words)?;
    let grace = take_signed(words)?;
    let dropping = take_either(words, "drop", "keep")?;
    if !is_end(words) {
        return None;
    }
    Some(AggLine {
        kind,
        period,
        delay,
        grace,
        dropping,
    })
}

/// `aggregator A KIND PERIOD DELAY GRACE keep` or `drop`, of the aggregator of a number.
#[tactic(auto, unfolding(crate::specs::SetupReading::agg_in))]
pub(crate) fn agg_in(index: u64, words: &mut Words<'_>) -> Option<AggLine>
    ensures { result ≡ agg_in index words.old }
{
    if !take_numbered(words, "aggregator", index) {
        return None;
    }
    let kind = take_kind(words)?;
    times_in(kind, words)
}

/// `output O BATCH LIMIT`, of the output of a number.
#[tactic(auto, unfolding(crate::specs::SetupReading::output_in))]
pub(crate) fn output_in(index: u64, words: &mut Words<'_>) -> Option<(u32, u32)>
    ensures { result ≡ output_in index words.old }
{
    if !take_numbered(words, "output", index) {
        return None;
    }
    let batch = take_small(words)?;
    let limit = take_small(words)?;
    if is_end(words) {
        Some((batch, limit))
    } else {
        None
    }
}
