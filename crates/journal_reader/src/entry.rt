//! The lines of entries but Routes, by their words.
ghost use Rattle.std.specs.Prelude.{◌≡◌, ℤ, ℕ, option_map, Some, None, [], IfOk, if◌then◌else◌};
ghost use Rattle.journal_reader.specs.Words.{taken};
ghost use Rattle.journal_reader.specs.EntryReading.{alone, group_of, gather_in, counts_of, ended_in, take_in, made_in};
ghost use Rattle.journal_reader.specs.EntryReading.{tick_of, stop_of, begin_in, done_in, event_in, report_in};
ghost use Rattle.account.specs.declared.entry.Entry.TheVariants as entries;

use crate::words::{
    Words, is, is_end, number, take_either, take_number, take_signed, take_small, take_word,
};
use account::Entry;
use fixed_num::{Moment, Seq};
use std::alloc::Global;

/// An entry that a line begins, and how many metrics follow the line.
#[derive(Drop)]
pub(crate) struct Begun {
    /// The entry, without the metrics and the reports behind its line.
    pub entry: Entry,
    /// How many lines of metrics follow.
    pub owed: u64,
}

/// How many views a Route of a set-up has.
#[derive(Clone, Copy, Debug, PartialEq, Eq)]
pub(crate) struct Sizes {
    /// How many aggregators there are.
    pub aggs: usize,
    /// How many outputs there are.
    pub outs: usize,
}

/// What the line of a Gather counts.
#[derive(Clone, Copy, Debug, PartialEq, Eq)]
pub(crate) struct Counts {
    /// The pieces.
    pub pieces: u32,
    /// Those that were refused.
    pub refused: u32,
    /// The samples that were passed over.
    pub passed: u32,
    /// The readings that were filtered.
    pub filtered: u32,
}

/// An entry without metrics behind its line.
fn alone(entry: Entry) -> Begun
    ensures { result ≡ alone entry }
{
    Begun { entry, owed: 0 }
}

/// The number of a group, or `-` for none.
#[tactic(auto, unfolding(crate::specs::EntryReading::group_of))]
fn group_of(word: &[u8]) -> Option<Option<u64>>
    ensures { result ≡ group_of word.now }
{
    if is(word, "-") {
        return Some(None);
    }
    let group = number(word)?;
    Some(Some(group))
}

/// Takes the first word, and gives the group that it is.
fn take_group(words: &mut Words<'_>) -> Option<Option<u64>>
    ensures { taken group_of words.old ≡ option_map (λ group. (group, words.new)) result }
{
    group_of(words.next()?)
}

/// Takes what the line of a Gather counts.
#[tactic(auto, unfolding(crate::specs::EntryReading::counts_of))]
fn take_counts(words: &mut Words<'_>) -> Option<Counts>
    ensures { counts_of words.old ≡ option_map (λ counts. (counts, words.new)) result }
{
    let pieces = take_small(words)?;
    let refused = take_small(words)?;
    let passed = take_small(words)?;
    let filtered = take_small(words)?;
    Some(Counts {
        pieces,
        refused,
        passed,
        filtered,
    })
}

/// `I MOMENT PIECES REFUSED PASSED FILTERED COUNT GROUP`.
#[tactic(auto, unfolding(crate::specs::EntryReading::gather_in))]
fn gather_in(alloc: Global, words: &mut Words<'_>) -> Option<Begun>
    ensures { result ≡ gather_in words.old }
{
    let input = take_small(words)?;
    let moment = take_signed(words)?;
    let counts = take_counts(words)?;
    let owed = take_number(words)?;
    let group = take_group(words)?;
    if !is_end(words) {
        return None;
    }
    let entry = Entry::Gather {
        input,
        moment,
        pieces: counts.pieces,
        refused: counts.refused,
        passed: counts.passed,
        filtered: counts.filtered,
        metrics: Seq::of(Vec::new(alloc)),
        group,
        reports: Seq::of(Vec::new(alloc)),
    };
    Some(Begun { entry, owed })
}

/// `I`.
#[tactic(auto, unfolding(crate::specs::EntryReading::ended_in))]
fn ended_in(words: &mut Words<'_>) -> Option<Begun>
    ensures { result ≡ ended_in words.old }
{
    let input = take_small(words)?;
    if !is_end(words) {
        return None;
    }
    Some(alone(Entry::Ended { input }))
}

/// `K`.
#[tactic(auto, unfolding(crate::specs::EntryReading::take_in))]
fn take_in(words: &mut Words<'_>) -> Option<Begun>
    ensures { result ≡ take_in words.old }
{
    let item = take_number(words)?;
    if !is_end(words) {
        return None;
    }
    Some(alone(Entry::Take { item }))
}

/// `MOMENT COUNT`.
#[tactic(auto, unfolding(crate::specs::EntryReading::made_in))]
fn made_in(words: &mut Words<'_>) -> Option<(Moment, u64)>
    ensures { result ≡ made_in words.old }
{
    let moment = take_signed(words)?;
    let owed = take_number(words)?;
    if is_end(words) {
        Some((moment, owed))
    } else {
        None
    }
}

/// `MOMENT COUNT` of a Tick.
fn tick_in(alloc: Global, words: &mut Words<'_>) -> Option<Begun>
    ensures { result ≡ option_map tick_of (made_in words.old) }
{
    let (moment, owed) = made_in(words)?;
    let made = Seq::of(Vec::new(alloc));
    Some(Begun {
        entry: Entry::Tick { moment, made },
        owed,
    })
}

/// `MOMENT COUNT` of a Stop.
fn stop_in(alloc: Global, words: &mut Words<'_>) -> Option<Begun>
    ensures { result ≡ option_map stop_of (made_in words.old) }
{
    let (moment, owed) = made_in(words)?;
    let made = Seq::of(Vec::new(alloc));
    Some(Begun {
        entry: Entry::Stop { moment, made },
        owed,
    })
}

/// `O FROM TO`.
#[tactic(auto, unfolding(crate::specs::EntryReading::begin_in))]
fn begin_in(words: &mut Words<'_>) -> Option<Begun>
    ensures { result ≡ begin_in words.old }
{
    let output = take_small(words)?;
    let from = take_number(words)?;
    let to = take_number(words)?;
    if !is_end(words) {
        return None;
    }
    Some(alone(Entry::Begin { output, from, to }))
}

/// `O ok` or `O failed`.
#[tactic(auto, unfolding(crate::specs::EntryReading::done_in))]
fn done_in(alloc: Global, words: &mut Words<'_>) -> Option<Begun>
    ensures { result ≡ done_in words.old }
{
    let output = take_small(words)?;
    let ok = take_either(words, "ok", "failed")?;
    if !is_end(words) {
        return None;
    }
    let reports = Seq::of(Vec::new(alloc));
    Some(alone(Entry::Done {
        output,
        ok,
        reports,
    }))
}

/// An entry that is no Route, by its first word and what stands behind it.
#[tactic(auto, unfolding(crate::specs::EntryReading::event_in))]
pub(crate) fn event_in(alloc: Global, word: &[u8], words: &mut Words<'_>) -> Option<Begun>
    ensures { result ≡ event_in word.now words.old }
{
    if is(word, "gather") {
        return gather_in(alloc, words);
    }
    if is(word, "take") {
        return take_in(words);
    }
    if is(word, "begin") {
        return begin_in(words);
    }
    if is(word, "done") {
        return done_in(alloc, words);
    }
    if is(word, "ended") {
        return ended_in(words);
    }
    if is(word, "tick") {
        return tick_in(alloc, words);
    }
    if is(word, "stop") {
        return stop_in(alloc, words);
    }
    None
}

/// `report G delivered` or `report G rejected`.
#[tactic(auto, unfolding(crate::specs::EntryReading::report_in))]
pub(crate) fn report_in(words: &mut Words<'_>) -> Option<(u64, bool)>
    ensures { result ≡ report_in words.old }
{
    if !take_word(words, "report") {
        return None;
    }
    let group = take_number(words)?;
    let delivered = take_either(words, "delivered", "rejected")?;
    if is_end(words) {
        Some((group, delivered))
    } else {
        None
    }
}
