//! The lines of Routes, and which entry a line begins.
ghost use Rattle.std.specs.Prelude.{◌≡◌, ◌++◌, ◌∷◌, [], List, Option, option_map, Some, None, IfOk, replicate};
ghost use Rattle.std.specs.Prelude.{slice_get};
ghost use Rattle.std.specs.Option.{option_copied};
ghost use Rattle.journal_reader.specs.MetricReading.{metric_of};
ghost use Rattle.journal_reader.specs.Words.{taken, each};
ghost use Rattle.journal_reader.specs.EntryReading.{alone, other_than, beside_of, view_of, verdict_of, agg_views};
ghost use Rattle.journal_reader.specs.EntryReading.{whole_in, removed_of, route_in, entry_in, metric_in};

use crate::entry::{Begun, Sizes, event_in};
use crate::metrics::metric_of;
use crate::words::{Words, is, is_end, take_number, take_word};
use account::{Entry, Verdict};
use fixed_num::{OutOfMemory, Seq};
use metric::Metric;
use std::alloc::Global;

/// A metric beside one that may be known: `=` is that one, and any other is written out.
#[tactic(auto, unfolding(crate::specs::EntryReading::beside_of))]
fn beside_of(
    alloc: Global,
    known: Option<&Metric>,
    word: &[u8],
) -> Result<Option<Metric>, OutOfMemory>
    ensures { IfOk result (λ m. m ≡ beside_of (option_copied known.entry) word.now) }
{
    if is(word, "=") {
        return copy_of(known);
    }
    let Some(m) = metric_of(alloc, word)? else {
        return Ok(None);
    };
    Ok(other_than(known, m))
}

/// A copy of what is there.
fn copy_of(known: Option<&Metric>) -> Result<Option<Metric>, OutOfMemory>
    ensures { IfOk result (λ copy. copy ≡ option_copied known.entry) }
{
    match known {
        Some(known) => {
            let copy = known.copy()?;
            Ok(Some(copy))
        }
        None => Ok(None),
    }
}

/// A metric that isn't the known one.
fn other_than(known: Option<&Metric>, m: Metric) -> Option<Metric>
    ensures { result ≡ other_than (option_copied known.entry) m }
{
    match known {
        Some(known) => {
            if m == *known {
                return None;
            }
            Some(m)
        }
        None => Some(m),
    }
}

/// A metric beside one that may be known, or `-` for none.
#[tactic(auto, unfolding(crate::specs::EntryReading::view_of))]
fn view_of(
    alloc: Global,
    known: Option<&Metric>,
    word: &[u8],
) -> Result<Option<Option<Metric>>, OutOfMemory>
    ensures { IfOk result (λ view. view ≡ view_of (option_copied known.entry) word.now) }
{
    if is(word, "-") {
        return Ok(Some(None));
    }
    match beside_of(alloc, known, word)? {
        Some(m) => Ok(Some(Some(m))),
        None => Ok(None),
    }
}

/// The verdict on an item that wasn't removed.
#[tactic(auto, unfolding(crate::specs::EntryReading::verdict_of))]
fn verdict_of(word: &[u8]) -> Option<Verdict>
    ensures { result ≡ verdict_of word.now }
{
    if is(word, "passes") {
        return Some(Verdict::Passes);
    }
    if is(word, "consumed") {
        return Some(Verdict::Consumed);
    }
    if is(word, "late") {
        return Some(Verdict::Late);
    }
    None
}

/// Takes the first word, and gives the verdict that it is.
fn take_verdict(words: &mut Words<'_>) -> Option<Verdict>
    ensures { taken verdict_of words.old ≡ option_map (λ verdict. (verdict, words.new)) result }
{
    verdict_of(words.next()?)
}

/// Takes the views before `/`, and that.
fn take_agg_views(
    alloc: Global,
    whole: &Metric,
    words: &mut Words<'_>,
) -> Result<Option<Seq<Option<Metric>>>, OutOfMemory>
    ensures { IfOk result (λ views. agg_views whole.now words.old ≡ option_map (λ views. (views, words.new)) views) }
{
    let mut views = Seq::of(Vec::new(alloc));
    while let Some(word) = words.next() {
        if is(word, "/") {
            return Ok(Some(views));
        }
        let Some(view) = view_of(alloc, Some(whole), word)? else {
            return Ok(None);
        };
        views.push(alloc, view)?;
    }
    Ok(None)
}

/// The views up to the end.
fn out_views(
    alloc: Global,
    whole: &Metric,
    words: &mut Words<'_>,
) -> Result<Option<Seq<Option<Metric>>>, OutOfMemory>
    ensures { IfOk result (λ views. views ≡ each (view_of (Some whole.now)) words.old) }
{
    let mut views = Seq::of(Vec::new(alloc));
    while let Some(word) = words.next() {
        let Some(view) = view_of(alloc, Some(whole), word)? else {
            return Ok(None);
        };
        views.push(alloc, view)?;
    }
    Ok(Some(views))
}

/// What stands behind an item and its whole: the verdict and the views.
#[tactic(auto, unfolding(crate::specs::EntryReading::whole_in))]
fn whole_in(
    alloc: Global,
    item: u64,
    whole: Metric,
    words: &mut Words<'_>,
) -> Result<Option<Entry>, OutOfMemory>
    ensures { IfOk result (λ e. e ≡ whole_in item whole words.old) }
{
    let Some(verdict) = take_verdict(words) else {
        return Ok(None);
    };
    let Some(aggs) = take_agg_views(alloc, &whole, words)? else {
        return Ok(None);
    };
    let Some(outs) = out_views(alloc, &whole, words)? else {
        return Ok(None);
    };
    Ok(Some(Entry::Route {
        item,
        whole: Some(whole),
        verdict,
        aggs,
        outs,
        reports: Seq::of(Vec::new(alloc)),
    }))
}

/// So many views that are none.
fn no_views(alloc: Global, count: usize) -> Result<Seq<Option<Metric>>, OutOfMemory>
    ensures { IfOk result (λ views. views ≡ replicate count None) }
{
    let mut views = Seq::with_room(alloc, count)?;
    for _view in 0..count {
        views.push(alloc, None)?;
    }
    Ok(views)
}

/// The Route of an item that was removed: the views are none, one for each aggregator and output.
fn removed(alloc: Global, sizes: Sizes, item: u64) -> Result<Entry, OutOfMemory>
    ensures { IfOk result (λ e. e ≡ removed_of sizes item) }
{
    Ok(Entry::Route {
        item,
        whole: None,
        verdict: Verdict::Removed,
        aggs: no_views(alloc, sizes.aggs)?,
        outs: no_views(alloc, sizes.outs)?,
        reports: Seq::of(Vec::new(alloc)),
    })
}

/// The item of a number among those that are known.
fn item_at(known: &[Metric], item: u64) -> Option<&Metric>
    ensures { option_copied result ≡ slice_get known.now item }
{
    known.get(item as usize)
}

/// Takes the first word, and gives the view that it is beside a metric that may be known.
fn take_view(
    alloc: Global,
    known: Option<&Metric>,
    words: &mut Words<'_>,
) -> Result<Option<Option<Metric>>, OutOfMemory>
    ensures { IfOk result (λ view. taken (view_of (option_copied known.entry)) words.old
        ≡ option_map (λ view. (view, words.new)) view) }
{
    match words.next() {
        Some(word) => view_of(alloc, known, word),
        None => Ok(None),
    }
}

/// `K WHOLE VERDICT AGG.. / OUT..`, or `K - removed`.
#[tactic(auto, unfolding(crate::specs::EntryReading::route_in, crate::specs::EntryReading::removed_in))]
fn route_in(
    alloc: Global,
    known: &[Metric],
    sizes: Sizes,
    words: &mut Words<'_>,
) -> Result<Option<Entry>, OutOfMemory>
    ensures { IfOk result (λ e. e ≡ route_in known.now sizes words.old) }
{
    let Some(item) = take_number(words) else {
        return Ok(None);
    };
    let Some(whole) = take_view(alloc, item_at(known, item), words)? else {
        return Ok(None);
    };
    if let Some(whole) = whole {
        return whole_in(alloc, item, whole, words);
    }
    if !take_word(words, "removed") || !is_end(words) {
        return Ok(None);
    }
    let entry = removed(alloc, sizes, item)?;
    Ok(Some(entry))
}

/// The entry that a line begins, where these items are known, and how many metrics follow it.
#[tactic(auto, unfolding(crate::specs::EntryReading::entry_in))]
pub(crate) fn entry_in(
    alloc: Global,
    known: &[Metric],
    sizes: Sizes,
    words: &mut Words<'_>,
) -> Result<Option<Begun>, OutOfMemory>
    ensures { IfOk result (λ begun. begun ≡ entry_in known.now sizes words.old) }
{
    let Some(word) = words.next() else {
        return Ok(None);
    };
    if is(word, "route") {
        return match route_in(alloc, known, sizes, words)? {
            Some(entry) => Ok(Some(Begun { entry, owed: 0 })),
            None => Ok(None),
        };
    }
    Ok(event_in(alloc, word, words))
}

/// Takes the first word, and gives the metric that it is.
fn take_metric(alloc: Global, words: &mut Words<'_>) -> Result<Option<Metric>, OutOfMemory>
    ensures { IfOk result (λ m. taken metric_of words.old ≡ option_map (λ m. (m, words.new)) m) }
{
    match words.next() {
        Some(word) => metric_of(alloc, word),
        None => Ok(None),
    }
}

/// `m METRIC`.
#[tactic(auto, unfolding(crate::specs::EntryReading::metric_in))]
pub(crate) fn metric_in(alloc: Global, words: &mut Words<'_>) -> Result<Option<Metric>, OutOfMemory>
    ensures { IfOk result (λ m. m ≡ metric_in words.old) }
{
    if !take_word(words, "m") {
        return Ok(None);
    }
    let Some(m) = take_metric(alloc, words)? else {
        return Ok(None);
    };
    if !is_end(words) {
        return Ok(None);
    }
    Ok(Some(m))
}
