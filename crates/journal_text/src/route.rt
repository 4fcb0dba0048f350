//! What a Route says behind its item.
ghost use Rattle.std.specs.Prelude.{◌≡◌, ◌++◌, OnOk, Some, true, false, codes, if◌then◌else◌};
ghost use Rattle.text_parts.specs.Adds.{Adds};
ghost use Rattle.journal_text.specs.JournalText.{verdict_text, whole_text};
ghost use Rattle.journal_text.specs.Known.{whole_as, view_as, views_as, routed_as};
ghost use Rattle.journal_text.specs.MetricText.{metric_text};

use crate::known::Known;
use crate::metrics::append_metric;
use account::Verdict;
use fixed_num::{OutOfMemory, Seq};
use metric::Metric;
use std::alloc::Global;
use text_buffer::TextBuffer;
use text_parts::append_words;

/// What became of an item as it was routed.
#[derive(Clone, Copy)]
pub(crate) struct Outcome<'a> {
    /// In a word.
    pub verdict: Verdict,
    /// What the aggregators see of its whole.
    pub aggs: &'a [Option<Metric>],
    /// What the outputs see of it.
    pub outs: &'a [Option<Metric>],
}

impl<'a> Outcome<'a> {
    /// That of a verdict, with the views of the aggregators and of the outputs.
    pub(crate) fn of(
        verdict: Verdict,
        aggs: &'a Seq<Option<Metric>>,
        outs: &'a Seq<Option<Metric>>,
    ) -> Outcome<'a>
        ensures verdict { result.verdict ≡ verdict }
        ensures views { (result.aggs.now ≡ aggs.now) × (result.outs.now ≡ outs.now) }
    {
        Outcome {
            verdict,
            aggs: aggs.as_slice(),
            outs: outs.as_slice(),
        }
    }
}

// Appends a view, behind a space: `=` where it is the whole, which may be known, `-` for none, and else its text.
#[tactic(auto, unfolding(crate::specs::Known::view_as, crate::specs::JournalText::beside_text))]
fn append_view(
    alloc: Global,
    out: &mut TextBuffer,
    same: bool,
    whole: &Metric,
    view: &Option<Metric>,
) -> Result<(), OutOfMemory>
    ensures { Adds result out.old.items out.new.items (codes " " ++ view_as same whole.now view.now) }
{
    match view {
        None => append_words(out, " -"),
        Some(view) => {
            if same || view == whole {
                append_words(out, " =")?;
            } else {
                append_words(out, " ")?;
                append_metric(alloc, out, view)?;
            }
            Ok(())
        }
    }
}

// Appends views, each behind a space.
fn append_views(
    alloc: Global,
    out: &mut TextBuffer,
    same: bool,
    whole: &Metric,
    views: &[Option<Metric>],
) -> Result<(), OutOfMemory>
    ensures { Adds result out.old.items out.new.items (views_as same whole.now views.now) }
{
    for view in views {
        append_view(alloc, out, same, whole, view)?;
    }
    Ok(())
}

// Whether there is one view, which is the whole.
#[tactic(auto, unfolding(crate::specs::Known::view_as, crate::specs::JournalText::beside_text))]
fn is_one_whole(same: bool, whole: &Metric, views: &[Option<Metric>]) -> bool
    ensures { result ≡ true → views_as same whole.now views.now ≡ codes " =" }
{
    match views {
        [Some(view)] => same || view == whole,
        _ => false,
    }
}

// Appends the views at outputs, which end the line of a Route. Most have one output, which sees the whole.
fn append_outs(
    alloc: Global,
    out: &mut TextBuffer,
    same: bool,
    whole: &Metric,
    outs: &[Option<Metric>],
) -> Result<(), OutOfMemory>
    ensures { Adds result out.old.items out.new.items
        (codes " /" ++ views_as same whole.now outs.now ++ codes "\n") }
{
    if is_one_whole(same, whole, outs) {
        append_words(out, " / =\n")?;
        return Ok(());
    }
    append_words(out, " /")?;
    append_views(alloc, out, same, whole, outs)?;
    append_words(out, "\n")?;
    Ok(())
}

// Whether the whole of a Route is its item.
#[tactic(auto, unfolding(crate::specs::JournalText::whole_text, crate::specs::JournalText::beside_text))]
fn is_item(same: bool, item: &[Metric], whole: &Metric) -> bool
    ensures item { result ≡ true → whole_as same item.now whole.now ≡ codes "=" }
    ensures other { result ≡ false → whole_as same item.now whole.now ≡ metric_text whole.now }
{
    if same {
        return true;
    }
    match item {
        [item, ..] => whole == item,
        [] => false,
    }
}

// The word for what became of an item, behind a space.
fn word_of(verdict: Verdict) -> &'static str
    ensures { result.now ≡ codes " " ++ verdict_text verdict }
{
    match verdict {
        Verdict::Passes => " passes",
        Verdict::Consumed => " consumed",
        Verdict::Late => " late",
        Verdict::Removed => " removed",
    }
}

// The same, behind a whole that is its item.
fn word_of_item(verdict: Verdict) -> &'static str
    ensures { result.now ≡ codes " " ++ codes "=" ++ codes " " ++ verdict_text verdict }
{
    match verdict {
        Verdict::Passes => " = passes",
        Verdict::Consumed => " = consumed",
        Verdict::Late => " = late",
        Verdict::Removed => " = removed",
    }
}

// Appends the whole of a Route, `=` where it is its item, and the word for what became of that.
fn append_whole(
    alloc: Global,
    out: &mut TextBuffer,
    same: bool,
    item: &[Metric],
    whole: &Metric,
    verdict: Verdict,
) -> Result<(), OutOfMemory>
    ensures { Adds result out.old.items out.new.items
        (codes " " ++ whole_as same item.now whole.now ++ codes " " ++ verdict_text verdict) }
{
    if is_item(same, item, whole) {
        append_words(out, word_of_item(verdict))?;
    } else {
        append_words(out, " ")?;
        append_metric(alloc, out, whole)?;
        append_words(out, word_of(verdict))?;
    }
    Ok(())
}

// Whether an item went on as it was, to one output and no aggregator: most do.
#[tactic(auto, unfolding(crate::specs::Known::routed_as))]
fn is_as_it_was(known: Known, item: &[Metric], whole: &Metric, outcome: &Outcome) -> bool
    ensures { result ≡ true → routed_as known item.now (Some whole.now) outcome.now.verdict
        outcome.now.aggs.now outcome.now.outs.now ≡ codes " = passes / =\n" }
{
    outcome.verdict == Verdict::Passes
        && outcome.aggs.is_empty()
        && is_item(known.whole, item, whole)
        && is_one_whole(known.outs, whole, outcome.outs)
}

/// Appends what a Route says behind its item, with what is known of it.
#[tactic(auto, unfolding(crate::specs::Known::routed_as))]
pub(crate) fn append_routed(
    alloc: Global,
    out: &mut TextBuffer,
    known: Known,
    item: &[Metric],
    whole: &Option<Metric>,
    outcome: &Outcome,
) -> Result<(), OutOfMemory>
    ensures { Adds result out.old.items out.new.items
        (routed_as known item.now whole.now outcome.now.verdict outcome.now.aggs.now outcome.now.outs.now) }
{
    let Some(whole) = whole else {
        append_words(out, " - removed\n")?;
        return Ok(());
    };
    if is_as_it_was(known, item, whole, outcome) {
        append_words(out, " = passes / =\n")?;
        return Ok(());
    }
    append_whole(alloc, out, known.whole, item, whole, outcome.verdict)?;
    append_views(alloc, out, known.aggs, whole, outcome.aggs)?;
    append_outs(alloc, out, known.outs, whole, outcome.outs)?;
    Ok(())
}
