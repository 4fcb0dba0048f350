//! Calls of a core that tracks groups: which of them are undelivered, what is reported, and the journal's text of it.
//!
//! A call that is refused for want of memory is made once more: where memory is short once, the answers show that all
//! had stayed as it was.
ghost use Rattle.std.specs.Prelude.{◌≡◌, ◌≤◌, ◌++◌, length, true, false, Some, None, slice_get, IfOk};
ghost use Rattle.std.specs.List.{All, AllByRecursion};
ghost use Rattle.account.specs.AggLines.{IsLine};
ghost use Rattle.account.specs.Views.{HasViews};

use crate::banks::lines_said;
use crate::cores::{refused, sizes};
use crate::{Calls, metric, next};
use account::{AggLine, Entry, Report, Verdict};
use fixed_num::Seq;
use journal_text::{JournalSetup, write_entry, write_setup};
use metric::Metric;
use pipeline_core::{
    BeginAnswer, Core, CoreSetup, CutAnswer, GatherRefused, Gathered, InSetup, OutSetup, Routed,
    TakeAnswer,
};
use scenario_tables::Row;
use std::alloc::Global;
use std::test::Fail;
use text_buffer::TextBuffer;

/// The moment of each gather.
const MOMENT: i64 = 7;

/// A core, call after call.
#[derive(Drop)]
pub struct GroupCalls {
    core: Core,
    /// The text of the set-up.
    head: Vec<u8>,
    inputs: u32,
    /// The items that were taken, in order.
    taken: Vec<Metric>,
    /// Whether the last call took an item that was gathered.
    is_gathered: bool,
    /// The entries of the last cut.
    entries: Vec<Entry>,
    ghost counted: { inputs ≡ length core.setup.inputs },
    ghost gathered: { is_gathered ≡ true → slice_get core.made 0 ≡ Some false },
}

/// What a call answers.
#[derive(Clone, Copy, Debug)]
enum Answer {
    Gathered,
    /// What is handed back has so many pieces and metrics.
    HeldUndelivered { pieces: u32, metrics: usize },
    Took { item: u64, made: bool },
    NotTaken(TakeAnswer),
    Routed(Verdict),
    Began { from: u64, to: u64 },
    /// So many metrics are in flight, and the oldest is of this item.
    Lent { count: usize, oldest: Option<u64> },
    NotBegun(BeginAnswer),
    Reported(Option<Report>),
    /// So many entries.
    Cut(usize),
    NotCut(CutAnswer),
    /// Of a call that answers nothing.
    Done,
    /// No memory was left.
    Short,
}

/// The inputs that words say, with commas between them: each `plain`, or `tracked` with its limit.
fn inputs_said(alloc: Global, words: &str) -> Result<Vec<InSetup>, Fail>
    ensures { IfOk result (λ inputs. All (λ x. x.tracked ≡ true → 1 ≤ x.max_undelivered) inputs.items) }
{
    let mut inputs = Vec::new(alloc);
    for part in words.split(", ") {
        inputs.push(input_said(part))?;
    }
    Ok(inputs)
}

/// The input that words say.
fn input_said(words: &str) -> InSetup
    ensures { result.tracked ≡ true → 1 ≤ result.max_undelivered }
{
    let mut words = words.split_whitespace();
    let tracked = words.next() == Some("tracked");
    InSetup {
        tracked,
        max_undelivered: next::<u32>(&mut words).max(1),
    }
}

/// The aggregators that a row says: none where it has no such part.
fn aggs_said(alloc: Global, row: &Row<'_>) -> Result<Vec<AggLine>, Fail>
    ensures { IfOk result (λ lines. All IsLine lines.items) }
{
    match row.part("aggregators") {
        Some(part) => lines_said(alloc, part.value),
        None => Ok(Vec::new(alloc)),
    }
}

/// The text of a set-up.
fn head_of(
    alloc: Global,
    inputs: &[InSetup],
    aggs: &[AggLine],
    outputs: &[OutSetup],
) -> Result<Vec<u8>, Fail> {
    let mut limits = Vec::new(alloc);
    for input in inputs {
        limits.push(if input.tracked {
            Some(input.max_undelivered)
        } else {
            None
        })?;
    }
    let mut all_sizes = Vec::new(alloc);
    for output in outputs {
        all_sizes.push((output.batch, output.limit))?;
    }
    let setup = JournalSetup {
        start: 0,
        inputs: Seq::of(limits),
        aggs: Seq::of(Vec::from_slice(alloc, aggs)?),
        outputs: Seq::of(all_sizes),
    };
    let mut text = TextBuffer::new(alloc);
    write_setup(alloc, &setup, &mut text)?;
    Ok(text.into_vec())
}

/// The lines of a text, with no newline behind the last.
fn lines_in(alloc: Global, text: &[u8]) -> Result<String, Fail> {
    let text = str::from_utf8(text)?;
    Ok(String::from_str(alloc, text.strip_suffix('\n').unwrap_or(text))?)
}

/// Views of an item that goes on as it is: the item for each `=`, none for each `-`.
fn views_said(alloc: Global, whole: &Metric, words: &str) -> Result<Vec<Option<Metric>>, Fail> {
    let mut views = Vec::new(alloc);
    for word in words.split_whitespace() {
        views.push(if word == "=" {
            Some(whole.copy()?)
        } else {
            None
        })?;
    }
    Ok(views)
}

/// The item of this number alone, where it was taken.
fn one_at(taken: &[Metric], item: u64) -> &[Metric] {
    let at = item as usize;
    if at < taken.len() {
        &taken[at..at + 1]
    } else {
        &[]
    }
}

/// Appends the text of a Route beside its item. What is removed has no views, whichever its entry has.
fn write_route(
    alloc: Global,
    item: &[Metric],
    entry: &Entry,
    out: &mut TextBuffer,
) -> Result<(), Fail> {
    if item.len() != 1 {
        return Err(Fail::new("no item"));
    }
    match entry {
        Entry::Route {
            whole: Some(_),
            verdict: Verdict::Passes | Verdict::Consumed | Verdict::Late,
            ..
        } => write_entry(alloc, item, entry, out)?,
        Entry::Route {
            item: number,
            whole: None,
            verdict: Verdict::Removed,
            reports,
            ..
        } => {
            let removed = Entry::Route {
                item: *number,
                whole: None,
                verdict: Verdict::Removed,
                aggs: Seq::of(Vec::new(alloc)),
                outs: Seq::of(Vec::new(alloc)),
                reports: Seq::of(Vec::from_slice(alloc, reports.as_slice())?),
            };
            write_entry(alloc, item, &removed, out)?;
        }
        _ => return Err(Fail::new("no Route")),
    }
    Ok(())
}

impl GroupCalls {
    /// Gathers the metrics of lines, as so many pieces of an input.
    fn gather(
        &mut self,
        alloc: Global,
        input: u32,
        pieces: u32,
        lines: &str,
    ) -> Result<Answer, Fail> {
        let mut metrics = Vec::new(alloc);
        for line in lines.lines() {
            match metric(alloc, line)? {
                Some(metric) => metrics.push(metric)?,
                None => return Err(Fail::new("no metric")),
            }
        }
        if !self.core.is_reading(input) || self.core.is_stopped() {
            return refused();
        }
        self.is_gathered = false;
        match self.core.gather(Gathered {
            input,
            moment: MOMENT,
            pieces,
            refused: 0,
            passed: 0,
            filtered: 0,
            metrics: Seq::of(metrics),
        }) {
            Ok(()) => Ok(Answer::Gathered),
            Err(GatherRefused::HeldUndelivered(back)) => Ok(Answer::HeldUndelivered {
                pieces: back.pieces,
                metrics: back.metrics.as_slice().len(),
            }),
            Err(GatherRefused::OutOfMemory) => Ok(Answer::Short),
            Err(_) => refused(),
        }
    }

    /// Takes the oldest item in hand.
    fn take(&mut self) -> Result<Answer, Fail> {
        self.taken.reserve(1)?;
        self.is_gathered = false;
        match self.core.take() {
            Ok(item) => {
                self.is_gathered = !item.made;
                self.taken.push(item.metric)?;
                Ok(Answer::Took {
                    item: item.number,
                    made: item.made,
                })
            }
            Err(TakeAnswer::OutOfMemory) => Ok(Answer::Short),
            Err(why) => Ok(Answer::NotTaken(why)),
        }
    }

    /// The item that was taken last.
    fn last_taken(&self) -> Result<&Metric, Fail> {
        match self.taken.last() {
            Some(item) => Ok(item),
            None => refused(),
        }
    }

    /// Views of as many aggregators as there are, of which none sees anything.
    fn unseen(&self, alloc: Global) -> Result<Vec<Option<Metric>>, Fail>
        ensures count { IfOk result (λ views. length views.items ≡ length self.now.core.setup.aggs) }
        ensures none { IfOk result (λ views. AllByRecursion (λ view. view ≡ None) views.items) }
    {
        match self.core.aggregator_count() {
            0 => Ok(Vec::new(alloc)),
            1 => Ok(vec![in alloc; None]?),
            _ => Err(Fail::new("more aggregators than one")),
        }
    }

    /// Routes the item in hand.
    fn route(
        &mut self,
        whole: Option<Metric>,
        aggs: Vec<Option<Metric>>,
        outs: Vec<Option<Metric>>,
    ) -> Result<Answer, Fail>
        requires views { HasViews whole (aggs.items ++ outs.items) }
        requires seen { self.old.is_gathered ≡ false → AllByRecursion (λ view. view ≡ None) aggs.items }
    {
        let Some(item) = self.core.held() else {
            return refused();
        };
        if aggs.len() != self.core.aggregator_count() || outs.len() != self.core.output_count() {
            return refused();
        }
        match self.core.route(Routed {
            item,
            whole,
            aggs: Seq::of(aggs),
            outs: Seq::of(outs),
        }) {
            Ok(verdict) => {
                self.is_gathered = false;
                Ok(Answer::Routed(verdict))
            }
            Err(_) => Ok(Answer::Short),
        }
    }

    /// Routes the item in hand as it is, with these views. No aggregator sees it.
    fn pass(&mut self, alloc: Global, views: &str) -> Result<Answer, Fail> {
        let whole = self.last_taken()?.copy()?;
        let outs = views_said(alloc, &whole, views)?;
        let aggs = self.unseen(alloc)?;
        self.route(Some(whole), aggs, outs)
    }

    /// The same, where the item was gathered and the aggregator sees it.
    fn see(&mut self, alloc: Global, views: &str) -> Result<Answer, Fail> {
        let whole = self.last_taken()?.copy()?;
        let outs = views_said(alloc, &whole, views)?;
        let aggs = views_said(alloc, &whole, "=")?;
        if !self.is_gathered {
            return refused();
        }
        self.route(Some(whole), aggs, outs)
    }

    /// Routes the item in hand as one that the processors removed.
    fn remove(&mut self, alloc: Global) -> Result<Answer, Fail> {
        let outs = vec![in alloc; None, None]?;
        match self.core.aggregator_count() {
            0 => self.route(None, Vec::new(alloc), outs),
            1 => self.route(None, vec![in alloc; None]?, outs),
            _ => refused(),
        }
    }

    /// Begins the next batch of an output.
    fn begin_batch(&mut self, output: u32) -> Result<Answer, Fail> {
        if (output as usize) >= self.core.output_count() {
            return refused();
        }
        match self.core.begin(output) {
            Ok(batch) => Ok(Answer::Began {
                from: batch.from,
                to: batch.to,
            }),
            Err(BeginAnswer::OutOfMemory) => Ok(Answer::Short),
            Err(why) => Ok(Answer::NotBegun(why)),
        }
    }

    /// What is in flight at an output.
    fn lent(&self, output: u32) -> Result<Answer, Fail> {
        if (output as usize) >= self.core.output_count() {
            return refused();
        }
        let offers = self.core.flight(output);
        Ok(Answer::Lent {
            count: offers.len(),
            oldest: offers.first().map(|offer| offer.item),
        })
    }

    /// The next report of an input.
    fn report(&mut self, input: u32) -> Result<Answer, Fail> {
        if input >= self.inputs {
            return refused();
        }
        Ok(Answer::Reported(self.core.next_report(input)))
    }

    /// Cuts the journal.
    fn cut(&mut self) -> Result<Answer, Fail> {
        match self.core.cut() {
            Ok(entries) => {
                let count = entries.len();
                self.entries = entries;
                Ok(Answer::Cut(count))
            }
            Err(CutAnswer::OutOfMemory) => Ok(Answer::Short),
            Err(why) => Ok(Answer::NotCut(why)),
        }
    }

    /// Makes a call that answers nothing.
    fn go_on(&mut self, word: &str, number: u32, ok: bool) -> Result<Answer, Fail> {
        self.is_gathered = false;
        let gone = match word {
            "ended" if self.core.is_reading(number) && !self.core.is_stopped() => {
                self.core.ended(number)
            }
            "tick" if !self.core.is_stopped() => self.core.tick(i64::from(number)),
            "stop" if !self.core.is_stopped() => self.core.stop(i64::from(number)),
            "done" if self.core.is_in_flight(number) => {
                self.core.done(number, ok);
                Ok(())
            }
            _ => return refused(),
        };
        Ok(if gone.is_ok() {
            Answer::Done
        } else {
            Answer::Short
        })
    }

    /// Makes a call.
    fn answered(&mut self, alloc: Global, call: &str) -> Result<Answer, Fail> {
        let (first, lines) = call.split_once('\n').unwrap_or((call, ""));
        let (word, rest) = first.split_once(' ').unwrap_or((first, ""));
        let mut words = rest.split_whitespace();
        match word {
            "gather" => self.gather(alloc, next(&mut words), next(&mut words), lines),
            "take" => self.take(),
            "route" => self.pass(alloc, rest),
            "see" => self.see(alloc, rest),
            "remove" => self.remove(alloc),
            "begin" => self.begin_batch(next(&mut words)),
            "flight" => self.lent(next(&mut words)),
            "report" => self.report(next(&mut words)),
            "cut" => self.cut(),
            _ => self.go_on(word, next(&mut words), words.next() == Some("ok")),
        }
    }

    /// Appends the text of an entry, a Route's beside its item.
    fn write(&self, alloc: Global, entry: &Entry, out: &mut TextBuffer) -> Result<(), Fail> {
        match entry {
            Entry::Route { item, .. } => {
                let item = one_at(self.taken.as_slice(), *item);
                write_route(alloc, item, entry, out)
            }
            _ => {
                write_entry(alloc, &[], entry, out)?;
                Ok(())
            }
        }
    }

    /// An answer, how many groups of each input are undelivered, and behind a cut the text of its entries.
    fn said(&self, alloc: Global, answer: Answer) -> Result<String, Fail> {
        let mut said = format!(in alloc; "{answer:?}, undelivered")?;
        for input in 0..self.inputs {
            let count = self.core.tracker().undelivered(input);
            said.push_str(format!(in alloc; " {count}")?.as_str())?;
        }
        if let Answer::Cut(_) = answer {
            let mut text = TextBuffer::new(alloc);
            for entry in &self.entries {
                self.write(alloc, entry, &mut text)?;
            }
            said.push('\n')?;
            said.push_str(lines_in(alloc, text.as_slice())?.as_str())?;
        }
        Ok(said)
    }
}

impl Calls for GroupCalls {
    fn begin(alloc: Global, row: &Row<'_>, _word: &str) -> Result<GroupCalls, Fail> {
        let inputs = inputs_said(alloc, row.value("inputs"))?;
        let aggs = aggs_said(alloc, row)?;
        let mut words = row.value("outputs").split_whitespace();
        let outputs = [sizes(&mut words), sizes(&mut words)];
        let head = head_of(alloc, inputs.as_slice(), aggs.as_slice(), &outputs)?;
        if 16 < inputs.len() || 16 < aggs.len() {
            return refused();
        }
        let count = inputs.len() as u32;
        let setup = CoreSetup {
            inputs: Seq::of(inputs),
            aggs: Seq::of(aggs),
            outputs: Seq::of(Vec::from_slice(alloc, &outputs)?),
            start: 0,
        };
        Ok(GroupCalls {
            core: Core::new(alloc, setup)?,
            head,
            inputs: count,
            taken: Vec::new(alloc),
            is_gathered: false,
            entries: Vec::new(alloc),
        })
    }

    fn make(&mut self, alloc: Global, call: &str) -> Result<String, Fail> {
        if call == "setup" {
            return lines_in(alloc, self.head.as_slice());
        }
        if call == "account" {
            let mut text = TextBuffer::new(alloc);
            self.core.account().text(&mut text)?;
            return lines_in(alloc, text.as_slice());
        }
        match self.answered(alloc, call)? {
            Answer::Short => {
                let answer = self.answered(alloc, call)?;
                self.said(alloc, answer)
            }
            answer => self.said(alloc, answer),
        }
    }
}
