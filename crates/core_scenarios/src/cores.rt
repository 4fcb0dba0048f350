//! Calls of a core with two inputs and two outputs.
ghost use Rattle.std.specs.Prelude.{◌≤◌};
ghost use Rattle.account.specs.Views.{HasViews};

use crate::{Calls, metric, next, shown};
use account::Entry;
use fixed_num::Seq;
use metric::Metric;
use pipeline_core::{Core, CoreSetup, Gathered, InSetup, OutSetup, Routed};
use scenario_tables::Row;
use std::alloc::Global;
use std::fmt;
use std::str::SplitWhitespace;
use std::test::Fail;
use text_buffer::TextBuffer;

/// The metric of all items, in line protocol.
const METRIC: &str = "cpu load=1i 0";

/// A core, call after call.
#[derive(Drop)]
pub struct CoreCalls {
    core: Core,
}

/// A word, and what it is said of.
fn said<D: fmt::Debug + Drop>(alloc: Global, word: &str, of: D) -> Result<String, Fail> {
    Ok(format!(in alloc; "{word} {of:?}")?)
}

/// A Route: which of the outputs have a view of the item.
fn routed(alloc: Global, item: u64, outs: &[Option<Metric>]) -> Result<String, Fail> {
    let mut views = String::new(alloc);
    for view in outs {
        views.push(if view.is_some() { 'v' } else { '-' })?;
    }
    said(alloc, "route", (item, views))
}

/// An entry: its word, and its numbers with how many metrics it names or which outputs have a view.
fn spelled(alloc: Global, entry: &Entry) -> Result<String, Fail> {
    match entry {
        Entry::Gather { input, metrics, .. } => {
            said(alloc, "gather", (*input, metrics.as_slice().len()))
        }
        Entry::Ended { input } => said(alloc, "ended", *input),
        Entry::Take { item } => said(alloc, "take", *item),
        Entry::Route {
            item,
            whole: None,
            ..
        } => said(alloc, "route", (*item, "removed")),
        Entry::Route { item, outs, .. } => routed(alloc, *item, outs.as_slice()),
        Entry::Tick { moment, .. } => said(alloc, "tick", *moment),
        Entry::Stop { moment, .. } => said(alloc, "stop", *moment),
        Entry::Begin { output, from, to } => said(alloc, "begin", (*output, *from, *to)),
        Entry::Done { output, ok, .. } => said(alloc, "done", (*output, *ok)),
    }
}

/// The sizes of an output: how many metrics a batch has at most, and how many wait.
pub(crate) fn sizes(words: &mut SplitWhitespace<'_>) -> OutSetup
    ensures { (1 ≤ result.batch) × (result.batch ≤ result.limit) }
{
    let batch = next::<u32>(words).max(1);
    OutSetup {
        batch,
        limit: next::<u32>(words).max(batch),
    }
}

/// What a call that may not come is answered with.
pub(crate) fn refused<T>() -> Result<T, Fail> {
    Err(Fail::new("the call may not come"))
}

impl CoreCalls {
    /// Gathers so many metrics of an input.
    fn gather(&mut self, alloc: Global, input: u32, count: u32) -> Result<(), Fail> {
        let mut metrics = Vec::new(alloc);
        for _ in 0..count {
            if let Some(metric) = metric(alloc, METRIC)? {
                metrics.push(metric)?;
            }
        }
        let gathered = Gathered {
            input,
            moment: 7,
            pieces: count,
            refused: 0,
            passed: 0,
            filtered: 0,
            metrics: Seq::of(metrics),
        };
        if !self.core.is_reading(input) || self.core.is_stopped() {
            return refused();
        }
        match self.core.gather(gathered) {
            Ok(()) => Ok(()),
            Err(_) => refused(),
        }
    }

    /// Routes the item in hand.
    fn route(
        &mut self,
        alloc: Global,
        whole: Option<Metric>,
        outs: Vec<Option<Metric>>,
    ) -> Result<(), Fail>
        requires { HasViews whole outs.items }
    {
        let Some(item) = self.core.held() else {
            return refused();
        };
        if outs.len() != self.core.output_count() || self.core.aggregator_count() != 0 {
            return refused();
        }
        self.core.route(Routed {
            item,
            whole,
            aggs: Seq::of(Vec::new(alloc)),
            outs: Seq::of(outs),
        })?;
        Ok(())
    }

    /// Routes the item in hand as it is, with a view at each output that has a `v` in the word.
    fn pass(&mut self, alloc: Global, word: &str) -> Result<(), Fail> {
        let mut outs = Vec::new(alloc);
        for letter in word.chars() {
            outs.push(metric(alloc, if letter == 'v' { METRIC } else { "" })?)?;
        }
        match metric(alloc, METRIC)? {
            Some(whole) => self.route(alloc, Some(whole), outs),
            None => refused(),
        }
    }

    /// Makes a call that names an input, an output or a moment.
    fn go_on(&mut self, word: &str, number: u32, ok: bool) -> Result<(), Fail> {
        match word {
            "ended" if self.core.is_reading(number) && !self.core.is_stopped() => {
                self.core.ended(number)?;
            }
            "tick" if !self.core.is_stopped() => self.core.tick(i64::from(number))?,
            "stop" if !self.core.is_stopped() => self.core.stop(i64::from(number))?,
            "begin" if (number as usize) < self.core.output_count() => {
                let _ = self.core.begin(number);
            }
            "done" if self.core.is_in_flight(number) => self.core.done(number, ok),
            _ => return refused(),
        }
        Ok(())
    }
}

impl Calls for CoreCalls {
    fn begin(alloc: Global, row: &Row<'_>, _word: &str) -> Result<CoreCalls, Fail> {
        let mut words = row.value("outputs").split_whitespace();
        let outputs = [sizes(&mut words), sizes(&mut words)];
        let plain = InSetup {
            tracked: false,
            max_undelivered: 0,
        };
        let setup = CoreSetup {
            inputs: Seq::of(Vec::from_slice(alloc, &[plain, plain])?),
            aggs: Seq::of(Vec::new(alloc)),
            outputs: Seq::of(Vec::from_slice(alloc, &outputs)?),
            start: next(&mut row.value("start").split_whitespace()),
        };
        Ok(CoreCalls {
            core: Core::new(alloc, setup)?,
        })
    }

    fn make(&mut self, alloc: Global, call: &str) -> Result<String, Fail> {
        let mut words = call.split_whitespace();
        match words.next().unwrap_or("") {
            "gather" => self.gather(alloc, next(&mut words), next(&mut words))?,
            "take" => {
                let _ = self.core.take();
            }
            "pass" => self.pass(alloc, words.next().unwrap_or(""))?,
            "remove" => self.route(alloc, None, vec![in alloc; None, None]?)?,
            "raw" => return shown(alloc, self.core.has_raw()),
            "account" => {
                let mut text = TextBuffer::new(alloc);
                self.core.account().text(&mut text)?;
                return Ok(String::from_utf8(text.into_vec())?);
            }
            word => self.go_on(word, next(&mut words), words.next() == Some("ok"))?,
        }
        let mut news = String::new(alloc);
        if let Ok(entries) = self.core.cut() {
            for entry in &entries {
                news.push_str(spelled(alloc, entry)?.as_str())?;
            }
        }
        Ok(news)
    }
}
