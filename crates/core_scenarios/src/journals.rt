//! The text of a journal, call after call.
ghost use Rattle.std.specs.Prelude.{◌≡◌, []};
ghost use Rattle.journal_text.specs.JournalText.{HasItem, IsWholeOrRemoved};

use crate::{Calls, metric, next, shown};
use account::{Entry, Report, Verdict};
use fixed_num::Seq;
use journal_text::{AggLine, AggWord, JournalSetup, write_end, write_entry, write_setup};
use metric::Metric;
use scenario_tables::Row;
use std::alloc::Global;
use std::str::SplitWhitespace;
use std::test::Fail;
use text_buffer::TextBuffer;

/// The text that was written so far.
#[derive(Drop)]
pub struct JournalCalls {
    text: TextBuffer,
}

/// What the lines below a call list.
#[derive(Drop)]
struct Lists {
    metrics: Vec<Metric>,
    aggs: Vec<Option<Metric>>,
    outs: Vec<Option<Metric>>,
    reports: Vec<Report>,
}

/// The lines below a call, each of which begins with a word that says what it lists.
fn read_lists(alloc: Global, lines: &str) -> Result<Lists, Fail> {
    let mut lists = Lists {
        metrics: Vec::new(alloc),
        aggs: Vec::new(alloc),
        outs: Vec::new(alloc),
        reports: Vec::new(alloc),
    };
    for line in lines.lines() {
        match line.split_once(' ') {
            Some(("metric", line)) => match metric(alloc, line)? {
                Some(metric) => lists.metrics.push(metric)?,
                None => return Err(Fail::new("no metric")),
            },
            Some(("aggregator", line)) => lists.aggs.push(metric(alloc, line)?)?,
            Some(("output", line)) => lists.outs.push(metric(alloc, line)?)?,
            Some(("delivered", group)) => lists.reports.push(Report {
                group: group.parse().unwrap_or(0),
                input: 1,
                delivered: true,
            })?,
            Some(("rejected", group)) => lists.reports.push(Report {
                group: group.parse().unwrap_or(0),
                input: 1,
                delivered: false,
            })?,
            _ => return Err(Fail::new(format_args!("no list: {line}"))),
        }
    }
    Ok(lists)
}

/// An aggregator: its times, whether it drops, and its kind.
fn aggregator(words: &mut SplitWhitespace<'_>) -> AggLine {
    let (period, delay, grace) = (next(words), next(words), next(words));
    let dropping = words.next() == Some("drop");
    let kind = match words.next().unwrap_or("") {
        "minmax" => AggWord::MinMax,
        "merge" => AggWord::Merge,
        "final" => AggWord::Final(next(words)),
        _ => AggWord::Basic {
            sum: words.next() == Some("sum"),
            count: words.next() == Some("count"),
            min: words.next() == Some("min"),
            max: words.next() == Some("max"),
        },
    };
    AggLine {
        kind,
        period,
        delay,
        grace,
        dropping,
    }
}

/// A set-up that starts at a moment, with the parts that the lines name.
fn setup(alloc: Global, start: i64, lines: &str) -> Result<JournalSetup, Fail> {
    let mut inputs = Vec::new(alloc);
    let mut aggs = Vec::new(alloc);
    let mut outputs = Vec::new(alloc);
    for line in lines.lines() {
        let mut words = line.split_whitespace();
        match words.next().unwrap_or("") {
            "plain" => inputs.push(None)?,
            "tracked" => inputs.push(Some(next(&mut words)))?,
            "output" => outputs.push((next(&mut words), next(&mut words)))?,
            _ => aggs.push(aggregator(&mut words))?,
        }
    }
    Ok(JournalSetup {
        start,
        inputs: Seq::of(inputs),
        aggs: Seq::of(aggs),
        outputs: Seq::of(outputs),
    })
}

/// A Route, beside its item, the first metric that is listed. The second is its whole, where it isn't removed.
fn write_route(
    alloc: Global,
    words: &mut SplitWhitespace<'_>,
    lists: Lists,
    out: &mut TextBuffer,
) -> Result<(), Fail> {
    let item = next(words);
    match words.next().unwrap_or("") {
        "passes" => write_routed(alloc, item, Verdict::Passes, lists, out),
        "consumed" => write_routed(alloc, item, Verdict::Consumed, lists, out),
        "late" => write_routed(alloc, item, Verdict::Late, lists, out),
        _ => write_removed(alloc, item, lists, out),
    }
}

/// The Route of an item that isn't removed.
fn write_routed(
    alloc: Global,
    item: u64,
    verdict: Verdict,
    mut lists: Lists,
    out: &mut TextBuffer,
) -> Result<(), Fail>
    requires { verdict ≡ Verdict.Removed → ⊥ }
{
    let Some(whole) = lists.metrics.pop() else {
        return Err(Fail::new("no whole"));
    };
    if lists.metrics.len() != 1 {
        return Err(Fail::new("no item"));
    }
    let route = Entry::Route {
        item,
        whole: Some(whole),
        verdict,
        aggs: Seq::of(lists.aggs),
        outs: Seq::of(lists.outs),
        reports: Seq::of(lists.reports),
    };
    write_entry(alloc, lists.metrics.as_slice(), &route, out)?;
    Ok(())
}

/// The Route of an item that is removed, where one aggregator and one output are.
fn write_removed(alloc: Global, item: u64, lists: Lists, out: &mut TextBuffer) -> Result<(), Fail> {
    if lists.metrics.len() != 1 {
        return Err(Fail::new("no item"));
    }
    let removed = Entry::Route {
        item,
        whole: None,
        verdict: Verdict::Removed,
        aggs: Seq::of(vec![in alloc; None]?),
        outs: Seq::of(vec![in alloc; None]?),
        reports: Seq::of(lists.reports),
    };
    write_entry(alloc, lists.metrics.as_slice(), &removed, out)?;
    Ok(())
}

/// Any other entry.
fn entry(word: &str, words: &mut SplitWhitespace<'_>, lists: Lists) -> Entry
    ensures item { HasItem [] result }
    ensures whole { IsWholeOrRemoved result }
{
    match word {
        "gather" => Entry::Gather {
            input: next(words),
            moment: next(words),
            pieces: next(words),
            refused: next(words),
            passed: next(words),
            filtered: next(words),
            metrics: Seq::of(lists.metrics),
            group: words.next().unwrap_or("").parse().ok(),
            reports: Seq::of(lists.reports),
        },
        "ended" => Entry::Ended { input: next(words) },
        "take" => Entry::Take { item: next(words) },
        "tick" => Entry::Tick {
            moment: next(words),
            made: Seq::of(lists.metrics),
        },
        "stop" => Entry::Stop {
            moment: next(words),
            made: Seq::of(lists.metrics),
        },
        "begin" => Entry::Begin {
            output: next(words),
            from: next(words),
            to: next(words),
        },
        _ => Entry::Done {
            output: next(words),
            ok: words.next() == Some("ok"),
            reports: Seq::of(lists.reports),
        },
    }
}

impl Calls for JournalCalls {
    fn begin(alloc: Global, _row: &Row<'_>, _word: &str) -> Result<JournalCalls, Fail> {
        Ok(JournalCalls {
            text: TextBuffer::new(alloc),
        })
    }

    fn make(&mut self, alloc: Global, call: &str) -> Result<String, Fail> {
        let from = self.text.len();
        let (first, lines) = call.split_once('\n').unwrap_or((call, ""));
        let mut words = first.split_whitespace();
        match words.next().unwrap_or("") {
            "length" => return shown(alloc, from),
            "setup" => {
                let setup = setup(alloc, next(&mut words), lines)?;
                write_setup(alloc, &setup, &mut self.text)?;
            }
            "end" => {
                let entries = next(&mut words);
                write_end(alloc, lines.as_bytes(), entries, &mut self.text)?;
            }
            "route" => {
                let lists = read_lists(alloc, lines)?;
                write_route(alloc, &mut words, lists, &mut self.text)?;
            }
            word => {
                let entry = entry(word, &mut words, read_lists(alloc, lines)?);
                write_entry(alloc, &[], &entry, &mut self.text)?;
            }
        }
        let text = self.text.as_slice().get(from..).unwrap_or(b"");
        Ok(String::from_str(alloc, str::from_utf8(text)?)?)
    }
}
