//! Calls of a bank of aggregators.
ghost use Rattle.std.specs.Prelude.{◌≡◌, length, All, IfOk};
ghost use Rattle.std.specs.Bool.{OnTrue};
ghost use Rattle.agg_bank.specs.Bank.{lines_of as lines_in};
ghost use Rattle.account.specs.AggLines.{IsLine};

use crate::aggregators::lines_of;
use crate::{Calls, metric, next, shown};
use account::{AggLine, AggWord};
use agg_bank::Bank;
use fixed_num::Moment;
use metric::Metric;
use scenario_tables::Row;
use std::alloc::Global;
use std::str::SplitWhitespace;
use std::test::Fail;

/// A bank, how many aggregators it has, and whether its closings are made in two steps each.
#[derive(Drop)]
pub struct BankCalls {
    bank: Bank,
    count: usize,
    in_steps: bool,
    ghost counted: { count ≡ length (lines_in bank) },
}

/// The kind that words name: `minmax`, `sum` (basicstats with a sum alone), `merge`, or `final` with a timeout.
fn kind_of(words: &mut SplitWhitespace<'_>) -> Option<AggWord> {
    match words.next()? {
        "minmax" => Some(AggWord::MinMax),
        "sum" => Some(AggWord::Basic {
            sum: true,
            count: false,
            min: false,
            max: false,
        }),
        "merge" => Some(AggWord::Merge),
        "final" => Some(AggWord::Final(next(words))),
        _ => None,
    }
}

/// Has a line a period, and neither its delay nor its grace below 0?
fn is_line(line: AggLine) -> bool
    ensures { OnTrue result (IsLine line) }
{
    if line.period < 1 {
        return false;
    }
    if line.delay < 0 {
        return false;
    }
    if line.grace < 0 {
        return false;
    }
    true
}

/// The line that words say.
fn line_of(words: &str) -> Result<AggLine, Fail>
    ensures { IfOk result IsLine }
{
    let mut words = words.split_whitespace();
    let Some(kind) = kind_of(&mut words) else {
        return Err(Fail::new(format_args!("no kind of an aggregator")));
    };
    let line = AggLine {
        kind,
        period: next(&mut words),
        delay: next(&mut words),
        grace: next(&mut words),
        dropping: words.next() == Some("dropping"),
    };
    if !is_line(line) {
        return Err(Fail::new(format_args!("no aggregator has these windows")));
    }
    Ok(line)
}

/// The lines that words say, with commas between them.
pub(crate) fn lines_said(alloc: Global, words: &str) -> Result<Vec<AggLine>, Fail>
    ensures { IfOk result (λ lines. All IsLine lines.items) }
{
    let mut lines = Vec::new(alloc);
    for part in words.split(", ") {
        lines.push(line_of(part)?)?;
    }
    Ok(lines)
}

/// What the aggregators see of an item: the metric of each line, and of `-` none.
fn views_of(alloc: Global, lines: &str) -> Result<Vec<Option<Metric>>, Fail> {
    let mut views = Vec::new(alloc);
    for line in lines.lines() {
        views.push(if line == "-" {
            None
        } else {
            metric(alloc, line)?
        })?;
    }
    Ok(views)
}

impl BankCalls {
    /// Offers an item, and says the verdict.
    fn offer(&mut self, alloc: Global, lines: &str) -> Result<String, Fail> {
        let views = views_of(alloc, lines)?;
        if views.len() != self.count {
            return Err(Fail::new(format_args!("not a view for each aggregator")));
        }
        let verdict = self.bank.offer(views.as_slice())?;
        shown(alloc, verdict)
    }

    /// What a tick makes.
    fn tick(&mut self, moment: Moment) -> Result<Vec<Metric>, Fail> {
        if !self.in_steps {
            return Ok(self.bank.tick(moment)?);
        }
        self.bank.due(moment)?;
        let made = self.bank.due(moment)?;
        self.bank.close(moment);
        Ok(made)
    }

    /// What the stop makes.
    fn stop(&mut self, moment: Moment) -> Result<Vec<Metric>, Fail> {
        if !self.in_steps {
            return Ok(self.bank.stop(moment)?);
        }
        self.bank.due_at_stop(moment)?;
        let made = self.bank.due_at_stop(moment)?;
        self.bank.close_all(moment);
        Ok(made)
    }
}

impl Calls for BankCalls {
    fn begin(alloc: Global, row: &Row<'_>, word: &str) -> Result<BankCalls, Fail> {
        let lines = lines_said(alloc, row.value("aggregators"))?;
        let start = next(&mut row.value("start").split_whitespace());
        let bank = Bank::new(alloc, lines.as_slice(), start)?;
        Ok(BankCalls {
            bank,
            count: lines.len(),
            in_steps: word == "steps",
        })
    }

    fn make(&mut self, alloc: Global, call: &str) -> Result<String, Fail> {
        let (first, views) = call.split_once('\n').unwrap_or((call, ""));
        let mut words = first.split_whitespace();
        match words.next() {
            Some("offer") => self.offer(alloc, views),
            Some("tick") => lines_of(alloc, self.tick(next(&mut words))?.as_slice()),
            Some("stop") => lines_of(alloc, self.stop(next(&mut words))?.as_slice()),
            _ => Err(Fail::new(format_args!("no call: {first}"))),
        }
    }
}
