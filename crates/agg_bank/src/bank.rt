//! The bank of the aggregators of a run.
ghost use Rattle.std.specs.Prelude.{◌≡◌, ◌<◌, ◌^◌, ◌++◌, ◌∷◌, [], ℤ, List, All, length, zip, IfOk, OnOk, OnErr};
ghost use Rattle.std.specs.List.{list_any};
ghost use Rattle.account.specs.declared.setup.AggLine.{AggLine};
ghost use Rattle.agg_bank.specs.Bank.{lines_of, BankStands};
ghost use Rattle.agg_bank.specs.Events.{closing_event, has_stopped, offered, BankEvent, Offer, Tick, Stop};
ghost use Rattle.account.specs.AggLines.{IsLine};
ghost use Rattle.agg_bank.specs.Made.{made_at, made_from};
ghost use Rattle.agg_bank.specs.Ready.{consumes_at, lines_in, sees_at, verdict_at, Adds, AllStand, AreReady, Closes};
ghost use Rattle.agg_bank.specs.Ready.{EachIs, Keeps, Prepares};
ghost use Rattle.agg_bank.specs.Verdicts.{verdict_on};

use crate::aggregator::Aggregator;
use account::{AggLine, Verdict};
use agg_keep::Closing;
use fixed_num::{Moment, OutOfMemory};
use metric::Metric;
use std::alloc::Global;
use std::marker::Model;

/// The aggregators of a run, in order, each with the window that is open and what it keeps of its members.
#[derive(Drop)]
pub struct Bank {
    alloc: Global,
    aggregators: Vec<Aggregator>,
    stopped: bool,
}

impl Model for Bank {
    ghost use Rattle.agg_bank.specs.Bank.{BankMemory};

    ghost Value = { BankMemory };

    ghost view = { λ b. record { aggregators = b.aggregators.items; stopped = b.stopped } };
}

impl Bank {
    /// The bank of these aggregators, in which nothing was offered: of each the window is open in which the start is.
    pub fn new(alloc: Global, lines: &[AggLine], start: Moment) -> Result<Bank, OutOfMemory>
        requires { All IsLine lines.now }
        ensures { IfOk result (BankStands lines.now start []) }
    {
        let mut aggregators = Vec::with_capacity(alloc, lines.len())?;
        for line in lines {
            aggregators.push(Aggregator::new(alloc, *line, start))?;
        }
        Ok(Bank {
            alloc,
            aggregators,
            stopped: false,
        })
    }

    /// Offers an item, with what each aggregator sees of it, behind fewer than 2^32 items with a view: each takes its view
    /// where its time is within the window that is open, from its begin less the grace up to its end and the delay. Whether
    /// the item is consumed, late, or passes. After an error the bank is as before.
    pub fn offer(&mut self, views: &[Option<Metric>]) -> Result<Verdict, OutOfMemory>
        requires { length views.now ≡ length (lines_of self.old) }
        ensures verdict { (lines : List AggLine) (start : ℤ) (events : List BankEvent)
            → BankStands lines start events self.old
            → IfOk result (λ verdict. verdict ≡ verdict_on lines start events views.now) }
        ensures ok { (lines : List AggLine) (start : ℤ) (events : List BankEvent)
            → BankStands lines start events self.old → offered events < 2 ^ 32
            → OnOk result (BankStands lines start (events ++ Offer views.now ∷ []) self.new) }
        ensures err { (lines : List AggLine) (start : ℤ) (events : List BankEvent)
            → BankStands lines start events self.old → OnErr result (BankStands lines start events self.new) }
        ensures lines { lines_of self.new ≡ lines_of self.old }
    {
        let verdict = verdict_of(self.aggregators.as_slice(), self.stopped, views);
        prepare_all(&mut self.aggregators, self.stopped, views)?;
        add_all(&mut self.aggregators, self.stopped, views);
        Ok(verdict)
    }

    /// What a tick at a moment would make, the aggregators in order. Nothing changes.
    pub fn due(&self, moment: Moment) -> Result<Vec<Metric>, OutOfMemory>
        ensures { (lines : List AggLine) (start : ℤ) (events : List BankEvent)
            → BankStands lines start events self.now
            → IfOk result (λ made. made.items ≡ made_at lines start events (Tick moment)) }
    {
        Ok(self.made_by(Closing { moment, all: false })?)
    }

    /// A tick at a moment: a window closes whose end and delay are at or before it, and the one opens in which the moment
    /// less the delay is. It takes no memory.
    pub fn close(&mut self, moment: Moment)
        ensures stands { (lines : List AggLine) (start : ℤ) (events : List BankEvent)
            → BankStands lines start events self.old
            → BankStands lines start (events ++ Tick moment ∷ []) self.new }
        ensures lines { lines_of self.new ≡ lines_of self.old }
    {
        self.close_by(Closing { moment, all: false });
    }

    /// What the stop at a moment would make. Nothing changes.
    pub fn due_at_stop(&self, moment: Moment) -> Result<Vec<Metric>, OutOfMemory>
        ensures { (lines : List AggLine) (start : ℤ) (events : List BankEvent)
            → BankStands lines start events self.now
            → IfOk result (λ made. made.items ≡ made_at lines start events (Stop moment)) }
    {
        Ok(self.made_by(Closing { moment, all: true })?)
    }

    /// The stop at a moment: all windows close, and from then on nothing is taken. It takes no memory.
    pub fn close_all(&mut self, moment: Moment)
        ensures stands { (lines : List AggLine) (start : ℤ) (events : List BankEvent)
            → BankStands lines start events self.old
            → BankStands lines start (events ++ Stop moment ∷ []) self.new }
        ensures lines { lines_of self.new ≡ lines_of self.old }
    {
        self.close_by(Closing { moment, all: true });
    }

    /// A tick at a moment, and what it makes. After an error the bank is as before.
    pub fn tick(&mut self, moment: Moment) -> Result<Vec<Metric>, OutOfMemory>
        ensures made { (lines : List AggLine) (start : ℤ) (events : List BankEvent)
            → BankStands lines start events self.old
            → IfOk result (λ made. made.items ≡ made_at lines start events (Tick moment)) }
        ensures ok { (lines : List AggLine) (start : ℤ) (events : List BankEvent)
            → BankStands lines start events self.old
            → OnOk result (BankStands lines start (events ++ Tick moment ∷ []) self.new) }
        ensures err { OnErr result (self.new ≡ self.old) }
        ensures lines { lines_of self.new ≡ lines_of self.old }
    {
        let made = self.due(moment)?;
        self.close(moment);
        Ok(made)
    }

    /// The stop at a moment, and what it makes. After an error the bank is as before.
    pub fn stop(&mut self, moment: Moment) -> Result<Vec<Metric>, OutOfMemory>
        ensures made { (lines : List AggLine) (start : ℤ) (events : List BankEvent)
            → BankStands lines start events self.old
            → IfOk result (λ made. made.items ≡ made_at lines start events (Stop moment)) }
        ensures ok { (lines : List AggLine) (start : ℤ) (events : List BankEvent)
            → BankStands lines start events self.old
            → OnOk result (BankStands lines start (events ++ Stop moment ∷ []) self.new) }
        ensures err { OnErr result (self.new ≡ self.old) }
        ensures lines { lines_of self.new ≡ lines_of self.old }
    {
        let made = self.due_at_stop(moment)?;
        self.close_all(moment);
        Ok(made)
    }

    // What a tick, or the stop, would make, the aggregators in order. Nothing changes.
    fn made_by(&self, closing: Closing) -> Result<Vec<Metric>, OutOfMemory>
        ensures { (lines : List AggLine) (start : ℤ) (events : List BankEvent)
            → BankStands lines start events self.now
            → IfOk result
            (λ made. made.items ≡ made_at lines start events (closing_event closing.all closing.moment)) }
    {
        let aggregators = self.aggregators.as_slice();
        made_by_all(self.alloc, aggregators, self.stopped, closing)
    }

    // A tick, or the stop. It takes no memory.
    fn close_by(&mut self, closing: Closing)
        ensures stands { (lines : List AggLine) (start : ℤ) (events : List BankEvent)
            → BankStands lines start events self.old
            → BankStands lines start (events ++ closing_event closing.all closing.moment ∷ []) self.new }
        ensures lines { lines_of self.new ≡ lines_of self.old }
    {
        close_each(&mut self.aggregators, self.stopped, closing);
        self.stopped |= closing.all;
    }
}

/// The verdict on an item of which each aggregator sees its view, before a stop or behind one.
fn verdict_of(aggregators: &[Aggregator], stopped: bool, views: &[Option<Metric>]) -> Verdict
    ensures { result ≡ verdict_at stopped aggregators.now views.now }
{
    if is_consumed(aggregators, stopped, views) {
        return Verdict::Consumed;
    }
    if is_seen(aggregators, views) {
        return Verdict::Late;
    }
    Verdict::Passes
}

/// Does one of the aggregators take its view, and keep it from the outputs?
fn is_consumed(aggregators: &[Aggregator], stopped: bool, views: &[Option<Metric>]) -> bool
    ensures { result ≡ list_any (consumes_at stopped) (zip aggregators.now views.now) }
{
    aggregators
        .iter()
        .zip(views)
        .any(|(aggregator, view)| aggregator.consumes(stopped, view))
}

/// Has one of the aggregators a view that it would keep from the outputs?
fn is_seen(aggregators: &[Aggregator], views: &[Option<Metric>]) -> bool
    ensures { result ≡ list_any sees_at (zip aggregators.now views.now) }
{
    aggregators
        .iter()
        .zip(views)
        .any(|(aggregator, view)| aggregator.sees(view))
}

/// Makes room in each aggregator for its view, where it takes it: it may want memory. The members stay.
fn prepare_all(
    aggregators: &mut Vec<Aggregator>,
    stopped: bool,
    views: &[Option<Metric>],
) -> Result<(), OutOfMemory>
    requires { length views.now ≡ length aggregators.old.items }
    ensures err { OnErr result (EachIs (λ at. Keeps) aggregators.old.items aggregators.new.items) }
    ensures ok { OnOk result (EachIs (Prepares stopped views.now) aggregators.old.items aggregators.new.items) }
{
    'aggregators: for at in 0..views.len() {
        aggregators[at].prepare(stopped, &views[at])?;
    }
    Ok(())
}

/// The view of each aggregator that takes it is a member. It takes no memory, since each was prepared.
fn add_all(aggregators: &mut Vec<Aggregator>, stopped: bool, views: &[Option<Metric>])
    requires lengths { length views.now ≡ length aggregators.old.items }
    requires ready { AreReady stopped views.now aggregators.old.items }
    ensures { EachIs (Adds stopped views.now) aggregators.old.items aggregators.new.items }
{
    'aggregators: for at in 0..views.len() {
        aggregators[at].add_prepared(stopped, &views[at]);
    }
}

/// What a tick, or the stop, makes, the aggregators in order.
fn made_by_all(
    alloc: Global,
    aggregators: &[Aggregator],
    stopped: bool,
    closing: Closing,
) -> Result<Vec<Metric>, OutOfMemory>
    ensures { (start : ℤ) (events : List BankEvent) → stopped ≡ has_stopped events
        → AllStand start events aggregators.now
        → IfOk result (λ made. made.items
        ≡ made_from 0 (lines_in aggregators.now) start events (closing_event closing.all closing.moment)) }
{
    let mut made = Vec::new(alloc);
    for aggregator in aggregators {
        aggregator.append_made(stopped, closing, &mut made)?;
    }
    Ok(made)
}

/// A tick, or the stop, for each aggregator.
fn close_each(aggregators: &mut Vec<Aggregator>, stopped: bool, closing: Closing)
    ensures { EachIs (Closes stopped (closing_event closing.all closing.moment))
        aggregators.old.items aggregators.new.items }
{
    'aggregators: for at in 0..aggregators.len() {
        aggregators[at].close(stopped, closing);
    }
}
