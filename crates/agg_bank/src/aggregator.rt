//! An aggregator with its window.
ghost use Rattle.std.specs.Prelude.{◌≡◌, ◌&&◌, ◌<◌, ◌^◌, ◌++◌, ◌∷◌, [], ℕ, ℤ, List, Option, OnOk, Some, is_some, slice_get};
ghost use Rattle.metric.specs.declared.metric.Content.{Content};
ghost use Rattle.agg_bank.specs.Bank.{AggStands};
ghost use Rattle.agg_bank.specs.Events.{closing_event, has_stopped, offered, BankEvent, Offer};
ghost use Rattle.account.specs.AggLines.{IsLine};
ghost use Rattle.agg_bank.specs.Made.{made_by};
ghost use Rattle.agg_bank.specs.Ready.{closes_at, takes_at, IsReadyFor, Keeps};

use crate::fold::Fold;
use crate::window::{begin_after, begin_at_start, begin_at_tick, end_time, is_open_to};
use account::AggLine;
use agg_keep::Closing;
use fixed_num::{Moment, OutOfMemory};
use metric::Metric;
use std::alloc::Global;
use std::marker::Model;

/// An aggregator, where its window begins (nanoseconds since 1970), and what it keeps of its members.
#[derive(Drop)]
pub(crate) struct Aggregator {
    line: AggLine,
    begin: i128,
    fold: Fold,
}

impl Model for Aggregator {
    ghost use Rattle.agg_bank.specs.Bank.{AggMemory};
    ghost use Rattle.agg_bank.specs.Fold.{memory_of};
    ghost use Rattle.account.specs.AggLines.{IsLine};
    ghost use Rattle.agg_bank.specs.Open.{IsBegin};

    ghost Value = { AggMemory };

    ghost view = { λ a. record { line = a.line; begin = a.begin; fold = memory_of a.fold } };

    ghost invariant = { λ a. record { line : IsLine a.line; begin : IsBegin a.line a.begin } };
}

impl Aggregator {
    /// Nothing was offered to it; the window is open in which the start is.
    pub(crate) fn new(alloc: Global, line: AggLine, start: Moment) -> Aggregator
        requires { IsLine line }
        ensures line { result.line ≡ line }
        ensures stands { (aggregator : ℕ) → AggStands aggregator start [] result }
    {
        Aggregator {
            line,
            begin: begin_at_start(line, start),
            fold: Fold::new(alloc, line.kind),
        }
    }

    /// Does it take a view, before a stop or behind one?
    pub(crate) fn takes(&self, stopped: bool, view: &Option<Metric>) -> bool
        ensures { result ≡ takes_at stopped self.now view.now }
    {
        let Some(m) = view else {
            return false;
        };
        if stopped {
            return false;
        }
        is_open_to(self.line, self.begin, m.time())
    }

    /// Does it take a view, and keep it from the outputs?
    pub(crate) fn consumes(&self, stopped: bool, view: &Option<Metric>) -> bool
        ensures { result ≡ self.now.line.dropping && takes_at stopped self.now view.now }
    {
        if !self.line.dropping {
            return false;
        }
        self.takes(stopped, view)
    }

    /// Has it a view, and would keep it from the outputs?
    pub(crate) fn sees(&self, view: &Option<Metric>) -> bool
        ensures { result ≡ self.now.line.dropping && is_some view.now }
    {
        if !self.line.dropping {
            return false;
        }
        view.is_some()
    }

    /// Makes room for a view that it takes: it may want memory. The members stay.
    pub(crate) fn prepare(
        &mut self,
        stopped: bool,
        view: &Option<Metric>,
    ) -> Result<(), OutOfMemory>
        ensures keeps { Keeps self.old self.new }
        ensures ready { OnOk result (IsReadyFor stopped view.now self.new) }
    {
        let Some(m) = view else {
            return Ok(());
        };
        if !self.takes(stopped, view) {
            return Ok(());
        }
        self.fold.prepare(m)?;
        Ok(())
    }

    /// A view that it takes, and that was prepared last, is a member: it takes no memory.
    pub(crate) fn add_prepared(&mut self, stopped: bool, view: &Option<Metric>)
        requires { IsReadyFor stopped view.now self.old }
        ensures line { self.new.line ≡ self.old.line }
        ensures stands { (aggregator : ℕ) (start : ℤ) (events : List BankEvent) (views : List (Option Content))
            → slice_get views aggregator ≡ Some view.now → stopped ≡ has_stopped events → offered events < 2 ^ 32
            → AggStands aggregator start events self.old
            → AggStands aggregator start (events ++ Offer views ∷ []) self.new }
    {
        if !self.takes(stopped, view) {
            return;
        }
        self.fold.add_prepared();
    }

    /// Is a tick or the stop a closing to it?
    fn closes(&self, stopped: bool, closing: Closing) -> bool
        ensures { result ≡ closes_at stopped self.now closing.moment closing.all }
    {
        if stopped {
            return false;
        }
        if closing.all {
            return true;
        }
        self.begin < begin_at_tick(self.line, closing.moment)
    }

    /// Appends what it makes at a tick, or at the stop. Nothing else changes.
    pub(crate) fn append_made(
        &self,
        stopped: bool,
        closing: Closing,
        made: &mut Vec<Metric>,
    ) -> Result<(), OutOfMemory>
        ensures { (aggregator : ℕ) (start : ℤ) (events : List BankEvent) → stopped ≡ has_stopped events
            → AggStands aggregator start events self.now
            → OnOk result (made.new.items ≡ made.old.items
            ++ made_by aggregator self.now.line start events (closing_event closing.all closing.moment)) }
    {
        let time = end_time(self.line, self.begin);
        if !self.closes(stopped, closing) {
            return Ok(());
        }
        let mut more = self.fold.made(time, closing)?;
        made.append(&mut more)?;
        Ok(())
    }

    /// A tick, or the stop: its members are forgotten where that is a closing, and a tick moves its window on.
    pub(crate) fn close(&mut self, stopped: bool, closing: Closing)
        ensures line { self.new.line ≡ self.old.line }
        ensures stands { (aggregator : ℕ) (start : ℤ) (events : List BankEvent) → stopped ≡ has_stopped events
            → AggStands aggregator start events self.old
            → AggStands aggregator start (events ++ closing_event closing.all closing.moment ∷ []) self.new }
    {
        let closes = self.closes(stopped, closing);
        self.fold.forget_where(closes, closing);
        self.begin = begin_after(self.line, self.begin, closing);
    }
}
