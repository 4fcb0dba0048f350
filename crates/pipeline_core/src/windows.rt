//! Windows close: what they make becomes raw items.
ghost use Rattle.std.specs.Prelude.{◌≡◌, ◌+◌, ◌++◌, ◌<◌, ◌≤◌, ◌^◌, ◌∷◌, [], ℤ, List, true, false, length, replicate};
ghost use Rattle.std.specs.Prelude.{IfOk, OnErr, OnOk, None};
ghost use Rattle.account.specs.declared.setup.AggLine.{AggLine};
ghost use Rattle.agg_bank.specs.Bank.{BankStands, lines_of};
ghost use Rattle.agg_bank.specs.Events.{BankEvent, closing_event};
ghost use Rattle.agg_bank.specs.Made.{made_at};
ghost use Rattle.pipeline_core.specs.Moments.{IsClosedAt, IsStoppedAt, IsTickedAt, closing_entry};

use crate::gathering::has_numbers;
use crate::room::{line_up, make_room, queue_of};
use crate::state::Core;
use crate::unrouted::Unrouted;
use account::{Account, Entry};
use agg_bank::Bank;
use fixed_num::{Moment, OutOfMemory, Seq};
use metric::Metric;
use std::alloc::Global;
use std::collections::VecDeque;

impl Core {
    /// Closes the windows that are due at a moment (nanoseconds since 1970), each once; what they make becomes items.
    /// The moment that counts is the greater of this one and the last one counted. Without memory all stays as it was.
    pub fn tick(&mut self, moment: Moment) -> Result<(), OutOfMemory>
        requires { self.old.stopped ≡ false }
        ensures ok { OnOk result (IsTickedAt moment self.old self.new) }
        ensures err { OnErr result (self.new ≡ self.old) }
    {
        self.close_windows(moment, false)?;
        Ok(())
    }

    /// Stops the gathering, and closes all windows; what they make becomes items. The moment that counts (nanoseconds
    /// since 1970) is the greater of this one and the last one counted. Without memory all stays as it was.
    pub fn stop(&mut self, moment: Moment) -> Result<(), OutOfMemory>
        requires { self.old.stopped ≡ false }
        ensures ok { OnOk result (IsStoppedAt moment self.old self.new) }
        ensures err { OnErr result (self.new ≡ self.old) }
    {
        self.close_windows(moment, true)?;
        Ok(())
    }

    // Closes the windows that are due at a moment, as a tick does, or all of them, as the stop does.
    fn close_windows(&mut self, moment: Moment, all: bool) -> Result<(), OutOfMemory>
        requires { self.old.stopped ≡ false }
        ensures ok { OnOk result (IsClosedAt all moment self.old self.new) }
        ensures err { OnErr result (self.new ≡ self.old) }
    {
        let counted = moment.max(self.counted);
        let made = made_at(&self.bank, all, counted)?;
        make_room(&mut self.stored, self.outputs.len())?;
        take_in(
            self.alloc,
            &mut self.raw,
            &mut self.unrouted,
            &mut self.account,
            self.taken,
            made.as_slice(),
        )?;
        close_at(&mut self.bank, all, counted);
        self.counted = counted;
        self.stopped = all;
        self.stored
            .push_reserved(closing_entry(all, counted, Seq::of(made)));
        Ok(())
    }
}

// What the windows make that a tick at a moment closes, or the stop.
fn made_at(bank: &Bank, all: bool, moment: Moment) -> Result<Vec<Metric>, OutOfMemory>
    ensures { (lines : List AggLine) (start : ℤ) (events : List BankEvent) → BankStands lines start events bank.now
        → IfOk result (λ made. made.items ≡ made_at lines start events (closing_event all moment)) }
{
    if all {
        bank.due_at_stop(moment)
    } else {
        bank.due(moment)
    }
}

// Closes them.
fn close_at(bank: &mut Bank, all: bool, moment: Moment)
    ensures stands { (lines : List AggLine) (start : ℤ) (events : List BankEvent)
        → BankStands lines start events bank.old
        → BankStands lines start (events ++ closing_event all moment ∷ []) bank.new }
    ensures lines { lines_of bank.new ≡ lines_of bank.old }
{
    if all {
        bank.close_all(moment);
    } else {
        bank.close(moment);
    }
}

// The entry that says so.
fn closing_entry(all: bool, moment: Moment, made: Seq<Metric>) -> Entry
    ensures { result ≡ closing_entry all moment made }
{
    if all {
        Entry::Stop { moment, made }
    } else {
        Entry::Tick { moment, made }
    }
}

// Lets metrics that were made wait behind the raw items, where so many items were taken before these, and counts them.
// Without memory all stays as it was.
fn take_in(
    alloc: Global,
    raw: &mut VecDeque<Metric>,
    unrouted: &mut Unrouted,
    account: &mut Account,
    taken: u64,
    metrics: &[Metric],
) -> Result<(), OutOfMemory>
    requires { account.old.made ≤ taken + length raw.old.items }
    ensures few { OnOk result (taken + length raw.new.items < 2 ^ 63) }
    ensures raw { OnOk result (raw.new.items ≡ raw.old.items ++ metrics.now) }
    ensures made { OnOk result (unrouted.new.made ≡ unrouted.old.made ++ replicate (length metrics.now) true) }
    ensures groups { OnOk result (unrouted.new.groups ≡ unrouted.old.groups ++ replicate (length metrics.now) None) }
    ensures account { OnOk result
        (account.new ≡ record account.old { made = account.old.made + length metrics.now }) }
    ensures err { OnErr result ((raw.new.items ≡ raw.old.items) × (unrouted.new.made ≡ unrouted.old.made)
        × (unrouted.new.groups ≡ unrouted.old.groups) × (account.new ≡ account.old)) }
{
    let count = metrics.len();
    if !has_numbers(taken, raw.len(), count) {
        return Err(OutOfMemory);
    }
    let copies = queue_of(alloc, metrics)?;
    unrouted.reserve()?;
    line_up(raw, copies)?;
    unrouted.push(true, &None, count);
    account.made(count as u64);
    Ok(())
}
