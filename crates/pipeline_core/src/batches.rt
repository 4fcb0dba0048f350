//! Batches of an output.
ghost use Rattle.std.specs.Prelude.{◌≡◌, ◌<◌, ◌≤◌, ◌^◌, ◌↔◌, [], length, vec_capacity, IfOk, OnOk, OnErr, IsSome};
ghost use Rattle.account.specs.Numbers.{with_output, output_numbers, IsOutputBelow};
ghost use Rattle.pipeline_core.specs.CoreState.{lane_at, sizes_at};
ghost use Rattle.account.specs.declared.entry.Entry.TheVariants as entries;
ghost use Rattle.out_lane.specs.Lane.{flying};
ghost use Rattle.pipeline_core.specs.Stands.{Continues};
ghost use Rattle.pipeline_core.specs.Steps.{after_begin, after_done, done_entry, IsBatchOf, counted_done};

use crate::marked::Leaving;
use crate::output::Offer;
use crate::room::make_room;
use crate::settling::{begin_marks, leave, settle_all, tell};
use crate::state::Core;
use account::{Account, Entry};
use fixed_num::{OutOfMemory, Seq};

/// A batch that was begun. [`Core::flight`] lends what is in it.
#[derive(Clone, Copy, Debug, PartialEq, Eq)]
pub struct Batch {
    /// The position of its first metric: how many came to the output before.
    pub from: u64,
    /// One past the position of its last metric.
    pub to: u64,
}

/// Why no batch was begun.
#[derive(Clone, Copy, Debug, PartialEq, Eq)]
pub enum BeginAnswer {
    /// No memory was left.
    OutOfMemory,
    /// A batch of the output is in flight.
    InFlight,
    /// No metric waits at the output.
    NothingWaiting,
}

impl Core {
    /// Begins the next batch of an output: its oldest waiting metrics. An error leaves all as it was.
    pub fn begin(&mut self, output: u32) -> Result<Batch, BeginAnswer>
        requires { output < length self.old.setup.outputs }
        ensures in_flight { (result ≡ Err BeginAnswer.InFlight)
            ↔ IsSome (lane_at self.old.lanes output).flight }
        ensures nothing { let lane = lane_at self.old.lanes output in
            (result ≡ Err BeginAnswer.NothingWaiting) ↔ ((lane.flight ≡ None) × (length lane.waiting ≡ 0)) }
        ensures empty { result ≡ Err BeginAnswer.NothingWaiting →
            (output_numbers self.old.numbers output).buffered ≡ 0 }
        ensures batch { IfOk result (IsBatchOf (lane_at self.old.lanes output)) }
        ensures some { IfOk result (λ batch. batch.from < batch.to) }
        ensures flies { OnOk result (IsSome (lane_at self.new.lanes output).flight) }
        ensures ok { IfOk result (λ batch. self.new ≡ after_begin self.old output batch.from batch.to) }
        ensures stands { IfOk result
            (λ batch. Continues self.old self.new (entries.Begin output batch.from batch.to)) }
        ensures err { OnErr result (self.new ≡ self.old) }
    {
        let chosen = &self.outputs[output as usize];
        chosen.ready()?;
        let Ok(()) = make_room(&mut self.stored, self.outputs.len()) else {
            return Err(BeginAnswer::OutOfMemory);
        };
        let Ok(room) = self.leaving_room(output) else {
            return Err(BeginAnswer::OutOfMemory);
        };
        let chosen = &mut self.outputs[output as usize];
        let Ok(batch) = chosen.begin(self.alloc) else {
            return Err(BeginAnswer::OutOfMemory);
        };
        begin_marks(&mut self.marked, output as usize, room);
        self.stored.push_reserved(Entry::Begin {
            output,
            from: batch.from,
            to: batch.to,
        });
        Ok(batch)
    }

    /// What an output's batch in flight has, oldest first; nothing where no batch is. It is lent until the core is changed:
    /// no view is copied.
    pub fn flight(&self, output: u32) -> &[Offer]
        requires { output < length self.now.setup.outputs }
        ensures { result.now ≡ flying (lane_at self.now.lanes output) }
    {
        self.outputs[output as usize].flight()
    }

    /// Ends an output's batch in flight: accepted, or failed. Takes no memory.
    #[tactic(auto, unfolding(crate::specs::Steps::done_entry))]
    pub fn done(&mut self, output: u32, ok: bool)
        requires known { output < length self.old.setup.outputs }
        requires begun { IsSome (lane_at self.old.lanes output).flight }
        ensures after { self.new ≡ after_done self.old output ok }
        ensures stands { Continues self.old self.new (done_entry self.old output ok) }
    {
        let chosen = &mut self.outputs[output as usize];
        let count = chosen.done(ok);
        count_done(&mut self.account, output, ok, count);
        let Leaving {
            groups,
            mut reports,
        } = leave(&mut self.marked, self.alloc, output as usize, ok);
        settle_all(&mut self.tracker, groups.as_slice(), !ok, &mut reports);
        tell(&mut self.account, &mut self.told, reports.as_slice());
        self.stored.push_reserved(Entry::Done {
            output,
            ok,
            reports: Seq::of(reports),
        });
    }

    // Room for what leaves an output as its next batch ends; none where no input is tracked.
    fn leaving_room(&self, output: u32) -> Result<Leaving, OutOfMemory>
        requires { output < length self.now.setup.outputs }
        ensures empty { IfOk result (λ room. (room.groups.items ≡ []) × (room.reports.items ≡ [])) }
        ensures groups { IfOk result (λ room. output < length self.now.marked
            → (sizes_at self.now.setup output).0 ≤ vec_capacity room.groups) }
        ensures reports { IfOk result (λ room. output < length self.now.marked
            → (sizes_at self.now.setup output).0 ≤ vec_capacity room.reports) }
    {
        if self.marked.is_empty() {
            return Ok(Leaving::none(self.alloc));
        }
        let most = self.setup.outputs.as_slice()[output as usize].batch as usize;
        Leaving::with_room(self.alloc, most)
    }
}

// Counts the metrics of an output that leave as its batch was accepted, or failed.
fn count_done(account: &mut Account, output: u32, ok: bool, count: u32)
    requires known { output < length account.old.outputs }
    requires held { count ≤ (output_numbers account.old output).buffered }
    requires few { IsOutputBelow (2 ^ 63) (output_numbers account.old output) }
    ensures { account.new ≡ with_output account.old output
        (counted_done ok count (output_numbers account.old output)) }
{
    if ok {
        account.written(output, count);
    } else {
        account.dropped(output, count);
    }
}
