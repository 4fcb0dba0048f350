//! The item in hand goes to the outputs.
ghost use Rattle.std.specs.Prelude.{◌≡◌, ℕ, ◌<◌, ◌≤◌, ◌+◌, ◌++◌, ◌^◌, [], List, true, false, length, map, slice_get};
ghost use Rattle.std.specs.Prelude.{slice_set, None, Some};
ghost use Rattle.std.specs.Prelude.{IfOk, OnOk, OnErr, vec_capacity};
ghost use Rattle.std.specs.List.{AllByRecursion};
ghost use Rattle.account.specs.Numbers.{with_output, output_numbers};
ghost use Rattle.pipeline_core.specs.CoreState.{lane_at};
ghost use Rattle.account.specs.Views.{HasViews};
ghost use Rattle.account.specs.Setup.{Setup};
ghost use Rattle.account.specs.declared.entry.Entry.{Entry};
ghost use Rattle.agg_bank.specs.Bank.{lines_of, BankStands};
ghost use Rattle.agg_bank.specs.Events.{offered};
ghost use Rattle.pipeline_core.specs.Windows.{bank_events, judged, offered_to, BankIs};
ghost use Rattle.pipeline_core.specs.Stands.{Continues, IsAsBefore, Stands};
ghost use Rattle.pipeline_core.specs.Steps.{route_entry, after_route, lane_with, numbers_with, lanes_with};
ghost use Rattle.pipeline_core.specs.Steps.{outputs_with, lanes_routed, numbers_routed, HasFew};
ghost use Rattle.pipeline_core.specs.Steps.{consumed_more, late_more};
ghost use Rattle.pipeline_core.specs.ViewList.{listed_views};

use crate::output::{Offer, Output};
use crate::room::{Views, make_room, view_copies};
use crate::settling::{listed, settle_routed, tell};
use crate::state::Core;
use account::{Account, Entry, Report, Verdict};
use agg_bank::Bank;
use fixed_num::{OutOfMemory, Seq};
use metric::Metric;
use smallvec::SmallVec;

/// What was made of the item in hand.
#[derive(Drop)]
pub struct Routed {
    /// The item's number.
    pub item: u64,
    /// What the processors made of it; None where they removed it.
    pub whole: Option<Metric>,
    /// What each aggregator sees of it.
    pub aggs: Seq<Option<Metric>>,
    /// What each output sees of it.
    pub outs: Seq<Option<Metric>>,
}

impl Core {
    /// Routes the item in hand: it is offered to the aggregators, and where it passes each output takes its view, where
    /// it has one. The answer is what became of the item. Without memory all is as it was.
    #[inline(always)]
    #[tactic(auto, unfolding(crate::specs::Steps::route_entry))]
    pub fn route(&mut self, r: Routed) -> Result<Verdict, OutOfMemory>
        requires held { self.old.held ≡ Some r.item }
        requires aggregators { length r.aggs ≡ length self.old.setup.aggs }
        requires outputs { length r.outs ≡ length self.old.setup.outputs }
        requires views { HasViews r.whole (r.aggs ++ r.outs) }
        requires made { slice_get self.old.made 0 ≡ Some true → AllByRecursion (λ view. view ≡ None) r.aggs }
        ensures verdict { (journal : List Entry) → Stands self.old journal
            → IfOk result (λ verdict. verdict ≡ judged self.old.setup journal r.whole r.aggs) }
        ensures ok { IfOk result (λ verdict. self.new ≡ after_route self.old r verdict self.new.bank) }
        ensures stands { IfOk result (λ verdict. Continues self.old self.new (route_entry self.old r verdict)) }
        ensures err { OnErr result (IsAsBefore self.old self.new) }
    {
        let views = view_copies(self.alloc, r.outs.as_slice())?;
        make_room(&mut self.stored, self.outputs.len())?;
        let mut reports = self.report_room()?;
        let verdict = judge(&mut self.bank, &r.whole, r.aggs.as_slice())?;
        self.held = None;
        let group = self.unrouted.pop();
        hand_out(&mut self.outputs, &mut self.account, r.item, verdict, views);
        settle_routed(
            &mut self.tracker,
            &mut self.marked,
            &group,
            verdict,
            r.outs.as_slice(),
            &mut reports,
        );
        tell(&mut self.account, &mut self.told, reports.as_slice());
        self.stored.push_reserved(Entry::Route {
            item: r.item,
            whole: r.whole,
            verdict,
            aggs: r.aggs,
            outs: r.outs,
            reports: listed(self.alloc, reports),
        });
        Ok(verdict)
    }

    // Room for the reports of a Route: where groups are live, one at each output and one of the item's own group.
    fn report_room(&self) -> Result<Vec<Report>, OutOfMemory>
        ensures none { IfOk result (λ reports. reports.items ≡ []) }
        ensures room { IfOk result (λ reports. 0 < length self.now.tracker.live
            → length self.now.marked + 1 ≤ vec_capacity reports) }
    {
        if self.tracker.is_idle() {
            return Ok(Vec::new(self.alloc));
        }
        Ok(Vec::with_capacity(self.alloc, self.marked.len() + 1)?)
    }
}

// Offers an item to the aggregators, unless it was removed.
fn judge(
    bank: &mut Bank,
    whole: &Option<Metric>,
    aggs: &[Option<Metric>],
) -> Result<Verdict, OutOfMemory>
    requires { length aggs.now ≡ length (lines_of bank.old) }
    ensures lines { lines_of bank.new ≡ lines_of bank.old }
    ensures verdict { (setup : Setup) (before : List Entry) → BankIs setup before bank.old
        → IfOk result (λ verdict. verdict ≡ judged setup before whole.now aggs.now) }
    ensures ok { (setup : Setup) (before : List Entry) → BankIs setup before bank.old
        → offered (bank_events before) < 2 ^ 32
        → OnOk result (BankStands setup.aggs setup.start
        (bank_events before ++ offered_to whole.now aggs.now) bank.new) }
    ensures err { (setup : Setup) (before : List Entry) → BankIs setup before bank.old
        → OnErr result (BankIs setup before bank.new) }
{
    match whole {
        Some(_) => bank.offer(aggs),
        None => Ok(Verdict::Removed),
    }
}

// Counts an item by its verdict, and offers each output its view where the item passes.
#[inline(always)]
fn hand_out(
    outputs: &mut Vec<Output>,
    account: &mut Account,
    item: u64,
    verdict: Verdict,
    views: Views,
)
    requires views { length (listed_views views) ≡ length outputs.old.items }
    requires numbers { length account.old.outputs ≡ length outputs.old.items }
    requires count { length outputs.old.items ≤ 16 }
    requires removed { account.old.removed < 2 ^ 63 }
    requires routed { account.old.routed < 2 ^ 63 }
    requires few { (output : ℕ) → output < length outputs.old.items →
        HasFew (output_numbers account.old output) (lane_at outputs.old.items output) }
    ensures lanes { outputs.new.items
        ≡ lanes_routed item verdict (listed_views views) outputs.old.items }
    ensures account { account.new
        ≡ numbers_routed verdict (listed_views views) outputs.old.items account.old }
{
    match verdict {
        Verdict::Removed => account.removed(),
        Verdict::Passes => {
            account.routed();
            offer_views(outputs, account, item, views);
        }
        Verdict::Consumed => {
            account.routed();
            count_consumed(account, outputs.len());
        }
        Verdict::Late => {
            account.routed();
            count_late(account, outputs.len());
        }
    }
}

// Counts at each output a metric that an aggregator kept from it.
fn count_consumed(account: &mut Account, outputs: usize)
    requires numbers { length account.old.outputs ≡ outputs }
    requires count { outputs ≤ 16 }
    requires few { (output : ℕ) → output < outputs → (output_numbers account.old output).consumed < 2 ^ 63 }
    ensures { account.new ≡ record account.old { outputs = map consumed_more account.old.outputs } }
{
    for output in 0..outputs {
        account.consumed(output as u32);
    }
}

// Counts at each output a metric that came too late for an aggregator.
fn count_late(account: &mut Account, outputs: usize)
    requires numbers { length account.old.outputs ≡ outputs }
    requires count { outputs ≤ 16 }
    requires few { (output : ℕ) → output < outputs → (output_numbers account.old output).late < 2 ^ 63 }
    ensures { account.new ≡ record account.old { outputs = map late_more account.old.outputs } }
{
    for output in 0..outputs {
        account.late(output as u32);
    }
}

// Offers each output the item's view there, and counts what became of it.
#[inline(always)]
fn offer_views(outputs: &mut Vec<Output>, account: &mut Account, item: u64, views: Views)
    requires views { length (listed_views views) ≡ length outputs.old.items }
    requires numbers { length account.old.outputs ≡ length outputs.old.items }
    requires count { length outputs.old.items ≤ 16 }
    requires few { (output : ℕ) → output < length outputs.old.items →
        HasFew (output_numbers account.old output) (lane_at outputs.old.items output) }
    ensures lanes { outputs.new.items ≡ lanes_with item (listed_views views) outputs.old.items }
    ensures account { account.new ≡ record account.old {
      outputs = outputs_with (listed_views views) outputs.old.items account.old.outputs;
    } }
{
    match views {
        Views::One(view) => offer_view(outputs, account, 0, item, view),
        Views::Several(views) => offer_several(outputs, account, item, views),
    }
}

// The same, of several outputs.
#[inline(never)]
fn offer_several(
    outputs: &mut Vec<Output>,
    account: &mut Account,
    item: u64,
    mut views: SmallVec<Option<Metric>, 4>,
)
    requires views { length views.items ≡ length outputs.old.items }
    requires numbers { length account.old.outputs ≡ length outputs.old.items }
    requires count { length outputs.old.items ≤ 16 }
    requires few { (output : ℕ) → output < length outputs.old.items →
        HasFew (output_numbers account.old output) (lane_at outputs.old.items output) }
    ensures lanes { outputs.new.items ≡ lanes_with item views.items outputs.old.items }
    ensures account { account.new
        ≡ record account.old { outputs = outputs_with views.items outputs.old.items account.old.outputs } }
{
    while let Some(view) = views.pop() {
        offer_view(outputs, account, views.len(), item, view);
    }
}

// Offers an output the item's view there, and counts what became of it.
#[inline(always)]
fn offer_view(
    outputs: &mut Vec<Output>,
    account: &mut Account,
    output: usize,
    item: u64,
    view: Option<Metric>,
)
    requires within { output < length outputs.old.items }
    requires numbers { length account.old.outputs ≡ length outputs.old.items }
    requires count { length outputs.old.items ≤ 16 }
    requires few { HasFew (output_numbers account.old output) (lane_at outputs.old.items output) }
    ensures lanes { outputs.new.items
        ≡ slice_set outputs.old.items output (lane_with item view (lane_at outputs.old.items output)) }
    ensures account { account.new ≡ with_output account.old output
        (numbers_with view (lane_at outputs.old.items output) (output_numbers account.old output)) }
{
    let Some(view) = view else {
        account.filtered(output as u32);
        return;
    };
    let chosen = &mut outputs[output];
    let dropped = chosen.push(Offer { item, view });
    account.buffered(output as u32);
    if dropped {
        account.dropped(output as u32, 1);
    }
}
