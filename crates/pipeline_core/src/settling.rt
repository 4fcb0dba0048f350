//! Copies of groups are held and let go, and the groups that settle are reported.
ghost use Rattle.std.specs.Prelude.{◌≡◌, ℕ, ◌+◌, ◌++◌, ◌<◌, ◌≤◌, ◌^◌, [], List, true, false, length, map, count_by};
ghost use Rattle.std.specs.Prelude.{is_some, slice_index_or, slice_set, vec_len, vec_capacity, IsSome, IfSome};
ghost use Rattle.std.specs.Prelude.{None};
ghost use Rattle.account.specs.Numbers.{input_numbers};
ghost use Rattle.out_lane.specs.Lane.{after_begin};
ghost use Rattle.track_groups.specs.Settling.{Copy, times, after_copies, reports_with, is_report_of};
ghost use Rattle.track_groups.specs.Tracker.{TrackerState, IsTracker, IsLive, copies_of};
ghost use Rattle.pipeline_core.specs.CoreState.{marked_at};
ghost use Rattle.pipeline_core.specs.Steps.{marked_with, marked_routed, marked_done, told_with, with_reports};
ghost use Rattle.pipeline_core.specs.ToldView.{no_reports, reports_in};
ghost use Rattle.pipeline_core.specs.Tracked.{copies_in, copy_of, gone_for, held_routed, hold_more, leaving, pushed_copies, routed_copies};
ghost use Rattle.pipeline_core.specs.Letting.{LetsGo, HasCopies, MayTell};

use crate::marked::{Leaving, Marked};
use crate::told::Told;
use account::{Account, Report, Verdict};
use fixed_num::Seq;
use metric::Metric;
use std::alloc::Global;
use track_groups::{GroupRef, Tracker};

/// Lets go one copy of a group, where there is one; its report is put among these by rising group.
pub(crate) fn settle(
    tracker: &mut Tracker,
    group: Option<GroupRef>,
    dropped: bool,
    reports: &mut Vec<Report>,
)
    requires tracks { IsTracker tracker.old }
    requires copies { HasCopies (copy_of dropped group) tracker.old }
    requires room { vec_len reports.old + length (copy_of dropped group) ≤ vec_capacity reports.old }
    ensures settled { LetsGo (copy_of dropped group) tracker.old reports.old.items tracker.new reports.new.items }
    ensures few { vec_len reports.new ≤ vec_len reports.old + length (copy_of dropped group) }
    ensures capacity { vec_capacity reports.new ≡ vec_capacity reports.old }
    ensures stands { IsTracker tracker.new }
{
    if let Some(group) = group {
        tracker.settle_among(group, dropped, reports);
    }
}

/// Lets go a copy of each of these groups, all of them dropped or none.
pub(crate) fn settle_all(
    tracker: &mut Tracker,
    groups: &[Option<GroupRef>],
    dropped: bool,
    reports: &mut Vec<Report>,
)
    requires tracks { IsTracker tracker.old }
    requires copies { HasCopies (copies_in dropped groups.now) tracker.old }
    requires room { vec_len reports.old + count_by is_some groups.now ≤ vec_capacity reports.old }
    ensures settled { LetsGo (copies_in dropped groups.now) tracker.old reports.old.items tracker.new reports.new.items }
    ensures stands { IsTracker tracker.new }
{
    for group in groups {
        settle(tracker, *group, dropped, reports);
    }
}

/// Begins a batch of the groups at an output, with room for what leaves as it ends; nothing where no input is tracked.
pub(crate) fn begin_marks(marked: &mut Vec<Marked>, output: usize, room: Leaving)
    requires none { output < length marked.old.items → (marked_at marked.old.items output).flight ≡ None }
    requires some { output < length marked.old.items → 0 < length (marked_at marked.old.items output).waiting }
    requires empty { (room.groups.items ≡ []) × (room.reports.items ≡ []) }
    requires groups { output < length marked.old.items
        → (marked_at marked.old.items output).batch ≤ vec_capacity room.groups }
    requires reports { output < length marked.old.items
        → (marked_at marked.old.items output).batch ≤ vec_capacity room.reports }
    ensures { marked.new.items ≡ slice_set marked.old.items output (after_begin (marked_at marked.old.items output)) }
{
    if let Some(chosen) = marked.get_mut(output) {
        chosen.begin(room);
    }
}

/// Lets the groups at an output leave as its batch ends, accepted or failed.
pub(crate) fn leave(marked: &mut Vec<Marked>, alloc: Global, output: usize, ok: bool) -> Leaving
    requires { output < length marked.old.items → IsSome (marked_at marked.old.items output).flight }
    ensures marked { marked.new.items ≡ slice_set marked.old.items output
        (marked_done ok (marked_at marked.old.items output)) }
    ensures groups { result.groups.items ≡ leaving ok (marked_at marked.old.items output) }
    ensures reports { result.reports.items ≡ [] }
    ensures room { count_by is_some (leaving ok (marked_at marked.old.items output))
        ≤ vec_capacity result.reports }
{
    match marked.get_mut(output) {
        Some(chosen) => chosen.done(alloc, ok),
        None => Leaving::none(alloc),
    }
}

/// Holds the new copies of a routed item, lets go what its views push out, and last the item itself.
#[inline(always)]
pub(crate) fn settle_routed(
    tracker: &mut Tracker,
    marked: &mut Vec<Marked>,
    group: &Option<GroupRef>,
    verdict: Verdict,
    outs: &[Option<Metric>],
    reports: &mut Vec<Report>,
)
    requires tracks { IsTracker tracker.old }
    requires live { IfSome group.now (λ g. IsLive tracker.old g) }
    requires few { IfSome group.now (λ g. copies_of tracker.old g + length outs.now < 2 ^ 40) }
    requires pushed { (output : ℕ) → output < length marked.old.items
        → (marked_at marked.old.items output).pushed < 2 ^ 63 }
    requires copies { HasCopies (routed_copies verdict outs.now marked.old.items ++ copy_of false group.now)
        (held_routed tracker.old group.now verdict outs.now) }
    requires outputs { (length marked.old.items ≤ length outs.now) × (length outs.now ≤ 16) }
    requires room { (reports.old.items ≡ []) × (length (routed_copies verdict outs.now marked.old.items
        ++ copy_of false group.now) ≤ vec_capacity reports.old) }
    ensures marked { marked.new.items ≡ marked_routed group.now verdict outs.now marked.old.items }
    ensures held { IsTracker (held_routed tracker.old group.now verdict outs.now) }
    ensures settled { LetsGo (routed_copies verdict outs.now marked.old.items ++ copy_of false group.now)
        (held_routed tracker.old group.now verdict outs.now) reports.old.items tracker.new reports.new.items }
    ensures stands { IsTracker tracker.new }
{
    // Where no input is tracked there are no groups.
    if group.is_none() && marked.is_empty() {
        return;
    }
    match verdict {
        Verdict::Passes => {
            hold(tracker, *group, views_in(outs));
            push_marks(tracker, marked, group, outs, reports);
        }
        Verdict::Removed | Verdict::Consumed | Verdict::Late => {}
    }
    settle(tracker, *group, false, reports);
}

// Lets so many copies more of a group wait, where there is one.
fn hold(tracker: &mut Tracker, group: Option<GroupRef>, more: u32)
    requires tracks { IsTracker tracker.old }
    requires live { IfSome group (λ g. IsLive tracker.old g) }
    requires few { IfSome group (λ g. copies_of tracker.old g + more < 2 ^ 40) }
    ensures held { tracker.new ≡ hold_more tracker.old group more }
    ensures stands { IsTracker tracker.new }
{
    if let Some(group) = group {
        tracker.hold(group, more);
    }
}

// How many views there are.
fn views_in(outs: &[Option<Metric>]) -> u32
    requires { length outs.now ≤ 16 }
    ensures { result ≡ count_by is_some outs.now }
{
    let mut count = 0;
    for view in outs {
        if view.is_some() {
            count += 1;
        }
    }
    count
}

// Lets an item of a group wait at each output that has a view of it, and lets go what is dropped for it.
fn push_marks(
    tracker: &mut Tracker,
    marked: &mut Vec<Marked>,
    group: &Option<GroupRef>,
    outs: &[Option<Metric>],
    reports: &mut Vec<Report>,
)
    requires tracks { IsTracker tracker.old }
    requires pushed { (output : ℕ) → output < length marked.old.items
        → (marked_at marked.old.items output).pushed < 2 ^ 63 }
    requires copies { HasCopies (pushed_copies outs.now marked.old.items) tracker.old }
    requires outputs { length marked.old.items ≤ length outs.now }
    requires room { vec_len reports.old + length (pushed_copies outs.now marked.old.items)
        ≤ vec_capacity reports.old }
    ensures marked { marked.new.items ≡ marked_routed group.now Verdict.Passes outs.now marked.old.items }
    ensures settled { LetsGo (pushed_copies outs.now marked.old.items) tracker.old reports.old.items
        tracker.new reports.new.items }
    ensures few { vec_len reports.new ≤ vec_len reports.old + length (pushed_copies outs.now marked.old.items) }
    ensures capacity { vec_capacity reports.new ≡ vec_capacity reports.old }
    ensures stands { IsTracker tracker.new }
{
    for output in 0..marked.len() {
        push_mark(tracker, &mut marked[output], group, &outs[output], reports);
    }
}

// Lets an item of a group wait at an output that has a view of it, and lets go what is dropped for it.
fn push_mark(
    tracker: &mut Tracker,
    marked: &mut Marked,
    group: &Option<GroupRef>,
    view: &Option<Metric>,
    reports: &mut Vec<Report>,
)
    requires tracks { IsTracker tracker.old }
    requires pushed { marked.old.pushed < 2 ^ 63 }
    requires copies { HasCopies (gone_for view.now marked.old) tracker.old }
    requires room { vec_len reports.old + length (gone_for view.now marked.old) ≤ vec_capacity reports.old }
    ensures marked { marked.new ≡ marked_with group.now view.now marked.old }
    ensures settled { LetsGo (gone_for view.now marked.old) tracker.old reports.old.items
        tracker.new reports.new.items }
    ensures few { vec_len reports.new ≤ vec_len reports.old + length (gone_for view.now marked.old) }
    ensures capacity { vec_capacity reports.new ≡ vec_capacity reports.old }
    ensures stands { IsTracker tracker.new }
{
    if view.is_none() {
        return;
    }
    if let Some(dropped) = marked.push(*group) {
        settle(tracker, dropped, true, reports);
    }
}

/// Counts these reports, and keeps each until it is handed out.
pub(crate) fn tell(account: &mut Account, told: &mut Vec<Told>, reports: &[Report])
    requires { MayTell account.old told.old.items reports.now }
    ensures account { account.new ≡ with_reports account.old reports.now }
    ensures told { map reports_in told.new.items ≡ told_with (map reports_in told.old.items) reports.now }
    ensures places { (input : ℕ) → input < length told.old.items →
        (slice_index_or told.new.items input no_reports).places
        ≡ (slice_index_or told.old.items input no_reports).places }
{
    for report in reports {
        account.group_settled(report.input, report.delivered);
        told[report.input as usize].push(*report);
    }
}

/// The reports as a list. The room of none is let go at once, and not only with its entry.
pub(crate) fn listed(alloc: Global, reports: Vec<Report>) -> Seq<Report>
    ensures { result ≡ reports.items }
{
    if reports.is_empty() {
        return Seq::of(Vec::new(alloc));
    }
    Seq::of(reports)
}
