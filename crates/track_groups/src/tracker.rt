//! The groups that are live, with what is counted of them.
ghost use Rattle.std.specs.Prelude.{◌≡◌, ◌≢◌, ◌↔◌, IsTrue, ℕ, ◌+◌, ◌^◌, ◌<◌, ◌≤◌, length, slice_index, sum};
ghost use Rattle.std.specs.Prelude.{Some, option_map, IfOk, IfNone, OnSome, List, [], ◌∷◌, ◌++◌};
ghost use Rattle.std.specs.Vec.{vec_len, vec_capacity};
ghost use Rattle.track_groups.specs.Tracker.{new_tracker, live_group, live_of, copies_of, IsLive, IsTracker};
ghost use Rattle.track_groups.specs.Tracker.{new_group, after_start, start_report, held, after_hold, settled};
ghost use Rattle.track_groups.specs.Tracker.{after_settle, settle_report, TrackerState};
ghost use Rattle.track_groups.specs.Settling.{Copy, after_copies, reports_with};

use crate::group::{GroupRef, LiveGroup, place_of};
use crate::reports::put_told;
use account::Report;
use fixed_num::OutOfMemory;
use std::alloc::Global;
use std::collections::VecDeque;
use std::marker::Model;

// Fewer groups than this are started, 2^63.
const GROUP_LIMIT: u64 = 1 << 63;

/// The groups of tracked inputs that are live: copies of their metrics still wait.
///
/// Of each input at most as many groups are live at once as its limit says. Only [`Tracker::new`] takes memory.
#[derive(Drop)]
pub struct Tracker {
    limits: Vec<u32>,
    // How many groups of each input are live.
    counts: Vec<u32>,
    started: u64,
    // The live groups, by rising number.
    live: VecDeque<LiveGroup>,
}

impl Model for Tracker {
    ghost use Rattle.std.specs.VecDeque.{deque_capacity};
    ghost use Rattle.track_groups.specs.Tracker.{TrackerState, tracker_of, Keeps};

    ghost Value = { TrackerState };

    ghost view = { λ t. tracker_of t.limits.items t.started t.live.items };

    ghost invariant = { λ t. Keeps (tracker_of t.limits.items t.started t.live.items)
        t.counts.items (deque_capacity t.live) };
}

impl Tracker {
    /// Makes a tracker in which no group was started, and takes the room of all groups that may be live at once: of
    /// each input as many as its limit says, 0 where it isn't tracked. It fails where memory is short.
    pub fn new(alloc: Global, limits: &[u32]) -> Result<Tracker, OutOfMemory>
        ensures made { IfOk result (λ tracker. tracker ≡ new_tracker limits.now) }
        ensures stands { IfOk result IsTracker }
    {
        let room = sum_of(limits)?;
        let mut counts = Vec::with_capacity(alloc, limits.len())?;
        counts.resize(limits.len(), 0)?;
        Ok(Tracker {
            limits: Vec::from_slice(alloc, limits)?,
            counts,
            started: 0,
            live: VecDeque::with_capacity(alloc, room)?,
        })
    }

    /// Starts a group of an input, of which so many copies wait; fewer than 2^63 were started, and the input has fewer
    /// live groups than its limit says. Where no copy waits, the group is reported at once, and was delivered.
    pub fn start(&mut self, input: u32, copies: u32) -> (GroupRef, Option<Report>)
        requires input { input < length self.old.limits }
        requires room { live_of self.old input < slice_index self.old.limits input }
        requires few { self.old.started < 2 ^ 63 }
        ensures state { self.new ≡ after_start self.old input copies }
        ensures number { result.0 ≡ self.old.started }
        ensures report { result.1 ≡ start_report self.old input copies }
        ensures fresh { ¬ IsLive self.old result.0 }
        ensures group { IfNone result.1
            (live_group self.new result.0 ≡ Some (new_group result.0 input copies)) }
        ensures others { (h : ℕ) → h ≢ result.0 → live_group self.new h ≡ live_group self.old h }
        ensures stands { IsTracker self.new }
    {
        let number = self.started;
        self.started += 1;
        if copies == 0 {
            let report = Report {
                group: number,
                input,
                delivered: true,
            };
            return (GroupRef::of(number), Some(report));
        }
        let _limit = self.limits[input as usize];
        self.counts[input as usize] += 1;
        self.live.push_back_reserved(LiveGroup {
            number,
            copies: copies as u64,
            input,
            rejected: false,
        });
        (GroupRef::of(number), None)
    }

    /// Lets so many more copies of a live group wait, below 2^40 in all.
    pub fn hold(&mut self, g: GroupRef, more: u32)
        requires live { IsLive self.old g }
        requires few { copies_of self.old g + more < 2 ^ 40 }
        ensures state { self.new ≡ after_hold self.old g more }
        ensures group { live_group self.new g ≡ option_map (held more) (live_group self.old g) }
        ensures copies { copies_of self.new g ≡ copies_of self.old g + more }
        ensures others { (h : ℕ) → h ≢ g → live_group self.new h ≡ live_group self.old h }
        ensures stands { IsTracker self.new }
    {
        let at = place_of(&self.live, g.number());
        self.live[at].copies += more as u64;
    }

    /// Lets go one copy of a live group, which was dropped where it is `rejected`. With its last copy the group is no
    /// longer live, and is reported: it was delivered where no copy of it was dropped.
    pub fn settle(&mut self, g: GroupRef, rejected: bool) -> Option<Report>
        requires { IsLive self.old g }
        ensures state { self.new ≡ after_settle self.old g rejected }
        ensures report { result ≡ settle_report self.old g rejected }
        ensures group { IfNone result
            (live_group self.new g ≡ option_map (settled rejected) (live_group self.old g)) }
        ensures gone { OnSome result (¬ IsLive self.new g) }
        ensures copies { copies_of self.new g + 1 ≡ copies_of self.old g }
        ensures others { (h : ℕ) → h ≢ g → live_group self.new h ≡ live_group self.old h }
        ensures stands { IsTracker self.new }
    {
        let at = place_of(&self.live, g.number());
        let group = self.live[at];
        let rejected = group.rejected | rejected;
        if group.copies > 1 {
            self.live[at] = LiveGroup {
                copies: group.copies - 1,
                rejected,
                ..group
            };
            return None;
        }
        let _settled = self.live.remove(at);
        self.counts[group.input as usize] -= 1;
        Some(Report {
            group: group.number,
            input: group.input,
            delivered: !rejected,
        })
    }

    /// Lets go one copy of a live group, as [`Tracker::settle`] does. Where the group is reported, its report is put
    /// among these, which stand by rising number; there is room for it.
    pub fn settle_among(&mut self, g: GroupRef, dropped: bool, reports: &mut Vec<Report>)
        requires live { IsLive self.old g }
        requires room { vec_len reports.old < vec_capacity reports.old }
        ensures state { self.new ≡ after_settle self.old g dropped }
        ensures gone { (first : TrackerState) (copies : List Copy) → IsTracker first →
            self.old ≡ after_copies first copies →
            self.new ≡ after_copies first (copies ++ record { group = g; dropped = dropped } ∷ []) }
        ensures told { (first : TrackerState) (copies : List Copy) → IsTracker first →
            self.old ≡ after_copies first copies → reports.old.items ≡ reports_with first copies →
            reports.new.items ≡ reports_with first (copies ++ record { group = g; dropped = dropped } ∷ []) }
        ensures few { vec_len reports.new ≤ vec_len reports.old + 1 }
        ensures kept { vec_capacity reports.new ≡ vec_capacity reports.old }
        ensures stands { IsTracker self.new }
    {
        let told = self.settle(g, dropped);
        put_told(reports, told);
    }

    /// Whether a group more may be started: fewer than 2^63 were.
    pub fn has_room(&self) -> bool
        ensures { IsTrue result ↔ (self.now.started < 2 ^ 63) }
    {
        self.started < GROUP_LIMIT
    }

    /// Whether no group is live.
    pub fn is_idle(&self) -> bool
        ensures { IsTrue result ↔ (self.now.live ≡ []) }
    {
        self.live.is_empty()
    }

    /// How many groups of an input are live; 0 where there is no such input.
    pub fn undelivered(&self, input: u32) -> u32
        ensures live { result ≡ live_of self.now input }
        ensures unknown { length self.now.limits ≤ input → result ≡ 0 }
        ensures stands { IsTracker self.now }
    {
        self.counts.get(input as usize).copied().unwrap_or(0)
    }
}

/// The sum of the limits.
fn sum_of(limits: &[u32]) -> Result<usize, OutOfMemory>
    ensures { IfOk result (λ total. total ≡ sum limits.now) }
{
    let mut total = 0usize;
    for limit in limits {
        let Some(more) = total.checked_add(*limit as usize) else {
            return Err(OutOfMemory);
        };
        total = more;
    }
    Ok(total)
}
