//! The groups of what waits at an output, and of its batch in flight.
ghost use Rattle.std.specs.Prelude.{◌≡◌, ◌<◌, ◌≤◌, ◌^◌, [], IsSome, IfOk, length, count_by, is_some, vec_capacity};
ghost use Rattle.out_lane.specs.Lane.{empty_lane, after_push, after_begin, pushed_out};
ghost use Rattle.pipeline_core.specs.Steps.{marked_done};
ghost use Rattle.pipeline_core.specs.Tracked.{leaving};

use account::Report;
use fixed_num::OutOfMemory;
use out_lane::Lane;
use std::alloc::Global;
use std::marker::Model;
use std::mem;
use track_groups::GroupRef;

/// The groups of the items that leave an output as its batch ends, and room for the reports of these groups.
#[derive(Drop)]
pub(crate) struct Leaving {
    /// Of each item its group, none where its input isn't tracked.
    pub(crate) groups: Vec<Option<GroupRef>>,
    /// Room for a report of each group.
    pub(crate) reports: Vec<Report>,
}

impl Leaving {
    /// No groups, and no room.
    pub(crate) fn none(alloc: Global) -> Leaving
        ensures groups { result.groups.items ≡ [] }
        ensures reports { result.reports.items ≡ [] }
    {
        Leaving {
            groups: Vec::new(alloc),
            reports: Vec::new(alloc),
        }
    }

    /// Room for so many items.
    pub(crate) fn with_room(alloc: Global, items: usize) -> Result<Leaving, OutOfMemory>
        ensures empty { IfOk result (λ room. (room.groups.items ≡ []) × (room.reports.items ≡ [])) }
        ensures groups { IfOk result (λ room. items ≤ vec_capacity room.groups) }
        ensures reports { IfOk result (λ room. items ≤ vec_capacity room.reports) }
    {
        Ok(Leaving {
            groups: Vec::with_capacity(alloc, items)?,
            reports: Vec::with_capacity(alloc, items)?,
        })
    }
}

/// The groups of what waits at an output, in step with it, and beside them the room for what leaves it as the batch in
/// flight ends.
#[derive(Drop)]
pub(crate) struct Marked {
    lane: Lane<Option<GroupRef>>,
    room: Leaving,
}

impl Model for Marked {
    ghost use Rattle.std.specs.Prelude.{ℕ};
    ghost use Rattle.std.specs.declared.option.Option.{Option};
    ghost use Rattle.out_lane.specs.Lane.{LaneState};
    ghost use Rattle.pipeline_core.specs.MarkedView.{marked_state, IsMarkedKept};

    ghost Value = { LaneState (Option ℕ) };

    ghost view = { marked_state };

    ghost invariant = { IsMarkedKept };
}

impl Marked {
    /// No groups, at an output of these sizes.
    pub(crate) fn new(alloc: Global, batch: u32, limit: u32) -> Result<Marked, OutOfMemory>
        requires some { 1 ≤ batch }
        requires fits { batch ≤ limit }
        ensures { IfOk result (λ marked. marked ≡ empty_lane batch limit) }
    {
        Ok(Marked {
            lane: Lane::new(alloc, batch, limit)?,
            room: Leaving::none(alloc),
        })
    }

    /// Lets an item of a group wait, and answers the group of the one that was dropped for it, where one was.
    pub(crate) fn push(&mut self, group: Option<GroupRef>) -> Option<Option<GroupRef>>
        requires { self.old.pushed < 2 ^ 63 }
        ensures lane { self.new ≡ after_push self.old group }
        ensures out { result ≡ pushed_out self.old }
    {
        self.lane.push(group)
    }

    /// Begins a batch of the oldest waiting items, with room for what leaves as it ends.
    pub(crate) fn begin(&mut self, room: Leaving)
        requires none { self.old.flight ≡ None }
        requires some { 0 < length self.old.waiting }
        requires empty { (room.groups.items ≡ []) × (room.reports.items ≡ []) }
        requires groups { self.old.batch ≤ vec_capacity room.groups }
        requires reports { self.old.batch ≤ vec_capacity room.reports }
        ensures { self.new ≡ after_begin self.old }
    {
        let Ok(_range) = self.lane.begin() else {
            unreachable!();
        };
        self.room = room;
    }

    /// Ends the batch in flight, accepted or failed, and answers the groups of what leaves by it, with room for their
    /// reports.
    pub(crate) fn done(&mut self, alloc: Global, ok: bool) -> Leaving
        requires { IsSome self.old.flight }
        ensures lane { self.new ≡ marked_done ok self.old }
        ensures groups { result.groups.items ≡ leaving ok self.old }
        ensures reports { result.reports.items ≡ [] }
        ensures room { count_by is_some (leaving ok self.old) ≤ vec_capacity result.reports }
    {
        let mut left = mem::replace(&mut self.room, Leaving::none(alloc));
        if ok {
            self.lane.accept(&mut left.groups);
        } else {
            self.lane.fail(&mut left.groups);
        }
        left
    }
}
