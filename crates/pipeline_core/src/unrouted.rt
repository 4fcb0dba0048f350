//! Where the items came from that have no Route yet.
ghost use Rattle.std.specs.Prelude.{◌≡◌, ◌<◌, ◌++◌, [], length, replicate, drop, slice_get, Some, OnOk};

use fixed_num::OutOfMemory;
use std::alloc::Global;
use std::collections::VecDeque;
use std::marker::Model;
use track_groups::GroupRef;

/// Items in a row that came together: there is at least one.
#[derive(Clone, Copy)]
pub(crate) struct Together {
    /// Whether they were made.
    made: bool,
    /// Their group, none where they were made or their input isn't tracked.
    group: Option<GroupRef>,
    /// How many there are.
    count: usize,
}

/// Of the items without a Route, in order, whether each was made, and its group.
#[derive(Drop)]
pub(crate) struct Unrouted {
    rows: VecDeque<Together>,
}

impl Model for Unrouted {
    ghost use Rattle.pipeline_core.specs.UnroutedView.{UnroutedState, unrouted_state, IsUnroutedKept};

    ghost Value = { UnroutedState };

    ghost view = { unrouted_state };

    ghost invariant = { IsUnroutedKept };
}

impl Unrouted {
    /// No items.
    pub(crate) fn new(alloc: Global) -> Unrouted
        ensures made { result.made ≡ [] }
        ensures groups { result.groups ≡ [] }
    {
        Unrouted {
            rows: VecDeque::new(alloc),
        }
    }

    /// Makes room for items that come together. Without memory all stays as it was.
    pub(crate) fn reserve(&mut self) -> Result<(), OutOfMemory>
        ensures made { self.new.made ≡ self.old.made }
        ensures groups { self.new.groups ≡ self.old.groups }
        ensures room { OnOk result (self.new.rows < self.new.places) }
    {
        self.rows.reserve(1)?;
        Ok(())
    }

    /// Lets so many items follow, for which there is room.
    pub(crate) fn push(&mut self, made: bool, group: &Option<GroupRef>, count: usize)
        requires { self.old.rows < self.old.places }
        ensures made { self.new.made ≡ self.old.made ++ replicate count made }
        ensures groups { self.new.groups ≡ self.old.groups ++ replicate count group.now }
    {
        if count > 0 {
            self.rows.push_back_reserved(Together {
                made,
                group: *group,
                count,
            });
        }
    }

    /// Whether the first item was made.
    pub(crate) fn is_first_made(&self) -> bool
        requires { 0 < length self.now.made }
        ensures { slice_get self.now.made 0 ≡ Some result }
    {
        self.rows[0].made
    }

    /// Takes the first item out, and gives its group.
    #[inline(always)]
    pub(crate) fn pop(&mut self) -> Option<GroupRef>
        requires { 0 < length self.old.made }
        ensures made { self.new.made ≡ drop 1 self.old.made }
        ensures groups { self.new.groups ≡ drop 1 self.old.groups }
        ensures first { slice_get self.old.groups 0 ≡ Some result }
    {
        let first = self.rows[0];
        if first.count > 1 {
            self.rows[0].count = first.count - 1;
            return first.group;
        }
        self.rows.pop_front();
        first.group
    }
}
