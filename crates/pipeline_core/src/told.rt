//! Reports of an input, until they are handed out.
ghost use Rattle.std.specs.Prelude.{◌≡◌, ◌+◌, ◌++◌, ◌∷◌, ◌<◌, ◌≤◌, [], length, drop, slice_get, OnOk, OnErr};

use account::Report;
use fixed_num::OutOfMemory;
use std::alloc::Global;
use std::collections::VecDeque;
use std::marker::Model;

/// The reports of an input that weren't handed out yet, oldest first, and room for more.
#[derive(Drop)]
pub(crate) struct Told {
    queue: VecDeque<Report>,
}

impl Model for Told {
    ghost use Rattle.pipeline_core.specs.ToldView.{ToldState, told_state};

    ghost Value = { ToldState };

    ghost view = { told_state };
}

impl Told {
    /// No reports.
    pub(crate) fn new(alloc: Global) -> Told
        ensures { result.reports ≡ [] }
    {
        Told {
            queue: VecDeque::new(alloc),
        }
    }

    /// Makes room for so many more. Without memory all stays as it was.
    pub(crate) fn reserve(&mut self, more: usize) -> Result<(), OutOfMemory>
        ensures same { self.new.reports ≡ self.old.reports }
        ensures kept { self.old.places ≤ self.new.places }
        ensures room { OnOk result (length self.new.reports + more ≤ self.new.places) }
    {
        self.queue.reserve(more)?;
        Ok(())
    }

    /// Puts a report behind the others, for which there is room.
    pub(crate) fn push(&mut self, report: Report)
        requires { length self.old.reports < self.old.places }
        ensures { self.new ≡ record self.old { reports = self.old.reports ++ report ∷ [] } }
    {
        self.queue.push_back_reserved(report);
    }

    /// Hands out the oldest report, where there is one.
    pub(crate) fn next(&mut self) -> Option<Report>
        ensures oldest { result ≡ slice_get self.old.reports 0 }
        ensures others { self.new ≡ record self.old { reports = drop 1 self.old.reports } }
    {
        self.queue.pop_front()
    }
}
