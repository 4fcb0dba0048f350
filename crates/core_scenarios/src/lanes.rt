//! Calls of a small lane.
ghost use Rattle.std.specs.Prelude.{◌≡◌, ◌≤◌};

use crate::{Calls, next, shown};
use out_lane::Lane;
use scenario_tables::Row;
use std::alloc::Global;
use std::test::Fail;

/// A lane, and how a batch of it ends.
#[derive(Drop)]
pub struct LaneCalls {
    lane: Lane<u32>,
    batch: u32,
    pushes: u64,
    is_accepted: bool,
    ghost sized: { lane.batch ≡ batch },
    ghost counted: { lane.pushed ≤ pushes },
}

impl Calls for LaneCalls {
    fn begin(alloc: Global, row: &Row<'_>, word: &str) -> Result<LaneCalls, Fail> {
        let mut words = row.value("lane").split_whitespace();
        let batch = next::<u32>(&mut words).max(1);
        let limit = next::<u32>(&mut words).max(batch);
        Ok(LaneCalls {
            lane: Lane::new(alloc, batch, limit)?,
            batch,
            pushes: 0,
            is_accepted: word == "accepted",
        })
    }

    fn make(&mut self, alloc: Global, call: &str) -> Result<String, Fail> {
        let mut words = call.split_whitespace();
        match words.next().unwrap_or("") {
            "begin" => shown(alloc, self.lane.begin()),
            "flight" => shown(alloc, self.lane.flight()),
            "waiting" => shown(alloc, self.lane.waiting()),
            "end" => {
                let mut back = Vec::with_capacity(alloc, self.batch as usize)?;
                if !self.lane.is_in_flight() {
                    return Err(Fail::new("no batch is in flight"));
                }
                if self.is_accepted {
                    self.lane.accept(&mut back);
                } else {
                    self.lane.fail(&mut back);
                }
                shown(alloc, back)
            }
            _ => {
                let item = next(&mut words);
                if 1000 < self.pushes {
                    return Err(Fail::new("too many calls"));
                }
                self.pushes += 1;
                shown(alloc, self.lane.push(item))
            }
        }
    }
}
