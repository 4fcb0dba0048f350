//! The items that wait at one output, and the batch in flight.
ghost use Rattle.std.specs.Prelude.{◌≡◌, ℕ, ◌+◌, ◌^◌, ◌<◌, ◌≤◌, ◌↔◌, ◌++◌, IsTrue, IsSome, length, vec_len};
ghost use Rattle.std.specs.Prelude.{vec_capacity, IfOk, OnOk, OnErr};
ghost use Rattle.out_lane.specs.Lane.{empty_lane, after_push, pushed_out, after_begin, begin_answer};
ghost use Rattle.out_lane.specs.Lane.{after_accept, after_fail, failed_out, flying};

use crate::BeginAnswer;
use crate::moves::{append_within, move_back, move_oldest};
use circular_buffer::HeapCircularBuffer;
use fixed_num::OutOfMemory;
use std::alloc::Global;
use std::marker::Model;

/// The items that wait at one output, and the batch in flight.
///
/// Each item has a position: how many were pushed before it. At most `limit` items wait, and a batch
/// has at most `batch` items. Only [`Lane::new`] takes memory.
#[derive(Drop)]
pub struct Lane<T: Drop> {
    batch: u32,
    pushed: u64,
    // The position of the first item in flight, where a batch is.
    first: Option<u64>,
    flight: Vec<T>,
    waiting: HeapCircularBuffer<T>,
}

impl<T: Drop> Model for Lane<T> {
    ghost use Rattle.std.specs.Prelude.{◌≡◌, ◌+◌, ◌≤◌, ◌<◌, ◌^◌, [], IsNone, length, vec_capacity};
    ghost use Rattle.out_lane.specs.Lane.{LaneState, batch_from};

    ghost Value = { LaneState T };

    ghost view = { λ lane. record {
      batch = lane.batch;
      limit = lane.waiting.capacity;
      pushed = lane.pushed;
      flight = batch_from lane.first lane.flight.items;
      waiting = lane.waiting.items;
    } };

    ghost invariant = { λ lane. record {
      some : 1 ≤ lane.batch;
      fits : lane.batch ≤ lane.waiting.capacity;
      counts : lane.waiting.capacity < 2 ^ 32;
      waits : length lane.waiting.items ≤ lane.waiting.capacity;
      newest : length lane.flight.items + length lane.waiting.items ≤ lane.pushed;
      flies : length lane.flight.items ≤ lane.batch;
      room : lane.batch ≤ vec_capacity lane.flight;
      none : IsNone lane.first → lane.flight.items ≡ [];
    } };
}

impl<T: Drop> Lane<T> {
    /// Makes a lane to which nothing was pushed, and takes the room of all its items.
    pub fn new(alloc: Global, batch: u32, limit: u32) -> Result<Lane<T>, OutOfMemory>
        requires some { 1 ≤ batch }
        requires fits { batch ≤ limit }
        ensures { IfOk result (λ lane. lane ≡ empty_lane batch limit) }
    {
        let flight = Vec::with_capacity(alloc, batch as usize)?;
        let waiting = HeapCircularBuffer::with_capacity(alloc, limit as usize)?;
        Ok(Lane {
            batch,
            pushed: 0,
            first: None,
            flight,
            waiting,
        })
    }

    /// Lets an item wait. Where as many wait as may, the oldest of them no longer does, and comes back.
    pub fn push(&mut self, item: T) -> Option<T>
        requires { self.old.pushed < 2 ^ 63 }
        ensures lane { self.new ≡ after_push self.old item }
        ensures oldest { result ≡ pushed_out self.old }
    {
        self.pushed += 1;
        self.waiting.push_back(item)
    }

    /// Begins a batch of the oldest waiting items, and answers their first position and one past
    /// their last. An error leaves all as it was.
    pub fn begin(&mut self) -> Result<(u64, u64), BeginAnswer>
        ensures answer { result ≡ begin_answer self.old }
        ensures ok { OnOk result (self.new ≡ after_begin self.old) }
        ensures err { OnErr result (self.new ≡ self.old) }
    {
        if self.first.is_some() {
            return Err(BeginAnswer::InFlight);
        }
        let waits = self.waiting.len();
        if waits == 0 {
            return Err(BeginAnswer::NothingWaiting);
        }
        let first = self.pushed - waits as u64;
        self.first = Some(first);
        move_oldest(&mut self.waiting, &mut self.flight, self.batch as usize);
        Ok((first, first + self.flight.len() as u64))
    }

    /// Whether a batch is in flight.
    pub fn is_in_flight(&self) -> bool
        ensures { IsTrue result ↔ IsSome self.now.flight }
    {
        self.first.is_some()
    }

    /// The items of the batch in flight, oldest first; none where no batch is.
    pub fn flight(&self) -> &[T]
        ensures { result.now ≡ flying self.now }
    {
        self.flight.as_slice()
    }

    /// How many items wait.
    pub fn waiting(&self) -> u32
        ensures { result ≡ length self.now.waiting }
    {
        self.waiting.len() as u32
    }

    /// Ends the batch in flight: its items move to the end of `out`, oldest first.
    pub fn accept(&mut self, out: &mut Vec<T>)
        requires begun { IsSome self.old.flight }
        requires room { vec_len out.old + self.old.batch ≤ vec_capacity out.old }
        ensures lane { self.new ≡ after_accept self.old }
        ensures out { out.new.items ≡ out.old.items ++ flying self.old }
    {
        self.first = None;
        append_within(out, &mut self.flight);
    }

    /// Lets the batch in flight wait again, before the items that wait. All but the newest of these,
    /// as many as may wait, move to the end of `out`, oldest first.
    pub fn fail(&mut self, out: &mut Vec<T>)
        requires begun { IsSome self.old.flight }
        requires room { vec_len out.old + self.old.batch ≤ vec_capacity out.old }
        ensures lane { self.new ≡ after_fail self.old }
        ensures out { out.new.items ≡ out.old.items ++ failed_out self.old }
    {
        self.first = None;
        let flight = &mut self.flight;
        move_back(flight, &mut self.waiting);
        append_within(out, flight);
    }
}
