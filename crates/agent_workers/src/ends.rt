//! What is told of each input at the end of a run, beside its account.
ghost use Rattle.std.specs.Prelude.{◌≡◌, None};

use crate::input::InJob;
use agent_base::{Clock, Source};
use formats::{Group, InState, Refused};
use std::alloc::Global;

/// What people are told of the pieces of an input.
#[derive(Drop)]
pub struct PieceNotes {
    /// How many were read; the count stands still at 2^64 - 1.
    pub pieces: u64,
    /// Of how many samples of them that were passed over the number or the time was out of range; likewise.
    pub out_of_range: u64,
    /// The first that was refused, with its number among all of them.
    pub first: Option<Refused>,
}

impl PieceNotes {
    /// Those of an input of which nothing was read.
    pub fn none() -> PieceNotes
        ensures { result ≡ record { pieces = 0; out_of_range = 0; first = None } }
    {
        PieceNotes {
            pieces: 0,
            out_of_range: 0,
            first: None,
        }
    }

    /// Counts the pieces of a group, and takes the first out of it that was refused.
    pub fn add(&mut self, group: &mut Group)
        ensures same { group.new ≡ record group.old { first = group.new.first } }
    {
        if let Some(mut refused) = group.first.take() {
            refused.piece = refused.piece.saturating_add(self.pieces);
            self.first = Some(refused);
        }
        self.pieces = self.pieces.saturating_add(u64::from(group.pieces));
        self.out_of_range = self
            .out_of_range
            .saturating_add(u64::from(group.out_of_range));
    }
}

/// A limit of a run that was reached.
#[derive(Clone, Copy, Debug, PartialEq, Eq)]
pub enum Limit {
    /// That of the bytes of an input: 2^40 were taken.
    Bytes,
    /// That of the metrics of the run: with the next gather there would have been 2^32.
    Metrics,
}

/// What is told of an input.
#[derive(Drop)]
pub struct InputEnd {
    /// The limit at which it was read no more.
    pub limit: Option<Limit>,
    /// Whether a read of it failed.
    pub is_faulted: bool,
    /// Whether what was read of it last wasn't gathered, since as many of its groups were undelivered as may be.
    pub is_held: bool,
    /// Of how many of its samples that were passed over the number or the time was out of range.
    pub out_of_range: u64,
    /// The first of its pieces that was refused.
    pub first: Option<Refused>,
}

/// The limit at which an input is read no more.
fn limit_of<S: Source + Drop, C: Clock + Drop>(job: &InJob<'_, S, C>) -> Option<Limit> {
    if job.state != InState::LimitReached {
        return None;
    }
    if job.held.is_some() {
        Some(Limit::Metrics)
    } else {
        Some(Limit::Bytes)
    }
}

/// Whether the run is full: an input holds more than it takes.
fn is_full<S: Source + Drop, C: Clock + Drop>(inputs: &[InJob<'_, S, C>]) -> bool {
    inputs
        .iter()
        .any(|job| limit_of(job) == Some(Limit::Metrics))
}

/// What is told of each input, in their order; of fewer where no memory was left.
pub fn ends_of<S: Source + Drop, C: Clock + Drop>(
    alloc: Global,
    inputs: &[InJob<'_, S, C>],
) -> Vec<InputEnd> {
    let full = is_full(inputs);
    let mut ends = Vec::new(alloc);
    for job in inputs {
        let first = match &job.notes.first {
            Some(refused) => Some(refused.copy(alloc)),
            None => None,
        };
        let end = InputEnd {
            limit: limit_of(job),
            is_faulted: job.state == InState::Faulted,
            is_held: job.held.is_some() && !full,
            out_of_range: job.notes.out_of_range,
            first,
        };
        if ends.push(end).is_err() {
            return ends;
        }
    }
    ends
}
