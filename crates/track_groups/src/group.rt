//! Numbers of groups, and what is kept of a live group.
ghost use Rattle.std.specs.Prelude.{◌≡◌, ◌<◌, length, slice_index_or, IsSome, find};
ghost use Rattle.std.specs.VecDeque.{deque_len};
ghost use Rattle.track_groups.specs.Tracker.{has_number, Rises};

use std::collections::VecDeque;
use std::marker::Model;

/// A group's number: how many groups were started before it, over all inputs.
#[derive(Clone, Copy, Debug, PartialEq, Eq)]
pub struct GroupRef {
    number: u64,
}

impl Model for GroupRef {
    ghost use Rattle.std.specs.Prelude.{ℕ};

    ghost Value = { ℕ };

    ghost view = { λ g. g.number };

    ghost inverse = { λ n. record { number = n } };
}

impl GroupRef {
    /// The group with this number.
    pub(crate) fn of(number: u64) -> GroupRef
        ensures { result ≡ number }
    {
        GroupRef { number }
    }

    /// The group's number, counted from 0 over all inputs.
    pub fn number(self) -> u64
        ensures { result ≡ self }
    {
        self.number
    }
}

/// A group of which copies still wait.
#[derive(Clone, Copy)]
pub(crate) struct LiveGroup {
    /// Its number, counted from 0 over all inputs.
    pub(crate) number: u64,
    /// How many copies of its metrics wait.
    pub(crate) copies: u64,
    /// The input that gathered it.
    pub(crate) input: u32,
    /// Whether a copy was dropped.
    pub(crate) rejected: bool,
}

/// Where the live group with this number stands among the live groups.
pub(crate) fn place_of(live: &VecDeque<LiveGroup>, number: u64) -> usize
    requires rising { Rises live.now.items }
    requires live { IsSome (find (has_number number) live.now.items) }
    ensures within { result < deque_len live.now }
    ensures found { (d : LiveGroup) → (slice_index_or live.now.items result d).number ≡ number }
{
    match live.binary_search_by_key(&number, |group| group.number) {
        Ok(at) => at,
        Err(_) => unreachable!(),
    }
}
