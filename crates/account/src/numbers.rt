//! The numbers of an input and of an output.
ghost use Rattle.std.specs.Prelude.{◌≡◌, ◌<◌, ◌^◌, ◌↔◌, IsTrue};
ghost use Rattle.account.specs.Numbers.{unread_input, unreached_output, IsInputBelow, IsOutputBelow};

/// The numbers of an input.
#[derive(Clone, Copy, Debug, PartialEq, Eq)]
pub struct InputNumbers {
    /// Whether its groups are tracked.
    pub tracked: bool,
    /// How many pieces were read.
    pub pieces: u64,
    /// How many of them were refused.
    pub refused: u64,
    /// How many samples were passed over.
    pub passed: u64,
    /// How many readings its filter kept out.
    pub filtered: u64,
    /// How many metrics were gathered.
    pub gathered: u64,
    /// Whether it was read to its end.
    pub has_ended: bool,
    /// How many of its groups were delivered.
    pub delivered: u64,
    /// How many of its groups were rejected.
    pub rejected: u64,
    /// How many of its groups haven't settled.
    pub undelivered: u64,
}

/// What became, at an output, of the metrics that were routed.
#[derive(Clone, Copy, Debug, PartialEq, Eq)]
pub struct OutputNumbers {
    /// How many the output's filter kept out.
    pub filtered: u64,
    /// How many came too late for a window.
    pub late: u64,
    /// How many an aggregator kept from the outputs.
    pub consumed: u64,
    /// How many the output accepted.
    pub written: u64,
    /// How many wait or are in flight.
    pub buffered: u64,
    /// How many were dropped.
    pub dropped: u64,
}

/// A number of an account has room while it is below this, 2^63: what one call adds then fits in a `u64`.
pub(crate) const LARGE: u64 = 1 << 63;

impl InputNumbers {
    /// An input of which nothing was read.
    pub fn unread(tracked: bool) -> InputNumbers
        ensures { result ≡ unread_input tracked }
    {
        InputNumbers {
            tracked,
            pieces: 0,
            refused: 0,
            passed: 0,
            filtered: 0,
            gathered: 0,
            has_ended: false,
            delivered: 0,
            rejected: 0,
            undelivered: 0,
        }
    }

    /// Whether each number is below 2^63.
    pub fn has_room(&self) -> bool
        ensures { IsTrue result ↔ IsInputBelow (2 ^ 63) self.now }
    {
        self.pieces < LARGE
            && self.refused < LARGE
            && self.passed < LARGE
            && self.filtered < LARGE
            && self.gathered < LARGE
            && self.delivered < LARGE
            && self.rejected < LARGE
            && self.undelivered < LARGE
    }
}

impl OutputNumbers {
    /// An output that nothing reached.
    pub fn unreached() -> OutputNumbers
        ensures { result ≡ unreached_output }
    {
        OutputNumbers {
            filtered: 0,
            late: 0,
            consumed: 0,
            written: 0,
            buffered: 0,
            dropped: 0,
        }
    }

    /// Whether each number is below 2^63.
    pub fn has_room(&self) -> bool
        ensures { IsTrue result ↔ IsOutputBelow (2 ^ 63) self.now }
    {
        self.filtered < LARGE
            && self.late < LARGE
            && self.consumed < LARGE
            && self.written < LARGE
            && self.buffered < LARGE
            && self.dropped < LARGE
    }
}
