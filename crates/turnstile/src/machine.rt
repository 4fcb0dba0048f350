//! What passes take turns at.
ghost use Rattle.std.specs.Prelude.{◌≡◌, ℕ, ◌≤◌};

/// A value that changes by its operations alone, each of which has an answer.
///
/// `allows` says which answers an operation may have in a state, and `next` what the state is after it. A *dial* is a
/// number of the state that no operation lowers, as `dials_rise` says; `dial_of` gives it.
pub trait Machine: Drop {
    type Op: Drop;

    type Answer: Drop;

    ghost allows: { Self → Self.Op → Self.Answer → Type 0 };

    ghost next: { Self → Self.Op → Self.Answer → Self };

    ghost dial_of: { Self → ℕ → ℕ };

    /// Applies an operation. The answer is one that is allowed, and the state that which comes next.
    fn apply(&mut self, op: Self::Op) -> Self::Answer
        ensures allowed { allows self.old op result }
        ensures after { self.new ≡ next self.old op result };

    /// The dial with this number.
    fn dial(&self, n: u32) -> u64
        ensures { result ≡ dial_of self.now n };

    ghost dials_rise: { (s : Self) (op : Self.Op) (answer : Self.Answer) (n : ℕ)
        → allows s op answer → dial_of s n ≤ dial_of (next s op answer) n };
}
