//! Laws of entries and of numbers. The body of each function is empty; its contract is the law.
ghost use Rattle.std.specs.Prelude.{◌≡◌, ◌≤◌, ℕ};
ghost use Rattle.account.specs.declared.numbers.OutputNumbers.{OutputNumbers};
ghost use Rattle.account.specs.Numbers.{sum_of_fates, written_more, dropped_more};
ghost use Rattle.account.specs.Origins.{OriginsMatch};

/// Metrics that are written or dropped were buffered: an output's six numbers tell of as many
/// routed metrics as before.
pub fn moves_keep_the_sum()
    ensures written { (x : OutputNumbers) (n : ℕ) → n ≤ x.buffered →
        sum_of_fates (written_more x n) ≡ sum_of_fates x }
    ensures dropped { (x : OutputNumbers) (n : ℕ) → n ≤ x.buffered →
        sum_of_fates (dropped_more x n) ≡ sum_of_fates x }
{}

/// Each item has an origin: the input that gathered it, or none where it was made.
pub fn origins_match()
    ensures { OriginsMatch }
{}
