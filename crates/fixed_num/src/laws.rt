//! Laws of the texts of numbers.
ghost use Rattle.fixed_num.specs.Grammar.{ReadsSpelled, SpelledIsRead, ReadsInts, IntsAreSpelled, ReadsUints};
ghost use Rattle.fixed_num.specs.Grammar.{UintsAreSpelled};
ghost use Rattle.fixed_num.specs.Canonical.{ReadsCanonical};
ghost use Rattle.fixed_num.specs.Rounded.{RoundsToNearest};

/// What is spelled as a decimal is read as what it means.
pub fn reads_spelled()
    ensures { ReadsSpelled }
{}

/// What is read is spelled as a decimal.
pub fn spelled_is_read()
    ensures { SpelledIsRead }
{}

/// The canonical text of a number is read as the number.
pub fn reads_canonical()
    ensures { ReadsCanonical }
{}

/// A sign and at least one digit are read as the whole number that they spell, and nothing else is read.
pub fn reads_ints()
    ensures reads { ReadsInts }
    ensures spelled { IntsAreSpelled }
{}

/// Digits, with or without a plus, are read as the whole number that they spell, and nothing else is read.
pub fn reads_uints()
    ensures reads { ReadsUints }
    ensures spelled { UintsAreSpelled }
{}

/// A rounded quotient is the nearest whole number, and of two that are as near the even one.
pub fn rounds_to_nearest()
    ensures { RoundsToNearest }
{}
