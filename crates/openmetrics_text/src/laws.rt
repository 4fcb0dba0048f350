//! Laws of readings.
ghost use Rattle.openmetrics_text.specs.FaultLines.{FaultSays};
ghost use Rattle.openmetrics_text.specs.Grammar.{WrittenIsRead, ReadIsWritten, SaysAtMost};
ghost use Rattle.openmetrics_text.specs.Passing.{InRangeIsSame, PassedOver};
ghost use Rattle.openmetrics_text.specs.RoundTrip.{WrittenIsReadBack};

/// An exposition that is written is read as what its lines say.
pub fn written_is_read()
    ensures { WrittenIsRead }
{}

/// What is read is an exposition that is written.
pub fn read_is_written()
    ensures { ReadIsWritten }
{}

/// What is written of a batch of metrics is read as its samples in the order in which they are written, and none
/// is passed over: each with its family, its labels as tags, its number and its time.
pub fn written_is_read_back()
    ensures { WrittenIsReadBack }
{}

/// A fault's kind says what stands in the line that begins at its offset, or in the piece.
pub fn fault_says()
    ensures { FaultSays }
{}

/// What is read where a sample out of range refuses its exposition is read the same where it is passed over.
pub fn in_range_is_same()
    ensures { InRangeIsSame }
{}

/// Samples out of range that are passed over are as if their lines weren't there, but for the counts.
pub fn passed_over()
    ensures { PassedOver }
{}

/// An exposition says at most one metric for each four of its bytes.
pub fn says_at_most()
    ensures { SaysAtMost }
{}
