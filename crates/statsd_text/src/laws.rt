//! Laws of readings.
ghost use Rattle.statsd_text.specs.Faults.{FaultIsWithin, FaultSays};
ghost use Rattle.statsd_text.specs.Grammar.{WrittenIsRead, ReadIsWritten, SaysAtMost};

/// What is written as a line is read as its metrics.
pub fn written_is_read()
    ensures { WrittenIsRead }
{}

/// What is read as metrics, but where it is blank, is written as a line.
pub fn read_is_written()
    ensures { ReadIsWritten }
{}

/// A fault's offset is in the piece, or its length.
pub fn fault_is_within()
    ensures { FaultIsWithin }
{}

/// A fault's kind says what stands in the piece, at its offset where it has one.
pub fn fault_says()
    ensures { FaultSays }
{}

/// A line says at most one metric for each three of its bytes.
pub fn says_at_most()
    ensures { SaysAtMost }
{}
