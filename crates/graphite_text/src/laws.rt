//! Laws of readings.
ghost use Rattle.graphite_text.specs.Faults.{FaultIsWithin, FaultSays};
ghost use Rattle.graphite_text.specs.Grammar.{WrittenIsRead, ReadIsWritten, SaysAtMost};
ghost use Rattle.graphite_text.specs.RoundTrip.{WrittenIsReadBack};

/// What is written as a line is read as its metric.
pub fn written_is_read()
    ensures { WrittenIsRead }
{}

/// What is read as a metric is written as a line.
pub fn read_is_written()
    ensures { ReadIsWritten }
{}

/// Each line of a metric is read, without templates, as a metric of its path, its number and its seconds,
/// where neither the measurement nor the field's key has an empty segment, and the seconds are those of a
/// moment. The seconds -1 stand for the moment of the reading.
pub fn written_is_read_back()
    ensures { WrittenIsReadBack }
{}

/// A fault's offset is in the piece, or its length.
pub fn fault_is_within()
    ensures { FaultIsWithin }
{}

/// A fault's kind says what stands in the piece, at its offset where it has one.
pub fn fault_says()
    ensures { FaultSays }
{}

/// A line says at most one metric.
pub fn says_at_most()
    ensures { SaysAtMost }
{}
