//! Laws of readings and lines.
ghost use Rattle.line_proto.specs.Faults.{FaultIsWithin, FaultSays};
ghost use Rattle.line_proto.specs.Grammar.{WrittenIsRead, ReadIsWritten, SaysAtMost};
ghost use Rattle.line_proto.specs.OneLine.{MetricIsOneLine};
ghost use Rattle.line_proto.specs.RoundTrip.{MetricIsReadBack, ReadIsPlain, UntimedIsReadBack};

/// What is written as a line is read as its metric.
pub fn written_is_read()
    ensures { WrittenIsRead }
{}

/// What is read as a metric is written as a line.
pub fn read_is_written()
    ensures { ReadIsWritten }
{}

/// Whatever a metric's texts hold, its text is one line and its newline.
pub fn metric_is_one_line()
    ensures { MetricIsOneLine }
{}

/// The line of a plain metric is read as the metric.
pub fn metric_is_read_back()
    ensures { MetricIsReadBack }
{}

/// The line of a plain metric without its time is read as the metric at the moment that is given.
pub fn untimed_is_read_back()
    ensures { UntimedIsReadBack }
{}

/// A fault's offset is in the piece, or its length.
pub fn fault_is_within()
    ensures { FaultIsWithin }
{}

/// A fault's kind says what stands in the piece, at its offset where it has one.
pub fn fault_says()
    ensures { FaultSays }
{}

/// What is read of a piece without a newline and a carriage return is plain: its line is read as it.
pub fn read_is_plain()
    ensures { ReadIsPlain }
{}

/// A line says at most one metric.
pub fn says_at_most()
    ensures { SaysAtMost }
{}
