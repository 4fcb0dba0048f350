//! What is wrong with a line.
ghost use Rattle.std.specs.Prelude.{◌≡◌};

use text_parts::ReadError;

/// The kind of a line's fault.
#[derive(Clone, Copy, Debug, PartialEq, Eq)]
pub enum GraphiteKind {
    /// No memory was left.
    OutOfMemory,
    /// The line has neither two nor three words.
    FieldCount,
    /// A segment of the path is empty, or a tag in it is no `key=value` with both of them filled.
    BadPath,
    /// The value is no decimal.
    BadValue,
    /// The time is no decimal.
    BadTime,
    /// The value is outside the range of numbers, or the time outside that of moments.
    NumberRange,
    /// The piece is no UTF-8.
    NotUtf8,
    /// The metric would have more than 64 tags.
    TooMany,
}

/// The first fault of a line.
#[derive(Clone, Copy, Debug, PartialEq, Eq)]
pub struct GraphiteFault {
    /// What is wrong.
    pub kind: GraphiteKind,
    /// An index into the piece: the first byte of the value or of the time at fault, or the end of the
    /// longest valid front for `NotUtf8`; else 0.
    pub offset: usize,
}

/// What is answered where no memory was left.
pub(crate) const NO_MEMORY: GraphiteFault = GraphiteFault {
    kind: GraphiteKind::OutOfMemory,
    offset: 0,
};

/// A fault at an offset.
pub(crate) fn fault(kind: GraphiteKind, offset: usize) -> ReadError<GraphiteFault>
    ensures { result ≡ ReadError.Fault (record { kind = kind; offset = offset }) }
{
    ReadError::Fault(GraphiteFault { kind, offset })
}
