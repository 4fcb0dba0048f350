//! What is wrong with a line.

/// The kind of a line's fault.
#[derive(Clone, Copy, Debug, PartialEq, Eq)]
pub enum LineKind {
    /// No memory was left.
    OutOfMemory,
    /// Nothing but spaces follows the measurement and its tags.
    NoFields,
    /// The measurement or a key is empty, or a key has no `=` behind it.
    BadKey,
    /// A value is empty, is no value, or is a text without an end.
    BadValue,
    /// The time is no whole number, or something follows it.
    BadTime,
    /// A number is outside its type.
    NumberRange,
    /// The piece is no UTF-8.
    NotUtf8,
    /// The metric would have more than 64 tags or 256 fields.
    TooMany,
}

/// The first fault of a line.
#[derive(Clone, Copy, Debug, PartialEq, Eq)]
pub struct LineFault {
    /// What is wrong.
    pub kind: LineKind,
    /// The first byte of the part at fault: an index into the piece, or its length where something is missing
    /// at its end. It is 0 for `OutOfMemory` and `TooMany`, and the end of the longest valid front for
    /// `NotUtf8`.
    pub offset: usize,
}

/// What is answered where no memory was left.
pub(crate) const NO_MEMORY: LineFault = LineFault {
    kind: LineKind::OutOfMemory,
    offset: 0,
};
