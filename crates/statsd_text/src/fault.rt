//! What is wrong with a line.
ghost use Rattle.std.specs.Prelude.{◌≡◌};

use text_parts::ReadError;

/// The kind of a line's fault.
#[derive(Clone, Copy, Debug, PartialEq, Eq)]
pub enum StatsdKind {
    /// No memory was left.
    OutOfMemory,
    /// There is no `:`.
    NoColon,
    /// A part has no `|`, or what stands behind it is no type.
    BadType,
    /// A value is no decimal, or a member is empty.
    BadValue,
    /// What stands behind a type is no `|@` with a decimal above 0.
    BadRate,
    /// A tag has no `=` where it needs one, has an empty key, or stands behind `|#` and has a `|`.
    BadTag,
    /// A number, or the quotient of a value and its rate, is outside the range of numbers.
    NumberRange,
    /// The piece is no UTF-8.
    NotUtf8,
    /// The name is empty.
    BadName,
    /// A metric would have more than 64 tags.
    TooMany,
}

/// The first fault of a line.
#[derive(Clone, Copy, Debug, PartialEq, Eq)]
pub struct StatsdFault {
    /// What is wrong.
    pub kind: StatsdKind,
    /// An index into the piece, or its length where something is missing at its end: the first byte of the
    /// tag, of the value (for `NumberRange` too) or of the type at fault; the end of a part without a `|`;
    /// the `|` before a rate. It is 0 for `OutOfMemory`, `BadName` and `TooMany`, the piece's length for
    /// `NoColon`, and the end of the longest valid front for `NotUtf8`.
    pub offset: usize,
}

/// What is answered where no memory was left.
pub(crate) const NO_MEMORY: StatsdFault = StatsdFault {
    kind: StatsdKind::OutOfMemory,
    offset: 0,
};

/// A fault at an offset.
pub(crate) fn fault(kind: StatsdKind, offset: usize) -> ReadError<StatsdFault>
    ensures { result ≡ ReadError.Fault (record { kind = kind; offset = offset }) }
{
    ReadError::Fault(StatsdFault { kind, offset })
}

/// The fault of a piece that is UTF-8 only up to an offset.
pub(crate) fn not_utf8(offset: usize) -> StatsdFault
    ensures { result ≡ record { kind = StatsdKind.NotUtf8; offset = offset } }
{
    StatsdFault {
        kind: StatsdKind::NotUtf8,
        offset,
    }
}
