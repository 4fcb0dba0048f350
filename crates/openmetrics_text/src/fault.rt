//! What is wrong with an exposition.
ghost use Rattle.std.specs.Prelude.{◌≡◌};

use text_parts::ReadError;

/// The kind of an exposition's fault.
#[derive(Clone, Copy, Debug, PartialEq, Eq)]
pub enum ExpositionKind {
    /// No memory was left.
    OutOfMemory,
    /// The last line isn't `# EOF`.
    NoEof,
    /// A line has no shape that lines have.
    BadLine,
    /// There is a fault between the braces of a sample, the closing one is missing, or a label stands there
    /// twice.
    BadLabel,
    /// A number is no decimal and no infinity, and isn't NaN.
    BadNumber,
    /// A time is no decimal.
    BadTime,
    /// A number is outside the range of numbers, or a time outside that of times, and such samples aren't passed
    /// over.
    NumberRange,
    /// The text is no UTF-8.
    NotUtf8,
    /// A sample is written with more than 64 labels.
    TooMany,
}

/// The first fault of an exposition.
#[derive(Clone, Copy, Debug, PartialEq, Eq)]
pub struct ExpositionFault {
    /// What is wrong.
    pub kind: ExpositionKind,
    /// The first byte of the line at fault; the length of the text for `NoEof`, the end of the longest valid
    /// front for `NotUtf8`, 0 for `OutOfMemory`.
    pub offset: usize,
}

/// What is answered where no memory was left.
pub(crate) const NO_MEMORY: ExpositionFault = ExpositionFault {
    kind: ExpositionKind::OutOfMemory,
    offset: 0,
};

/// A fault of a line.
pub(crate) fn fault(kind: ExpositionKind) -> ReadError<ExpositionKind>
    ensures { result ≡ ReadError.Fault kind }
{
    ReadError::Fault(kind)
}
