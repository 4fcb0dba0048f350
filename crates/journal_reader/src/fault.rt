//! Why a text is no journal.
ghost use Rattle.std.specs.Prelude.{◌≡◌};

/// Why a text is no journal.
#[derive(Clone, Copy, Debug, PartialEq, Eq)]
pub enum JournalKind {
    /// No memory was left.
    OutOfMemory,
    /// The text doesn't begin with the line `journal 1`.
    BadHeader,
    /// A whole line is one that no journal has there, or something follows the last line.
    BadEntry,
    /// Every whole line was read, and the last one, `end N`, is missing.
    Torn,
}

/// The first place where a text is no journal.
#[derive(Clone, Copy, Debug, PartialEq, Eq)]
pub struct JournalFault {
    /// What is wrong.
    pub kind: JournalKind,
    /// An index into the text: that of the first byte of the line at fault, or of what follows the last line. It
    /// is the length of the text for `Torn`, and 0 for `BadHeader` and `OutOfMemory`.
    pub place: usize,
}

/// What is answered where no memory was left.
pub(crate) const NO_MEMORY: JournalFault = JournalFault {
    kind: JournalKind::OutOfMemory,
    place: 0,
};

/// A fault at a place.
pub(crate) fn fault(kind: JournalKind, place: usize) -> JournalFault
    ensures kind { result.kind ≡ kind }
    ensures place { result.place ≡ place }
{
    JournalFault { kind, place }
}
