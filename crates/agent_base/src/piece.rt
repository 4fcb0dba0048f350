//! The pieces that a source's bytes are cut into.
ghost use Rattle.std.specs.Prelude.{◌≡◌};
ghost use Rattle.agent_base.specs.Cut.{most_before, most_bytes};
ghost use Rattle.agent_base.specs.Room.{room_of, most_kept};

use std::marker::Model;

/// How a source's bytes are cut.
#[derive(Clone, Copy, Debug, PartialEq, Eq)]
pub enum CutKind {
    /// Each newline byte ends a piece, and one carriage return directly before it is dropped. What follows
    /// the last newline is a piece as it stands, where it isn't empty. A piece has at most 65,536 bytes before
    /// its newline, the carriage return counted.
    Lines,
    /// A line that is exactly `# EOF` ends a piece, as the text format of OpenMetrics 1.0 ends an exposition;
    /// its newline belongs to the piece. What follows the last such line is a piece where it isn't empty.
    /// Nothing is dropped, no carriage return either. A piece has at most 4,194,304 bytes, its last newline
    /// counted.
    Expositions,
}

/// The sizes of pieces of a kind, in bytes.
#[derive(Clone, Copy, Debug)]
pub(crate) struct CutSizes {
    /// A piece has at most so many before the newline that ends it.
    pub most_before: usize,
    /// A piece has at most so many, without a newline that isn't of its content.
    pub most_bytes: usize,
    /// So many places are there for bytes in hand: those of a piece that isn't too long, and of a read.
    pub room: usize,
    /// So many are kept of a line in a piece that is passed over: a longer line can't be the one that ends the piece.
    pub most_kept: usize,
}

impl CutKind {
    /// The sizes of its pieces.
    pub(crate) fn sizes(&self) -> CutSizes
        ensures before { result.most_before ≡ most_before self.now }
        ensures bytes { result.most_bytes ≡ most_bytes self.now }
        ensures room { result.room ≡ room_of self.now }
        ensures kept { result.most_kept ≡ most_kept self.now }
    {
        match self {
            CutKind::Lines => CutSizes {
                most_before: 65_536,
                most_bytes: 65_536,
                room: 135_168,
                most_kept: 0,
            },
            CutKind::Expositions => CutSizes {
                most_before: 4_194_303,
                most_bytes: 4_194_304,
                room: 4_259_840,
                most_kept: 6,
            },
        }
    }
}

/// Why no piece is given.
#[derive(Clone, Copy, Debug, PartialEq, Eq)]
pub enum PieceFault {
    /// No memory was left, for a piece or for a read; the bytes that were taken are kept.
    OutOfMemory,
    /// A read failed; the bytes that were taken are kept.
    ReadFault,
    /// The piece has more bytes than its kind allows; it was passed over.
    TooLong,
    /// 2^40 bytes were taken, and no more are.
    ByteLimit,
}

/// A piece's content.
#[derive(Debug, Drop)]
pub struct Piece {
    bytes: Vec<u8>,
}

impl Model for Piece {
    ghost use Rattle.std.specs.Prelude.{List, ℕ};

    ghost Value = { List ℕ };

    ghost view = { λ p. p.bytes.items };
}

impl Piece {
    pub(crate) fn of(bytes: Vec<u8>) -> Piece
        ensures { result ≡ bytes.items }
    {
        Piece { bytes }
    }

    pub(crate) fn into_bytes(self) -> Vec<u8>
        ensures { result.items ≡ self }
    {
        let Piece { bytes } = self;
        bytes
    }

    /// The content.
    pub fn bytes(&self) -> &[u8]
        ensures { result.now ≡ self.now }
    {
        self.bytes.as_slice()
    }
}
