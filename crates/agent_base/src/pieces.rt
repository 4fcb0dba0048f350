//! A source's bytes, cut into pieces.
ghost use Rattle.std.specs.Prelude.{◌≡◌, ◌+◌, ◌≤◌, ℕ, List, length, IfOk};
ghost use Rattle.agent_base.specs.Cut.{HasEnd};
ghost use Rattle.agent_base.specs.Hand.{empty_hand, to_come};
ghost use Rattle.agent_base.specs.Lines.{CutsLines, CutsExpositions, EachHasExpositions};
ghost use Rattle.agent_base.specs.PieceAnswers.{Answers, IsLimited, HasReason, IsShort};
ghost use Rattle.agent_base.specs.Taken.{TakesFor};
ghost use Rattle.agent_base.specs.Told.{Told};

use crate::buffer::Buffer;
use crate::{CutKind, Piece, PieceFault, Source};
use fixed_num::OutOfMemory;
use std::alloc::Global;
use std::marker::Model;

/// How the bytes are cut, those that were taken of a source and not given yet, whether they belong to a long
/// piece that is passed over, and how many bytes were taken in all.
#[derive(Debug, Drop)]
pub struct Pieces {
    buffer: Buffer,
}

impl Model for Pieces {
    ghost use Rattle.agent_base.specs.Hand.{Hand};

    ghost Value = { Hand };

    ghost use Rattle.agent_base.specs.Buffered.{hand_of};

    ghost view = { λ p. hand_of p.buffer };
}

impl Pieces {
    /// Nothing is in hand. All room for the bytes in hand is taken: 132 KiB for lines, 4 MiB and 64 KiB for
    /// expositions.
    pub fn new(alloc: Global, kind: CutKind) -> Result<Pieces, OutOfMemory>
        ensures { IfOk result (λ p. p ≡ empty_hand kind) }
    {
        match Buffer::new(alloc, kind) {
            Ok(buffer) => Ok(Pieces { buffer }),
            Err(OutOfMemory) => Err(OutOfMemory),
        }
    }

    /// The next piece of the bytes in hand and those that the source has left; None at the end of the source.
    ///
    /// A piece that is too long is passed over to its end. After a read that was refused the bytes that were taken are
    /// kept. Once 2^40 bytes were taken the answer is `ByteLimit`, whatever is in hand.
    pub fn next<S: Source>(&mut self, src: &mut S) -> Result<Option<Piece>, PieceFault>
        ensures pieces { Told (S.told src.old).bytes (S.told src.new).bytes
            (λ xs ys. Answers result (to_come self.old xs) (to_come self.new ys)) }
        ensures reason { HasReason result self.old self.new (S.told src.new).bytes (S.told src.old).faults
            (S.told src.new).faults }
        ensures short { IsShort self.old.kind result }
        ensures limited { IsLimited result self.new.taken }

        // The bytes that are no longer left were taken.
        ensures counted { Told (S.told src.old).bytes (S.told src.new).bytes
            (λ xs ys. self.old.taken + length xs ≡ self.new.taken + length ys) }
        ensures grows { self.old.taken ≤ self.new.taken }
        ensures kind { self.new.kind ≡ self.old.kind }
        ensures faults { (S.told src.old).faults ≤ (S.told src.new).faults }

        // A piece that is in hand is given without a read.
        ensures whole { HasEnd self.old.kind self.old.bytes → (left : List ℕ)
            → Answers result (to_come self.old left) (to_come self.new left) }
        ensures in_hand { HasEnd self.old.kind self.old.bytes → src.new ≡ src.old }

        // What is given of the bytes that were taken stands whatever follows them, but at the end of the
        // source.
        ensures whatever_follows { Told (S.told src.old).bytes (S.told src.new).bytes
            (TakesFor result self.old self.new) }
    {
        self.buffer.next(src)
    }

    /// Takes a piece back that isn't needed any more, so that its memory serves the next one. The memory of one piece is
    /// kept, and none that has room for more than the longest piece of the kind.
    pub fn take_back(&mut self, piece: Piece)
        ensures { self.new ≡ self.old }
    {
        self.buffer.take_back(piece.into_bytes());
    }
}

/// The pieces of lines, each with a newline behind it, and of a rest without one are those of the lines and
/// of the rest.
pub fn cuts_lines()
    ensures { CutsLines }
{}

/// Each text is expositions, each with its last newline, and a rest in which none ends.
pub fn has_expositions()
    ensures { EachHasExpositions }
{}

/// The pieces of expositions, each with its last newline, and of a rest in which none ends are those of the
/// expositions and of the rest.
pub fn cuts_expositions()
    ensures { CutsExpositions }
{}
