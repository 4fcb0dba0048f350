//! A source of one kind or of another.

use crate::{ReadRefused, Source};

/// One of two sources; what it tells is what its part tells.
#[derive(Debug, Drop)]
pub enum Either<A, B> {
    /// One of the first kind.
    One(A),
    /// One of the second kind.
    Two(B),
}

impl<A: Source, B: Source> Source for Either<A, B> {
    ghost use Rattle.agent_base.specs.Parts.{told_of};

    ghost told = { told_of A.told B.told };

    fn read(&mut self, buf: &mut [u8]) -> Result<usize, ReadRefused> {
        match self {
            Either::One(source) => source.read(buf),
            Either::Two(source) => source.read(buf),
        }
    }
}
