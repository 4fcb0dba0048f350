//! The globs that texts spell.
ghost use Rattle.std.specs.Prelude.{◌≡◌, IfOk, chars};
ghost use Rattle.metric.specs.Glob.{glob_of};

use fixed_num::OutOfMemory;
use metric::{Glob, GlobFault};
use std::alloc::Global;

/// The glob that a text spells; None where it spells none.
pub(crate) fn read_glob(alloc: Global, text: &str) -> Result<Option<Glob>, OutOfMemory>
    ensures { IfOk result (λ glob. glob ≡ glob_of (chars text.now)) }
{
    match Glob::read(alloc, text) {
        Ok(glob) => Ok(Some(glob)),
        Err(GlobFault::BadGlob) => Ok(None),
        Err(GlobFault::OutOfMemory) => Err(OutOfMemory),
    }
}
