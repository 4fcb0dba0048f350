//! What readers do with the whole piece: its text, and their answer.
ghost use Rattle.std.specs.Prelude.{◌≡◌, true, false, MatchResult};
ghost use Rattle.std.specs.Str.{is_utf8};
ghost use Rattle.std.specs.Str.Lossy.{utf8_valid_len};
ghost use Rattle.text_parts.specs.Answers.{answered};

use crate::ReadError;
use std::str;

/// The text that a piece is; where it is no UTF-8, the length of its longest front that is.
pub fn utf8_text(piece: &[u8]) -> Result<&str, usize>
    ensures { MatchResult result (λ text. (text.now ≡ piece.now) × (is_utf8 piece.now ≡ true))
        (λ offset. (offset ≡ utf8_valid_len piece.now) × (is_utf8 piece.now ≡ false)) }
{
    match str::from_utf8(piece) {
        Ok(text) => Ok(text),
        Err(e) => Err(e.valid_up_to()),
    }
}

/// What a reader answers to its caller: what it read, or its first fault; where no memory was left, that fault.
pub fn answer<T: Drop, F: Drop>(read: Result<T, ReadError<F>>, no_memory: F) -> Result<T, F>
    ensures { result ≡ answered no_memory read }
{
    match read {
        Ok(x) => Ok(x),
        Err(ReadError::OutOfMemory) => Err(no_memory),
        Err(ReadError::Fault(fault)) => Err(fault),
    }
}
