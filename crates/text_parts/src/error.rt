//! Why a reader gives nothing.
use std::alloc::{AllocError, AllocFailed};

/// Why a reader gives nothing: memory ran out, or the text has a fault.
#[derive(Clone, Copy, Debug, PartialEq, Eq)]
pub enum ReadError<F> {
    /// No memory was left.
    OutOfMemory,
    /// The first fault of the text.
    Fault(F),
}

impl<F> From<AllocError> for ReadError<F> {
    ghost use Rattle.std.specs.Prelude.{◌≡◌};
    ghost use Rattle.text_parts.specs.declared.error.ReadError.TheVariants.{OutOfMemory};

    ghost from_gives = { λ _ e. e ≡ OutOfMemory };

    fn from(_fault: AllocError) -> ReadError<F> {
        ReadError::OutOfMemory
    }
}

impl<F> From<fixed_num::OutOfMemory> for ReadError<F> {
    ghost use Rattle.std.specs.Prelude.{◌≡◌};
    ghost use Rattle.text_parts.specs.declared.error.ReadError.TheVariants.{OutOfMemory};

    ghost from_gives = { λ _ e. e ≡ OutOfMemory };

    fn from(_fault: fixed_num::OutOfMemory) -> ReadError<F> {
        ReadError::OutOfMemory
    }
}

impl<F, T: Drop> From<AllocFailed<T>> for ReadError<F> {
    ghost use Rattle.std.specs.Prelude.{◌≡◌};
    ghost use Rattle.text_parts.specs.declared.error.ReadError.TheVariants.{OutOfMemory};

    ghost from_gives = { λ _ e. e ≡ OutOfMemory };

    fn from(_fault: AllocFailed<T>) -> ReadError<F> {
        ReadError::OutOfMemory
    }
}
