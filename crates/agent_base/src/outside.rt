//! What is read, written and waited for.
ghost use Rattle.std.specs.Prelude.{◌≡◌, ℕ, Bool};
ghost use Rattle.std.specs.Io.{ReadsAtMost};
ghost use Rattle.std.specs.Io.KnownBytes.{ReadConsumes};
ghost use Rattle.agent_base.specs.Carried.{Carried, Timed};
ghost use Rattle.agent_base.specs.Moments.{Gives, Waits};
ghost use Rattle.agent_base.specs.Puts.{PutAppends, PutHasCause};
ghost use Rattle.agent_base.specs.Reads.{ReadHasCause};

use fixed_num::Moment;

/// The outside didn't do what it was asked for.
#[derive(Clone, Copy, Debug, PartialEq, Eq)]
pub struct Failed;

/// Why a read gave nothing.
#[derive(Clone, Copy, Debug, PartialEq, Eq)]
pub enum ReadRefused {
    /// No memory was left.
    OutOfMemory,
    /// The outside failed.
    Failed,
}

/// Why a put didn't append all bytes.
#[derive(Clone, Copy, Debug, PartialEq, Eq)]
pub enum PutFault {
    /// The outside failed, after a part of the bytes or none.
    Failed,
    /// No memory was left, and nothing was appended.
    OutOfMemory,
}

/// Bytes that are read from the outside.
pub trait Source {
    /// The bytes that are left, where they are told; and how often a read has failed: it rises with a failed read
    /// alone, and stops at 2^64 - 1.
    ghost told: { Self → Carried };

    /// Moves the next bytes to the front of the buffer, and says how many they are.
    ///
    /// It answers 0 for a buffer that isn't empty exactly where nothing is left. A read that is refused takes nothing.
    fn read(&mut self, buf: &mut [u8]) -> Result<usize, ReadRefused>
        ensures bound { ReadsAtMost result buf.new }
        ensures bytes { ReadConsumes (told self.old).bytes (told self.new).bytes result buf.new }
        ensures cause { ReadHasCause (told self.old).faults (told self.new).faults result };
}

/// Bytes that are written to the outside.
pub trait Sink {
    /// The bytes that are held, where they are told; and how often a put has failed, which never falls, and stops at
    /// 2^64 - 1.
    ghost told: { Self → Carried };

    /// Appends the bytes: all of them, or a prefix where it fails, or none where memory is short.
    fn put(&mut self, bytes: &[u8]) -> Result<(), PutFault>
        ensures bytes { PutAppends (told self.old).bytes (told self.new).bytes bytes.now result }
        ensures cause { PutHasCause (told self.old).faults (told self.new).faults result };
}

/// Moments, one after another.
pub trait Clock {
    /// The moments by index, where they are told, which never change; and the index of the next one.
    ghost told: { Self → Timed };

    /// Whether the clock was stopped; a stopped clock stays so.
    ghost stopped: { Self → Bool };

    /// How many waits gave a moment; it never falls, and stops at 2^64 - 1.
    ghost waits: { Self → ℕ };

    /// The next moment, at once.
    fn now(&mut self) -> Moment
        ensures list { (told self.new).moments ≡ (told self.old).moments }
        ensures gives { Gives (told self.old).moments (told self.old).next (told self.new).next result }
        ensures stopped { stopped self.new ≡ stopped self.old }
        ensures waits { waits self.new ≡ waits self.old };

    /// The next moment, after the clock's pause; None only of a stopped clock.
    fn wait(&mut self) -> Option<Moment>
        ensures list { (told self.new).moments ≡ (told self.old).moments }
        ensures gives { Waits (told self.old).moments (told self.old).next (told self.new).next
            (stopped self.old) (stopped self.new) (waits self.old) (waits self.new) result };
}
