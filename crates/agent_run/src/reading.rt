//! Reading the configuration of a place.
ghost use Rattle.std.specs.Prelude.{◌≡◌, ◌≢◌, ◌≤◌, ◌+◌, IfOk, IfErr, length, take, drop, vec_len};
ghost use Rattle.std.specs.Io.KnownBytes.{ReadConsumes};
ghost use Rattle.agent_base.specs.Counts.{Rose};
ghost use Rattle.agent_base.specs.Places.{AreHome};
ghost use Rattle.agent_base.specs.Reads.{ReadHasCause};
ghost use Rattle.agent_base.specs.Views.{OnlyIn};
ghost use Rattle.agent_config.specs.Sound.{IsSound};
ghost use Rattle.agent_run.specs.Checking.{Fills, IsUnread, TakesAtMost, TakesText, most_taken};
ghost use Rattle.agent_run.specs.Configured.{IsReadAt, IsUnready, IsUnsaid, SaysConfig};

use crate::faults::say_faults;
use agent_base::{OpenFault, ReadRefused, Source, World};
use agent_config::{Config, ConfigFault, ConfigKind, read_config};
use std::alloc::{AllocError, Global};

/// The most bytes that are taken of a configuration: one above the longest that is read.
const MOST_TAKEN: usize = 1_048_577;

/// Why the configuration at a place wasn't read.
#[derive(Clone, Copy, Debug, PartialEq, Eq)]
pub(crate) enum Unread {
    /// The place wasn't opened.
    Unopened,
    /// A read failed.
    Failed,
    /// The text has this fault first.
    Faulty(ConfigFault),
    /// No memory was left.
    OutOfMemory,
}

/// Reads into a buffer, from a place on.
fn read_from<S: Source>(buf: &mut [u8], at: usize, src: &mut S) -> Result<usize, ReadRefused>
    requires { at ≤ length buf.old }
    ensures len { length buf.new ≡ length buf.old }
    ensures before { take at buf.new ≡ take at buf.old }
    ensures bound { IfOk result (λ n. at + n ≤ length buf.new) }
    ensures bytes { ReadConsumes (S.told src.old).bytes (S.told src.new).bytes result (drop at buf.new) }
    ensures cause { ReadHasCause (S.told src.old).faults (S.told src.new).faults result }
{
    src.read(&mut buf[at..])
}

/// Reads until a buffer is full, or the source at its end, and says how many bytes that were.
fn fill<S: Source>(buf: &mut [u8], src: &mut S) -> Result<usize, ReadRefused>
    ensures len { length buf.new ≡ length buf.old }
    ensures filled { IfOk result (Fills (S.told src.old).bytes (S.told src.new).bytes buf.new) }
    ensures taken { TakesAtMost (length buf.old) (S.told src.old).bytes (S.told src.new).bytes }
    ensures failed { result ≡ Err ReadRefused.Failed → Rose (S.told src.old).faults (S.told src.new).faults }
    ensures later { (S.told src.old).faults ≤ (S.told src.new).faults }
{
    let mut len = 0;
    while len < buf.len() {
        match read_from(buf, len, src) {
            Ok(0) => return Ok(len),
            Ok(n) => len += n,
            Err(refused) => return Err(refused),
        }
    }
    Ok(len)
}

/// The same, of a vector.
fn fill_text<S: Source>(text: &mut Vec<u8>, src: &mut S) -> Result<usize, ReadRefused>
    ensures len { length text.new.items ≡ vec_len text.old }
    ensures filled { IfOk result (Fills (S.told src.old).bytes (S.told src.new).bytes text.new.items) }
    ensures taken { TakesAtMost (vec_len text.old) (S.told src.old).bytes (S.told src.new).bytes }
    ensures failed { result ≡ Err ReadRefused.Failed → Rose (S.told src.old).faults (S.told src.new).faults }
    ensures later { (S.told src.old).faults ≤ (S.told src.new).faults }
{
    fill(text, src)
}

/// Room for the most bytes that are taken.
fn room(alloc: Global) -> Result<Vec<u8>, AllocError>
    ensures { IfOk result (λ room. vec_len room ≡ most_taken) }
{
    vec![in alloc; 0u8; MOST_TAKEN]
}

/// The bytes that a source has left, or the first of them where there are more than `MOST_TAKEN`.
fn read_text<S: Source>(alloc: Global, src: &mut S) -> Result<Vec<u8>, ReadRefused>
    ensures text { IfOk result (λ text. TakesText (S.told src.old).bytes (S.told src.new).bytes text.items) }
    ensures taken { TakesAtMost most_taken (S.told src.old).bytes (S.told src.new).bytes }
    ensures failed { result ≡ Err ReadRefused.Failed → Rose (S.told src.old).faults (S.told src.new).faults }
    ensures later { (S.told src.old).faults ≤ (S.told src.new).faults }
{
    let Ok(mut text) = room(alloc) else {
        return Err(ReadRefused::OutOfMemory);
    };
    match fill_text(&mut text, src) {
        Ok(len) => {
            text.truncate(len);
            Ok(text)
        }
        Err(refused) => Err(refused),
    }
}

/// Reads the text at a place to its end, or to one byte above 1 MiB, and gives the part of the place back.
fn read_place<W: World>(alloc: Global, world: &mut W, place: &str) -> Result<Vec<u8>, Unread>
    requires ins { AreHome (W.view world.old).ins }
    ensures text { IfOk result
        (λ text. TakesText ((W.view world.old).ins place.now).bytes ((W.view world.new).ins place.now).bytes
        text.items) }
    ensures unread { IfErr result
        (λ unread. IsUnread unread ((W.view world.old).ins place.now) ((W.view world.new).ins place.now)) }
    ensures taken { TakesAtMost most_taken ((W.view world.old).ins place.now).bytes
        ((W.view world.new).ins place.now).bytes }
    ensures opens { (result ≢ Err Unread.Unopened)
        → ((W.view world.new).ins place.now).open_faults ≡ ((W.view world.old).ins place.now).open_faults }
    ensures later { ((W.view world.old).ins place.now).part_faults ≤ ((W.view world.new).ins place.now).part_faults }
    ensures only { OnlyIn place.now (W.view world.old) (W.view world.new) }
    ensures home { AreHome (W.view world.new).ins }
{
    let mut source = match world.open_in(place) {
        Ok(source) => source,
        Err(OpenFault::Failed) => return Err(Unread::Unopened),
        Err(OpenFault::OutOfMemory) => return Err(Unread::OutOfMemory),
    };
    let read = read_text(alloc, &mut source);
    world.give_in(place, source);
    match read {
        Ok(text) => Ok(text),
        Err(ReadRefused::Failed) => Err(Unread::Failed),
        Err(ReadRefused::OutOfMemory) => Err(Unread::OutOfMemory),
    }
}

/// The configuration that a text says.
fn config_in(alloc: Global, text: &[u8]) -> Result<Config, Unread>
    ensures says { IfOk result (SaysConfig text.now) }
    ensures sound { IfOk result IsSound }
    ensures unread { IfErr result (λ unread. IsUnsaid unread text.now) }
{
    match read_config(alloc, text) {
        Ok(config) => Ok(config),
        Err(fault) => match fault.kind {
            ConfigKind::OutOfMemory => Err(Unread::OutOfMemory),
            _ => Err(Unread::Faulty(fault)),
        },
    }
}

/// The configuration that the text of a place says; its faults are said to people.
fn said_config<W: World>(
    alloc: Global,
    world: &mut W,
    place: &str,
    text: &[u8],
) -> Result<Config, Unread>
    ensures says { IfOk result (SaysConfig text.now) }
    ensures sound { IfOk result IsSound }
    ensures unread { IfErr result (λ unread. IsUnsaid unread text.now) }
    ensures same { W.view world.new ≡ W.view world.old }
{
    let read = config_in(alloc, text);
    if let Err(Unread::Faulty(fault)) = &read {
        say_faults(alloc, world, place, text, *fault);
    }
    read
}

/// Reads the configuration at a place: its text to the end, or to one byte above 1 MiB. The part of the place is
/// given back.
pub(crate) fn config_at<W: World>(
    alloc: Global,
    world: &mut W,
    place: &str,
) -> Result<Config, Unread>
    requires ins { AreHome (W.view world.old).ins }
    ensures read { IfOk result (λ config. IsReadAt place.now config (W.view world.old) (W.view world.new)) }
    ensures sound { IfOk result IsSound }
    ensures unread { IfErr result (λ unread. IsUnready unread ((W.view world.old).ins place.now) ((W.view world.new).ins place.now)) }
    ensures opens { IfErr result (λ unread. (unread ≢ Unread.Unopened)
        → ((W.view world.new).ins place.now).open_faults ≡ ((W.view world.old).ins place.now).open_faults) }
    ensures taken { TakesAtMost most_taken ((W.view world.old).ins place.now).bytes
        ((W.view world.new).ins place.now).bytes }
    ensures only { OnlyIn place.now (W.view world.old) (W.view world.new) }
    ensures home { AreHome (W.view world.new).ins }
{
    let text = read_place(alloc, world, place)?;
    said_config(alloc, world, place, &text)
}
