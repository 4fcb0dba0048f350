//! What stands behind the standard streams, how a place is opened, and why it isn't.
ghost use Rattle.std.specs.Prelude.{◌≡◌, ◌≢◌, ◌↔◌, Contains, IfOk, IsErr, IsSome, None, Some, codes};
ghost use Rattle.std.specs.Fs.{IsFile, file_type};

use super::RealWorld;
use super::streams::{Reader, Writer};
use crate::shown::Shown;
use either::{Left, Right};
use std::fs::{self, File, Metadata, OpenOptions, TryLockError};
use std::io::{self, ErrorKind};
use std::os::fd::IntoRawFd;
use std::os::unix::fs::{FileTypeExt, MetadataExt};
use std::rt::Files;
use std::sync::atomic::{AtomicBool, Ordering};
use std::thread::{self, Threads};

/// The link by which the system shows the open file behind standard output, whatever has its name by now.
pub const OUTPUT: &str = "/proc/self/fd/1";

/// Which regular file an open file is, by whatever name it was opened: its device, and its number there. None
/// of a device, a pipe or a folder.
pub type FileIdentity = Option<(u64, u64)>;

fn identity_of(found: &Metadata) -> FileIdentity
    ensures { IsSome result ↔ IsFile (file_type found.now) }
{
    found.is_file().then_some((found.dev(), found.ino()))
}

/// What the run found behind the descriptors 0, 1 and 2; None where one was closed.
#[derive(Clone, Copy, Debug)]
pub struct StandardStreams {
    pub input: Option<FileIdentity>,
    pub output: Option<FileIdentity>,
    pub error: Option<FileIdentity>,
}

/// Opens `/dev/null` where the descriptor of a link was closed, so that it can be read, and not be written. The
/// system gives the lowest descriptor that is free.
fn stream_at<R: Files<File = File>>(rt: &R, link: &str) -> io::Result<Option<FileIdentity>> {
    let is_open = fs::exists(rt, link)?;
    if !is_open {
        File::open(rt, "/dev/null")?.into_raw_fd();
    }
    let file = identity_of(&fs::metadata(rt, link)?);
    Ok(is_open.then_some(file))
}

/// Sees to it that the descriptors 0, 1 and 2 are open, and says what stands behind them. Before this is done
/// a file that is opened could become a standard stream.
pub fn open_standard<R: Files<File = File>>(rt: &R) -> io::Result<StandardStreams> {
    Ok(StandardStreams {
        input: stream_at(rt, "/proc/self/fd/0")?,
        output: stream_at(rt, OUTPUT)?,
        error: stream_at(rt, "/proc/self/fd/2")?,
    })
}

/// Why a place isn't opened.
pub type Refusal = io::Error;

/// A refusal in plain words, where there are some here.
pub fn in_plain_words(refusal: Refusal) -> Refusal {
    let words = match (refusal.kind(), refusal.raw_os_error()) {
        (ErrorKind::NotFound, _) => "there is no such file or folder",
        (ErrorKind::PermissionDenied, _) => "there is no permission",
        (ErrorKind::IsADirectory, _) => "it is a folder",
        (_, Some(libc::EMFILE)) => "too many files are open",
        _ => return refusal,
    };
    io::Error::other(words)
}

impl<'r, R: Files<File = File> + Threads> RealWorld<'r, R> {
    /// The file at a place, or standard input, where it can be opened and is no folder.
    pub fn reader_at(&self, place: &str) -> Result<(Reader, FileIdentity), Refusal>
        ensures closed { place.now ≡ codes "stdin" → self.now.standard.input ≡ None → IsErr result }
        ensures told { IfOk result (λ opened. opened.0.faults ≡ 0) }
    {
        if place == "stdin" {
            let Some(file) = self.standard.input else {
                return Err(io::Error::other("it was closed as the run began"));
            };
            let stream = Left(self.streams.input);
            return Ok((Reader { stream, faults: 0 }, file));
        }
        let opened = File::open(self.rt, place)?;
        let found = opened.metadata()?;
        if found.is_dir() {
            return Err(io::Error::from(ErrorKind::IsADirectory));
        }
        let stream = Right(opened);
        Ok((Reader { stream, faults: 0 }, identity_of(&found)))
    }

    /// Opens what is written at its end, and makes it where it isn't there. A named pipe is opened once
    /// something reads it; once that has taken a second, standard error says so.
    fn open_at_end(&self, place: &str) -> io::Result<File> {
        let (rt, stderr) = (self.rt, self.streams.error);
        let mut options = OpenOptions::new();
        options.append(true).create(true);
        if !fs::metadata(rt, place).is_ok_and(|found| found.file_type().is_fifo()) {
            return options.open(rt, place);
        }
        let is_open = AtomicBool::new(false);
        let tell = || {
            for _ in 0..100 {
                if is_open.load(Ordering::SeqCst) {
                    return;
                }
                libc::net::poll(&mut [], 10);
            }
            let place = Shown(place);
            let _ = eprintln!(stderr;
                "hogzent: {place} is a pipe that nothing reads yet; waiting for a reader"
            );
        };
        let open = || {
            let opened = OpenOptions::new().append(true).open(rt, place);
            is_open.store(true, Ordering::SeqCst);
            opened
        };
        thread::join(rt, tell, open).1
    }

    /// What is written at a place, where it can be opened, and is no regular file that is open, here or in
    /// another run. No byte of a file that is there changes.
    pub fn writer_at(&self, place: &str) -> Result<(Writer, FileIdentity), Refusal>
        ensures closed { place.now ≡ codes "stdout" → self.now.standard.output ≡ None → IsErr result }
        ensures places { IfOk result (λ opened. IsSome opened.1 → Contains self.now.places.items opened.1 → ⊥) }
        ensures streams { place.now ≢ codes "stdout" → IfOk result (λ opened. IsSome opened.1 →
            (self.now.standard.input ≢ Some opened.1) × (self.now.standard.output ≢ Some opened.1)
            × (self.now.standard.error ≢ Some opened.1)) }
        ensures told { IfOk result (λ opened. opened.0.faults ≡ 0) }
    {
        let standard = self.standard;
        if place == "stdout" {
            let Some(file) = standard.output else {
                return Err(io::Error::other("it was closed as the run began"));
            };
            if file.is_some() && self.places.contains(&file) {
                return Err(io::Error::other("this run has that file open already"));
            }
            return Ok((Writer::standard(self.rt, self.streams.output, file), file));
        }
        let opened = self.open_at_end(place)?;
        let file = identity_of(&opened.metadata()?);
        if file.is_some() {
            let streams = [standard.input, standard.output, standard.error];
            if self.places.contains(&file) || streams.contains(&Some(file)) {
                return Err(io::Error::other("this run has that file open already"));
            }
            if matches!(opened.try_lock(), Err(TryLockError::WouldBlock)) {
                return Err(io::Error::other("another run has it"));
            }
        }
        Ok((Writer::file(opened, file.is_some()), file))
    }
}
