//! What is read and what is written: the standard streams and files.
ghost use Rattle.std.specs.Prelude.{◌≡◌, ◌≤◌, None, take, length};
ghost use Rattle.std.specs.Io.KnownBytes.{Appends};

use super::opening::{FileIdentity, OUTPUT};
use agent_base::{PutFault, ReadRefused, Sink, Source};
use either::{Either, Left, Right};
use std::fs::{File, OpenOptions};
use std::io::{self, ErrorKind, Read, Stdin, Stdout, Write};
use std::os::fd::{AsRawFd, RawFd};
use std::rt::Files;

/// The descriptor of a standard stream or of a file.
fn descriptor_of<S: AsRawFd>(stream: &Either<S, File>) -> RawFd {
    match stream {
        Left(standard) => standard.as_raw_fd(),
        Right(file) => file.as_raw_fd(),
    }
}

/// Whether a call that failed is made again: it was interrupted, or it would have blocked. Then this waits until the
/// descriptor is ready, or the call can only fail.
fn is_made_again(fault: io::Error, descriptor: RawFd, event: i16) -> bool {
    if fault.kind() == ErrorKind::WouldBlock {
        let mut asked = [libc::types::pollfd {
            fd: descriptor,
            events: event,
            revents: 0,
        }];
        libc::net::poll(&mut asked, -1);
        return true;
    }
    fault.kind() == ErrorKind::Interrupted
}

/// What is read, and how many reads have failed.
#[derive(Drop)]
pub struct Reader {
    pub stream: Either<Stdin, File>,
    pub faults: u64,
}

impl Source for Reader {
    ghost told = { λ r. record { bytes = None; faults = r.faults } };

    fn read(&mut self, buf: &mut [u8]) -> Result<usize, ReadRefused> {
        let descriptor = descriptor_of(&self.stream);
        for _ in 0..u64::MAX {
            match self.stream.read(buf) {
                Ok(count) => return Ok(count),
                Err(fault) => {
                    if !is_made_again(fault, descriptor, libc::net::POLLIN) {
                        break;
                    }
                }
            }
        }
        self.faults = self.faults.saturating_add(1);
        Err(ReadRefused::Failed)
    }
}

/// Writes bytes until all are written or a write fails, and says how many were.
fn write_front<W: Write>(to: &mut W, descriptor: RawFd, bytes: &[u8]) -> usize
    ensures bound { result ≤ length bytes.now }
    ensures written { Appends (W.contents to.old) (W.contents to.new) (take result bytes.now) }
{
    let mut count = 0;
    for _ in 0..u64::MAX {
        if count == bytes.len() {
            break;
        }
        match to.write(&bytes[count..]) {
            Ok(0) => break,
            Ok(more) => count += more,
            Err(fault) => {
                if !is_made_again(fault, descriptor, libc::net::POLLOUT) {
                    break;
                }
            }
        }
    }
    count
}

/// What is written, and how many puts have failed. Where a put to a regular file fails behind a part of its bytes,
/// the part is taken back.
#[derive(Drop)]
pub struct Writer {
    pub stream: Either<Stdout, File>,
    /// The regular file behind standard output, opened once more to ask for its length and to cut it.
    pub behind: Option<File>,
    /// It is a regular file, to which nothing was put yet.
    pub is_to_be_emptied: bool,
    pub faults: u64,
}

impl Writer {
    /// Standard output, and the regular file behind it, if it is one.
    pub fn standard<R: Files<File = File>>(rt: &R, stdout: Stdout, file: FileIdentity) -> Writer
        ensures { result.faults ≡ 0 }
    {
        let behind = match file {
            Some(_) => OpenOptions::new().write(true).open(rt, OUTPUT).ok(),
            None => None,
        };
        Writer {
            stream: Left(stdout),
            behind,
            is_to_be_emptied: false,
            faults: 0,
        }
    }

    /// A file that was opened at its end, and whether it is a regular one.
    pub fn file(file: File, is_regular: bool) -> Writer
        ensures { result.faults ≡ 0 }
    {
        Writer {
            stream: Right(file),
            behind: None,
            is_to_be_emptied: is_regular,
            faults: 0,
        }
    }

    fn opened(&self) -> Option<&File> {
        match &self.stream {
            Left(_) => self.behind.as_ref(),
            Right(file) => Some(file),
        }
    }

    /// How long the file is, where it is a regular one.
    fn length(&self) -> Option<u64> {
        let found = self.opened()?.metadata().ok()?;
        found.is_file().then_some(found.len())
    }

    /// Makes a file empty that was there before, unless that was done.
    pub fn make_empty(&mut self) -> io::Result<()>
        ensures { self.new.faults ≡ self.old.faults }
    {
        if let (true, Some(file)) = (self.is_to_be_emptied, self.opened()) {
            file.set_len(0)?;
        }
        self.is_to_be_emptied = false;
        Ok(())
    }

    /// Takes so many bytes back that were written behind the end of a regular file, given how long it was:
    /// cuts them off, and goes back to where they began. Where they stand elsewhere, or something else was
    /// written meanwhile, they stay.
    fn take_back(&self, length: Option<u64>, count: usize) {
        let (Some(file), Some(length)) = (self.opened(), length) else {
            return;
        };
        if count == 0 || self.length() != length.checked_add(count as u64) {
            return;
        }
        if file.set_len(length).is_ok() && self.stream.is_left() {
            libc::lseek(libc::STDOUT_FILENO, length.cast_signed(), libc::SEEK_SET);
        }
    }
}

impl Sink for Writer {
    ghost told = { λ w. record { bytes = None; faults = w.faults } };

    fn put(&mut self, bytes: &[u8]) -> Result<(), PutFault> {
        if self.make_empty().is_ok() {
            let length = self.length();
            let descriptor = descriptor_of(&self.stream);
            let count = write_front(&mut self.stream, descriptor, bytes);
            if count == bytes.len() {
                return Ok(());
            }
            self.take_back(length, count);
        }
        self.faults = self.faults.saturating_add(1);
        Err(PutFault::Failed)
    }
}
