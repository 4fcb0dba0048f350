//! A metric agent: the inputs and outputs of a configuration, or one input and one output, with a journal of every
//! event.
#![tactic(auto)]

mod real;
mod shown;

use agent_run::{Status, agent};
use fixed_num::OutOfMemory;
use real::{RealWorld, Refusal, StandardStreams, StreamHandles, open_standard};
use shown::Shown;
use std::alloc::Global;
use std::env;
use std::fs::File;
use std::io::ErrorKind;
use std::net::Net;
use std::process::ExitCode;
use std::rt::{Clock, Files};
use std::thread::Threads;

/// What standard error is told where no memory was left.
const OUT_OF_MEMORY: &str = "hogzent: out of memory; nothing is promised of what was written";

/// What standard error is told of an end of which the run itself told people nothing.
fn advice(status: Status) -> Option<&'static str> {
    match status {
        Status::Usage => Some(
            "hogzent: usage: hogzent run CONFIG; or hogzent check CONFIG; or hogzent gen N CONFIG, \
            with 1 <= N <= 1000000; or hogzent pipe IN OUT BATCH LIMIT, \
            with 1 <= BATCH <= LIMIT <= 10000, and OUT not agent.journal",
        ),
        Status::Config => Some("hogzent: the configuration was refused"),
        Status::OpenFault => {
            Some("hogzent: a place could not be opened; no line was read or written")
        }
        Status::OutOfMemory => Some(OUT_OF_MEMORY),
        Status::Done | Status::ReadFault | Status::Left | Status::ReportFault | Status::Limit =>
            None,
    }
}

/// What standard error is told of a check that ended so.
fn check_advice(status: Status) -> Option<&'static str> {
    match status {
        Status::ReadFault => Some("hogzent: the configuration could not be read"),
        Status::OpenFault => Some("hogzent: the configuration could not be opened"),
        Status::ReportFault => Some("hogzent: the report could not be written whole"),
        Status::OutOfMemory => Some("hogzent: out of memory; the configuration was not checked"),
        _ => advice(status),
    }
}

/// What standard error is told of the run of a configuration that ended so. The report says whether it was the
/// configuration that couldn't be read.
fn run_advice(status: Status, report: &[u8]) -> Option<&'static str> {
    if status == Status::ReadFault && report.starts_with(b"fault: read ") {
        return Some("hogzent: the configuration could not be read");
    }
    advice(status)
}

/// The place that was reported as one that wasn't opened.
fn unopened(report: &[u8]) -> Option<&str> {
    let place = report.strip_prefix(b"fault: open ")?.strip_suffix(b"\n")?;
    str::from_utf8(place).ok()
}

/// Tells standard error of a place that wasn't opened, and why.
fn tell_unopened(rt: &impl Eprint, words: &[String], refusal: Refusal, report: &[u8]) {
    let is_check = words.first().is_some_and(|word| word.as_str() == "check");
    let _ = match unopened(report) {
        _ if is_check => {
            eprintln!(rt; "hogzent: the configuration could not be opened: {refusal}")
        }
        Some(place) => {
            let place = Shown(place);
            eprintln!(rt;
                "hogzent: {place} could not be opened: {refusal}; no line was read or written"
            )
        }
        None => {
            eprintln!(rt;
                "hogzent: a place could not be opened: {refusal}; no line was read or written"
            )
        }
    };
}

/// Tells standard error of an end of which the run itself told people nothing, given what was reported.
fn tell<R: Eprint>(rt: &R, words: &[String], status: Status, report: &[u8]) {
    let Some(command) = words.first() else {
        tell_advice(rt, advice(status));
        return;
    };
    // The faults of a configuration were said one by one.
    if status == Status::Config {
        return;
    }
    let advice = match command.as_str() {
        "run" | "gen" => run_advice(status, report),
        "check" => check_advice(status),
        _ => advice(status),
    };
    tell_advice(rt, advice);
}

/// Tells standard error a line, where there is one.
fn tell_advice(rt: &impl Eprint, line: Option<&str>) {
    if let Some(line) = line {
        let _ = rt.eprintln(line);
    }
}

/// The words, without the program's name; none where a word isn't UTF-8, which makes them no command.
fn words_of(rt: &HostRuntime, alloc: Global) -> Result<Vec<String>, OutOfMemory> {
    match env::args(rt) {
        Ok(words) => Ok(words.skip(1).collect::<Vec<String>>(alloc)?),
        Err(fault) => match fault.kind() {
            ErrorKind::OutOfMemory => Err(OutOfMemory),
            _ => Ok(Vec::new(alloc)),
        },
    }
}

/// Runs the words in the real world, given what stands behind the standard streams, and tells standard error
/// of an end of which the run itself told people nothing.
fn run_words<R: Files<File = File> + Clock + Eprint + Net + Threads + Sync>(
    rt: &R,
    alloc: Global,
    words: &[String],
    streams: StreamHandles,
    standard: StandardStreams,
) -> Status {
    let mut world = RealWorld::new(rt, alloc, streams, standard);
    let status = agent(alloc, words, &mut world);
    if let (Status::OpenFault, Some(refusal)) = (status, world.refused()) {
        tell_unopened(rt, words, refusal, world.reported());
    } else if status != Status::Done {
        tell(rt, words, status, world.reported());
    }
    status
}

/// Opens the standard streams that were closed, before anything else is opened, and runs the words.
fn main(rt: HostRuntime) -> ExitCode {
    let alloc = rt.alloc();
    let Ok(standard) = open_standard(&rt) else {
        let _ = rt.eprintln(
            "hogzent: /dev/null or /proc/self/fd could not be opened; no place was opened",
        );
        return ExitCode::from(Status::OpenFault.code());
    };
    let Ok(words) = words_of(&rt, alloc) else {
        let _ = rt.eprintln(OUT_OF_MEMORY);
        return ExitCode::from(Status::OutOfMemory.code());
    };
    let streams = StreamHandles {
        input: rt.stdin(),
        output: rt.stdout(),
        error: rt.stderr(),
    };
    let status = run_words(&rt, alloc, words.as_slice(), streams, standard);
    ExitCode::from(status.code())
}
