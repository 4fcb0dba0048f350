//! Shows what texts of a format read as: `format_probe IN OUT` cuts standard input into pieces, reads each in
//! the format IN at the moment 7, and writes what OUT asks for. `influx` writes the line of each metric,
//! `graphite` its lines of Graphite, `openmetrics` an exposition of each 1,000 metrics and of those that are left
//! at the end, `KIND OFFSET` for a piece that is refused, and `TooLong` for one that is too long; `count` writes
//! nothing of them. The last line says how many pieces, refusals, passed samples and
//! metrics there were. IN is `influx`, `statsd`, `graphite` or `openmetrics`; for `graphite` a separator and
//! templates may follow OUT, without which the separator is `.` and there is no template; for `openmetrics`,
//! whose pieces are expositions, `type_tag` and `pass_out_of_range` may follow OUT, in any order. The status is 2
//! where the words are others or a template is none, and 1 where standard input or output failed or memory was
//! wanting.
//!
//! `format_probe journal OUT` reads all of standard input as a journal: `journal` writes it again, `count` a line that
//! says how many inputs, aggregators, outputs, entries, items, views and reports it has, and `reports` a line
//! `ENTRY GROUP INPUT delivered` (or `rejected`) each, entries from 0. A text that is none gives `KIND PLACE`.
#![tactic(auto)]

mod journals;

use agent_base::{CutKind, Piece, PieceFault, Pieces, Sink, Source, StdSink, StdSource};
use fixed_num::{Moment, OutOfMemory};
use format_words::{Template, TemplateFault};
use graphite_text::{GraphiteKind, write_metric};
use journals::{Told, answer, told_of};
use line_proto::{LineKind, read_line, write_line};
use metric::Metric;
use openmetrics_text::{ExpositionKind, read_exposition, write_batch};
use statsd_text::StatsdKind;
use std::alloc::{AllocError, AllocFailed, Global};
use std::io::{Error, ErrorKind, Read, Stdin, Stdout};
use std::process::ExitCode;
use std::{env, fmt};
use text_buffer::TextBuffer;

/// The moment at which each piece is read.
const MOMENT: Moment = 7;

/// The text is put once it has so many bytes.
const FULL: usize = 65_536;

/// So many metrics make an exposition.
const BATCH: usize = 1_000;

/// The format of the pieces.
#[derive(Clone, Copy, Debug, PartialEq, Eq)]
enum Format {
    Influx,
    Statsd,
    Graphite,
    Openmetrics,
}

/// What is written of the pieces.
#[derive(Clone, Copy, Debug, PartialEq, Eq)]
enum Shown {
    Influx,
    Graphite,
    Openmetrics,
    Nothing,
}

/// What was read and isn't put yet.
#[derive(Drop)]
struct Probe {
    alloc: Global,
    format: Format,
    shown: Shown,
    separator: String,
    templates: Vec<Template>,
    type_tag: bool,
    pass_out_of_range: bool,
    pieces: u64,
    refused: u64,
    passed: u64,
    metrics: u64,
    batch: Vec<Metric>,
    out: TextBuffer,
}

/// Why the probe stops.
#[derive(Clone, Copy, Debug, PartialEq, Eq)]
struct Stopped;

impl From<OutOfMemory> for Stopped {
    fn from(_fault: OutOfMemory) -> Stopped {
        Stopped
    }
}

impl Probe {
    /// Writes words and a newline.
    fn line(&mut self, words: &str) -> Result<(), OutOfMemory> {
        self.out.extend_from_slice(words.as_bytes())?;
        self.out.push(b'\n')?;
        Ok(())
    }

    /// Writes the exposition of the batch, where there is one.
    fn write_batch(&mut self) -> Result<(), OutOfMemory> {
        if !self.batch.is_empty() {
            write_batch(self.alloc, self.batch.as_slice(), &mut self.out)?;
            self.batch.clear();
        }
        Ok(())
    }

    /// One more metric for an exposition.
    fn gather(&mut self, metric: &Metric) -> Result<(), OutOfMemory> {
        self.batch.push(metric.copy()?)?;
        if self.batch.len() < BATCH {
            return Ok(());
        }
        self.write_batch()
    }

    /// A piece is a metric.
    fn read(&mut self, metric: &Metric) -> Result<(), OutOfMemory> {
        self.metrics = self.metrics.saturating_add(1);
        match self.shown {
            Shown::Influx => write_line(self.alloc, metric, &mut self.out),
            Shown::Graphite => write_metric(self.alloc, metric, &mut self.out),
            Shown::Openmetrics => self.gather(metric),
            Shown::Nothing => Ok(()),
        }
    }

    /// A piece is refused.
    fn refuse<K: fmt::Debug + Drop>(&mut self, kind: K, offset: usize) -> Result<(), OutOfMemory> {
        self.refused = self.refused.saturating_add(1);
        if self.shown != Shown::Nothing {
            let words = format!(in self.alloc; "{:?} {}", kind, offset)?;
            self.line(words.as_str())?;
        }
        Ok(())
    }

    /// A piece is too long.
    fn pass_over(&mut self) -> Result<(), OutOfMemory> {
        self.pieces = self.pieces.saturating_add(1);
        self.refused = self.refused.saturating_add(1);
        if self.shown != Shown::Nothing {
            self.line("TooLong")?;
        }
        Ok(())
    }

    /// Reads a piece as line protocol.
    fn influx(&mut self, piece: &Piece) -> Result<(), OutOfMemory> {
        match read_line(self.alloc, piece.bytes(), MOMENT) {
            Ok(Some(metric)) => self.read(&metric),
            Ok(None) => Ok(()),
            Err(fault) => match fault.kind {
                LineKind::OutOfMemory => Err(OutOfMemory),
                kind => self.refuse(kind, fault.offset),
            },
        }
    }

    /// Reads a piece as a StatsD line.
    fn statsd(&mut self, piece: &Piece) -> Result<(), OutOfMemory> {
        match statsd_text::read_line(self.alloc, piece.bytes(), MOMENT) {
            Ok(metrics) => {
                for metric in metrics.as_slice() {
                    self.read(metric)?;
                }
                Ok(())
            }
            Err(fault) => match fault.kind {
                StatsdKind::OutOfMemory => Err(OutOfMemory),
                kind => self.refuse(kind, fault.offset),
            },
        }
    }

    /// Reads a piece as a line of Graphite.
    fn graphite(&mut self, piece: &Piece) -> Result<(), OutOfMemory> {
        let templates = self.templates.as_slice();
        let separator = self.separator.as_str();
        match graphite_text::read_line(self.alloc, templates, separator, piece.bytes(), MOMENT) {
            Ok(Some(metric)) => self.read(&metric),
            Ok(None) => Ok(()),
            Err(fault) => match fault.kind {
                GraphiteKind::OutOfMemory => Err(OutOfMemory),
                kind => self.refuse(kind, fault.offset),
            },
        }
    }

    /// Reads a piece as an exposition.
    fn openmetrics(&mut self, piece: &Piece) -> Result<(), OutOfMemory> {
        let (type_tag, passing) = (self.type_tag, self.pass_out_of_range);
        match read_exposition(self.alloc, piece.bytes(), MOMENT, type_tag, passing) {
            Ok(exposition) => {
                self.passed = self.passed.saturating_add(u64::from(exposition.passed));
                for metric in exposition.metrics.as_slice() {
                    self.read(metric)?;
                }
                Ok(())
            }
            Err(fault) => match fault.kind {
                ExpositionKind::OutOfMemory => Err(OutOfMemory),
                kind => self.refuse(kind, fault.offset),
            },
        }
    }

    /// Reads a piece.
    fn piece(&mut self, piece: &Piece) -> Result<(), OutOfMemory> {
        self.pieces = self.pieces.saturating_add(1);
        match self.format {
            Format::Influx => self.influx(piece),
            Format::Statsd => self.statsd(piece),
            Format::Graphite => self.graphite(piece),
            Format::Openmetrics => self.openmetrics(piece),
        }
    }

    /// What is left of a batch, and the line of numbers.
    fn finish(&mut self) -> Result<(), OutOfMemory> {
        self.write_batch()?;
        let words = format!(in self.alloc;
            "pieces {} refused {} passed {} metrics {}",
            self.pieces, self.refused, self.passed, self.metrics
        )?;
        self.line(words.as_str())
    }

    /// Puts what was written.
    fn put<K: Sink>(&mut self, sink: &mut K) -> Result<(), Stopped> {
        let put = sink.put(self.out.as_slice());
        self.out.clear();
        match put {
            Ok(()) => Ok(()),
            Err(_) => Err(Stopped),
        }
    }
}

/// Reads all pieces of a source.
fn run<S: Source, K: Sink>(
    probe: &mut Probe,
    pieces: &mut Pieces,
    source: &mut S,
    sink: &mut K,
) -> Result<(), Stopped> {
    for _piece in 0..u64::MAX {
        match pieces.next(source) {
            Ok(Some(piece)) => probe.piece(&piece)?,
            Ok(None) => break,
            Err(PieceFault::TooLong) => probe.pass_over()?,
            Err(_) => return Err(Stopped),
        }
        if FULL < probe.out.len() {
            probe.put(sink)?;
        }
    }
    probe.finish()?;
    probe.put(sink)
}

/// The format that a word names.
fn format_of(word: &str) -> Option<Format> {
    match word {
        "influx" => Some(Format::Influx),
        "statsd" => Some(Format::Statsd),
        "graphite" => Some(Format::Graphite),
        "openmetrics" => Some(Format::Openmetrics),
        _ => None,
    }
}

/// How the pieces of a format are cut.
fn cut_of(format: Format) -> CutKind {
    match format {
        Format::Openmetrics => CutKind::Expositions,
        _ => CutKind::Lines,
    }
}

/// What a word asks for.
fn shown_of(word: &str) -> Option<Shown> {
    match word {
        "influx" => Some(Shown::Influx),
        "graphite" => Some(Shown::Graphite),
        "openmetrics" => Some(Shown::Openmetrics),
        "count" => Some(Shown::Nothing),
        _ => None,
    }
}

/// Why there is no probe: the words are none of this program, or memory is wanting.
#[derive(Clone, Copy, Debug, PartialEq, Eq)]
enum Unmade {
    Words,
    OutOfMemory,
}

impl From<OutOfMemory> for Unmade {
    fn from(_fault: OutOfMemory) -> Unmade {
        Unmade::OutOfMemory
    }
}

impl From<AllocError> for Unmade {
    fn from(_fault: AllocError) -> Unmade {
        Unmade::OutOfMemory
    }
}

impl<T: Drop> From<AllocFailed<T>> for Unmade {
    fn from(_fault: AllocFailed<T>) -> Unmade {
        Unmade::OutOfMemory
    }
}

impl From<TemplateFault> for Unmade {
    fn from(fault: TemplateFault) -> Unmade {
        match fault {
            TemplateFault::OutOfMemory => Unmade::OutOfMemory,
            TemplateFault::BadTemplate => Unmade::Words,
        }
    }
}

/// The templates of words.
fn templates_of(alloc: Global, words: &[String]) -> Result<Vec<Template>, Unmade> {
    let mut templates = Vec::new(alloc);
    for word in words {
        templates.push(Template::read(alloc, word.as_str())?)?;
    }
    Ok(templates)
}

/// The probe that words ask for, with a separator and templates.
fn probe_of(
    alloc: Global,
    format: &str,
    shown: &str,
    separator: &str,
    templates: &[String],
) -> Result<Probe, Unmade> {
    let (Some(format), Some(shown)) = (format_of(format), shown_of(shown)) else {
        return Err(Unmade::Words);
    };
    let templates = templates_of(alloc, templates)?;
    Ok(Probe {
        alloc,
        format,
        shown,
        separator: String::from_str(alloc, separator)?,
        templates,
        type_tag: false,
        pass_out_of_range: false,
        pieces: 0,
        refused: 0,
        passed: 0,
        metrics: 0,
        batch: Vec::new(alloc),
        out: TextBuffer::new(alloc),
    })
}

/// The probe of expositions that these words ask for.
fn expositions_probe(alloc: Global, shown: &str, words: &[String]) -> Result<Probe, Unmade> {
    let mut probe = probe_of(alloc, "openmetrics", shown, ".", &[])?;
    for word in words {
        match word.as_str() {
            "type_tag" => probe.type_tag = true,
            "pass_out_of_range" => probe.pass_out_of_range = true,
            _ => return Err(Unmade::Words),
        }
    }
    Ok(probe)
}

/// The probe of Graphite's lines, with a separator and templates.
fn graphite_probe(alloc: Global, shown: &str, words: &[String]) -> Result<Probe, Unmade> {
    match words {
        [separator, templates @ ..] => {
            probe_of(alloc, "graphite", shown, separator.as_str(), templates)
        }
        [] => Err(Unmade::Words),
    }
}

/// The probe that the words of the command ask for. A separator and templates are words of `graphite` alone, and
/// `type_tag` and `pass_out_of_range` are those of `openmetrics`.
fn asked(alloc: Global, words: &[String]) -> Result<Probe, Unmade> {
    match words {
        [format, shown] => probe_of(alloc, format.as_str(), shown.as_str(), ".", &[]),
        [format, shown, more @ ..] => match format.as_str() {
            "graphite" => graphite_probe(alloc, shown.as_str(), more),
            "openmetrics" => expositions_probe(alloc, shown.as_str(), more),
            _ => Err(Unmade::Words),
        },
        _ => Err(Unmade::Words),
    }
}

/// Tells what standard input is as a journal.
fn tell_journal(
    alloc: Global,
    mut input: Stdin,
    output: Stdout,
    asked: Told,
) -> Result<(), Stopped> {
    let mut text = Vec::new(alloc);
    if input.read_to_end(&mut text).is_err() {
        return Err(Stopped);
    }
    let out = answer(alloc, asked, text.as_slice())?;
    match StdSink::new(output).put(out.as_slice()) {
        Ok(()) => Ok(()),
        Err(_) => Err(Stopped),
    }
}

/// What is asked for of a journal, where the words ask for that.
fn asked_of_journal(words: &[String]) -> Option<Told> {
    match words {
        [format, told] if format.as_str() == "journal" => told_of(told.as_str()),
        _ => None,
    }
}

/// The status where the words of the command can't be read.
fn unread(fault: Error) -> ExitCode {
    match fault.kind() {
        ErrorKind::OutOfMemory => ExitCode::from(1),
        _ => ExitCode::from(2),
    }
}

fn main(rt: HostRuntime) -> ExitCode {
    let alloc = rt.alloc();
    let words = match env::args(&rt) {
        Ok(words) => words.skip(1).collect::<Vec<String>>(alloc),
        Err(fault) => return unread(fault),
    };
    if let Ok(words) = &words {
        if let Some(told) = asked_of_journal(words.as_slice()) {
            return match tell_journal(alloc, rt.stdin(), rt.stdout(), told) {
                Ok(()) => ExitCode::from(0),
                Err(_) => ExitCode::from(1),
            };
        }
    }
    let asked = match &words {
        Ok(words) => asked(alloc, words.as_slice()),
        Err(_) => return ExitCode::from(1),
    };
    let mut probe = match asked {
        Ok(probe) => probe,
        Err(Unmade::Words) => return ExitCode::from(2),
        Err(Unmade::OutOfMemory) => return ExitCode::from(1),
    };
    let Ok(mut pieces) = Pieces::new(alloc, cut_of(probe.format)) else {
        return ExitCode::from(1);
    };
    let mut source = StdSource::new(rt.stdin());
    let mut sink = StdSink::new(rt.stdout());
    match run(&mut probe, &mut pieces, &mut source, &mut sink) {
        Ok(()) => ExitCode::from(0),
        Err(_) => ExitCode::from(1),
    }
}
