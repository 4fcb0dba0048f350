//! Why a piece is refused.
ghost use Rattle.std.specs.Prelude.{◌≡◌, false, IfOk, IfSome, None, OnOk, Some};
ghost use Rattle.formats.specs.Refusals.{kind_of, offset_of, refusal_in};

use fixed_num::{Moment, OutOfMemory, Seq};
use format_words::InFormat;
use graphite_text::{GraphiteFault, GraphiteKind};
use line_proto::{LineFault, LineKind, read_line};
use openmetrics_text::{ExpositionFault, ExpositionKind, read_exposition};
use statsd_text::{StatsdFault, StatsdKind};
use std::alloc::Global;

/// The name of a variant, as it is written.
#[macro_export]
macro_rules! variant_name {
    ($value:expr, $type:ident: $($variant:ident),+) => {
        match $value {
            $($type::$variant => stringify!($variant),)+
        }
    };
}

/// How many bytes of a piece an excerpt has at most.
const MOST_SHOWN: usize = 60;

/// Why a piece is refused: its first fault.
#[derive(Clone, Copy, Debug, PartialEq, Eq)]
pub enum Refusal {
    /// It is longer than a piece may be.
    TooLong,
    /// It is no line of line protocol.
    Influx(LineFault),
    /// It is no line of StatsD.
    Statsd(StatsdFault),
    /// It is no line of Graphite.
    Graphite(GraphiteFault),
    /// It is no exposition.
    Openmetrics(ExpositionFault),
}

impl Refusal {
    /// The name of its kind.
    pub fn kind(self) -> &'static str
        ensures { result.now ≡ kind_of self }
    {
        match self {
            Refusal::TooLong => "TooLong",
            Refusal::Influx(fault) => variant_name!(fault.kind, LineKind:
                OutOfMemory, NoFields, BadKey, BadValue, BadTime, NumberRange,
                NotUtf8, TooMany),
            Refusal::Statsd(fault) => variant_name!(fault.kind, StatsdKind:
                OutOfMemory, NoColon, BadType, BadValue, BadRate, BadTag,
                NumberRange, NotUtf8, BadName, TooMany),
            Refusal::Graphite(fault) => variant_name!(fault.kind, GraphiteKind:
                OutOfMemory, FieldCount, BadPath, BadValue, BadTime, NumberRange,
                NotUtf8, TooMany),
            Refusal::Openmetrics(fault) => variant_name!(fault.kind, ExpositionKind:
                OutOfMemory, NoEof, BadLine, BadLabel, BadNumber, BadTime,
                NumberRange, NotUtf8, TooMany),
        }
    }

    /// Where the fault is: an index into the piece, or its length; None where the piece is too long.
    pub fn offset(self) -> Option<usize>
        ensures { result ≡ offset_of self }
    {
        match self {
            Refusal::TooLong => None,
            Refusal::Influx(fault) => Some(fault.offset),
            Refusal::Statsd(fault) => Some(fault.offset),
            Refusal::Graphite(fault) => Some(fault.offset),
            Refusal::Openmetrics(fault) => Some(fault.offset),
        }
    }
}

/// A refusal, unless memory was wanting.
fn refused_for(memory_wanting: bool, refusal: Refusal) -> Result<Option<Refusal>, OutOfMemory>
    ensures fault { OnOk result (memory_wanting ≡ false) }
    ensures why { IfOk result (λ why. why ≡ Some refusal) }
{
    if memory_wanting {
        return Err(OutOfMemory);
    }
    Ok(Some(refusal))
}

/// Why a piece that isn't too long is refused in a format at a moment (nanoseconds since 1970); None where it
/// isn't. The piece is read once more for it.
pub fn why_refused(
    alloc: Global,
    format: &InFormat,
    piece: &[u8],
    moment: Moment,
) -> Result<Option<Refusal>, OutOfMemory>
    ensures { IfOk result (λ why. why ≡ refusal_in format.now moment piece.now) }
{
    match format {
        InFormat::Influx => match read_line(alloc, piece, moment) {
            Ok(_) => Ok(None),
            Err(e) => refused_for(e.kind == LineKind::OutOfMemory, Refusal::Influx(e)),
        },
        InFormat::Statsd => match statsd_text::read_line(alloc, piece, moment) {
            Ok(_) => Ok(None),
            Err(e) => refused_for(e.kind == StatsdKind::OutOfMemory, Refusal::Statsd(e)),
        },
        InFormat::Graphite {
            templates,
            separator,
        } => match graphite_text::read_line(
            alloc,
            templates.as_slice(),
            separator.as_str(),
            piece,
            moment,
        ) {
            Ok(_) => Ok(None),
            Err(e) => refused_for(e.kind == GraphiteKind::OutOfMemory, Refusal::Graphite(e)),
        },
        InFormat::Openmetrics {
            type_tag,
            pass_out_of_range,
        } => match read_exposition(alloc, piece, moment, *type_tag, *pass_out_of_range) {
            Ok(_) => Ok(None),
            Err(e) => refused_for(
                e.kind == ExpositionKind::OutOfMemory,
                Refusal::Openmetrics(e),
            ),
        },
    }
}

/// A piece that was refused, as people are told of it.
#[derive(Drop)]
pub struct Refused {
    /// Its number among the pieces that were read with it, counted from 1.
    pub piece: u64,
    /// Why it was refused; None where no memory was left to read it once more.
    pub why: Option<Refusal>,
    /// The line of an exposition in which its fault is, counted from 1; None of a line.
    pub line: Option<u32>,
    /// Up to 60 of its bytes, around its fault; None where it is too long, or no memory was left.
    pub excerpt: Option<Seq<u8>>,
}

impl Refused {
    /// A piece with this number that was refused in a format at a moment.
    pub fn of(
        alloc: Global,
        format: &InFormat,
        piece: &[u8],
        moment: Moment,
        number: u64,
    ) -> Refused
        ensures number { result.piece ≡ number }
        ensures why { IfSome result.why (λ why. refusal_in format.now moment piece.now ≡ Some why) }
    {
        let why = why_refused(alloc, format, piece, moment).unwrap_or(None);
        let offset = match why {
            Some(refusal) => refusal.offset().unwrap_or(0),
            None => 0,
        };
        Refused {
            piece: number,
            why,
            line: match format {
                InFormat::Openmetrics { .. } => Some(line_at(piece, offset)),
                _ => None,
            },
            excerpt: excerpt(alloc, piece, offset),
        }
    }

    /// A copy of it; without its bytes where no memory was left for them.
    pub fn copy(&self, alloc: Global) -> Refused
        ensures number { result.piece ≡ self.now.piece }
        ensures why { result.why ≡ self.now.why }
        ensures line { result.line ≡ self.now.line }
        ensures excerpt { IfSome result.excerpt (λ bytes. self.now.excerpt ≡ Some bytes) }
    {
        Refused {
            piece: self.piece,
            why: self.why,
            line: self.line,
            excerpt: match &self.excerpt {
                Some(bytes) => copied(alloc, bytes.as_slice()),
                None => None,
            },
        }
    }

    /// A piece with this number that is too long.
    pub fn too_long(number: u64) -> Refused
        ensures { result ≡ record { piece = number; why = Some Refusal.TooLong; line = None; excerpt = None } }
    {
        Refused {
            piece: number,
            why: Some(Refusal::TooLong),
            line: None,
            excerpt: None,
        }
    }
}

/// The line of a text in which an offset is, counted from 1.
fn line_at(text: &[u8], offset: usize) -> u32 {
    let mut line: u32 = 1;
    for byte in text.get(..offset).unwrap_or(text) {
        if *byte == b'\n' {
            line = line.saturating_add(1);
        }
    }
    line
}

/// The bytes of a text around an offset, as many as an excerpt has; None where no memory was left.
fn excerpt(alloc: Global, text: &[u8], offset: usize) -> Option<Seq<u8>> {
    let begin = offset
        .saturating_sub(MOST_SHOWN / 2)
        .min(text.len().saturating_sub(MOST_SHOWN));
    let rest = text.get(begin..).unwrap_or(b"");
    copied(alloc, rest.get(..MOST_SHOWN).unwrap_or(rest))
}

/// A copy of some bytes; None where no memory was left.
fn copied(alloc: Global, bytes: &[u8]) -> Option<Seq<u8>>
    ensures { IfSome result (λ copy. copy ≡ bytes.now) }
{
    let mut copy = Vec::new(alloc);
    match copy.extend_from_slice(bytes) {
        Ok(()) => Some(Seq::of(copy)),
        Err(_) => None,
    }
}
