//! What the pieces of an input say, and what is kept of it.
ghost use Rattle.std.specs.Prelude.{◌≡◌, ◌<◌, ◌≤◌, ◌^◌, ◌∷◌, ◌+◌, ◌-◌, ℤ, [], false, All, IfOk, OnOk};
ghost use Rattle.agent_base.specs.Cut.{TooLong, Whole};
ghost use Rattle.metric.specs.Metric.{IsFilledTag};
ghost use Rattle.formats.specs.Groups.{Counts, CountsPiece};
ghost use Rattle.formats.specs.Reader.{InRule, Says, in_rule, rule_view, say_in};

use crate::refusal::Refused;
use agent_base::Piece;
use fixed_num::{Moment, OutOfMemory, Seq};
use format_words::InFormat;
use graphite_text::GraphiteKind;
use line_proto::{LineKind, read_line};
use metric::{Metric, Text};
use metric_filter::Filter;
use openmetrics_text::{ExpositionKind, read_exposition};
use statsd_text::StatsdKind;
use std::alloc::Global;

/// How many metrics a gather has room for from its start.
const GATHER_ROOM: u32 = 1_000;

/// By what rule the pieces of an input are read.
#[derive(Drop)]
pub struct ReadRule<'a> {
    /// The format of the input.
    pub format: &'a InFormat,
    /// The tags that each metric gets that lacks them.
    pub globals: &'a [(Text, Text)],
    /// What is kept of the metrics, once they have these tags.
    pub filter: &'a Filter,
    /// How many pieces a gather has at most.
    pub most: u32,
    /// Whether the first piece of a gather that is refused is noted.
    pub notes: bool,
}

impl<'a> ReadRule<'a> {
    /// The rule of these parts.
    pub fn new(
        format: &'a InFormat,
        globals: &'a [(Text, Text)],
        filter: &'a Filter,
        most: u32,
        notes: bool,
    ) -> ReadRule<'a>
        ensures rule { rule_view result ≡ in_rule format.now globals.now filter.now most }
        ensures globals { result.globals.now ≡ globals.now }
        ensures format { result.format.now ≡ format.now }
        ensures most { result.most ≡ most }
    {
        ReadRule {
            format,
            globals,
            filter,
            most,
            notes,
        }
    }
}

/// The next pieces of an input, and what they say.
#[derive(Drop)]
pub struct Group {
    /// How many pieces there are.
    pub pieces: u32,
    /// How many of them are refused.
    pub refused: u32,
    /// How many samples of the others are passed over; it stands still at its highest number.
    pub passed: u32,
    /// Of how many of their metrics nothing is kept; it stands still at its highest number.
    pub filtered: u32,
    /// What is kept of the other metrics, in order.
    pub metrics: Vec<Metric>,
    /// Of how many samples that are passed over the number or the time is out of range; it stands still at its
    /// highest number.
    pub out_of_range: u32,
    /// The first piece that was refused, where it is noted.
    pub first: Option<Refused>,
}

impl Group {
    /// No piece yet, with room for the metrics of so many pieces, but of no more than a thousand.
    pub fn new(alloc: Global, most: u32) -> Result<Group, OutOfMemory>
        ensures pieces { IfOk result (λ group. group.pieces ≡ 0) }
        ensures refused { IfOk result (λ group. group.refused ≡ 0) }
        ensures passed { IfOk result (λ group. group.passed ≡ 0) }
        ensures filtered { IfOk result (λ group. group.filtered ≡ 0) }
        ensures metrics { IfOk result (λ group. group.metrics.items ≡ []) }
    {
        Ok(Group {
            pieces: 0,
            refused: 0,
            passed: 0,
            filtered: 0,
            metrics: Vec::with_capacity(alloc, most.min(GATHER_ROOM) as usize)?,
            out_of_range: 0,
            first: None,
        })
    }

    /// Counts a piece that is too long, and so refused.
    pub fn refuse(&mut self, notes: bool)
        requires few { self.old.pieces < 2 ^ 32 - 1 }
        requires some { self.old.refused ≤ self.old.pieces }
        ensures counted { (rule : InRule) (moment : ℤ) → CountsPiece rule moment TooLong self.old self.new }
    {
        self.pieces += 1;
        self.refused += 1;
        if notes && self.first.is_none() {
            self.first = Some(Refused::too_long(u64::from(self.pieces)));
        }
    }

    /// Counts a piece, and keeps what is kept of what it says at the moment.
    #[inline(always)]
    pub fn read(
        &mut self,
        alloc: Global,
        rule: &ReadRule,
        piece: &Piece,
        moment: Moment,
    ) -> Result<(), OutOfMemory>
        requires few { self.old.pieces < 2 ^ 32 - 1 }
        requires some { self.old.refused ≤ self.old.pieces }
        requires filled { All IsFilledTag rule.now.globals.now }
        ensures counted { OnOk result
            (CountsPiece (rule_view rule.now) moment (Whole piece.now) self.old self.new) }
    {
        let refused = self.refused;
        self.read_in_format(alloc, rule, piece, moment)?;
        self.pieces += 1;
        if rule.notes && self.refused != refused && self.first.is_none() {
            let (format, number) = (rule.format, u64::from(self.pieces));
            self.first = Some(Refused::of(alloc, format, piece.bytes(), moment, number));
        }
        Ok(())
    }

    /// Keeps what is kept of a piece in the format of the input, or counts it as refused.
    fn read_in_format(
        &mut self,
        alloc: Global,
        rule: &ReadRule,
        piece: &Piece,
        moment: Moment,
    ) -> Result<(), OutOfMemory>
        requires few { self.old.refused < 2 ^ 32 - 1 }
        requires filled { All IsFilledTag rule.now.globals.now }
        ensures pieces { OnOk result (self.new.pieces ≡ self.old.pieces) }
        ensures said { OnOk result
            (Counts (rule_view rule.now) (say_in rule.now.format.now moment piece.now) self.old self.new) }
    {
        self.shows_counts_fit();
        let bytes = piece.bytes();
        match rule.format {
            InFormat::Influx => match read_line(alloc, bytes, moment) {
                Ok(Some(metric)) => self.keep(alloc, rule, metric),
                Ok(None) => Ok(()),
                Err(fault) => self.refuse_for(fault.kind == LineKind::OutOfMemory),
            },
            InFormat::Statsd => match statsd_text::read_line(alloc, bytes, moment) {
                Ok(metrics) => self.keep_list(alloc, rule, metrics),
                Err(fault) => self.refuse_for(fault.kind == StatsdKind::OutOfMemory),
            },
            InFormat::Graphite {
                templates,
                separator,
            } => match graphite_text::read_line(
                alloc,
                templates.as_slice(),
                separator.as_str(),
                bytes,
                moment,
            ) {
                Ok(Some(metric)) => self.keep(alloc, rule, metric),
                Ok(None) => Ok(()),
                Err(fault) => self.refuse_for(fault.kind == GraphiteKind::OutOfMemory),
            },
            InFormat::Openmetrics {
                type_tag,
                pass_out_of_range,
            } => match read_exposition(alloc, bytes, moment, *type_tag, *pass_out_of_range) {
                Ok(exposition) => {
                    self.keep_list(alloc, rule, exposition.metrics)?;
                    self.passed = self.passed.saturating_add(exposition.passed);
                    self.out_of_range = self.out_of_range.saturating_add(exposition.out_of_range);
                    Ok(())
                }
                Err(fault) => self.refuse_for(fault.kind == ExpositionKind::OutOfMemory),
            },
        }
    }

    /// Shows that the counts are in the range of their type, so that nothing more leaves them as they are.
    #[inline(always)]
    fn shows_counts_fit(&self)
        ensures passed { self.now.passed < 2 ^ 32 }
        ensures filtered { self.now.filtered < 2 ^ 32 }
    {
        let (_passed, _filtered) = (self.passed, self.filtered);
    }

    /// Counts a piece as refused, unless memory was wanting.
    fn refuse_for(&mut self, memory_wanting: bool) -> Result<(), OutOfMemory>
        requires { self.old.refused < 2 ^ 32 - 1 }
        ensures fault { OnOk result (memory_wanting ≡ false) }
        ensures refused { OnOk result
            (self.new ≡ record self.old { refused = self.old.refused + 1 }) }
    {
        if memory_wanting {
            return Err(OutOfMemory);
        }
        self.refused += 1;
        Ok(())
    }

    /// Keeps what is kept of metrics, in order. Most lines say one.
    fn keep_list(
        &mut self,
        alloc: Global,
        rule: &ReadRule,
        metrics: Seq<Metric>,
    ) -> Result<(), OutOfMemory>
        requires filled { All IsFilledTag rule.now.globals.now }
        ensures pieces { OnOk result (self.new.pieces ≡ self.old.pieces) }
        ensures said { OnOk result
            (Counts (rule_view rule.now) (Says metrics 0) self.old self.new) }
    {
        self.shows_counts_fit();
        match metrics.into_one() {
            Ok(metric) => self.keep(alloc, rule, metric),
            Err(metrics) => {
                for metric in metrics.into_vec(alloc)? {
                    self.keep(alloc, rule, metric)?;
                }
                Ok(())
            }
        }
    }

    /// Keeps what is kept of a metric, with the global tags that it lacks, or counts that nothing is.
    fn keep(&mut self, alloc: Global, rule: &ReadRule, metric: Metric) -> Result<(), OutOfMemory>
        requires filled { All IsFilledTag rule.now.globals.now }
        ensures pieces { OnOk result (self.new.pieces ≡ self.old.pieces) }
        ensures said { OnOk result
            (Counts (rule_view rule.now) (Says (metric ∷ []) 0) self.old self.new) }
    {
        self.shows_counts_fit();
        let metric = metric.with_tags(alloc, rule.globals)?;
        match rule.filter.apply_to(metric)? {
            Some(kept) => self.metrics.push(kept.into_metric())?,
            None => self.filtered = self.filtered.saturating_add(1),
        }
        Ok(())
    }
}
