//! The next pieces of an input, as many as a gather has.
ghost use Rattle.std.specs.Prelude.{◌≡◌, ◌<◌, ◌≤◌, ◌+◌, ◌^◌, ◌∷◌, ◌-◌, [], length, IfOk, OnOk, All};
ghost use Rattle.agent_base.specs.Hand.{to_come};
ghost use Rattle.agent_base.specs.Told.{Told};
ghost use Rattle.agent_base.specs.Counts.{Rose};
ghost use Rattle.metric.specs.Metric.{IsFilledTag};
ghost use Rattle.formats.specs.Groups.{IsAllRead, KnownBy, ReadsGroup, ReadsNext};
ghost use Rattle.formats.specs.Reader.{cut_of, rule_view};

use crate::reading::{Group, ReadRule};
use agent_base::{CutKind, PieceFault, Pieces, Source};
use fixed_num::{Moment, OutOfMemory};
use format_words::InFormat;
use std::alloc::Global;

/// Whether an input is read on.
#[derive(Clone, Copy, Debug, PartialEq, Eq)]
pub enum InState {
    /// It is.
    Reading,
    /// It was read to its end.
    Ended,
    /// A read failed.
    Faulted,
    /// A limit was reached: of the bytes of the input, or of the metrics of the run.
    LimitReached,
}

/// How the text of an input is cut.
pub fn cut_of(format: &InFormat) -> CutKind
    ensures { result ≡ cut_of format.now }
{
    match format {
        InFormat::Influx => CutKind::Lines,
        InFormat::Statsd => CutKind::Lines,
        InFormat::Graphite { .. } => CutKind::Lines,
        InFormat::Openmetrics { .. } => CutKind::Expositions,
    }
}

/// Reads the next piece into the group, and says whether the input is read on: where it is, one piece was
/// counted, else none. Nothing is promised of the group where memory ran out.
fn read_next<S: Source>(
    alloc: Global,
    rule: &ReadRule,
    pieces: &mut Pieces,
    source: &mut S,
    moment: Moment,
    group: &mut Group,
) -> Result<InState, OutOfMemory>
    requires few { group.old.pieces < 2 ^ 32 - 1 }
    requires some { group.old.refused ≤ group.old.pieces }
    requires filled { All IsFilledTag rule.now.globals.now }
    requires cut_by { pieces.old.kind ≡ cut_of rule.now.format.now }
    ensures next { IfOk result
        (λ state. ReadsNext (rule_view rule.now) state moment group.old group.new pieces.old pieces.new
        (S.told source.old).bytes (S.told source.new).bytes) }
    ensures all { IfOk result (λ state. state ≡ InState.Ended
        → IsAllRead (S.told source.old).bytes (S.told source.new).bytes pieces.new) }
    ensures known { IfOk result
        (λ state. KnownBy state pieces.new (S.told source.old).faults (S.told source.new).faults) }
    ensures counted { Told (S.told source.old).bytes (S.told source.new).bytes
        (λ xs ys. pieces.old.taken + length xs ≡ pieces.new.taken + length ys) }
    ensures faults { (S.told source.old).faults ≤ (S.told source.new).faults }
    ensures kind { pieces.new.kind ≡ pieces.old.kind }
{
    match pieces.next(source) {
        Ok(Some(piece)) => {
            group.read(alloc, rule, &piece, moment)?;
            pieces.take_back(piece);
            Ok(InState::Reading)
        }
        Ok(None) => Ok(InState::Ended),
        Err(PieceFault::TooLong) => {
            group.refuse(rule.notes);
            Ok(InState::Reading)
        }
        Err(PieceFault::ReadFault) => Ok(InState::Faulted),
        Err(PieceFault::ByteLimit) => Ok(InState::LimitReached),
        Err(PieceFault::OutOfMemory) => Err(OutOfMemory),
    }
}

/// Reads the next pieces, at most as many as a gather may have, and says whether the input is read on. A line
/// without a time has the moment (nanoseconds since 1970) as its time.
///
/// Where the input is read on the group has as many pieces as a gather may have; where it has ended no piece
/// is left. After a failed read the bytes that were taken are kept in hand, one piece at most. What was read
/// of the bytes that were taken stands whatever follows them, but at the end of the source. Nothing is
/// promised where memory ran out.
pub fn read_group<S: Source>(
    alloc: Global,
    rule: &ReadRule,
    pieces: &mut Pieces,
    source: &mut S,
    moment: Moment,
) -> Result<(Group, InState), OutOfMemory>
    requires some { 1 ≤ rule.now.most }
    requires filled { All IsFilledTag rule.now.globals.now }
    requires cut_by { pieces.old.kind ≡ cut_of rule.now.format.now }
    ensures reads { IfOk result
        (λ answer. ReadsGroup (rule_view rule.now) moment answer.0 answer.1 pieces.old pieces.new (S.told source.old).bytes
        (S.told source.new).bytes) }
    ensures failed { IfOk result (λ answer. answer.1 ≡ InState.Faulted
        → Rose (S.told source.old).faults (S.told source.new).faults) }
    ensures limit { IfOk result (λ answer. answer.1 ≡ InState.LimitReached → pieces.new.taken ≡ 2 ^ 40) }
    ensures below { IfOk result (λ answer. (answer.1 ≡ InState.LimitReached → ⊥)
        → pieces.new.taken < 2 ^ 40) }
    ensures one { IfOk result (λ answer. answer.1 ≡ InState.Faulted → length (to_come pieces.new []) ≤ 1) }
    ensures line { IfOk result (λ answer. answer.1 ≡ InState.Faulted
        → length (to_come pieces.new (10 ∷ [])) ≤ 1) }
    ensures counted { Told (S.told source.old).bytes (S.told source.new).bytes
        (λ xs ys. pieces.old.taken + length xs ≡ pieces.new.taken + length ys) }
    ensures faults { (S.told source.old).faults ≤ (S.told source.new).faults }
    ensures kind { OnOk result (pieces.new.kind ≡ pieces.old.kind) }
{
    let mut group = Group::new(alloc, rule.most)?;
    for _piece in 0..rule.most {
        let state = read_next(alloc, rule, pieces, source, moment, &mut group)?;
        if state != InState::Reading {
            return Ok((group, state));
        }
    }
    Ok((group, InState::Reading))
}
