//! The head of a journal.
ghost use Rattle.std.specs.Prelude.{◌≡◌, ◌++◌, [], OnOk, OnErr, codes, if◌then◌else◌};
ghost use Rattle.text_parts.specs.Adds.{Adds};
ghost use Rattle.account.specs.AccountText.{numbered};
ghost use Rattle.journal_text.specs.SetupText.{input_line, letters_text, kind_text, times_text, agg_line};
ghost use Rattle.journal_text.specs.SetupText.{output_line, start_lines, setup_text};

use account::{AggLine, AggWord};
use fixed_num::{Moment, OutOfMemory, Seq};
use std::alloc::Global;
use text_buffer::TextBuffer;
use text_parts::{append_numbers, append_signed, append_words, settle};

/// What a journal is about.
#[derive(Drop)]
pub struct JournalSetup {
    /// The moment of the start: nanoseconds since 1970.
    pub start: Moment,
    /// Per input the most groups that may be undelivered, where it is tracked.
    pub inputs: Seq<Option<u32>>,
    /// The aggregators.
    pub aggs: Seq<AggLine>,
    /// Per output its batch size and its buffer limit.
    pub outputs: Seq<(u32, u32)>,
}

// Appends the line of an input.
#[tactic(auto, unfolding(crate::specs::SetupText::input_line))]
fn append_input(out: &mut TextBuffer, input: u64, most: Option<u32>) -> Result<(), OutOfMemory>
    ensures { Adds result out.old.items out.new.items (input_line input most) }
{
    match most {
        None => {
            append_numbers(out, &[("input ", input)], " plain\n")?;
            Ok(())
        }
        Some(most) => {
            append_numbers(
                out,
                &[("input ", input), (" tracked ", u64::from(most))],
                "\n",
            )?;
            Ok(())
        }
    }
}

// Appends a letter where its statistic is set.
fn append_letter(out: &mut TextBuffer, letter: &str, wanted: bool) -> Result<(), OutOfMemory>
    ensures { Adds result out.old.items out.new.items (if wanted then letter.now else []) }
{
    if wanted {
        append_words(out, letter)
    } else {
        Ok(())
    }
}

// Appends the letters of the statistics that are set.
#[tactic(auto, unfolding(crate::specs::SetupText::letters_text))]
fn append_letters(
    out: &mut TextBuffer,
    sum: bool,
    count: bool,
    min: bool,
    max: bool,
) -> Result<(), OutOfMemory>
    ensures { Adds result out.old.items out.new.items (letters_text sum count min max) }
{
    append_letter(out, "s", sum)?;
    append_letter(out, "c", count)?;
    append_letter(out, "m", min)?;
    append_letter(out, "x", max)?;
    Ok(())
}

// Appends the kind of an aggregator.
#[tactic(auto, unfolding(crate::specs::SetupText::kind_text))]
fn append_kind(out: &mut TextBuffer, kind: &AggWord) -> Result<(), OutOfMemory>
    ensures { Adds result out.old.items out.new.items (kind_text kind.now) }
{
    match kind {
        AggWord::MinMax => append_words(out, "minmax"),
        AggWord::Basic {
            sum,
            count,
            min,
            max,
        } => {
            append_words(out, "basicstats:")?;
            append_letters(out, *sum, *count, *min, *max)?;
            Ok(())
        }
        AggWord::Merge => append_words(out, "merge"),
        AggWord::Final(timeout) => append_signed(out, "final:", timeout),
    }
}

// How the line of an aggregator ends.
fn ending(dropping: bool) -> &'static str
    ensures { result.now ≡ (if dropping then codes " drop\n" else codes " keep\n") }
{
    if dropping { " drop\n" } else { " keep\n" }
}

// Appends an aggregator's period, delay and grace, each behind a space.
#[tactic(auto, unfolding(crate::specs::SetupText::times_text))]
fn append_times(out: &mut TextBuffer, line: &AggLine) -> Result<(), OutOfMemory>
    ensures { Adds result out.old.items out.new.items (times_text line.now) }
{
    append_signed(out, " ", &line.period)?;
    append_signed(out, " ", &line.delay)?;
    append_signed(out, " ", &line.grace)?;
    Ok(())
}

// Appends the line of an aggregator.
#[tactic(auto, unfolding(crate::specs::SetupText::agg_line))]
fn append_agg(out: &mut TextBuffer, agg: u64, line: &AggLine) -> Result<(), OutOfMemory>
    ensures { Adds result out.old.items out.new.items (agg_line agg line.now) }
{
    append_numbers(out, &[("aggregator ", agg)], " ")?;
    append_kind(out, &line.kind)?;
    append_times(out, line)?;
    append_words(out, ending(line.dropping))?;
    Ok(())
}

// Appends the line of an output.
#[tactic(auto, unfolding(crate::specs::SetupText::output_line))]
fn append_output(out: &mut TextBuffer, output: u64, sizes: &(u32, u32)) -> Result<(), OutOfMemory>
    ensures { Adds result out.old.items out.new.items (output_line output sizes.now) }
{
    let (batch, limit) = *sizes;
    append_numbers(
        out,
        &[
            ("output ", output),
            (" ", u64::from(batch)),
            (" ", u64::from(limit)),
        ],
        "\n",
    )?;
    Ok(())
}

// Appends the lines of inputs, counted from 0.
#[tactic(auto, using(account::proofs::NumberedLemmas::appending), unfolding(account::specs::AccountText::numbered))]
fn append_inputs(out: &mut TextBuffer, inputs: &[Option<u32>]) -> Result<(), OutOfMemory>
    ensures { Adds result out.old.items out.new.items (numbered input_line 0 inputs.now) }
{
    for (i, most) in inputs.iter().enumerate() {
        append_input(out, i as u64, *most)?;
    }
    Ok(())
}

// Appends the lines of aggregators, counted from 0.
#[tactic(auto, using(account::proofs::NumberedLemmas::appending), unfolding(account::specs::AccountText::numbered))]
fn append_aggs(out: &mut TextBuffer, aggs: &[AggLine]) -> Result<(), OutOfMemory>
    ensures { Adds result out.old.items out.new.items (numbered agg_line 0 aggs.now) }
{
    for (i, line) in aggs.iter().enumerate() {
        append_agg(out, i as u64, line)?;
    }
    Ok(())
}

// Appends the lines of outputs, counted from 0.
#[tactic(auto, using(account::proofs::NumberedLemmas::appending), unfolding(account::specs::AccountText::numbered))]
fn append_outputs(out: &mut TextBuffer, outputs: &[(u32, u32)]) -> Result<(), OutOfMemory>
    ensures { Adds result out.old.items out.new.items (numbered output_line 0 outputs.now) }
{
    for (i, sizes) in outputs.iter().enumerate() {
        append_output(out, i as u64, sizes)?;
    }
    Ok(())
}

// Appends the version, and the moment of the start.
#[tactic(auto, unfolding(crate::specs::SetupText::start_lines))]
fn append_start(out: &mut TextBuffer, start: &Moment) -> Result<(), OutOfMemory>
    ensures { Adds result out.old.items out.new.items (start_lines start.now) }
{
    append_signed(out, "journal 1\nstart ", start)?;
    append_words(out, "\n")?;
    Ok(())
}

// Appends the head of a journal, or a front of it.
#[tactic(auto, unfolding(crate::specs::SetupText::setup_text))]
fn append_setup(s: &JournalSetup, out: &mut TextBuffer) -> Result<(), OutOfMemory>
    ensures { Adds result out.old.items out.new.items (setup_text s.now) }
{
    append_start(out, &s.start)?;
    append_inputs(out, s.inputs.as_slice())?;
    append_aggs(out, s.aggs.as_slice())?;
    append_outputs(out, s.outputs.as_slice())?;
    Ok(())
}

/// Appends the head of a journal: `journal 1`, `start` and the moment, then a line for each input,
/// aggregator and output, in order. `OutOfMemory` leaves `out` as it was.
pub fn write_setup(
    _alloc: Global,
    s: &JournalSetup,
    out: &mut TextBuffer,
) -> Result<(), OutOfMemory>
    ensures err { OnErr result (out.new.items ≡ out.old.items) }
    ensures ok { OnOk result (out.new.items ≡ out.old.items ++ setup_text s.now) }
{
    let len = out.len();
    let written = append_setup(s, out);
    settle(out, len, written)
}
