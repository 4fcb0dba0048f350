//! The text of what was counted.
ghost use Rattle.std.specs.Prelude.{◌≡◌, codes, if◌then◌else◌};
ghost use Rattle.text_parts.specs.Adds.{Adds};
ghost use Rattle.account.specs.AccountText.{input_line, groups_line, tracked_groups, items_line, output_line};
ghost use Rattle.account.specs.AccountText.{numbered};

use crate::{InputNumbers, OutputNumbers};
use fixed_num::OutOfMemory;
use text_buffer::TextBuffer;
use text_parts::append_numbers;

// How the line of an input ends.
fn ending(has_ended: bool) -> &'static str
    ensures { result.now ≡ (if has_ended then codes " ended\n" else codes " unread\n") }
{
    if has_ended { " ended\n" } else { " unread\n" }
}

// Appends the line of an input.
#[tactic(auto, unfolding(crate::specs::AccountText::input_line))]
fn append_input(out: &mut TextBuffer, input: u64, x: &InputNumbers) -> Result<(), OutOfMemory>
    ensures { Adds result out.old.items out.new.items (input_line input x.now) }
{
    append_numbers(
        out,
        &[
            ("input ", input),
            (" pieces ", x.pieces),
            (" refused ", x.refused),
            (" passed ", x.passed),
            (" filtered ", x.filtered),
            (" gathered ", x.gathered),
        ],
        ending(x.has_ended),
    )
}

// Appends the line of an input's groups where it is tracked.
#[tactic(auto, unfolding(crate::specs::AccountText::groups_line, crate::specs::AccountText::tracked_groups))]
fn append_tracked(out: &mut TextBuffer, input: u64, x: &InputNumbers) -> Result<(), OutOfMemory>
    ensures { Adds result out.old.items out.new.items (tracked_groups input x.now) }
{
    if !x.tracked {
        return Ok(());
    }
    append_numbers(
        out,
        &[
            ("groups ", input),
            (" delivered ", x.delivered),
            (" rejected ", x.rejected),
            (" undelivered ", x.undelivered),
        ],
        "\n",
    )
}

// Appends the line of the items.
#[tactic(auto, unfolding(crate::specs::AccountText::items_line))]
pub(crate) fn append_items(
    out: &mut TextBuffer,
    made: u64,
    removed: u64,
    routed: u64,
) -> Result<(), OutOfMemory>
    ensures { Adds result out.old.items out.new.items (items_line made removed routed) }
{
    append_numbers(
        out,
        &[
            ("items made ", made),
            (" removed ", removed),
            (" routed ", routed),
        ],
        "\n",
    )
}

// Appends the line of an output.
#[tactic(auto, unfolding(crate::specs::AccountText::output_line))]
fn append_output(out: &mut TextBuffer, output: u64, x: &OutputNumbers) -> Result<(), OutOfMemory>
    ensures { Adds result out.old.items out.new.items (output_line output x.now) }
{
    append_numbers(
        out,
        &[
            ("output ", output),
            (" filtered ", x.filtered),
            (" late ", x.late),
            (" consumed ", x.consumed),
            (" written ", x.written),
            (" buffered ", x.buffered),
            (" dropped ", x.dropped),
        ],
        "\n",
    )
}

// Appends the lines of inputs, counted from 0.
#[tactic(auto, using(crate::proofs::NumberedLemmas::appending), unfolding(crate::specs::AccountText::numbered))]
pub(crate) fn append_inputs(
    out: &mut TextBuffer,
    inputs: &[InputNumbers],
) -> Result<(), OutOfMemory>
    ensures { Adds result out.old.items out.new.items (numbered input_line 0 inputs.now) }
{
    for (i, x) in inputs.iter().enumerate() {
        append_input(out, i as u64, x)?;
    }
    Ok(())
}

// Appends the lines of the groups of those inputs that are tracked; all inputs are counted from 0.
#[tactic(auto, using(crate::proofs::NumberedLemmas::appending), unfolding(crate::specs::AccountText::numbered))]
pub(crate) fn append_groups(
    out: &mut TextBuffer,
    inputs: &[InputNumbers],
) -> Result<(), OutOfMemory>
    ensures { Adds result out.old.items out.new.items (numbered tracked_groups 0 inputs.now) }
{
    for (i, x) in inputs.iter().enumerate() {
        append_tracked(out, i as u64, x)?;
    }
    Ok(())
}

// Appends the lines of outputs, counted from 0.
#[tactic(auto, using(crate::proofs::NumberedLemmas::appending), unfolding(crate::specs::AccountText::numbered))]
pub(crate) fn append_outputs(
    out: &mut TextBuffer,
    outputs: &[OutputNumbers],
) -> Result<(), OutOfMemory>
    ensures { Adds result out.old.items out.new.items (numbered output_line 0 outputs.now) }
{
    for (i, x) in outputs.iter().enumerate() {
        append_output(out, i as u64, x)?;
    }
    Ok(())
}
