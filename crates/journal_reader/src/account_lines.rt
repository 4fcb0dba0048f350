//! The lines of an account, by their words.
ghost use Rattle.std.specs.Prelude.{◌≡◌, ◌++◌, ◌∷◌, ℕ, List, option_map, map, is_some, Some, None, OnOk, IfOk};
ghost use Rattle.std.specs.Prelude.{if◌then◌else◌};
ghost use Rattle.journal_reader.specs.Words.{taken};
ghost use Rattle.journal_reader.specs.AccountReading.{behind_count, behind_counts, line_counts, ended_counts};
ghost use Rattle.journal_reader.specs.AccountReading.{items_counts, counts_in};
ghost use Rattle.journal_reader.specs.AccountReading.{input_forms, groups_forms, output_forms, forms_of, end_in};

use crate::setup::take_numbered;
use crate::words::{Words, is_end, take_either, take_number, take_word};
use fixed_num::{OutOfMemory, Seq};
use journal_text::JournalSetup;
use std::alloc::Global;

/// A line of an account.
#[derive(Clone, Copy, Debug, PartialEq, Eq)]
pub(crate) enum Form {
    /// The line of the input of a number.
    Input(u64),
    /// The line of the groups of the input of a number.
    Groups(u64),
    /// The line of the items.
    Items,
    /// The line of the output of a number.
    Output(u64),
}

/// What an input's line counts.
static INPUT_LABELS: [&str; 5] = ["pieces", "refused", "passed", "filtered", "gathered"];

/// What the line of an input's groups counts.
static GROUPS_LABELS: [&str; 3] = ["delivered", "rejected", "undelivered"];

/// What the line of the items counts.
static ITEMS_LABELS: [&str; 3] = ["made", "removed", "routed"];

/// What an output's line counts.
static OUTPUT_LABELS: [&str; 6] = [
    "filtered", "late", "consumed", "written", "buffered", "dropped",
];

/// Takes a label and a number, and says whether they stood first.
#[tactic(auto, unfolding(crate::specs::AccountReading::behind_count))]
fn take_count(words: &mut Words<'_>, label: &str) -> bool
    ensures { behind_count label.now words.old ≡ (if result then Some words.new else None) }
{
    if !take_word(words, label) {
        return false;
    }
    match take_number(words) {
        Some(_count) => true,
        None => false,
    }
}

/// Takes labels, each with a number, and says whether they stood first.
fn take_counts(words: &mut Words<'_>, labels: &[&str]) -> bool
    ensures { behind_counts (map (λ label. label.now) labels.now) words.old
        ≡ (if result then Some words.new else None) }
{
    for label in labels {
        if !take_count(words, label) {
            return false;
        }
    }
    true
}

/// Whether the words are a name and a number, labels, each with a number, and `ended` or `unread`.
#[tactic(auto, unfolding(crate::specs::AccountReading::ended_counts))]
fn are_ended_counts(name: &str, index: u64, labels: &[&str], words: &mut Words<'_>) -> bool
    ensures { result ≡ is_some (ended_counts name.now index (map (λ label. label.now) labels.now) words.old) }
{
    if !take_numbered(words, name, index) {
        return false;
    }
    if !take_counts(words, labels) {
        return false;
    }
    if take_either(words, "ended", "unread").is_none() {
        return false;
    }
    is_end(words)
}

/// Whether the words are a name and a number, and labels, each with a number.
#[tactic(auto, unfolding(crate::specs::AccountReading::line_counts))]
fn are_counts(name: &str, index: u64, labels: &[&str], words: &mut Words<'_>) -> bool
    ensures { result ≡ is_some (line_counts name.now index (map (λ label. label.now) labels.now) words.old) }
{
    if !take_numbered(words, name, index) {
        return false;
    }
    if !take_counts(words, labels) {
        return false;
    }
    is_end(words)
}

/// Whether the words are the line of the items.
#[tactic(auto, unfolding(crate::specs::AccountReading::items_counts))]
fn is_items(words: &mut Words<'_>) -> bool
    ensures { result ≡ is_some (items_counts words.old) }
{
    if !take_word(words, "items") {
        return false;
    }
    if !take_counts(words, &ITEMS_LABELS) {
        return false;
    }
    is_end(words)
}

/// Whether the words are a line of a form, with any numbers.
pub(crate) fn is_of(form: &Form, words: &mut Words<'_>) -> bool
    ensures { result ≡ is_some (counts_in form.now words.old) }
{
    match form {
        Form::Input(index) => are_ended_counts("input", *index, &INPUT_LABELS, words),
        Form::Groups(index) => are_counts("groups", *index, &GROUPS_LABELS, words),
        Form::Items => is_items(words),
        Form::Output(index) => are_counts("output", *index, &OUTPUT_LABELS, words),
    }
}

/// Puts the lines of inputs behind others.
fn add_inputs(
    alloc: Global,
    forms: &mut Seq<Form>,
    inputs: &[Option<u32>],
) -> Result<(), OutOfMemory>
    ensures { OnOk result (forms.new ≡ forms.old ++ input_forms 0 inputs.now) }
{
    for index in 0..inputs.len() {
        forms.push(alloc, Form::Input(index as u64))?;
    }
    Ok(())
}

/// Puts the lines of the groups of those inputs that are tracked behind others.
fn add_groups(
    alloc: Global,
    forms: &mut Seq<Form>,
    inputs: &[Option<u32>],
) -> Result<(), OutOfMemory>
    ensures { OnOk result (forms.new ≡ forms.old ++ groups_forms 0 inputs.now) }
{
    for (index, most) in inputs.iter().enumerate() {
        if most.is_some() {
            forms.push(alloc, Form::Groups(index as u64))?;
        }
    }
    Ok(())
}

/// Puts the lines of outputs behind others.
fn add_outputs(
    alloc: Global,
    forms: &mut Seq<Form>,
    outputs: &[(u32, u32)],
) -> Result<(), OutOfMemory>
    ensures { OnOk result (forms.new ≡ forms.old ++ output_forms 0 outputs.now) }
{
    for index in 0..outputs.len() {
        forms.push(alloc, Form::Output(index as u64))?;
    }
    Ok(())
}

/// The lines of an account of a set-up, in order.
#[tactic(auto, unfolding(crate::specs::AccountReading::forms_of))]
pub(crate) fn forms_of(alloc: Global, setup: &JournalSetup) -> Result<Seq<Form>, OutOfMemory>
    ensures { IfOk result (λ forms. forms ≡ forms_of setup.now) }
{
    let mut forms = Seq::of(Vec::new(alloc));
    add_inputs(alloc, &mut forms, setup.inputs.as_slice())?;
    add_groups(alloc, &mut forms, setup.inputs.as_slice())?;
    forms.push(alloc, Form::Items)?;
    add_outputs(alloc, &mut forms, setup.outputs.as_slice())?;
    Ok(forms)
}

/// `end N`, where there are so many entries.
#[tactic(auto, unfolding(crate::specs::AccountReading::end_in))]
pub(crate) fn is_end_of(entries: u64, words: &mut Words<'_>) -> bool
    ensures { result ≡ is_some (end_in entries words.old) }
{
    if !take_numbered(words, "end", entries) {
        return false;
    }
    is_end(words)
}
