//! The templates that texts spell.
ghost use Rattle.std.specs.Prelude.{◌≡◌, ◌++◌, IfOk, option_to_list};
ghost use Rattle.toml.specs.View.{table_view, view};
ghost use Rattle.agent_config.specs.Faults.{template_in, texts_in};
ghost use Rattle.agent_config.specs.Seen.{now_of};
ghost use Rattle.agent_config.specs.Values.{templates_at, templates_in, templates_of};

use crate::lists::texts_in;
use crate::tables::value_at;
use fixed_num::{OutOfMemory, Seq};
use format_words::{Template, TemplateFault};
use std::alloc::Global;
use toml::{Table, Value};

/// The template that a text spells; None where it spells none.
#[tactic(auto, unfolding(crate::specs::Faults::template_in))]
pub(crate) fn read_template(alloc: Global, text: &str) -> Result<Option<Template>, OutOfMemory>
    ensures { IfOk result (λ template. template ≡ template_in text.now) }
{
    match Template::read(alloc, text) {
        Ok(template) => Ok(Some(template)),
        Err(TemplateFault::BadTemplate) => Ok(None),
        Err(TemplateFault::OutOfMemory) => Err(OutOfMemory),
    }
}

/// The templates of an input, in order.
#[tactic(auto, unfolding(crate::specs::Values::templates_at))]
pub(crate) fn templates_at(alloc: Global, table: &Table) -> Result<Seq<Template>, OutOfMemory>
    ensures { IfOk result (λ templates. templates ≡ templates_at (table_view table.now)) }
{
    match value_at(table, "templates") {
        Some(value) => templates_in(alloc, value),
        None => Ok(Seq::of(Vec::new(alloc))),
    }
}

/// The templates of a value.
fn templates_in(alloc: Global, value: &Value) -> Result<Seq<Template>, OutOfMemory>
    ensures { IfOk result (λ templates. templates ≡ templates_in (texts_in (view value.now))) }
{
    match texts_in(alloc, value)? {
        Some(texts) => templates_of(alloc, texts.as_slice()),
        None => Ok(Seq::of(Vec::new(alloc))),
    }
}

/// The templates that texts spell, in order.
fn templates_of(alloc: Global, texts: &[&str]) -> Result<Seq<Template>, OutOfMemory>
    ensures { IfOk result (λ templates. templates ≡ templates_of (now_of texts.now)) }
{
    let mut templates = Vec::new(alloc);
    for text in texts {
        add_template(alloc, &mut templates, text)?;
    }
    Ok(Seq::of(templates))
}

/// Adds the template that a text spells, if it spells one.
fn add_template(alloc: Global, templates: &mut Vec<Template>, text: &str) -> Result<(), OutOfMemory>
    ensures { IfOk result (λ _. templates.new.items
        ≡ templates.old.items ++ option_to_list (template_in text.now)) }
{
    match read_template(alloc, text)? {
        Some(template) => Ok(templates.push(template)?),
        None => Ok(()),
    }
}
