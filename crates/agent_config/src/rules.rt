//! What the tables of a processor say: what is converted, rewritten and renamed.
ghost use Rattle.std.specs.Prelude.{◌≡◌, ◌==◌, ◌++◌, true, not, All, IfOk, List, codes, length, map};
ghost use Rattle.toml.specs.Data.{no_members};
ghost use Rattle.toml.specs.View.{table_view, view};
ghost use Rattle.proc_edit.specs.Rename.{HasDest};
ghost use Rattle.proc_regex.specs.Rewrite.{has_keys};
ghost use Rattle.agent_config.specs.Faults.{texts_in};
ghost use Rattle.agent_config.specs.Filters.{globs_in};
ghost use Rattle.agent_config.specs.Seen.{tables_view};
ghost use Rattle.agent_config.specs.Steps.{convert_rules, inner_tables, inner_text, is_rule, replacement_of};
ghost use Rattle.agent_config.specs.Steps.{replacements_of, rewrite_rules, rule_of, rules_of, source_key};
ghost use Rattle.agent_config.specs.Steps.{source_of, target_of, targets_by, targets_of};
ghost use Rattle.agent_config.specs.Unless.{unless};
ghost use Rattle.metric.specs.declared.glob.Element.{Element};

use crate::filters::add_globs_in;
use crate::lists::tables_in;
use crate::rows::text_or;
use crate::tables::{table_at, value_at};
use fixed_num::{OutOfMemory, Seq};
use metric::{Glob, Part, Text};
use proc_edit::{ConvertRules, RenameRule, Target};
use proc_regex::{PatternFault, Rewrite};
use std::alloc::Global;
use toml::{Table, Value};

/// The text at a key of a table; no text where none is said.
fn inner_text<'a>(table: &'a Table, key: &str) -> &'a str
    ensures { result.now ≡ inner_text key.now (table_view table.now) }
{
    text_or(table, key, "")
}

/// The tables in the list at a key; another value has none.
#[tactic(auto, unfolding(crate::specs::Steps::inner_tables))]
fn inner_tables<'a>(
    alloc: Global,
    table: &'a Table,
    key: &str,
) -> Result<Vec<&'a Table>, OutOfMemory>
    ensures { IfOk result (λ tables. tables_view tables.items ≡ inner_tables key.now (table_view table.now)) }
{
    let Some(value) = value_at(table, key) else {
        return Ok(Vec::new(alloc));
    };
    match tables_in(alloc, value)? {
        Some(tables) => Ok(tables),
        None => Ok(Vec::new(alloc)),
    }
}

/// What a processor converts.
#[tactic(auto, unfolding(crate::specs::Steps::convert_rules))]
pub(crate) fn convert_rules<'a>(
    alloc: Global,
    table: &'a Table,
    empty: &'a Table,
) -> Result<ConvertRules, OutOfMemory>
    requires { table_view empty.now ≡ no_members }
    ensures { IfOk result (λ rules. rules ≡ convert_rules (table_view table.now)) }
{
    Ok(ConvertRules {
        tags: targets_of(alloc, table_at(table, "tags", empty))?,
        fields: targets_of(alloc, table_at(table, "fields", empty))?,
    })
}

/// The type that a key names.
fn target_of(name: &str) -> Option<Target>
    ensures { result ≡ target_of name.now }
{
    match name {
        "string" => Some(Target::Text),
        "integer" => Some(Target::Int),
        "unsigned" => Some(Target::Uint),
        "boolean" => Some(Target::Bool),
        "float" => Some(Target::Fixed),
        "tag" => Some(Target::Tag),
        _ => None,
    }
}

/// The rules of a table, in the order of its keys.
fn targets_of(alloc: Global, table: &Table) -> Result<Seq<(Target, Glob)>, OutOfMemory>
    ensures { IfOk result (λ rules. rules ≡ targets_of (table_view table.now)) }
{
    let mut rules = Vec::new(alloc);
    for (name, value) in table.iter() {
        add_targets(alloc, &mut rules, target_of(name.as_str()), value)?;
    }
    Ok(Seq::of(rules))
}

/// Adds a rule for each glob of a value.
fn add_targets(
    alloc: Global,
    rules: &mut Vec<(Target, Glob)>,
    target: Option<Target>,
    value: &Value,
) -> Result<(), OutOfMemory>
    ensures { IfOk result (λ _. rules.new.items
        ≡ rules.old.items ++ targets_by target (globs_in (texts_in (view value.now)))) }
{
    let Some(target) = target else {
        return Ok(());
    };
    let mut globs = Vec::new(alloc);
    add_globs_in(alloc, &mut globs, value)?;
    add_each_target(rules, target, globs)
}

/// Adds a rule for each glob.
fn add_each_target(
    rules: &mut Vec<(Target, Glob)>,
    target: Target,
    globs: Vec<Glob>,
) -> Result<(), OutOfMemory>
    ensures { IfOk result (λ _. rules.new.items
        ≡ rules.old.items ++ map (λ (glob : List Element). (target, glob)) globs.items) }
{
    for glob in globs {
        rules.push((target, glob))?;
    }
    Ok(())
}

/// By what a processor rewrites: its rules for tags, then those for fields.
#[tactic(auto, unfolding(crate::specs::Steps::rewrite_rules))]
pub(crate) fn rewrite_rules(alloc: Global, table: &Table) -> Result<Seq<Rewrite>, OutOfMemory>
    ensures { IfOk result (λ rules. rules ≡ rewrite_rules (table_view table.now)) }
{
    let mut rules = Vec::new(alloc);
    let of_tags = inner_tables(alloc, table, "tags")?;
    add_rules(alloc, &mut rules, Part::Tag, of_tags.as_slice())?;
    let of_fields = inner_tables(alloc, table, "fields")?;
    add_rules(alloc, &mut rules, Part::Field, of_fields.as_slice())?;
    Ok(Seq::of(rules))
}

/// Adds the rules of tables, in order.
fn add_rules(
    alloc: Global,
    rules: &mut Vec<Rewrite>,
    part: Part,
    tables: &[&Table],
) -> Result<(), OutOfMemory>
    requires { has_keys part ≡ true }
    ensures { IfOk result (λ _. rules.new.items ≡ rules.old.items ++ rules_of part (tables_view tables.now)) }
{
    for table in tables {
        add_rule(alloc, rules, part, table)?;
    }
    Ok(())
}

/// Adds the rule of a table, where it has a key to look at and a pattern.
fn add_rule(
    alloc: Global,
    rules: &mut Vec<Rewrite>,
    part: Part,
    table: &Table,
) -> Result<(), OutOfMemory>
    requires { has_keys part ≡ true }
    ensures { IfOk result (λ _. rules.new.items ≡ rules.old.items
        ++ unless (not (is_rule (table_view table.now))) (rule_of part (table_view table.now))) }
{
    let key = inner_text(table, "key");
    if key.is_empty() {
        return Ok(());
    }
    let pattern = inner_text(table, "pattern");
    let replacement = inner_text(table, "replacement");
    let result_key = inner_text(table, "result_key");
    match Rewrite::new(alloc, part, key, pattern, replacement, result_key) {
        Ok(rule) => Ok(rules.push(rule)?),
        Err(PatternFault::BadPattern) => Ok(()),
        Err(PatternFault::OutOfMemory) => Err(OutOfMemory),
    }
}

/// What a processor renames.
pub(crate) fn replacements(alloc: Global, table: &Table) -> Result<Vec<RenameRule>, OutOfMemory>
    ensures rules { IfOk result (λ rules. rules.items
        ≡ replacements_of (inner_tables (codes "replace") (table_view table.now))) }
    ensures dests { IfOk result (λ rules. All HasDest rules.items) }
{
    let tables = inner_tables(alloc, table, "replace")?;
    let rules = replacements_of(alloc, tables.as_slice())?;
    Ok(rules)
}

/// The rules of tables, in order.
fn replacements_of(alloc: Global, tables: &[&Table]) -> Result<Vec<RenameRule>, OutOfMemory>
    ensures { IfOk result (λ rules. rules.items ≡ replacements_of (tables_view tables.now)) }
{
    let mut rules = Vec::new(alloc);
    for table in tables {
        add_replacement(alloc, &mut rules, table)?;
    }
    Ok(rules)
}

/// Adds the rule of a table, where it has a name to rename to.
fn add_replacement(
    alloc: Global,
    rules: &mut Vec<RenameRule>,
    table: &Table,
) -> Result<(), OutOfMemory>
    ensures { IfOk result (λ _. rules.new.items ≡ rules.old.items
        ++ unless (length (inner_text (codes "dest") (table_view table.now)) == 0)
        (replacement_of (table_view table.now))) }
{
    let dest = inner_text(table, "dest");
    if dest.is_empty() {
        return Ok(());
    }
    let part = source_of(table);
    rules.push(RenameRule {
        part,
        from: Text::of(alloc, inner_text(table, source_key(part)))?,
        dest: Text::of(alloc, dest)?,
    })?;
    Ok(())
}

/// The part whose name a table has.
fn source_of(table: &Table) -> Part
    ensures { result ≡ source_of (table_view table.now) }
{
    if value_at(table, "measurement").is_some() {
        Part::Measurement
    } else if value_at(table, "tag").is_some() {
        Part::Tag
    } else {
        Part::Field
    }
}

/// The key at which the name of a part stands.
fn source_key(part: Part) -> &'static str
    ensures { result.now ≡ source_key part }
{
    match part {
        Part::Measurement => "measurement",
        Part::Tag => "tag",
        Part::Field => "field",
    }
}
