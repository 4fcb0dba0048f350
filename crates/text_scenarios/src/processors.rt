//! Processors that edit metrics, or remove them.
ghost use Rattle.std.specs.Prelude.{◌≡◌, true};
ghost use Rattle.proc_regex.specs.Rewrite.{has_keys};

use crate::pieces::{cut, put, setting};
use crate::written::metrics_of;
use fixed_num::Seq;
use line_proto::write_line;
use metric::{Glob, Metric, Part, Text};
use proc_dedup::Dedup;
use proc_edit::{Convert, ConvertRules, Rename, RenameRule, Target, have_dests};
use proc_regex::{Rewrite, is_pattern};
use scenario_tables::Row;
use std::alloc::Global;
use std::test::Fail;
use text_buffer::TextBuffer;

/// The part of a metric that a word says.
pub fn part_of(word: &str) -> Result<Part, Fail> {
    match word {
        "name" => Ok(Part::Measurement),
        "tag" => Ok(Part::Tag),
        "field" => Ok(Part::Field),
        _ => Err(Fail::new(format_args!("no part: {word}"))),
    }
}

/// The rule of a line `PART FROM=DEST`.
fn rule_of(alloc: Global, line: &str) -> Result<RenameRule, Fail> {
    let (part, names) = cut(line, " ")?;
    let (from, dest) = cut(names, "=")?;
    let part = part_of(part)?;
    let from = Text::of(alloc, from)?;
    let dest = Text::of(alloc, dest)?;
    Ok(RenameRule { part, from, dest })
}

/// The rules of lines.
fn rules_of(alloc: Global, lines: &str) -> Result<Vec<RenameRule>, Fail> {
    let mut rules = Vec::new(alloc);
    for line in lines.lines() {
        rules.push(rule_of(alloc, line)?)?;
    }
    Ok(rules)
}

/// The renaming by the rules of lines.
pub fn rename_of(alloc: Global, lines: &str) -> Result<Rename, Fail> {
    let rules = rules_of(alloc, lines)?;
    if !have_dests(rules.as_slice()) {
        return Err(Fail::new("a rule without a new name"));
    }
    Ok(Rename::new(alloc, rules))
}

/// Appends the lines of metrics whose parts are renamed by the row's rules.
pub fn append_renamed(
    alloc: Global,
    row: &Row,
    lines: &str,
    out: &mut TextBuffer,
) -> Result<(), Fail> {
    let rename = rename_of(alloc, setting(alloc, row, "rules")?.as_str())?;
    for metric in &metrics_of(alloc, lines)? {
        write_line(alloc, &rename.apply(metric.copy()?)?, out)?;
    }
    Ok(())
}

/// The target of a word.
fn target_of(word: &str) -> Result<Target, Fail> {
    match word {
        "tag" => Ok(Target::Tag),
        "string" => Ok(Target::Text),
        "integer" => Ok(Target::Int),
        "unsigned" => Ok(Target::Uint),
        "boolean" => Ok(Target::Bool),
        "float" => Ok(Target::Fixed),
        _ => Err(Fail::new(format_args!("no target: {word}"))),
    }
}

/// The glob that a text spells.
pub fn glob_of(alloc: Global, glob: &str) -> Result<Glob, Fail> {
    match Glob::read(alloc, glob) {
        Ok(glob) => Ok(glob),
        Err(fault) => Err(Fail::new(format_args!("{fault:?}: {glob}"))),
    }
}

/// The target and the glob of a line `TARGET GLOB`.
fn target_rule(alloc: Global, line: &str) -> Result<(Target, Glob), Fail> {
    let (word, glob) = cut(line, " ")?;
    let target = target_of(word)?;
    let glob = glob_of(alloc, glob)?;
    Ok((target, glob))
}

/// The targets and globs of lines.
pub fn targets_of(alloc: Global, lines: &str) -> Result<Seq<(Target, Glob)>, Fail> {
    let mut targets = Vec::new(alloc);
    for line in lines.lines() {
        targets.push(target_rule(alloc, line)?)?;
    }
    Ok(Seq::of(targets))
}

/// Appends the lines of metrics whose tags and fields are converted by the row's rules.
pub fn append_converted(
    alloc: Global,
    row: &Row,
    lines: &str,
    out: &mut TextBuffer,
) -> Result<(), Fail> {
    let tags = targets_of(alloc, setting(alloc, row, "tags")?.as_str())?;
    let fields = targets_of(alloc, setting(alloc, row, "fields")?.as_str())?;
    let convert = Convert::new(alloc, ConvertRules { tags, fields });
    for metric in &metrics_of(alloc, lines)? {
        write_line(alloc, &convert.apply(metric.copy()?)?, out)?;
    }
    Ok(())
}

/// Appends what is left of metrics that come one after the other: the line of each, or that it is removed.
pub fn append_deduplicated(
    alloc: Global,
    row: &Row,
    lines: &str,
    out: &mut TextBuffer,
) -> Result<(), Fail> {
    let interval = row.part("interval").map_or("0", |part| part.value);
    let mut dedup = Dedup::new(alloc, interval.parse()?);
    for metric in &metrics_of(alloc, lines)? {
        match dedup.apply(metric.copy()?)? {
            Some(left) => write_line(alloc, &left, out)?,
            None => put(out, "removed\n")?,
        }
    }
    Ok(())
}

/// A metric rewritten.
fn rewritten(alloc: Global, rewrite: &Rewrite, metric: &Metric) -> Result<Metric, Fail> {
    let mut matcher = rewrite.matcher(alloc)?;
    Ok(rewrite.apply(&mut matcher, metric.copy()?)?)
}

/// Appends the lines of metrics that are rewritten by the row's pattern, replacement and result key, at the tag or the
/// text field of a key; or why there is no such rewriting.
fn append_by_pattern(
    alloc: Global,
    row: &Row,
    part: Part,
    lines: &str,
    out: &mut TextBuffer,
) -> Result<(), Fail>
    requires { has_keys part ≡ true }
{
    let key = row.value("key");
    if key.is_empty() {
        return Err(Fail::new("no key"));
    }
    let (pattern, replacement) = (row.value("pattern"), row.value("replacement"));
    let result_key = row.value("result_key");
    match Rewrite::new(alloc, part, key, pattern, replacement, result_key) {
        Ok(rewrite) => {
            for metric in &metrics_of(alloc, lines)? {
                write_line(alloc, &rewritten(alloc, &rewrite, metric)?, out)?;
            }
            Ok(())
        }
        Err(fault) => put(out, format_args!("{fault:?}: {fault}\n")),
    }
}

/// Appends the lines of metrics whose tag or text field is rewritten, as the row says.
pub fn append_rewritten(
    alloc: Global,
    row: &Row,
    lines: &str,
    out: &mut TextBuffer,
) -> Result<(), Fail> {
    match row.value("part") {
        "tag" => append_by_pattern(alloc, row, Part::Tag, lines, out),
        "field" => append_by_pattern(alloc, row, Part::Field, lines, out),
        word => Err(Fail::new(format_args!("no part with keys: {word}"))),
    }
}

/// Appends whether a text is a pattern.
pub fn append_pattern(alloc: Global, text: &str, out: &mut TextBuffer) -> Result<(), Fail> {
    if is_pattern(alloc, text)? {
        put(out, "a pattern\n")
    } else {
        put(out, "no pattern\n")
    }
}
