//! Processors in order.
use crate::pieces::{cut, put, setting};
use crate::processors::{glob_of, rename_of, targets_of};
use crate::written::metrics_of;
use fixed_num::Seq;
use line_proto::write_line;
use metric::{Glob, Part};
use metric_filter::{Filter, FilterRules};
use proc_chain::{Chain, Step, StepWork};
use proc_edit::{Convert, ConvertRules};
use proc_regex::Rewrite;
use scenario_tables::Row;
use std::alloc::Global;
use std::test::Fail;
use text_buffer::TextBuffer;

/// The filter that lets names pass by some globs, and excludes fields by others.
fn filter_by(alloc: Global, namepass: Vec<Glob>, fieldexclude: Vec<Glob>) -> Filter {
    Filter::new(
        alloc,
        FilterRules {
            namepass: Seq::of(namepass),
            namedrop: Seq::of(Vec::new(alloc)),
            fieldinclude: Seq::of(Vec::new(alloc)),
            fieldexclude: Seq::of(fieldexclude),
            taginclude: Seq::of(Vec::new(alloc)),
            tagexclude: Seq::of(Vec::new(alloc)),
            tagpass: Seq::of(Vec::new(alloc)),
            tagdrop: Seq::of(Vec::new(alloc)),
        },
    )
}

/// The filter of words `namepass GLOB` or `fieldexclude GLOB`; the one without rules where there are none.
fn filter_of(alloc: Global, words: &str) -> Result<Filter, Fail> {
    if words.is_empty() {
        return Ok(Filter::without_rules(alloc));
    }
    let (key, glob) = cut(words, " ")?;
    let mut globs = Vec::new(alloc);
    globs.push(glob_of(alloc, glob)?)?;
    match key {
        "namepass" => Ok(filter_by(alloc, globs, Vec::new(alloc))),
        "fieldexclude" => Ok(filter_by(alloc, Vec::new(alloc), globs)),
        _ => Err(Fail::new(format_args!("no filter: {key}"))),
    }
}

/// The conversion of tags that words `TARGET GLOB` say.
fn convert_of(alloc: Global, words: &str) -> Result<Convert, Fail> {
    let tags = targets_of(alloc, words)?;
    let fields = Seq::of(Vec::new(alloc));
    Ok(Convert::new(alloc, ConvertRules { tags, fields }))
}

/// The rewriting of a tag that words `KEY PATTERN REPLACEMENT` say.
fn rewrites_of(alloc: Global, words: &str) -> Result<Seq<Rewrite>, Fail> {
    let (key, words) = cut(words, " ")?;
    let (pattern, replacement) = cut(words, " ")?;
    if key.is_empty() {
        return Err(Fail::new("no key"));
    }
    let mut rewrites = Vec::new(alloc);
    match Rewrite::new(alloc, Part::Tag, key, pattern, replacement, "") {
        Ok(rewrite) => rewrites.push(rewrite)?,
        Err(fault) => return Err(Fail::new(format_args!("{fault}: {pattern}"))),
    }
    Ok(Seq::of(rewrites))
}

/// The work of a kind with its words.
fn work_of(alloc: Global, kind: &str, words: &str) -> Result<StepWork, Fail> {
    match kind {
        "rename" => Ok(StepWork::Rename(rename_of(alloc, words)?)),
        "convert" => Ok(StepWork::Convert(convert_of(alloc, words)?)),
        "dedup" => Ok(StepWork::Dedup(words.parse()?)),
        "regex" => Ok(StepWork::Regex(rewrites_of(alloc, words)?)),
        _ => Err(Fail::new(format_args!("no processor: {kind}"))),
    }
}

/// The step of a line `KIND WORDS`, or `KIND WORDS where FILTER GLOB`.
fn step_of(alloc: Global, line: &str) -> Result<Step, Fail> {
    let (line, filter) = line.split_once(" where ").unwrap_or((line, ""));
    let (kind, words) = cut(line, " ")?;
    let filter = filter_of(alloc, filter)?;
    let work = work_of(alloc, kind, words)?;
    Ok(Step { filter, work })
}

/// The steps of lines.
fn steps_of(alloc: Global, lines: &str) -> Result<Vec<Step>, Fail> {
    let mut steps = Vec::new(alloc);
    for line in lines.lines() {
        steps.push(step_of(alloc, line)?)?;
    }
    Ok(steps)
}

/// Appends the result of each metric that is pushed to the row's steps, one after the other: its line, or that it is
/// removed.
pub fn append_chained(
    alloc: Global,
    row: &Row,
    lines: &str,
    out: &mut TextBuffer,
) -> Result<(), Fail> {
    let steps = steps_of(alloc, setting(alloc, row, "steps")?.as_str())?;
    let mut chain = Chain::new(alloc, steps.as_slice())?;
    for metric in &metrics_of(alloc, lines)? {
        match chain.push(metric.copy()?)? {
            Some(kept) => write_line(alloc, kept.metric(), out)?,
            None => put(out, "removed\n")?,
        }
    }
    Ok(())
}
