//! What people are told at the end of a run: what it refused, passed over, found late, dropped and left, and why it ended
//! so.
use crate::shown::{Excerpt, Shown};
use crate::status::Status;
use agent_config::{Config, OutputConf};
use agent_workers::{Ending, InputEnd, Limit};
use formats::{Refusal, Refused};
use std::alloc::{AllocError, Global};

/// What is told of a run that failed, beside what is told of its inputs and outputs.
const REPORT_FAULT: &str = "the journal or the report could not be written whole";

/// A number as people read it: with a comma before each three digits.
fn grouped(alloc: Global, number: u64) -> Result<String, AllocError> {
    let digits = format!(in alloc; "{number}")?;
    let mut text = String::new(alloc);
    let mut left = digits.len();
    for digit in digits.as_str().chars() {
        text.push(digit)?;
        left = left.saturating_sub(1);
        if left != 0 && left % 3 == 0 {
            text.push(',')?;
        }
    }
    Ok(text)
}

/// The number behind a word in a line of the account; 0 where there is none.
fn number_behind(line: &str, word: &str) -> u64 {
    let mut words = line.split(' ');
    if words.find(|it| *it == word).is_none() {
        return 0;
    }
    words.next().unwrap_or("").parse::<u64>().unwrap_or(0)
}

/// Whether an exposition was refused for a number out of range, which can be passed over.
fn is_out_of_range(why: Refusal) -> bool {
    match why {
        Refusal::Openmetrics(_) => why.kind() == "NumberRange",
        _ => false,
    }
}

/// Appends where a piece that was refused is at fault, and why.
fn append_fault(alloc: Global, refused: &Refused, line: &mut String) -> Result<(), AllocError> {
    let piece = grouped(alloc, refused.piece)?;
    line.push_str(format!(in alloc; "; the first, piece {piece}")?.as_str())?;
    if let Some(number) = refused.line {
        let number = grouped(alloc, u64::from(number))?;
        line.push_str(format!(in alloc; ", line {number}")?.as_str())?;
    }
    let Some(why) = refused.why else {
        return Ok(());
    };
    if let Some(offset) = why.offset() {
        let offset = grouped(alloc, offset as u64)?;
        line.push_str(format!(in alloc; ", at byte {offset}")?.as_str())?;
    }
    line.push_str(format!(in alloc; ": {}", why.kind())?.as_str())?;
    if let Some(excerpt) = &refused.excerpt {
        line.push_str(format!(in alloc; ": {}", Excerpt(excerpt.as_slice()))?.as_str())?;
    }
    if is_out_of_range(why) {
        line.push_str("; pass_out_of_range = true passes such samples over")?;
    }
    Ok(())
}

/// Why an input was read no more before its end; None where it was read to its end.
fn stop_of(end: &InputEnd) -> Option<&'static str> {
    match end.limit {
        Some(Limit::Bytes) => Some(
            "1,099,511,627,776 bytes of it were taken, the most of an input; it was not read to its end",
        ),
        Some(Limit::Metrics) => Some(
            "with its next gather the run would have 4,294,967,296 metrics, or more; \
            it was not read to its end",
        ),
        None if end.is_faulted && end.is_held => Some(
            "a read failed; what was read just before was not gathered, as max_undelivered_messages of its groups were \
            undelivered",
        ),
        None if end.is_faulted => Some(
            "a read failed; what was read before was sent, buffered or dropped, as the account says",
        ),
        None if end.is_held => Some(
            "max_undelivered_messages of its groups were undelivered to the end, so no more was gathered; it was not read \
            to its end",
        ),
        None => None,
    }
}

/// What a line is about: an input, or an output.
#[derive(Clone, Copy)]
struct About<'a> {
    alloc: Global,
    /// Its number and its place, as each line begins with them.
    name: &'a str,
    /// What the account says of it.
    line: &'a str,
}

/// How many pieces of an input were refused, and the first of them; None where none was.
fn refused_line(about: About<'_>, first: Option<&Refused>) -> Result<Option<String>, AllocError> {
    let About { alloc, name, line } = about;
    let refused = number_behind(line, "refused");
    if refused == 0 {
        return Ok(None);
    }
    let pieces = grouped(alloc, number_behind(line, "pieces"))?;
    let refused = grouped(alloc, refused)?;
    let mut told = format!(in alloc; "{name}: {refused} of {pieces} pieces refused")?;
    if let Some(first) = first {
        append_fault(alloc, first, &mut told)?;
    }
    Ok(Some(told))
}

/// Why samples were passed over, of which so many were out of range.
fn why_passed(alloc: Global, passed: u64, out_of_range: u64) -> Result<String, AllocError> {
    if out_of_range == 0 {
        return String::from_str(alloc, "they have no finite value");
    }
    if out_of_range == passed {
        return String::from_str(alloc, "they are out of range");
    }
    let out_of_range = grouped(alloc, out_of_range)?;
    format!(in alloc; "they have no finite value, or ({out_of_range} of them) are out of range")
}

/// How many samples of an input were passed over, of which so many were out of range, and why; None where none was.
fn passed_line(about: About<'_>, out_of_range: u64) -> Result<Option<String>, AllocError> {
    let About { alloc, name, line } = about;
    let passed = number_behind(line, "passed");
    if passed == 0 {
        return Ok(None);
    }
    let samples = passed
        .saturating_add(number_behind(line, "filtered"))
        .saturating_add(number_behind(line, "gathered"));
    let why = why_passed(alloc, passed, out_of_range)?;
    let (passed, samples) = (grouped(alloc, passed)?, grouped(alloc, samples)?);
    let told = format!(in alloc; "{name}: {passed} of {samples} samples passed over, as {why}")?;
    Ok(Some(told))
}

/// Adds what is told of an input: why it was read no more, what of it was refused, and what was passed over.
fn add_input(
    about: About<'_>,
    end: Option<&InputEnd>,
    lines: &mut Vec<String>,
) -> Result<(), AllocError> {
    let About { alloc, name, .. } = about;
    if let Some(why) = end.and_then(stop_of) {
        lines.push(format!(in alloc; "{name}: {why}")?)?;
    }
    if let Some(refused) = refused_line(about, end.and_then(|it| it.first.as_ref()))? {
        lines.push(refused)?;
    }
    if let Some(passed) = passed_line(about, end.map_or(0, |it| it.out_of_range))? {
        lines.push(passed)?;
    }
    Ok(())
}

/// So many of a thing.
fn counted(alloc: Global, number: u64, one: &str, more: &str) -> Result<String, AllocError> {
    let count = grouped(alloc, number)?;
    let word = if number == 1 { one } else { more };
    format!(in alloc; "{count} {word}")
}

/// Adds how many metrics went to no output, since an aggregator that keeps what it takes saw them outside its window.
fn add_late(alloc: Global, line: &str, lines: &mut Vec<String>) -> Result<(), AllocError> {
    let late = number_behind(line, "late");
    if late == 0 {
        return Ok(());
    }
    let metrics = counted(alloc, late, "metric", "metrics")?;
    lines.push(format!(in alloc;
        "{metrics} late, and sent to no output: outside the open window of an aggregator with drop_original"
    )?)?;
    Ok(())
}

/// Adds what is told of an output: what was dropped there, and what is left.
fn add_output(
    about: About<'_>,
    conf: &OutputConf,
    tries: u32,
    lines: &mut Vec<String>,
) -> Result<(), AllocError> {
    let About { alloc, name, line } = about;
    let dropped = number_behind(line, "dropped");
    if dropped != 0 {
        let (metrics, limit) = (counted(alloc, dropped, "metric", "metrics")?, conf.limit);
        lines.push(format!(in alloc;
            "{name}: {metrics} dropped, above its metric_buffer_limit of {limit}"
        )?)?;
    }
    let left = number_behind(line, "buffered");
    if left != 0 {
        let metrics = counted(alloc, left, "metric", "metrics")?;
        let tries = counted(alloc, u64::from(tries), "failed try", "failed tries")?;
        lines.push(format!(in alloc; "{name}: {metrics} left after {tries}")?)?;
    }
    Ok(())
}

/// Adds what is told of the input or the output that a line of the account is about.
fn add_part(
    alloc: Global,
    config: &Config,
    ending: &Ending,
    line: &str,
    lines: &mut Vec<String>,
) -> Result<(), AllocError> {
    let mut words = line.split(' ');
    let (side, number) = (words.next().unwrap_or(""), words.next().unwrap_or(""));
    let Ok(index) = number.parse::<usize>() else {
        return Ok(());
    };
    if side == "input" {
        if let Some(conf) = config.inputs.as_slice().get(index) {
            let name = format!(in alloc; "input {index} ({})", Shown(conf.place.as_str()))?;
            let name = name.as_str();
            add_input(About { alloc, name, line }, ending.inputs.get(index), lines)?;
        }
    }
    if side == "output" {
        // What is late is so at every output.
        if index == 0 {
            add_late(alloc, line, lines)?;
        }
        if let Some(conf) = config.outputs.as_slice().get(index) {
            let name = format!(in alloc; "output {index} ({})", Shown(conf.place.as_str()))?;
            let name = name.as_str();
            add_output(
                About { alloc, name, line },
                conf,
                config.agent.final_tries,
                lines,
            )?;
        }
    }
    Ok(())
}

/// Adds all that is told of a run that ended with a status.
fn add_lines(
    alloc: Global,
    config: &Config,
    ending: &Ending,
    status: Status,
    lines: &mut Vec<String>,
) -> Result<(), AllocError> {
    if let Ok(account) = str::from_utf8(&ending.account) {
        for line in account.lines() {
            add_part(alloc, config, ending, line, lines)?;
        }
    }
    if ending.journal_fault || status == Status::ReportFault {
        lines.push(String::from_str(alloc, REPORT_FAULT)?)?;
    }
    Ok(())
}

/// What people are told of a run that ended with a status, line by line; the first of them where no memory was
/// left for all.
pub(crate) fn lines_of(
    alloc: Global,
    config: &Config,
    ending: &Ending,
    status: Status,
) -> Vec<String> {
    let mut lines = Vec::new(alloc);
    let _ = add_lines(alloc, config, ending, status, &mut lines);
    lines
}
