//! What configurations say.
use crate::pieces::{put, setting};
use agent_config::{AgentConf, AggConf, Config, ConfigFault, InputConf, OutputConf, read_config};
use format_words::{InFormat, OutFormat};
use proc_chain::StepWork;
use scenario_tables::Row;
use std::alloc::Global;
use std::test::Fail;
use text_buffer::TextBuffer;

/// The configuration of a row.
pub fn config_of(alloc: Global, row: &Row) -> Result<Config, Fail> {
    let text = setting(alloc, row, "configuration")?;
    match read_config(alloc, text.as_bytes()) {
        Ok(config) => Ok(config),
        Err(_) => Err(Fail::new("the configuration has a fault")),
    }
}

/// Appends the first fault of a configuration.
fn append_first(fault: &ConfigFault, out: &mut TextBuffer) -> Result<(), Fail> {
    let (kind, class, number) = (fault.kind, fault.class, fault.number);
    put(out, format_args!("{kind:?} {class:?} {number}\n"))
}

/// Appends the values of a configuration, or its first fault.
pub fn append_configuration(alloc: Global, text: &[u8], out: &mut TextBuffer) -> Result<(), Fail> {
    match read_config(alloc, text) {
        Ok(config) => append_values(&config, out),
        Err(fault) => append_first(&fault, out),
    }
}

/// Appends the nanoseconds between two flushes, or the first fault.
pub fn append_interval(alloc: Global, text: &[u8], out: &mut TextBuffer) -> Result<(), Fail> {
    match read_config(alloc, text) {
        Ok(config) => put(out, format_args!("{}\n", config.agent.flush_interval)),
        Err(fault) => append_first(&fault, out),
    }
}

/// Appends the values of a configuration, with a line for the agent, each global tag, each input, each step, each aggregator
/// and each output.
fn append_values(config: &Config, out: &mut TextBuffer) -> Result<(), Fail> {
    append_agent(&config.agent, out)?;
    for (key, value) in config.globals.as_slice() {
        put(
            out,
            format_args!("global tag {}={}\n", key.as_str(), value.as_str()),
        )?;
    }
    for input in config.inputs.as_slice() {
        append_input(input, out)?;
    }
    for step in config.steps.as_slice() {
        append_step(&step.work, out)?;
    }
    for agg in config.aggs.as_slice() {
        append_aggregator(agg, out)?;
    }
    for output in config.outputs.as_slice() {
        append_output(output, out)?;
    }
    Ok(())
}

/// Appends what holds for the whole run.
fn append_agent(agent: &AgentConf, out: &mut TextBuffer) -> Result<(), Fail> {
    put(
        out,
        format_args!("agent: gather_pieces {}, ", agent.gather_pieces),
    )?;
    put(out, format_args!("final_tries {}, ", agent.final_tries))?;
    put(
        out,
        format_args!("flush_interval {}, ", agent.flush_interval),
    )?;
    put(out, format_args!("workers {}, ", agent.workers))?;
    put(out, format_args!("journal {}\n", agent.journal.as_str()))
}

/// Appends what an input is, with its format; that it is tracked, where it is.
fn append_input(input: &InputConf, out: &mut TextBuffer) -> Result<(), Fail> {
    let (place, groups) = (input.place.as_str(), input.max_undelivered);
    let tracked = if input.tracked { "tracked, " } else { "" };
    put(
        out,
        format_args!("input {place}: {tracked}max_undelivered {groups}, "),
    )?;
    match &input.format {
        InFormat::Influx => put(out, "influx\n"),
        InFormat::Statsd => put(out, "statsd\n"),
        InFormat::Graphite {
            templates,
            separator,
        } => {
            let (count, separator) = (templates.as_slice().len(), separator.as_str());
            put(
                out,
                format_args!("graphite, templates {count}, separator '{separator}'\n"),
            )
        }
        InFormat::Openmetrics {
            type_tag,
            pass_out_of_range,
        } => put(
            out,
            format_args!(
                "openmetrics, type_tag {type_tag}, pass_out_of_range {pass_out_of_range}\n"
            ),
        ),
    }
}

/// Appends what a step does.
fn append_step(work: &StepWork, out: &mut TextBuffer) -> Result<(), Fail> {
    match work {
        StepWork::Rename(_) => put(out, "step rename\n"),
        StepWork::Convert(_) => put(out, "step convert\n"),
        StepWork::Dedup(interval) => put(out, format_args!("step dedup, interval {interval}\n")),
        StepWork::Regex(rules) => {
            let count = rules.as_slice().len();
            put(out, format_args!("step regex, rules {count}\n"))
        }
    }
}

/// Appends what an aggregator is.
fn append_aggregator(agg: &AggConf, out: &mut TextBuffer) -> Result<(), Fail> {
    let line = &agg.line;
    put(out, format_args!("aggregator {:?}, ", line.kind))?;
    put(
        out,
        format_args!("period {}, delay {}, ", line.period, line.delay),
    )?;
    put(
        out,
        format_args!("grace {}, dropping {}\n", line.grace, line.dropping),
    )
}

/// Appends what an output is, with its format.
fn append_output(output: &OutputConf, out: &mut TextBuffer) -> Result<(), Fail> {
    let (place, batch, limit) = (output.place.as_str(), output.batch, output.limit);
    put(
        out,
        format_args!("output {place}: batch {batch}, limit {limit}, "),
    )?;
    put(
        out,
        match output.format {
            OutFormat::Influx => "influx\n",
            OutFormat::Graphite => "graphite\n",
            OutFormat::Openmetrics => "openmetrics\n",
        },
    )
}
