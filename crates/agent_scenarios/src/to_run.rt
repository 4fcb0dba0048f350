//! What a row runs: a command, or a configuration over the parts at the places that it names.
ghost use Rattle.std.specs.Prelude.{IfOk};
ghost use Rattle.agent_config.specs.Sound.{IsSound};

use crate::laid::sink_at;
use crate::marks::{failing, text_about};
use crate::serving::{Input, input_at};
use agent_base::MemSink;
use agent_config::{Config, read_config};
use agent_workers::Opened;
use scenario_tables::Part;
use std::alloc::Global;
use std::test::Fail;

/// The words of the command that a row runs; None where it runs a configuration over parts.
pub fn words_of(alloc: Global, parts: &[Part<'_>]) -> Result<Option<Vec<String>>, Fail> {
    let Some(line) = parts.iter().find(|part| part.key == "words") else {
        return Ok(None);
    };
    let mut words = Vec::new(alloc);
    for word in line.value.split_whitespace() {
        words.push(String::from_str(alloc, word)?)?;
    }
    Ok(Some(words))
}

/// Whether puts of the report fail.
pub fn report_fails(alloc: Global, parts: &[Part<'_>]) -> Result<bool, Fail> {
    Ok(!failing(alloc, parts, "puts", "report")?.is_empty())
}

/// The configuration that stands at the place of `parts`.
pub fn config_of(alloc: Global, parts: &[Part<'_>]) -> Result<Config, Fail>
    ensures { IfOk result IsSound }
{
    let text = text_about(alloc, parts, "in", "c")?;
    let config = read_config(alloc, text.as_slice())?;
    Ok(config)
}

/// The parts at the places that a configuration names.
pub fn opened_by(
    alloc: Global,
    parts: &[Part<'_>],
    config: &Config,
) -> Result<Opened<Input, MemSink>, Fail> {
    let mut inputs = Vec::new(alloc);
    for input in config.inputs.as_slice() {
        inputs.push(input_at(alloc, parts, input.place.as_str())?)?;
    }
    let mut outputs = Vec::new(alloc);
    for output in config.outputs.as_slice() {
        outputs.push(sink_at(alloc, parts, output.place.as_str())?)?;
    }
    Ok(Opened {
        inputs,
        outputs,
        journal: sink_at(alloc, parts, config.agent.journal.as_str())?,
    })
}
