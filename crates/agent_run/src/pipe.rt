//! A pipe as a configuration.
ghost use Rattle.std.specs.Prelude.{◌≡◌, IfOk};
ghost use Rattle.agent_run.specs.Command.{pipe_config};

use crate::command::Pipe;
use agent_config::{Config, InputConf, OutputConf, USUAL_UNDELIVERED, usual_agent};
use fixed_num::{OutOfMemory, Seq};
use format_words::{InFormat, OutFormat};
use metric::Text;
use metric_filter::Filter;
use std::alloc::Global;

/// The configuration that a pipe is: one line protocol input and one line protocol output with its sizes, no processor,
/// no aggregator, no filter, no global tag, and what an agent has where nothing is said.
pub(crate) fn pipe_config(alloc: Global, pipe: &Pipe<'_>) -> Result<Config, OutOfMemory>
    ensures { IfOk result
        (λ config. config ≡ pipe_config pipe.now.input.now pipe.now.output.now pipe.now.batch pipe.now.limit) }
{
    let agent = usual_agent(alloc)?;
    let input = InputConf {
        place: Text::of(alloc, pipe.input)?,
        format: InFormat::Influx,
        tracked: false,
        max_undelivered: USUAL_UNDELIVERED,
        filter: Filter::without_rules(alloc),
    };
    let output = OutputConf {
        place: Text::of(alloc, pipe.output)?,
        format: OutFormat::Influx,
        batch: pipe.batch,
        limit: pipe.limit,
        filter: Filter::without_rules(alloc),
    };
    Ok(Config {
        agent,
        globals: Seq::of(Vec::new(alloc)),
        inputs: Seq::of_one(input),
        steps: Seq::of(Vec::new(alloc)),
        aggs: Seq::of(Vec::new(alloc)),
        outputs: Seq::of_one(output),
    })
}
