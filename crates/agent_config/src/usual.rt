//! What an agent has where nothing is said.
ghost use Rattle.std.specs.Prelude.{◌≡◌, IfOk};
ghost use Rattle.toml.specs.Data.{no_members};
ghost use Rattle.agent_config.specs.Usual.{usual_agent};
ghost use Rattle.agent_config.specs.Values.{agent_of};

use crate::config::AgentConf;
use crate::settings::agent_of;
use crate::shapes::UsualText;
use fixed_num::OutOfMemory;
use std::alloc::Global;
use toml::Table;

/// At most so many groups of an input are undelivered at once where nothing is said.
pub const USUAL_UNDELIVERED: u32 = 1000;

/// The place of the journal where nothing is said.
pub fn usual_journal() -> &'static str
    ensures { result.now ≡ usual_agent.journal }
{
    UsualText::Journal.text()
}

/// What holds for the whole run where nothing is said, as in an empty table `agent`.
pub fn usual_agent(alloc: Global) -> Result<AgentConf, OutOfMemory>
    ensures values { IfOk result (λ agent. agent ≡ usual_agent) }
    ensures unsaid { IfOk result (λ agent. agent ≡ agent_of no_members) }
{
    let agent = agent_of(alloc, &Table::new(alloc))?;
    Ok(agent)
}
