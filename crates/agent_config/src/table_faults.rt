//! What is wrong with the tables that are no plugins.
ghost use Rattle.std.specs.Prelude.{◌≡◌, IfOk};
ghost use Rattle.toml.specs.Data.{as_str};
ghost use Rattle.toml.specs.View.{table_view, view};
ghost use Rattle.agent_config.specs.Faults.{agent_faults, entry_faults, global_faults};
ghost use Rattle.agent_config.specs.Faults.{global_tag_faults, keys_faults, root_key_faults};
ghost use Rattle.agent_config.specs.Faults.{root_value_faults};
ghost use Rattle.agent_config.specs.Found.{Adds};
ghost use Rattle.agent_config.specs.Kinds.{limits_faults};

use crate::adding::{Added, Findings};
use crate::agent_keys::is_root_key;
use crate::fault::{FaultKind, Wrong};
use crate::table::Keys;
use crate::tables::{Limits, agent_limits};
use toml::{Table, Value};

impl<'a> Findings<'a> {
    /// Checks the keys of a table.
    pub(crate) fn check_keys(&mut self, keys: &Keys, table: &'a Table) -> Added
        ensures { IfOk result (λ _. Adds self.old self.new (keys_faults keys.now (table_view table.now))) }
    {
        for (key, value) in table.iter() {
            self.check_key(keys, key.as_str(), value)?;
        }
        Ok(())
    }

    /// Checks a key and its value.
    #[tactic(auto, unfolding(crate::specs::Faults::entry_faults))]
    pub(crate) fn check_key(&mut self, keys: &Keys, key: &'a str, value: &'a Value) -> Added
        ensures { IfOk result (λ _. Adds self.old self.new (entry_faults keys.now key.now (view value.now))) }
    {
        match keys.row_of(key) {
            Some(shape) => self.check_value(key, &shape, value),
            None => self.add(Wrong::of_key(FaultKind::UnknownKey, key)),
        }
    }

    /// Checks limits: a batch may hold no more metrics than the buffer.
    pub(crate) fn check_limits(&mut self, limits: &Limits) -> Added
        ensures { IfOk result (λ _. Adds self.old self.new (limits_faults limits.now)) }
    {
        let follows = limits.batch_faulty || limits.limit_faulty;
        let fits = limits.batch <= limits.limit;
        self.add_unless(fits, Wrong::of_whole(FaultKind::BatchAboveLimit, follows))?;
        Ok(())
    }

    /// Checks the table `agent`.
    #[tactic(auto, unfolding(crate::specs::Faults::agent_faults))]
    pub(crate) fn check_agent(&mut self, agent: &'a Table) -> Added
        ensures { IfOk result (λ _. Adds self.old self.new (agent_faults (table_view agent.now))) }
    {
        self.check_keys(&Keys::Agent, agent)?;
        self.check_limits(&agent_limits(agent))?;
        Ok(())
    }

    /// Checks the global tags.
    pub(crate) fn check_globals(&mut self, tags: &'a Table) -> Added
        ensures { IfOk result (λ _. Adds self.old self.new (global_faults (table_view tags.now))) }
    {
        for (key, value) in tags.iter() {
            self.check_global(key.as_str(), value)?;
        }
        Ok(())
    }

    /// Checks a global tag.
    fn check_global(&mut self, key: &'a str, value: &Value) -> Added
        ensures { IfOk result (λ _. Adds self.old self.new (global_tag_faults key.now (as_str (view value.now)))) }
    {
        self.check_range(key, value.as_str().map(|_text| !key.is_empty()))?;
        Ok(())
    }

    /// Checks that the keys of the root are known.
    pub(crate) fn check_root_keys(&mut self, root: &'a Table) -> Added
        ensures { IfOk result (λ _. Adds self.old self.new (root_key_faults (table_view root.now))) }
    {
        for (key, _value) in root.iter() {
            let is_known = is_root_key(key.as_str());
            self.add_unless(is_known, Wrong::of_key(FaultKind::UnknownKey, key.as_str()))?;
        }
        Ok(())
    }

    /// Checks that the values of the root are tables.
    pub(crate) fn check_root_values(&mut self, root: &'a Table) -> Added
        ensures { IfOk result (λ _. Adds self.old self.new (root_value_faults (table_view root.now))) }
    {
        for (key, value) in root.iter() {
            let wrong = Wrong::of_key(FaultKind::WrongType, key.as_str());
            self.add_unless(value.is_table(), wrong)?;
        }
        Ok(())
    }
}
