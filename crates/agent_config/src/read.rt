//! Reading a configuration.
ghost use Rattle.std.specs.Prelude.{◌≡◌, ◌≢◌, [], IfOk, IfErr, Some, map, option_map};
ghost use Rattle.toml.specs.Data.{no_members};
ghost use Rattle.toml.specs.View.{table_view};
ghost use Rattle.agent_config.specs.Faults.{faults_of, first, text_faults, tree_of};
ghost use Rattle.agent_config.specs.Found.{fault_of, founds_view};
ghost use Rattle.agent_config.specs.Values.{config_of};
ghost use Rattle.agent_config.specs.Reading.{Checks, memory_fault};
ghost use Rattle.agent_config.specs.Sound.{IsSound};

use crate::config::Config;
use crate::fault::{Class, ConfigFault, ConfigKind, Fault, FaultKind, Found, fault_of};
use crate::finding::faults_of;
use crate::settings::config_of;
use fixed_num::OutOfMemory;
use std::alloc::Global;
use toml::Table;

/// The longest text that is read: 1 MiB.
const LONGEST_TEXT: usize = 1_048_576;

/// What a configuration in TOML 1.1 says: from 1 to 16 inputs and as many outputs, no two inputs at one
/// place, no two of the outputs and the journal, and all numbers in their ranges. Where the text has faults
/// the first of them is the error: what is wrong, in which class, and at which plugin of it. An error
/// OutOfMemory, which is of the root at number 0, says nothing of the text. `docs/users/configuration.md` has the
/// keys, their defaults and ranges, and the order of faults.
pub fn read_config(alloc: Global, text: &[u8]) -> Result<Config, ConfigFault>
    ensures ok { IfOk result (λ config. (text_faults text.now ≡ [])
        × (option_map config_of (tree_of text.now) ≡ Some config)) }
    ensures sound { IfOk result IsSound }
    ensures first { IfErr result (λ fault. fault.kind ≢ ConfigKind.OutOfMemory
        → first (text_faults text.now) ≡ Some fault) }
    ensures memory { IfErr result (λ fault. fault.kind ≡ ConfigKind.OutOfMemory → fault ≡ memory_fault) }
{
    match checked(alloc, text) {
        Ok(Ok(config)) => Ok(config),
        Ok(Err(fault)) => Err(fault.told()),
        Err(OutOfMemory) => Err(memory_fault()),
    }
}

/// The fault that no memory was left.
fn memory_fault() -> ConfigFault
    ensures { result ≡ memory_fault }
{
    ConfigFault {
        kind: ConfigKind::OutOfMemory,
        class: Class::Root,
        number: 0,
    }
}

/// What a configuration says, or its first fault.
fn checked(alloc: Global, text: &[u8]) -> Result<Result<Config, Fault>, OutOfMemory>
    ensures { IfOk result (Checks text.now) }
{
    let Some(root) = tree_of(alloc, text)? else {
        return Ok(Err(not_toml()));
    };
    let empty = Table::new(alloc);
    if let Some(fault) = first_fault(alloc, &root, &empty)? {
        return Ok(Err(fault));
    }
    Ok(Ok(config_of(alloc, &root, &empty)?))
}

/// The fault of a text that is no TOML.
fn not_toml() -> Fault
    ensures { result ≡ record { kind = FaultKind.NotToml; class = Class.Root; number = 0 } }
{
    Fault {
        kind: FaultKind::NotToml,
        class: Class::Root,
        number: 0,
    }
}

/// The first fault of a configuration.
fn first_fault<'a>(
    alloc: Global,
    root: &'a Table,
    empty: &'a Table,
) -> Result<Option<Fault>, OutOfMemory>
    requires { table_view empty.now ≡ no_members }
    ensures { IfOk result (λ fault. fault ≡ first (map fault_of (faults_of (table_view root.now)))) }
{
    let founds = faults_of(alloc, root, empty)?;
    Ok(first_of(founds.as_slice()))
}

/// The first of faults.
fn first_of(founds: &[Found]) -> Option<Fault>
    ensures { result ≡ first (map fault_of (founds_view founds.now)) }
{
    match founds {
        [found, ..] => Some(fault_of(found)),
        [] => None,
    }
}

/// The tree of a text that isn't too long; None where it is no TOML.
pub(crate) fn tree_of(alloc: Global, text: &[u8]) -> Result<Option<Table>, OutOfMemory>
    ensures { IfOk result (λ tree. option_map table_view tree ≡ tree_of text.now) }
{
    if text.len() > LONGEST_TEXT {
        return Ok(None);
    }
    match toml::table_from_slice(alloc, text) {
        Ok(table) => Ok(Some(table)),
        Err(fault) => {
            if fault.is_memory() {
                return Err(OutOfMemory);
            }
            Ok(None)
        }
    }
}
