ghost use Rattle.std.specs.Prelude.{◌≡◌, ◌⊎◌, Err, IfErr, IfOk, Ok};
ghost use Rattle.config_reading.specs.Walk.{config_in, config_of};
ghost use Rattle.toml.specs.View.{table_view};

use crate::config::Config;
use config_reading::{ConfigFault, parts_in, read_parts};
use std::alloc::Global;
use toml::Table;

/// Reads a configuration from a text in TOML: the entity, its users and the remote entities. `docs/configuration.md`
/// lists the keys and their ranges. An error is the first fault in the order of the keys, whatever their order in
/// the text; `NoMemory` says nothing about the text.
pub fn read_config(alloc: Global, text: &str) -> Result<Config, ConfigFault>
    ensures ok { IfOk result (λ config. config_of text.now ≡ Ok config) }
    ensures refused { IfErr result (λ fault. (fault ≡ ConfigFault.NoMemory) ⊎ (config_of text.now ≡ Err fault)) }
{
    let parts = read_parts(alloc, text)?;
    Ok(Config::of_parts(parts))
}

/// Reads a configuration from the top-level table of a text in TOML, as [`read_config`] does from the text.
pub fn config_in(alloc: Global, table: &Table) -> Result<Config, ConfigFault>
    ensures ok { IfOk result (λ config. config_in (table_view table.now) ≡ Ok config) }
    ensures refused { IfErr result (λ fault. (fault ≡ ConfigFault.NoMemory) ⊎ (config_in (table_view table.now) ≡ Err fault)) }
{
    let parts = parts_in(alloc, table)?;
    Ok(Config::of_parts(parts))
}
