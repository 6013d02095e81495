//! Reading a configuration from a text.
ghost use Rattle.std.specs.Prelude.{◌≡◌, ◌⊎◌, Err, IfErr, IfOk, IsTrue, Ok};
ghost use Rattle.config_reading.specs.Reads.{Reads};
ghost use Rattle.config_reading.specs.Shown.{parts_shown};
ghost use Rattle.config_reading.specs.Values.{is_config};
ghost use Rattle.config_reading.specs.Walk.{config_in, config_of};
ghost use Rattle.toml.specs.View.{table_view};

pub(crate) mod entity;
pub(crate) mod handlers;
mod numbers;
mod params;
pub(crate) mod remotes;
pub(crate) mod tables;
mod texts;
pub(crate) mod users;

use crate::fault::{ConfigFault, Key, Section};
use crate::parts::ConfigParts;
use crate::reading::entity::entity_in;
use crate::reading::remotes::remotes_in;
use crate::reading::tables::{counted, has_only, required, table_of};
use crate::reading::users::users_in;
use cfdp_types::limits::{REMOTES, USERS};
use std::alloc::Global;
use toml::Table;

/// Reads the parts of a configuration from a text in TOML. An error is the first fault in the order of the keys,
/// whatever their order in the text; `NoMemory` says nothing about the text.
pub fn read_parts(alloc: Global, text: &str) -> Result<ConfigParts, ConfigFault>
    ensures ok { IfOk result (λ parts. config_of text.now ≡ Ok (parts_shown parts)) }
    ensures limits { IfOk result (λ parts. IsTrue (is_config (parts_shown parts))) }
    ensures refused { IfErr result (λ fault. (fault ≡ ConfigFault.NoMemory) ⊎ (config_of text.now ≡ Err fault)) }
{
    match toml::table_from_str(alloc, text) {
        Ok(table) => parts_in(alloc, &table),
        Err(error) if error.is_memory() => Err(ConfigFault::NoMemory),
        Err(_) => Err(ConfigFault::BadToml),
    }
}

/// Reads the parts of a configuration from the top-level table of a text in TOML, as [`read_parts`] does from the text.
pub fn parts_in(alloc: Global, table: &Table) -> Result<ConfigParts, ConfigFault>
    ensures parts { Reads parts_shown result (config_in (table_view table.now)) }
    ensures limits { IfOk result (λ parts. IsTrue (is_config (parts_shown parts))) }
{
    if !has_only(table, &[Key::Entity, Key::User, Key::Remote]) {
        return Err(ConfigFault::UnknownKey(Section::Top));
    }
    let entity_table = table_of(required(table, Key::Entity)?, Key::Entity)?;
    let user_tables = counted(alloc, required(table, Key::User)?, Key::User, 1, USERS)?;
    let remote_tables = counted(
        alloc,
        required(table, Key::Remote)?,
        Key::Remote,
        0,
        REMOTES,
    )?;
    let entity = entity_in(entity_table)?;
    let users = users_in(alloc, &user_tables)?;
    let peers = remotes_in(alloc, &remote_tables, entity, &users)?;
    Ok(ConfigParts {
        entity,
        users,
        peers,
    })
}
