//! The table at which reading stops.
ghost use Rattle.std.specs.Prelude.{◌≡◌, [], IfOk, IsTrue, map, string_bytes};
ghost use Rattle.config_reading.specs.Reads.{Reads, seen};
ghost use Rattle.config_reading.specs.Shown.{peer_shown};
ghost use Rattle.config_reading.specs.Values.{is_entity};
ghost use Rattle.config_reading.specs.Walk.{counted, required, table_of, value_at};
ghost use Rattle.fault_texts.specs.Spots.{names_until, peers_until, spot_among, spot_in};
ghost use Rattle.toml.specs.View.{table_view, view};

use cfdp_types::limits::{REMOTES, USERS};
use config_reading::{
    ConfigFault, EntitySettings, Key, Peer, counted, entity_in, has_only, remote_in, required,
    table_of, user_in,
};
use std::alloc::{AllocError, Global};
use toml::Table;

/// A table of a configuration. Those of users and of remote entities are counted from 0.
#[derive(Clone, Copy, Debug, PartialEq, Eq)]
pub enum Spot {
    /// The top level, with the tables themselves.
    Top,
    Entity,
    User(usize),
    Remote(usize),
}

/// The table at which the reading of a configuration stops; `None` if it doesn't stop.
pub fn spot_in(alloc: Global, top: &Table) -> Result<Option<Spot>, AllocError>
    ensures { IfOk result (λ spot. spot ≡ spot_in (table_view top.now)) }
{
    if !has_only(top, &[Key::Entity, Key::User, Key::Remote]) {
        return Ok(Some(Spot::Top));
    }
    let entity_table = match entity_table(top) {
        Ok(table) => table,
        Err(_) => return Ok(Some(Spot::Top)),
    };
    let user_tables = match tables_at(alloc, top, Key::User, 1, USERS) {
        Ok(tables) => tables,
        Err(ConfigFault::NoMemory) => return Err(AllocError),
        Err(_) => return Ok(Some(Spot::Top)),
    };
    let remote_tables = match tables_at(alloc, top, Key::Remote, 0, REMOTES) {
        Ok(tables) => tables,
        Err(ConfigFault::NoMemory) => return Err(AllocError),
        Err(_) => return Ok(Some(Spot::Top)),
    };
    match entity_in(entity_table) {
        Ok(entity) => spot_among(alloc, entity, &user_tables, &remote_tables),
        Err(_) => Ok(Some(Spot::Entity)),
    }
}

fn entity_table(top: &Table) -> Result<&Table, ConfigFault>
    ensures { seen (λ table. table_view table.now) result
        ≡ required Key.Entity (table_of Key.Entity) (value_at Key.Entity (table_view top.now)) }
{
    table_of(required(top, Key::Entity)?, Key::Entity)
}

fn tables_at(
    alloc: Global,
    top: &Table,
    key: Key,
    least: usize,
    most: usize,
) -> Result<Vec<&Table>, ConfigFault>
    ensures { Reads (λ tables. map (λ table. table_view table.now) tables.items)
        result (required key (counted key least most) (value_at key (table_view top.now))) }
{
    counted(alloc, required(top, key)?, key, least, most)
}

// The table of a user or of a remote entity at which reading stops.
fn spot_among(
    alloc: Global,
    entity: EntitySettings,
    user_tables: &[&Table],
    remote_tables: &[&Table],
) -> Result<Option<Spot>, AllocError>
    requires { IsTrue (is_entity entity) }
    ensures { IfOk result (λ spot. spot ≡ spot_among entity
        (map (λ table. table_view table.now) user_tables.now) (map (λ table. table_view table.now) remote_tables.now)) }
{
    let users = names_until(alloc, user_tables)?;
    if users.len() < user_tables.len() {
        return Ok(Some(Spot::User(users.len())));
    }
    let peers = peers_until(alloc, remote_tables, entity, &users)?;
    if peers.len() < remote_tables.len() {
        return Ok(Some(Spot::Remote(peers.len())));
    }
    Ok(None)
}

// The names of the first users, up to the table at which reading stops.
fn names_until(alloc: Global, tables: &[&Table]) -> Result<Vec<String>, AllocError>
    ensures { IfOk result (λ users. map string_bytes users.items
        ≡ names_until [] (map (λ table. table_view table.now) tables.now)) }
{
    let mut users = Vec::new(alloc);
    for table in tables {
        let Ok(name) = user_in(table, &users) else {
            return Ok(users);
        };
        users.push(String::from_str(alloc, name)?)?;
    }
    Ok(users)
}

// The first remote entities, likewise.
fn peers_until(
    alloc: Global,
    tables: &[&Table],
    entity: EntitySettings,
    users: &[String],
) -> Result<Vec<Peer>, AllocError>
    requires { IsTrue (is_entity entity) }
    ensures { IfOk result (λ peers. map peer_shown peers.items
        ≡ peers_until entity (map string_bytes users.now) [] (map (λ table. table_view table.now) tables.now)) }
{
    let mut peers = Vec::new(alloc);
    for table in tables {
        match remote_in(alloc, table, entity, users, &peers) {
            Ok(peer) => peers.push(peer)?,
            Err(ConfigFault::NoMemory) => return Err(AllocError),
            Err(_) => return Ok(peers),
        }
    }
    Ok(peers)
}
