//! The tables of the remote entities.
ghost use Rattle.std.specs.Prelude.{◌≡◌, [], IsTrue, None, count_by, map, string_bytes};
ghost use Rattle.std.specs.List.{list_any};
ghost use Rattle.config_reading.specs.Reads.{Reads, seen};
ghost use Rattle.config_reading.specs.Shown.{peer_shown};
ghost use Rattle.config_reading.specs.Values.{goes_to, has_id, is_entity, route_of};
ghost use Rattle.config_reading.specs.Walk.{address_in, optional, remote_in, remotes_in, required, takes_source, user_named, value_at};
ghost use Rattle.toml.specs.View.{table_view, view};

use crate::entity::EntitySettings;
use crate::fault::{ConfigFault, Key, Section};
use crate::reading::entity::greatest_id;
use crate::reading::numbers::number_at;
use crate::reading::params::params_in;
use crate::reading::tables::{has_only, required, value_at};
use crate::reading::texts::{address_in, name_of};
use crate::reading::users::place_of;
use crate::remote::{Peer, Remote};
use cfdp_types::EntityId;
use cfdp_types::limits::SOURCES_OF_A_USER;
use std::alloc::Global;
use toml::{Table, Value};

/// The keys of a remote entity's table.
pub const REMOTE_KEYS: [Key; 14] = [
    Key::Id,
    Key::Address,
    Key::User,
    Key::AckMilliseconds,
    Key::NakMilliseconds,
    Key::CheckMilliseconds,
    Key::InactivityMilliseconds,
    Key::AckLimit,
    Key::NakLimit,
    Key::CheckLimit,
    Key::Send,
    Key::ReceiveOne,
    Key::ReceiveTwo,
    Key::Checksum,
];

/// The remote entities, in the order of their tables.
pub(crate) fn remotes_in(
    alloc: Global,
    tables: &[&Table],
    entity: EntitySettings,
    users: &[String],
) -> Result<Vec<Peer>, ConfigFault>
    requires { IsTrue (is_entity entity) }
    ensures { Reads (λ peers. map peer_shown peers.items) result
        (remotes_in entity (map string_bytes users.now) [] (map (λ table. table_view table.now) tables.now)) }
{
    let mut peers = Vec::new(alloc);
    for table in tables {
        peers.push(remote_in(alloc, table, entity, users, &peers)?)?;
    }
    Ok(peers)
}

/// The remote entity of one table; it may not repeat an ID of those before it.
pub fn remote_in(
    alloc: Global,
    table: &Table,
    entity: EntitySettings,
    users: &[String],
    before: &[Peer],
) -> Result<Peer, ConfigFault>
    requires { IsTrue (is_entity entity) }
    ensures { Reads peer_shown result
        (remote_in entity (map string_bytes users.now) (map peer_shown before.now) (table_view table.now)) }
{
    if !has_only(table, &REMOTE_KEYS) {
        return Err(ConfigFault::UnknownKey(Section::Remote));
    }
    let greatest = greatest_id(entity.lengths.entity_octets);
    let id = EntityId(number_at(table, Key::Id, 0, greatest)?);
    let address = address_at(table)?;
    let user = user_at(table, users)?;
    let params = params_in(table, entity)?;
    if id == entity.local || is_one_of(id, before) {
        return Err(ConfigFault::DuplicateRemote);
    }
    if !takes_source(before, user) {
        return Err(ConfigFault::TooManySources);
    }
    let address = String::from_str(alloc, address)?;
    let remote = Remote { id, user, params };
    Ok(Peer { remote, address })
}

fn is_one_of(id: EntityId, peers: &[Peer]) -> bool
    ensures { result ≡ list_any (has_id id) (map peer_shown peers.now) }
{
    peers.iter().any(|peer| peer.remote.id == id)
}

fn address_at(table: &Table) -> Result<&str, ConfigFault>
    ensures { seen (λ address. address.now) result
        ≡ required Key.Address address_in (value_at Key.Address (table_view table.now)) }
{
    address_in(required(table, Key::Address)?)
}

// The number of the user that a table names, if it names one.
fn user_at(table: &Table, users: &[String]) -> Result<Option<usize>, ConfigFault>
    ensures { result ≡ optional None (user_named (map string_bytes users.now)) (value_at Key.User (table_view table.now)) }
{
    match value_at(table, Key::User) {
        Some(value) => user_named(value, users),
        None => Ok(None),
    }
}

fn user_named(value: &Value, users: &[String]) -> Result<Option<usize>, ConfigFault>
    ensures { result ≡ user_named (map string_bytes users.now) (view value.now) }
{
    let name = name_of(value, Key::User)?;
    match place_of(users, name) {
        Some(user) => Ok(Some(user)),
        None => Err(ConfigFault::UnknownUser),
    }
}

// Whether the user, if there is one, may have one more source.
fn takes_source(before: &[Peer], user: Option<usize>) -> bool
    ensures { result ≡ takes_source (map peer_shown before.now) user }
{
    let Some(user) = user else {
        return true;
    };
    sources_of(user, before) < SOURCES_OF_A_USER
}

fn sources_of(user: usize, peers: &[Peer]) -> usize
    ensures { result ≡ count_by (goes_to user) (map route_of (map peer_shown peers.now)) }
{
    peers
        .iter()
        .filter(|peer| peer.remote.user == Some(user))
        .count()
}
