//! Which lane gets the events of a transaction, and the functions with which callers find that lane.
ghost use Rattle.std.specs.Prelude.{◌≡◌, ◌<◌};
ghost use Rattle.std.specs.Option.{option_map};
ghost use Rattle.cfdp_types.specs.declared.limits.TheConstants.{REMOTES};
ghost use Rattle.entity_routing.specs.Places as places;
ghost use Rattle.entity_routing.specs.Routes as routes;

use crate::place::Place;
use crate::refusal::RouteRefusal;
use cfdp_types::{EntityId, Params, TxnKey};
use entity_config::{Config, Remote};
use pdu_values::{Direction, Header, Pdu};

fn is_local(config: &Config, id: EntityId) -> bool
    ensures { result ≡ places.is_local config.now id }
{
    id == config.entity().local
}

// The lane of one of the entity's own transactions.
fn sending_place(config: &Config, seq: u64) -> Place
    ensures { result ≡ places.sending_place config.now seq }
{
    let users = config.users() as u64;
    let lanes = config.entity().put_lanes as u64;
    Place {
        user: (seq % users) as usize,
        lane: (seq / users % lanes) as usize,
    }
}

fn receiving_lane(config: &Config, place: usize, seq: u64) -> usize
    requires { place < REMOTES }
    ensures { result ≡ places.receiving_lane config.now place seq }
{
    let entity = config.entity();
    let within = (seq % entity.receive_lanes as u64) as usize;
    entity.put_lanes + place * entity.receive_lanes + within
}

// The lane of a remote entity's transaction, if its files go to a user.
fn receiving_place(config: &Config, key: TxnKey) -> Option<Place>
    ensures { result ≡ places.receiving_place config.now key }
{
    let remote = config.remote_of(key.source)?;
    let user = remote.user?;
    let place = config.source_place(user, key.source)?;
    Some(Place {
        user,
        lane: receiving_lane(config, place, key.seq),
    })
}

fn place_of(config: &Config, key: TxnKey) -> Option<Place>
    ensures { result ≡ places.place_of config.now key }
{
    if is_local(config, key.source) {
        Some(sending_place(config, key.seq))
    } else {
        receiving_place(config, key)
    }
}

/// The lane that a transaction belongs to. `NoRoute` if there is none.
pub fn place_of_key(config: &Config, key: TxnKey) -> Result<Place, RouteRefusal>
    ensures { result ≡ routes.key_place config.now key }
{
    place_of(config, key).ok_or(RouteRefusal::NoRoute)
}

/// The lane of a transaction, if it belongs to this user. `NoRoute` if there is none, `NotYours` if it is another
/// user's.
pub fn place_of_own(config: &Config, user: usize, key: TxnKey) -> Result<Place, RouteRefusal>
    ensures { result ≡ routes.own_place config.now user key }
{
    let place = place_of_key(config, key)?;
    if place.user == user {
        Ok(place)
    } else {
        Err(RouteRefusal::NotYours)
    }
}

/// The parameters of transactions with a destination. `UnknownRemote` if the configuration does not name it.
pub fn params_of_put(config: &Config, destination: EntityId) -> Result<Params, RouteRefusal>
    ensures { result ≡ routes.put_params config.now destination }
{
    match config.remote_of(destination) {
        Some(remote) => Ok(remote.params),
        None => Err(RouteRefusal::UnknownRemote),
    }
}

/// The key of the transaction that a PDU belongs to.
pub fn key_of_pdu(pdu: &Pdu) -> TxnKey
    ensures { result ≡ routes.key_of_header pdu.now.header }
{
    let header = pdu.header();
    TxnKey {
        source: header.source,
        seq: header.sequence,
    }
}

fn is_for_us(config: &Config, header: &Header) -> bool
    ensures { result ≡ routes.is_for_us config.now header.now }
{
    match header.direction {
        Direction::TowardReceiver => is_local(config, header.destination),
        Direction::TowardSender => is_local(config, header.source),
    }
}

// Whether the direction fits the kind of the PDU.
fn is_direction_of(pdu: &Pdu, direction: Direction) -> bool
    ensures { result ≡ routes.is_direction_of pdu.now.body direction }
{
    match direction {
        Direction::TowardReceiver => !pdu.is_toward_sender(),
        Direction::TowardSender => pdu.is_toward_sender(),
    }
}

// Whether a PDU toward the receiver names the entity itself as its source.
fn is_from_itself(config: &Config, header: &Header) -> bool
    ensures { result ≡ routes.is_from_itself config.now header.now }
{
    match header.direction {
        Direction::TowardReceiver => is_local(config, header.source),
        Direction::TowardSender => false,
    }
}

/// The lane that gets a PDU. Returns the first error that applies: `NotForUs`, `WrongDirection` or `NoRoute`. A PDU
/// toward the receiver that names the entity itself as its source gets `NoRoute`.
pub fn place_of_pdu(config: &Config, pdu: &Pdu) -> Result<Place, RouteRefusal>
    ensures { result ≡ routes.pdu_place config.now pdu.now }
{
    let header = pdu.header();
    if !is_for_us(config, header) {
        return Err(RouteRefusal::NotForUs);
    }
    if !is_direction_of(pdu, header.direction) {
        return Err(RouteRefusal::WrongDirection);
    }
    if is_from_itself(config, header) {
        return Err(RouteRefusal::NoRoute);
    }
    place_of_key(config, key_of_pdu(pdu))
}

/// The number of lanes of a user.
pub fn lanes_of(config: &Config, user: usize) -> usize
    ensures { result ≡ places.lanes_of config.now user }
{
    let entity = config.entity();
    entity.put_lanes + config.sources(user) * entity.receive_lanes
}

/// The remote entity whose transactions a user's lane receives; None for a sending lane, or beyond the last lane.
pub fn source_of_lane(config: &Config, user: usize, lane: usize) -> Option<Remote>
    ensures { result ≡ option_map (λ peer. peer.remote) (places.source_of_lane config.now user lane) }
{
    let entity = config.entity();
    if lane < entity.put_lanes {
        return None;
    }
    config.source_at(user, (lane - entity.put_lanes) / entity.receive_lanes)
}
