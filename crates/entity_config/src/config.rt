ghost use Rattle.std.specs.Prelude.{◌≡◌, ◌==◌, find, length, option_copied, option_map, position, slice_get};
ghost use Rattle.std.specs.List.{filter};
ghost use Rattle.config_reading.specs.Shown.{peer_shown};
ghost use Rattle.config_reading.specs.Values.{goes_to, has_id, route_of};

use crate::change::{Limited, change_checksum, change_handler, change_limit};
use crate::reference::reference_params;
use crate::setting::Setting;
use cfdp_types::limits::{CONFIGURED_NUMBER, EXPIRATIONS, QUEUE_BUNDLES};
use cfdp_types::{Checksum, Condition, EntityId, Handler, HeaderLengths, Role};
use config_reading::{ConfigFault, ConfigParts, EntitySettings, Key, Peer, Remote, place_of};
use std::alloc::{AllocError, Global};
use std::marker::Model;

const REFERENCE: EntitySettings = EntitySettings {
    local: EntityId(2),
    lengths: HeaderLengths {
        entity_octets: 1,
        sequence_octets: 1,
    },
    first: 1,
    put_lanes: 2,
    receive_lanes: 2,
    capacity: 8,
    segment_octets: 256,
};

/// A configuration within all limits. Contracts see the settings, users and remote entities.
#[derive(Debug, Drop)]
pub struct Config {
    entity: EntitySettings,
    users: Vec<String>,
    peers: Vec<Peer>,
}

impl Model for Config {
    ghost use Rattle.std.specs.Prelude.{IsTrue, map, string_bytes};
    ghost use Rattle.config_reading.specs.Values.{ConfigValue, is_config};

    ghost Value = { ConfigValue };

    ghost use Rattle.config_reading.specs.Shown.{shown};

    ghost view = { λ c. shown c.entity c.users c.peers };

    ghost invariant = { λ c. IsTrue (is_config (shown c.entity c.users c.peers)) };
}

impl Config {
    ghost use Rattle.entity_config.specs.Reference.{reference_config};
    ghost use Rattle.std.specs.Prelude.{◌≡◌, IfOk, IsTrue, length, position, slice_get, find, option_map, option_copied};
    ghost use Rattle.config_reading.specs.Texts.{is_same_text};
    ghost use Rattle.std.specs.Prelude.{OnOk, OnErr, IfErr};
    ghost use Rattle.entity_config.specs.declared.setting.Setting.TheVariants as setting;
    ghost use Rattle.entity_config.specs.Settings.{limit_set, with_setting};
    ghost use Rattle.config_reading.specs.Shown.{parts_shown, peer_shown};
    ghost use Rattle.config_reading.specs.Values.{is_config, is_entity, goes_to, has_id, route_of};
    ghost use Rattle.std.specs.List.{filter};
    ghost use Rattle.std.specs.Prelude.{◌≤◌, ◌<◌, IfSome};
    ghost use Rattle.cfdp_types.specs.declared.limits.TheConstants.{REMOTES};

    /// The configuration that worked examples and scripts use: entity 2 with the users alice and bob, and the remote
    /// entity 1, whose files go to alice.
    pub fn reference(alloc: Global) -> Result<Config, AllocError>
        ensures { IfOk result (λ config. config ≡ reference_config) }
    {
        let alice = String::from_str(alloc, "alice")?;
        let bob = String::from_str(alloc, "bob")?;
        let peer = Peer {
            remote: Remote {
                id: EntityId(1),
                user: Some(0),
                params: reference_params(),
            },
            address: String::from_str(alloc, "127.0.0.1:7001")?,
        };
        let users = vec![in alloc; alice, bob]?;
        let peers = vec![in alloc; peer]?;
        Ok(Config {
            entity: REFERENCE,
            users,
            peers,
        })
    }

    /// The configuration with these parts, which are within all limits.
    pub(crate) fn of_parts(parts: ConfigParts) -> Config
        requires { IsTrue (is_config (parts_shown parts)) }
        ensures { result ≡ parts_shown parts }
    {
        Config {
            entity: parts.entity,
            users: parts.users,
            peers: parts.peers,
        }
    }

    /// The settings of the entity itself.
    pub fn entity(&self) -> EntitySettings
        ensures entity { result ≡ self.now.entity }
        ensures range { IsTrue (is_entity result) }
        ensures kept { IsTrue (is_config self.now) }
    {
        self.entity
    }

    /// The number of users.
    pub fn users(&self) -> usize
        ensures { result ≡ length self.now.users }
    {
        self.users.len()
    }

    /// The number of remote entities.
    pub fn remotes(&self) -> usize
        ensures { result ≡ length self.now.peers }
    {
        self.peers.len()
    }

    /// The number of the user with this name, counted from 0.
    pub fn user_of(&self, name: &str) -> Option<usize>
        ensures { result ≡ position (is_same_text name.now) self.now.users }
    {
        place_of(&self.users, name)
    }

    /// The name of the user with this number.
    pub fn name_of(&self, user: usize) -> Option<&str>
        ensures { option_copied result ≡ slice_get self.now.users user }
    {
        let name = self.users.get(user)?;
        Some(name.as_str())
    }

    fn find_peer(&self, id: EntityId) -> Option<&Peer>
        ensures { option_map (λ peer. peer_shown peer.now) result ≡ find (has_id id) self.now.peers }
    {
        peer_of(&self.peers, id)
    }

    /// The address of the remote entity with this ID.
    pub fn address_of(&self, id: EntityId) -> Option<&str>
        ensures { option_copied result ≡ option_map (λ peer. peer.address) (find (has_id id) self.now.peers) }
    {
        match self.find_peer(id) {
            Some(peer) => Some(peer.address.as_str()),
            None => None,
        }
    }

    /// The remote entity with this ID.
    pub fn remote_of(&self, id: EntityId) -> Option<Remote>
        ensures { result ≡ option_map (λ peer. peer.remote) (find (has_id id) self.now.peers) }
    {
        match self.find_peer(id) {
            Some(peer) => Some(peer.remote),
            None => None,
        }
    }

    /// The remote entity at a place in the order of the configuration.
    pub fn remote_at(&self, place: usize) -> Option<Remote>
        ensures { result ≡ option_map (λ peer. peer.remote) (slice_get self.now.peers place) }
    {
        let peer = self.peers.get(place)?;
        Some(peer.remote)
    }

    /// The number of remote entities whose files go to a user.
    pub fn sources(&self, user: usize) -> usize
        ensures number { result ≡ length (filter (λ peer. goes_to user (route_of peer)) self.now.peers) }
        ensures range { result ≤ REMOTES }
    {
        sources_among(&self.peers, user)
    }

    /// The place of a remote entity among those whose files go to a user, in the order of the configuration.
    pub fn source_place(&self, user: usize, id: EntityId) -> Option<usize>
        ensures place { result ≡ position (has_id id) (filter (λ peer. goes_to user (route_of peer)) self.now.peers) }
        ensures range { IfSome result (λ place. place < REMOTES) }
    {
        source_place_among(&self.peers, user, id)
    }

    /// The remote entity at a place among those whose files go to a user, in the order of the configuration.
    pub fn source_at(&self, user: usize, place: usize) -> Option<Remote>
        ensures { result ≡ option_map (λ peer. peer.remote)
            (slice_get (filter (λ peer. goes_to user (route_of peer)) self.now.peers) place) }
    {
        source_among(&self.peers, user, place)
    }

    /// Changes one setting. A limit, a handler or the checksum changes for every remote entity. A number out of range,
    /// or a handler that its role does not allow for the condition, changes nothing.
    pub fn set(&mut self, setting: Setting) -> Result<(), ConfigFault>
        ensures ok { OnOk result (with_setting setting self.old ≡ Ok self.new) }
        ensures refused { IfErr result (λ fault. with_setting setting self.old ≡ Err fault) }
        ensures err { OnErr result (self.new ≡ self.old) }
    {
        match setting {
            Setting::Capacity(bundles) => self.set_capacity(bundles),
            Setting::First(first) => self.set_first(first),
            Setting::AckLimit(limit) => self.set_limit(Limited::Ack, Key::AckLimit, limit),
            Setting::NakLimit(limit) => self.set_limit(Limited::Nak, Key::NakLimit, limit),
            Setting::CheckLimit(limit) => self.set_limit(Limited::Check, Key::CheckLimit, limit),
            Setting::Handler(role, condition, handler) => {
                self.set_handler(role, condition, handler)
            }
            Setting::Checksum(checksum) => {
                self.set_checksum(checksum);
                Ok(())
            }
        }
    }

    fn set_capacity(&mut self, bundles: u64) -> Result<(), ConfigFault>
        ensures ok { OnOk result (with_setting (setting.Capacity bundles) self.old ≡ Ok self.new) }
        ensures refused { IfErr result (λ fault. with_setting (setting.Capacity bundles) self.old ≡ Err fault) }
        ensures err { OnErr result (self.new ≡ self.old) }
    {
        if bundles == 0 || bundles > QUEUE_BUNDLES as u64 {
            return Err(ConfigFault::OutOfRange(Key::Capacity));
        }
        self.entity.capacity = bundles as usize;
        Ok(())
    }

    fn set_first(&mut self, first: u64) -> Result<(), ConfigFault>
        ensures ok { OnOk result (with_setting (setting.First first) self.old ≡ Ok self.new) }
        ensures refused { IfErr result (λ fault. with_setting (setting.First first) self.old ≡ Err fault) }
        ensures err { OnErr result (self.new ≡ self.old) }
    {
        if first > CONFIGURED_NUMBER {
            return Err(ConfigFault::OutOfRange(Key::First));
        }
        self.entity.first = first;
        Ok(())
    }

    fn set_limit(&mut self, limited: Limited, key: Key, limit: u64) -> Result<(), ConfigFault>
        ensures ok { OnOk result (limit_set limited key limit self.old ≡ Ok self.new) }
        ensures refused { IfErr result (λ fault. limit_set limited key limit self.old ≡ Err fault) }
        ensures err { OnErr result (self.new ≡ self.old) }
    {
        if limit == 0 || limit > u64::from(EXPIRATIONS) {
            return Err(ConfigFault::OutOfRange(key));
        }
        change_limit(&mut self.peers, limited, limit as u8);
        Ok(())
    }

    fn set_handler(
        &mut self,
        role: Role,
        condition: Condition,
        handler: Handler,
    ) -> Result<(), ConfigFault>
        ensures ok { OnOk result (with_setting (setting.Handler role condition handler) self.old ≡ Ok self.new) }
        ensures refused { IfErr result
            (λ fault. with_setting (setting.Handler role condition handler) self.old ≡ Err fault) }
        ensures err { OnErr result (self.new ≡ self.old) }
    {
        if !role.allows(condition, handler) {
            return Err(ConfigFault::HandlerNotAllowed(Key::of_table(role)));
        }
        change_handler(&mut self.peers, role, condition, handler);
        Ok(())
    }

    fn set_checksum(&mut self, checksum: Checksum)
        ensures { with_setting (setting.Checksum checksum) self.old ≡ Ok self.new }
    {
        change_checksum(&mut self.peers, checksum);
    }
}

// The first remote entity with this ID.
fn peer_of(peers: &[Peer], id: EntityId) -> Option<&Peer>
    ensures { option_copied result ≡ find (λ peer. peer.remote.id.0 == id.0) peers.now }
{
    peers.iter().find(|peer| peer.remote.id == id)
}

// Whether the files of a remote entity go to a user.
fn is_source(peer: &Peer, user: usize) -> bool
    ensures { result ≡ goes_to user (route_of (peer_shown peer.now)) }
{
    match peer.remote.user {
        None => false,
        Some(other) => other == user,
    }
}

// How many of the remote entities are sources of a user.
fn sources_among(peers: &[Peer], user: usize) -> usize
    ensures { result ≡ length (filter (λ peer. goes_to user (route_of (peer_shown peer))) peers.now) }
{
    peers.iter().filter(|peer| is_source(peer, user)).count()
}

// The place, among the sources of a user, of the first with this ID.
fn source_place_among(peers: &[Peer], user: usize, id: EntityId) -> Option<usize>
    ensures { result ≡ position (λ peer. has_id id (peer_shown peer))
        (filter (λ peer. goes_to user (route_of (peer_shown peer))) peers.now) }
{
    peers
        .iter()
        .filter(|peer| is_source(peer, user))
        .position(|peer| peer.remote.id == id)
}

// The source of a user at a place.
fn source_among(peers: &[Peer], user: usize, place: usize) -> Option<Remote>
    ensures { result ≡ option_map (λ peer. peer.remote)
        (slice_get (filter (λ peer. goes_to user (route_of (peer_shown peer))) peers.now) place) }
{
    let mut left = place;
    for peer in peers {
        if is_source(peer, user) {
            if left == 0 {
                return Some(peer.remote);
            }
            left -= 1;
        }
    }
    None
}
