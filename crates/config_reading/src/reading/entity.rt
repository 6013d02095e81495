//! The table of the entity itself.
ghost use Rattle.std.specs.Prelude.{◌≡◌, ◌≤◌};
ghost use Rattle.config_reading.specs.Walk.{entity_in, greatest_id};
ghost use Rattle.toml.specs.View.{table_view};

use crate::entity::EntitySettings;
use crate::fault::{ConfigFault, Key, Section};
use crate::reading::numbers::number_at;
use crate::reading::tables::has_only;
use cfdp_types::limits::{
    CONFIGURED_NUMBER, ID_OCTETS, QUEUE_BUNDLES, RECEIVING_LANES, SEGMENT_OCTETS_LEAST,
    SEGMENT_OCTETS_MOST, SENDING_LANES,
};
use cfdp_types::{EntityId, HeaderLengths};
use toml::Table;

/// The keys of the entity's table.
pub const ENTITY_KEYS: [Key; 8] = [
    Key::Id,
    Key::IdOctets,
    Key::SequenceOctets,
    Key::First,
    Key::PutLanes,
    Key::ReceiveLanes,
    Key::Capacity,
    Key::Segment,
];

/// The entity's settings, from its table.
pub fn entity_in(table: &Table) -> Result<EntitySettings, ConfigFault>
    ensures { result ≡ entity_in (table_view table.now) }
{
    if !has_only(table, &ENTITY_KEYS) {
        return Err(ConfigFault::UnknownKey(Section::Entity));
    }
    let id = number_at(table, Key::Id, 0, CONFIGURED_NUMBER)?;
    let entity_octets = number_at(table, Key::IdOctets, 1, u64::from(ID_OCTETS))? as u8;
    if id > greatest_id(entity_octets) {
        return Err(ConfigFault::OutOfRange(Key::Id));
    }
    let sequence_octets = number_at(table, Key::SequenceOctets, 1, u64::from(ID_OCTETS))? as u8;
    let first = number_at(table, Key::First, 0, CONFIGURED_NUMBER)?;
    let put_lanes = number_at(table, Key::PutLanes, 1, SENDING_LANES as u64)? as usize;
    let receive_lanes = number_at(table, Key::ReceiveLanes, 1, RECEIVING_LANES as u64)? as usize;
    let capacity = number_at(table, Key::Capacity, 1, QUEUE_BUNDLES as u64)? as usize;
    let segment_octets = number_at(
        table,
        Key::Segment,
        u64::from(SEGMENT_OCTETS_LEAST),
        u64::from(SEGMENT_OCTETS_MOST),
    )? as u16;
    Ok(EntitySettings {
        local: EntityId(id),
        lengths: HeaderLengths {
            entity_octets,
            sequence_octets,
        },
        first,
        put_lanes,
        receive_lanes,
        capacity,
        segment_octets,
    })
}

/// The greatest ID that a configuration may name for IDs of this many octets.
pub(crate) fn greatest_id(octets: u8) -> u64
    requires { octets ≤ ID_OCTETS }
    ensures { result ≡ greatest_id octets }
{
    if octets < ID_OCTETS {
        256u64.pow(u32::from(octets)) - 1
    } else {
        CONFIGURED_NUMBER
    }
}
