//! The parameters of the measured transactions.
use crate::fault::Fault;
use cfdp_types::{
    Checksum, EntityId, ExpirationLimits, FaultTable, FaultTables, HandlerNotAllowed,
    HeaderLengths, Params, ParamsParts, Role, TimerLengths,
};

// Tables that cancel at each fault.
fn tables() -> Result<FaultTables, HandlerNotAllowed> {
    Ok(FaultTables {
        send: FaultTable::new(Role::Send, &[])?,
        receive_one: FaultTable::new(Role::RecvOne, &[])?,
        receive_two: FaultTable::new(Role::RecvTwo, &[])?,
    })
}

/// Parts of 256 octets, limits that no run reaches, and each fault cancels.
pub(crate) fn params() -> Result<Params, Fault> {
    let lengths = HeaderLengths {
        entity_octets: 1,
        sequence_octets: 1,
    };
    let timers = TimerLengths {
        ack: 1000,
        nak: 2000,
        check: 3000,
        inactivity: 4000,
    };
    let limits = ExpirationLimits {
        ack: 2,
        nak: 2,
        check: 2,
    };
    let parts = ParamsParts {
        local: EntityId(1),
        lengths,
        segment_octets: 256,
        timers,
        limits,
        tables: tables()?,
        checksum: Checksum::Modular,
    };
    Params::new(parts).ok_or(Fault::BadSetting)
}
