//! The configuration that worked examples and scripts use.
ghost use Rattle.std.specs.Prelude.{◌≡◌};
ghost use Rattle.cfdp_types.specs.Reference.{reference};

use cfdp_types::{
    Checksum, EntityId, ExpirationLimits, FaultTables, HeaderLengths, Params, ParamsParts, Role,
    TimerLengths,
};
use config_reading::cancelling;

/// Timers of one second, two expirations of each, Cancel for every fault, and the modular checksum.
pub(crate) fn reference_params() -> Params
    ensures { result ≡ reference }
{
    let second = TimerLengths {
        ack: 1_000,
        nak: 1_000,
        check: 1_000,
        inactivity: 1_000,
    };
    let params = Params::new(ParamsParts {
        local: EntityId(2),
        lengths: HeaderLengths {
            entity_octets: 1,
            sequence_octets: 1,
        },
        segment_octets: 256,
        timers: second,
        limits: ExpirationLimits {
            ack: 2,
            nak: 2,
            check: 2,
        },
        tables: FaultTables {
            send: cancelling(Role::Send),
            receive_one: cancelling(Role::RecvOne),
            receive_two: cancelling(Role::RecvTwo),
        },
        checksum: Checksum::Modular,
    });
    params.unwrap()
}
