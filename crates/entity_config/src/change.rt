//! Changing the parameters of remote entities.
ghost use Rattle.std.specs.Prelude.{◌≡◌, ◌≤◌, map, IsTrue};
ghost use Rattle.cfdp_types.specs.Handlers.{is_allowed};
ghost use Rattle.cfdp_types.specs.Params.{AreExpirationLimits, AreFaultTables};
ghost use Rattle.entity_config.specs.Settings.{limit_changed, tables_changed, with_checksum, with_limit, with_params, with_role_handler};
ghost use Rattle.config_reading.specs.Shown.{peer_shown};

use cfdp_types::{
    Checksum, Condition, ExpirationLimits, FaultTables, Handler, Params, ParamsParts, Role,
};
use config_reading::Peer;

/// The timers whose expirations are counted.
#[derive(Clone, Copy)]
pub(crate) enum Limited {
    Ack,
    Nak,
    Check,
}

// The parameters with other limits.
fn with_limits(params: Params, limits: ExpirationLimits) -> Params
    requires { AreExpirationLimits limits }
    ensures { result ≡ record params { limits = limits } }
{
    let parts = ParamsParts {
        limits,
        ..params.parts()
    };
    Params::new(parts).unwrap_or(params)
}

// The parameters with other fault tables.
fn with_tables(params: Params, tables: FaultTables) -> Params
    requires { AreFaultTables tables }
    ensures { result ≡ record params { tables = tables } }
{
    let parts = ParamsParts {
        tables,
        ..params.parts()
    };
    Params::new(parts).unwrap_or(params)
}

// The parameters with another checksum.
fn params_with_checksum(params: Params, checksum: Checksum) -> Params
    ensures { result ≡ with_checksum checksum params }
{
    let parts = ParamsParts {
        checksum,
        ..params.parts()
    };
    Params::new(parts).unwrap_or(params)
}

fn limits_with(limits: ExpirationLimits, limited: Limited, limit: u8) -> ExpirationLimits
    ensures { result ≡ limit_changed limited limit limits }
{
    match limited {
        Limited::Ack => ExpirationLimits {
            ack: limit,
            ..limits
        },
        Limited::Nak => ExpirationLimits {
            nak: limit,
            ..limits
        },
        Limited::Check => ExpirationLimits {
            check: limit,
            ..limits
        },
    }
}

fn params_with_limit(params: Params, limited: Limited, limit: u8) -> Params
    requires { 1 ≤ limit }
    ensures { result ≡ with_limit limited limit params }
{
    with_limits(params, limits_with(params.limits(), limited, limit))
}

/// Changes one timer's limit for every remote entity.
pub(crate) fn change_limit(peers: &mut Vec<Peer>, limited: Limited, limit: u8)
    requires { 1 ≤ limit }
    ensures { map peer_shown peers.new.items
        ≡ map (with_params (with_limit limited limit)) (map peer_shown peers.old.items) }
{
    for peer in peers.iter_mut() {
        peer.remote.params = params_with_limit(peer.remote.params, limited, limit);
    }
}

fn tables_with(
    tables: FaultTables,
    role: Role,
    condition: Condition,
    handler: Handler,
) -> FaultTables
    requires allowed { IsTrue (is_allowed role condition handler) }
    requires roles { AreFaultTables tables }
    ensures tables { result ≡ tables_changed role condition handler tables }
    ensures roles { AreFaultTables result }
{
    let Ok(table) = tables.of(role).with(condition, handler) else {
        return tables;
    };
    match role {
        Role::Send => FaultTables {
            send: table,
            ..tables
        },
        Role::RecvOne => FaultTables {
            receive_one: table,
            ..tables
        },
        Role::RecvTwo => FaultTables {
            receive_two: table,
            ..tables
        },
    }
}

fn params_with_handler(params: Params, role: Role, condition: Condition, handler: Handler) -> Params
    requires { IsTrue (is_allowed role condition handler) }
    ensures { result ≡ with_role_handler role condition handler params }
{
    with_tables(
        params,
        tables_with(params.tables(), role, condition, handler),
    )
}

/// Changes one handler for every remote entity.
pub(crate) fn change_handler(
    peers: &mut Vec<Peer>,
    role: Role,
    condition: Condition,
    handler: Handler,
)
    requires { IsTrue (is_allowed role condition handler) }
    ensures { map peer_shown peers.new.items
        ≡ map (with_params (with_role_handler role condition handler)) (map peer_shown peers.old.items) }
{
    for peer in peers.iter_mut() {
        peer.remote.params = params_with_handler(peer.remote.params, role, condition, handler);
    }
}

/// Changes the checksum for every remote entity.
pub(crate) fn change_checksum(peers: &mut Vec<Peer>, checksum: Checksum)
    ensures { map peer_shown peers.new.items
        ≡ map (with_params (with_checksum checksum)) (map peer_shown peers.old.items) }
{
    for peer in peers.iter_mut() {
        peer.remote.params = params_with_checksum(peer.remote.params, checksum);
    }
}
