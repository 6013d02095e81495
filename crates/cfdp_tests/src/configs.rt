use cfdp_types::{Condition, EntityId, Handler, Role};
use entity_config::{Config, ConfigFault, Setting, read_config};
use std::alloc::{AllocError, Global};
use std::test::*;
use test_configs::{REFERENCE, text_of};

mod texts;

use texts::EXAMPLE;

// Whether two configurations have the same entity, the same two users and the same remote entity.
fn is_same(config: &Config, other: &Config) -> bool {
    config.entity() == other.entity()
        && config.users() == other.users()
        && config.name_of(0) == other.name_of(0)
        && config.name_of(1) == other.name_of(1)
        && config.remotes() == other.remotes()
        && config.remote_at(0) == other.remote_at(0)
        && config.address_of(EntityId(1)) == other.address_of(EntityId(1))
}

// Whether a text is read as this configuration.
fn is_read(alloc: Global, text: &str, expected: &Config) -> bool {
    match read_config(alloc, text) {
        Ok(config) => is_same(&config, expected),
        Err(_) => false,
    }
}

fn is_text_of_reference(alloc: Global, reference: &Config) -> Result<bool, AllocError> {
    let text = text_of(alloc, &REFERENCE)?;
    Ok(is_read(alloc, text.as_str(), reference))
}

// What the example says besides the reference.
const HANDLERS: [(Role, Condition, Handler); 3] = [
    (Role::RecvOne, Condition::CHECK_LIMIT, Handler::Ignore),
    (Role::RecvOne, Condition::INACTIVITY, Handler::Abandon),
    (Role::RecvTwo, Condition::NAK_LIMIT, Handler::Suspend),
];

fn set_handlers(config: &mut Config) -> Result<(), ConfigFault> {
    for (role, condition, handler) in HANDLERS {
        config.set(Setting::Handler(role, condition, handler))?;
    }
    Ok(())
}

#[test]
fn texts_of_configurations(rt: HostRuntime) -> Result<(), Fail> {
    let mut config = Config::reference(rt.alloc())?;
    assert!(rt; is_text_of_reference(rt.alloc(), &config)?);
    set_handlers(&mut config)?;
    assert!(rt; is_read(rt.alloc(), EXAMPLE, &config));
    Ok(())
}
