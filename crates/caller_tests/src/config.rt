use cfdp_types::EntityId;
use entity_config::{ConfigFault, read_config};
use std::alloc::Global;

/// Where a remote entity of a configuration is, if the configuration has it.
fn address_in(alloc: Global, text: &str, remote: u64) -> Result<Option<String>, ConfigFault> {
    let config = read_config(alloc, text)?;
    let Some(address) = config.address_of(EntityId(remote)) else {
        return Ok(None);
    };
    Ok(Some(String::from_str(alloc, address)?))
}

// ---- the test

use std::test::*;
use test_configs::{REFERENCE, text_of};

#[test]
fn a_remote_has_an_address(rt: HostRuntime) -> Result<(), Fail> {
    let alloc = rt.alloc();
    let text = text_of(alloc, &REFERENCE)?;
    assert!(rt; matches!(address_in(alloc, text.as_str(), 1), Ok(Some(_))));
    assert!(rt; matches!(address_in(alloc, text.as_str(), 9), Ok(None)));
    Ok(())
}
