use cfdp_types::{Image, Octets};
use world_core::{EntityRefusal, World, WorldEvent};

/// Gives an entity of one thread a datagram. Returns the file that is complete with it, if any, once the entity was told that it is
/// kept. A program sends the PDUs of each answer, too, and starts and stops its timers.
fn receive(world: &mut World, datagram: Octets) -> Result<Option<Image>, EntityRefusal> {
    let done = world.step(&WorldEvent::Deliver(datagram))?;
    let Some(deposit) = done.deposit else {
        return Ok(None);
    };
    let image = world.image(deposit.key, deposit.stamp)?;
    world.step(&WorldEvent::Stored(deposit.key, deposit.stamp, true))?;
    Ok(Some(image))
}

// ---- the test

use entity_config::Config;
use std::test::*;

// The Metadata and the EOF of an empty file in class 1, from entity 1.
const METADATA: &[u8] = &[
    0x24, 0, 0x0A, 0, 1, 5, 2, 7, 0, 0, 0, 0, 0, 1, 0x61, 1, 0x62,
];

const EOF: &[u8] = &[0x24, 0, 0x0A, 0, 1, 5, 2, 4, 0, 0, 0, 0, 0, 0, 0, 0, 0];

#[test]
fn a_file_is_received(rt: HostRuntime) -> Result<(), Fail> {
    let alloc = rt.alloc();
    let mut world = World::open(alloc, Config::reference(alloc)?)?;
    assert!(rt;
        matches!(
            receive(&mut world, Octets::from_slice(alloc, METADATA)?),
            Ok(None)
        )
    );
    match receive(&mut world, Octets::from_slice(alloc, EOF)?) {
        Ok(Some(image)) => assert_eq!(rt; image.destination_name.as_slice(), b"b".as_slice()),
        _ => return Err(Fail::from("the file is there")),
    }
    Ok(())
}
