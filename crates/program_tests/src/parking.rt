use program_parking::{Holder, Lent, Outcome, Parking};
use std::alloc::{AllocError, Global};
use std::test::*;

// The number of a datagram that is lent.
fn number_of(lent: Option<Lent>) -> Option<u64> {
    Some(lent?.number)
}

// Two transactions wait for the second of two lanes. The lower number comes out first; where memory runs out, the
// higher one goes.
fn is_parked(alloc: Global) -> Result<bool, AllocError> {
    let mut parking = Parking::new(alloc, Vec::from_elem(alloc, 0, 2)?, 1, 1_000)?;
    parking.park(1, 9, 100, b"late")?;
    parking.park(1, 5, 200, b"early")?;
    let has_both = parking.used() == 137;
    let is_lowest = number_of(parking.lend(1)?) == Some(5) && number_of(parking.lend(1)?).is_none();
    parking.settle(1, 5, 1, Outcome::Waits);
    let Some(lane) = parking.lanes().get(1) else {
        return Ok(false);
    };
    let stays = lane.has(5, 1) && !lane.has(5, 0) && lane.transactions() == 2;
    parking.give_way(1);
    let Some(lane) = parking.lanes().get(1) else {
        return Ok(false);
    };
    Ok(has_both && is_lowest && stays && lane.len() == 0 && parking.used() == 0)
}

// Four lanes of one source take up a quarter of the room each. The first one gives way to a datagram for a fifth lane.
fn is_shared(alloc: Global) -> Result<bool, AllocError> {
    let mut parking = Parking::new(alloc, Vec::from_elem(alloc, 0, 5)?, 1, 600)?;
    for place in 0..4 {
        parking.park(place, 5, 100, &[0; 80])?;
    }
    let was_full = parking.used() == 576;
    let giving = parking.giving(4, 5, 10);
    parking.shorten(Holder {
        place: 0,
        octets: 94,
    });
    parking.park(4, 5, 100, &[0; 10])?;
    let gives = giving
        == Some(Holder {
            place: 0,
            octets: 94,
        });
    Ok(was_full && gives && parking.used() == 506)
}

#[test]
fn shares(rt: HostRuntime) -> Result<(), Fail> {
    assert!(rt; is_shared(rt.alloc())?);
    Ok(())
}

#[test]
fn lanes(rt: HostRuntime) -> Result<(), Fail> {
    assert!(rt; is_parked(rt.alloc())?);
    Ok(())
}
