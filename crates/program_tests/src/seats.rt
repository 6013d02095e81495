use program_seats::{Asker, STREAMS, Seats, TEXT_OCTETS};
use std::alloc::Global;
use std::sync::Wait;
use std::test::*;
use std::time::Clock;

const NOBODY: Asker = Asker { seat: 0, visit: 0 };

const BEYOND: Asker = Asker {
    seat: 1_000,
    visit: 1,
};

// Whether nothing is done for an asker at a free seat: nobody asks, is answered or takes.
fn is_nobody<R: Wait>(rt: &R, alloc: Global, seats: &Seats, asker: Asker) -> bool {
    let is_alone = !seats.ask(rt, asker)
        && !seats.wait_answer(rt, asker)
        && !seats.answer(rt, asker, b"ok\n")
        && !seats.take(rt, asker, &mut Vec::new(alloc));
    seats.note_written(rt, asker, TEXT_OCTETS);
    seats.end(rt, asker);
    seats.cut(rt, asker);
    seats.leave(rt, asker);
    is_alone && seats.written_if_behind(rt, asker.seat).is_none()
}

// Nobody follows at a free seat, and nobody may sit down once the seats are closed.
fn are_free<R: Wait + Clock>(rt: &R, alloc: Global, seats: &Seats) -> bool {
    seats.follow(rt, NOBODY, 0);
    seats.tell(rt, 0, b"event\n");
    let are_nobody = is_nobody(rt, alloc, seats, NOBODY) && is_nobody(rt, alloc, seats, BEYOND);
    let is_open = seats.followed(rt) == [false; STREAMS] && !seats.is_closed(rt);
    seats.close(rt);
    seats.finish(rt);
    are_nobody && is_open && seats.is_closed(rt)
}

#[test]
fn free_seats(rt: HostRuntime) -> Result<(), Fail> {
    assert!(rt; are_free(&rt, rt.alloc(), &Seats::new(rt.alloc())?));
    Ok(())
}
