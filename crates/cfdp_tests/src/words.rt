use cfdp_types::{Condition, Delivery, FileStatus};
use ind_words::{Indication, Side, WordReader};
use std::alloc::{AllocError, Global};
use std::test::*;

// An indication, in short.
#[derive(Clone, Copy)]
enum Told {
    // An offset and a length.
    Segment(u32, u32),
    Suspended,
    Finished,
    Abandoned,
}

fn indication(told: Told) -> Indication {
    match told {
        Told::Segment(offset, length) => Indication::FileSegmentRecv { offset, length },
        Told::Suspended => Indication::Suspended {
            condition: Condition::SUSPEND_REQUEST,
        },
        Told::Finished => Indication::TransactionFinished {
            condition: Condition::NO_ERROR,
            delivery: Delivery::Incomplete,
            status: FileStatus::Retained,
        },
        Told::Abandoned => Indication::Abandoned {
            condition: Condition::INACTIVITY,
            progress: 12,
        },
    }
}

// Indications that a reader with room for three segments is given, with whether it accepts each, and whether it is then
// at the end.
const ALL: [(Told, bool, bool); 10] = [
    (Told::Segment(0, 4), true, false),
    (Told::Segment(8, 4), true, false),
    (Told::Segment(2, 4), false, false),
    (Told::Segment(4, 4), true, false),
    (Told::Segment(12, 1), false, false),
    (Told::Abandoned, true, true),
    (Told::Segment(12, 1), false, true),
    (Told::Suspended, false, true),
    (Told::Finished, false, true),
    (Told::Abandoned, false, true),
];

fn answers_so(reader: &mut WordReader, told: Told, is_taken: bool, is_end: bool) -> bool {
    reader.next(&indication(told)).is_ok() == is_taken && reader.at_end() == is_end
}

// Whether a reader gives all of these results.
fn reads_so(reader: &mut WordReader) -> bool {
    for (told, is_taken, is_end) in ALL {
        if !answers_so(reader, told, is_taken, is_end) {
            return false;
        }
    }
    true
}

#[test]
fn receiver_with_room_for_three_segments(rt: HostRuntime) -> Result<(), Fail> {
    let mut reader = WordReader::with_room(rt.alloc(), Side::Receiver, 3)?;
    assert!(rt; reads_so(&mut reader));
    Ok(())
}
