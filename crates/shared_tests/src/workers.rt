//! Workers take datagrams from an intake, side by side.
ghost use Rattle.std.specs.Prelude.{◌≡◌};

use crate::heard::Heard;
use crate::runs::{Run, play};
use crate::said::{Said, push_line, told};
use crate::watch::Watch;
use cfdp_types::Deposit;
use entity_workers::{
    Carrier, Filestore, Intake, IntakeFault, IntakeSend, MemoryStore, StoredFile, deposit_one,
    run_workers,
};
use shared_entity::{Entity, EntityRefusal};
use shared_lanes::{Names, Point};
use std::alloc::{AllocError, Global};
use std::sync::Wait;
use std::test::*;
use std::thread;
use std::thread::Threads;
use user_queues::UserPort;

/// How many workers there are, how many datagrams may wait for them, and the datagrams. A worker with a datagram may
/// have to wait until `together` workers have one.
#[derive(Clone, Copy)]
pub(crate) struct Shift {
    workers: usize,
    room: usize,
    together: u64,
    datagrams: &'static [&'static [u8]],
}

// Keeps the answers of one worker.
#[derive(Drop)]
struct Keeper {
    answers: Vec<Said>,
}

impl Carrier<Said> for Keeper {
    ghost accepts = { λ keeper answer. Unit {0} };

    fn carry(&mut self, answer: Result<Said, EntityRefusal>)
        requires { Unit {0} }
    {
        let _kept = self.answers.push(told(answer));
    }
}

// A keeper for each worker.
fn keepers(alloc: Global, workers: usize) -> Result<Vec<Keeper>, AllocError> {
    let mut keepers = Vec::new(alloc);
    for _ in 0..workers {
        let answers = Vec::new(alloc);
        keepers.push(Keeper { answers })?;
    }
    Ok(keepers)
}

// Sends datagrams, and drops the intake's sending end.
fn send_all<R: Wait>(rt: &R, send: IntakeSend, datagrams: &[&[u8]]) -> bool {
    for octets in datagrams {
        if send.send(rt, octets).is_err() {
            return false;
        }
    }
    true
}

// Has workers bring datagrams to their lanes, and returns their keepers.
fn work<N: Names + Send + Sync, R: Threads + Wait + Copy + Send + Sync>(
    rt: &R,
    alloc: Global,
    entity: &Entity<N, R>,
    gate: &Watch<R>,
    shift: &Shift,
) -> Result<Option<Vec<Keeper>>, AllocError> {
    if shift.room == 0 {
        return Ok(None);
    }
    let (send, end) = Intake::new(alloc, shift.room)?;
    let keepers = keepers(alloc, shift.workers)?;
    let (sent, back) = thread::join(
        rt,
        || send_all(rt, send, shift.datagrams),
        || run_workers(rt, alloc, entity, &end, keepers, gate).ok(),
    );
    Ok(if sent { back } else { None })
}

// Adds how many workers came back, how many answers they had, how many of these were steps, and how many workers met.
// Returns the deposits.
fn push_back(
    alloc: Global,
    text: &mut String,
    back: &[Keeper],
    met: u64,
) -> Result<Vec<Deposit>, AllocError> {
    let mut deposits = Vec::new(alloc);
    let (mut answers, mut steps) = (0u64, 0u64);
    for keeper in back {
        for said in &keeper.answers {
            answers = answers.saturating_add(1);
            steps = steps.saturating_add(u64::from(said.is_done()));
            if let Some(deposit) = said.deposit() {
                deposits.push(deposit)?;
            }
        }
    }
    push_line(text, "workers", &[back.len() as u64, answers, steps, met])?;
    Ok(deposits)
}

/// Has workers bring datagrams to their lanes, and stores the received files. Adds lines for the workers, for the
/// store, and for what each user took.
pub(crate) fn run_shift<N: Names + Send + Sync, R: Threads + Wait + Copy + Send + Sync>(
    rt: &R,
    alloc: Global,
    text: &mut String,
    entity: &Entity<N, R>,
    ports: Vec<UserPort>,
    shift: &Shift,
) -> Result<(), AllocError> {
    let gate = Watch::holding(*rt, Point::Taken, shift.together);
    let Some(back) = work(rt, alloc, entity, &gate, shift)? else {
        return push_line(text, "fault", &[]);
    };
    let deposits = push_back(alloc, text, back.as_slice(), gate.met())?;
    push_stored(rt, alloc, text, entity, deposits.as_slice())?;
    for port in ports {
        push_heard(rt, text, port)?;
    }
    Ok(())
}

// Makes deposits. Adds how many were made and reported to their lanes, and the files of the store.
fn push_stored<N: Names, R: Wait + Copy>(
    rt: &R,
    alloc: Global,
    text: &mut String,
    entity: &Entity<N, R>,
    deposits: &[Deposit],
) -> Result<(), AllocError> {
    let mut store = MemoryStore::new(alloc);
    let mut made = 0u64;
    for deposit in deposits {
        if store.calls() < 100 && deposit_one(rt, entity, &mut store, *deposit).is_ok() {
            made = made.saturating_add(1);
        }
    }
    push_line(text, "told", &[made])?;
    push_files(text, store.files())
}

// Adds a line for the files of a store: how many there are, how many of these have the name `b` and the content `abc`,
// and how many the name `b` and no content.
fn push_files(text: &mut String, files: &[StoredFile]) -> Result<(), AllocError> {
    let (mut full, mut empty) = (0u64, 0u64);
    for file in files {
        full = full.saturating_add(is_file(file, b"abc"));
        empty = empty.saturating_add(is_file(file, b""));
    }
    push_line(text, "files", &[files.len() as u64, full, empty])
}

// One if a file has the name `b` and this content, else zero.
fn is_file(file: &StoredFile, octets: &[u8]) -> u64 {
    u64::from(file.name.as_slice() == b"b".as_slice() && file.octets.as_slice() == octets)
}

fn push_heard<R: Wait>(rt: &R, text: &mut String, port: UserPort) -> Result<(), AllocError> {
    let mut port = port;
    let mut heard = Heard::new(port.user());
    for _ in 0..100 {
        if !heard.take(rt, &mut port) {
            break;
        }
    }
    heard.push_ends(text)
}

// The outcome of sending a datagram: zero, the number of a fault, or ten more than that of a fault of decoding.
fn number_of(sent: Result<(), IntakeFault>) -> u8 {
    match sent {
        Ok(()) => 0,
        Err(IntakeFault::Decode(why)) => 10 + why.number() % 10,
        Err(fault) => fault.number(),
    }
}

// The file `abc` from entity 1 with number 5, in class 1: its Metadata, its File Data and its EOF.
const METADATA: &[u8] = b"\x24\x00\x0a\x00\x01\x05\x02\x07\x00\x00\x00\x00\x03\x01a\x01b";

const FILE_DATA: &[u8] = b"\x34\x00\x07\x00\x01\x05\x02\x00\x00\x00\x00abc";

const EOF: &[u8] = b"\x24\x00\x0a\x00\x01\x05\x02\x04\x00abc\x00\x00\x00\x00\x03";

#[test]
fn not_taken(rt: HostRuntime) -> Result<(), Fail> {
    let (send, end) = Intake::new(rt.alloc(), 1)?;
    assert_eq!(rt; number_of(send.send(&rt, &[0x24])), 11);
    drop(end);
    assert_eq!(rt; number_of(send.send(&rt, METADATA)), 2);
    Ok(())
}

// One file is received and kept. The workers bring its datagrams in any order.
const ONE_FILE: Shift = Shift {
    workers: 3,
    room: 4,
    together: 0,
    datagrams: &[METADATA, FILE_DATA, EOF],
};

#[test]
fn three_workers(rt: HostRuntime) -> Result<(), Fail> {
    let text = play(rt, 8, Run::Working(ONE_FILE))?;
    assert_eq!(rt;
        text.as_str(),
        "workers 3 3 3 3\ntold 1\nfiles 1 1 0\nends 0 0 0 4053\nothers 0\nends 0 0 0 0\nothers 0\n"
    );
    Ok(())
}

// The Metadata and the EOF of empty files, from entity 1 and from entity 3.
const FIVE: &[u8] = b"\x24\x00\x0a\x00\x01\x05\x02\x07\x00\x00\x00\x00\x00\x01a\x01b";

const FIVE_ENDS: &[u8] = b"\x24\x00\x0a\x00\x01\x05\x02\x04\x00\x00\x00\x00\x00\x00\x00\x00\x00";

const SIX: &[u8] = b"\x24\x00\x0a\x00\x01\x06\x02\x07\x00\x00\x00\x00\x00\x01a\x01b";

const SIX_ENDS: &[u8] = b"\x24\x00\x0a\x00\x01\x06\x02\x04\x00\x00\x00\x00\x00\x00\x00\x00\x00";

const BOBS_FIVE: &[u8] = b"\x24\x00\x0a\x00\x03\x05\x02\x07\x00\x00\x00\x00\x00\x01a\x01b";

const BOBS_FIVE_ENDS: &[u8] =
    b"\x24\x00\x0a\x00\x03\x05\x02\x04\x00\x00\x00\x00\x00\x00\x00\x00\x00";

const BOBS_SIX: &[u8] = b"\x24\x00\x0a\x00\x03\x06\x02\x07\x00\x00\x00\x00\x00\x01a\x01b";

const BOBS_SIX_ENDS: &[u8] =
    b"\x24\x00\x0a\x00\x03\x06\x02\x04\x00\x00\x00\x00\x00\x00\x00\x00\x00";

// Of two workers, neither goes on before the other took a datagram.
const TWO_FILES: Shift = Shift {
    workers: 2,
    room: 4,
    together: 2,
    datagrams: &[FIVE, SIX],
};

#[test]
fn two_taken(rt: HostRuntime) -> Result<(), Fail> {
    let text = play(rt, 8, Run::Working(TWO_FILES))?;
    assert_eq!(rt;
        text.as_str(),
        "workers 2 2 2 2\ntold 0\nfiles 0 0 0\nends 0 0 1061 1051\nothers 0\nends 0 0 0 0\nothers 0\n"
    );
    Ok(())
}

// More datagrams than an intake has room for, of files for all receiving lanes. Each is answered once.
const FOUR_FILES: Shift = Shift {
    workers: 4,
    room: 2,
    together: 0,
    datagrams: &[
        FIVE,
        SIX,
        BOBS_FIVE,
        BOBS_SIX,
        FIVE_ENDS,
        SIX_ENDS,
        BOBS_FIVE_ENDS,
        BOBS_SIX_ENDS,
    ],
};

#[test]
fn four_workers(rt: HostRuntime) -> Result<(), Fail> {
    let text = play(rt, 8, Run::Working(FOUR_FILES))?;
    assert_eq!(rt;
        text.as_str(),
        "workers 4 8 8 8\ntold 4\nfiles 4 0 4\nends 0 0 3063 3053\nothers 0\nends 0 0 3063 3053\nothers 0\n"
    );
    Ok(())
}
