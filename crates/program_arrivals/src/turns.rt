//! The order of datagrams: those of one lane are handed in in the order in which they were read, whichever worker reads
//! them. A worker whose datagram comes before its turn leaves it here and goes on; who is at the lane hands it in next.
use entity_config::Config;
use program_desk::Desk;
use std::alloc::{AllocError, Global};
use std::collections::VecDeque;
use std::io;
use std::io::ErrorKind;
use std::net::{SocketAddr, UdpSocket};
use std::sync::atomic::{AtomicBool, AtomicU64, Ordering};
use std::sync::{Mutex, Wait};

// How many groups of lanes there are at most.
const GROUPS: u64 = 512;

// How many datagrams of a group may be under way at once, and how many octets of them, while a worker is at its lane: about
// as much as a large buffer of the socket holds.
const MOST_DATAGRAMS: u64 = 16_384;

const MOST_OCTETS: u64 = 8_388_608;

/// A datagram's place in the order of its group.
#[derive(Clone, Copy, Debug, PartialEq, Eq)]
pub(crate) struct Turn {
    group: usize,
    number: u64,
    octets: u64,
}

/// What a datagram that was read has to wait for.
#[derive(Clone, Copy, Debug, PartialEq, Eq)]
pub(crate) enum Order {
    /// Nothing: it has no lane, or there is one worker.
    Free,
    /// The datagrams of its lane that were read before it.
    After(Turn),
    /// It can't wait, since too many wait already.
    Full,
}

/// A datagram that was read before its turn came.
#[derive(Drop)]
pub(crate) struct Early {
    pub(crate) turn: Turn,
    pub(crate) octets: Vec<u8>,
    pub(crate) from: SocketAddr,
}

/// What becomes of a datagram that was read.
#[derive(Clone, Copy, Debug, PartialEq, Eq)]
pub(crate) enum Entered {
    /// Its turn has come.
    Now,
    /// It was left for who is at its lane.
    Left,
    /// Memory ran out for it, so its worker has to wait.
    NoMemory,
}

// What waits in a group.
#[derive(Drop)]
struct Group {
    /// The number whose turn it is.
    current: AtomicU64,
    /// How many octets the datagrams have that are under way.
    octets: AtomicU64,
    /// Whether anything waits; for workers that look often.
    has_early: AtomicBool,
    early: Mutex<VecDeque<Early>>,
}

/// The turns of all lanes. Lanes share groups if there are very many.
#[derive(Drop)]
pub struct Turns {
    alloc: Global,
    /// How many lanes receive from a source, and how many send.
    receiving: u64,
    sending: u64,
    /// How many numbers each group gave. Who has this reads the socket.
    reading: Mutex<Vec<u64>>,
    groups: Vec<Group>,
}

impl Turns {
    /// The turns of an entity's lanes, for so many workers. With one there is no other order than that of its reads.
    pub fn new(alloc: Global, config: &Config, workers: usize) -> Result<Turns, AllocError> {
        let entity = config.entity();
        let count = if workers > 1 { GROUPS as usize } else { 0 };
        let mut groups = Vec::with_capacity(alloc, count)?;
        for _ in 0..count {
            groups.push(Group {
                current: AtomicU64::new(0),
                octets: AtomicU64::new(0),
                has_early: AtomicBool::new(false),
                early: Mutex::new(VecDeque::new(alloc)),
            })?;
        }
        Ok(Turns {
            alloc,
            receiving: entity.receive_lanes as u64,
            sending: (entity.put_lanes as u64).saturating_mul(config.users() as u64),
            reading: Mutex::new(Vec::from_elem(alloc, 0u64, count)?),
            groups,
        })
    }

    /// Waits for a datagram, and reads it; returns its octets' number, its source, and what it has to wait for: nothing, if
    /// it is from an address that isn't taken. Reads nothing once the desk is closed.
    pub(crate) fn read<R: Wait>(
        &self,
        rt: &R,
        (desk, socket): (&Desk, &UdpSocket),
        datagram: &mut [u8],
        not_taken: Option<SocketAddr>,
    ) -> Result<(usize, SocketAddr, Order), io::Error> {
        let mut given = self.reading.lock(rt);
        if desk.is_closed() {
            return Err(io::Error::from(ErrorKind::WouldBlock));
        }
        let (count, from) = socket.recv_from(datagram)?;
        let order = match datagram.get(..count) {
            Some(octets) if Some(from) != not_taken => self.order_of(given.as_mut_slice(), octets),
            _ => Order::Free,
        };
        Ok((count, from, order))
    }

    // What a datagram has to wait for. It gets its group's next number.
    fn order_of(&self, given: &mut [u64], octets: &[u8]) -> Order {
        let Some(group) = group_of(octets, self.receiving, self.sending) else {
            return Order::Free;
        };
        let group = group as usize;
        let (Some(given), Some(state)) = (given.get_mut(group), self.groups.get(group)) else {
            return Order::Free;
        };
        let number = *given;
        let waiting = number.saturating_sub(state.current.load(Ordering::SeqCst));
        let length = octets.len() as u64;
        let under_way = state.octets.load(Ordering::SeqCst).saturating_add(length);
        if waiting > 0 && (waiting >= MOST_DATAGRAMS || under_way > MOST_OCTETS) {
            return Order::Full;
        }
        let _before = state.octets.fetch_add(length, Ordering::SeqCst);
        *given = number.saturating_add(1);
        Order::After(Turn {
            group,
            number,
            octets: length,
        })
    }

    /// Whether it is a datagram's turn.
    pub(crate) fn is_next(&self, turn: Turn) -> bool {
        match self.groups.get(turn.group) {
            Some(group) => group.current.load(Ordering::SeqCst) == turn.number,
            None => true,
        }
    }

    /// Lets a datagram be handed in, if its turn has come. Otherwise it is left for who is at its lane.
    pub(crate) fn enter<R: Wait>(
        &self,
        rt: &R,
        turn: Turn,
        octets: &[u8],
        from: SocketAddr,
    ) -> Entered {
        if self.is_next(turn) {
            return Entered::Now;
        }
        let Some(group) = self.groups.get(turn.group) else {
            return Entered::Now;
        };
        let Ok(copy) = Vec::from_slice(self.alloc, octets) else {
            return Entered::NoMemory;
        };
        let mut early = group.early.lock(rt);
        let datagram = Early {
            turn,
            octets: copy,
            from,
        };
        if early.push_back(datagram).is_err() {
            return Entered::NoMemory;
        }
        group.has_early.store(true, Ordering::SeqCst);
        // who was at the lane may have left it before it could see this datagram
        if !self.is_next(turn) {
            return Entered::Left;
        }
        let _same = early.pop_back();
        group.has_early.store(!early.is_empty(), Ordering::SeqCst);
        Entered::Now
    }

    /// Ends a datagram's turn. Returns the next one of its group, if that was read meanwhile.
    pub(crate) fn leave<R: Wait>(&self, rt: &R, turn: Turn) -> Option<Early> {
        let group = self.groups.get(turn.group)?;
        let next = turn.number.saturating_add(1);
        let _before = group.octets.fetch_sub(turn.octets, Ordering::SeqCst);
        group.current.store(next, Ordering::SeqCst);
        if !group.has_early.load(Ordering::SeqCst) {
            return None;
        }
        let mut early = group.early.lock(rt);
        let place = early
            .iter()
            .position(|datagram| datagram.turn.number == next)?;
        let datagram = early.remove(place)?;
        if early.is_empty() {
            // gives back what a stall took
            *early = VecDeque::new(self.alloc);
            group.has_early.store(false, Ordering::SeqCst);
        }
        Some(datagram)
    }
}

// The group of a datagram's lane, by its header: all datagrams of one lane have the same. `None` without a header.
fn group_of(octets: &[u8], receiving: u64, sending: u64) -> Option<u64> {
    let first = *octets.first()?;
    let lengths = *octets.get(3)?;
    let entity_octets = usize::from(lengths / 16 % 8) + 1;
    let sequence_octets = usize::from(lengths % 8) + 1;
    let source = number_in(octets.get(4..4 + entity_octets)?);
    let end = 4 + entity_octets + sequence_octets;
    let sequence = number_in(octets.get(4 + entity_octets..end)?);
    if first / 8 % 2 == 1 {
        return Some(sequence.checked_rem(sending)? % GROUPS);
    }
    let lane = sequence.checked_rem(receiving)?;
    Some((source % GROUPS).wrapping_mul(receiving).wrapping_add(lane) % GROUPS)
}

// The number that octets spell, the most significant first; of more than eight only the last count.
fn number_in(octets: &[u8]) -> u64 {
    let mut number = 0u64;
    for octet in octets {
        number = number.wrapping_mul(256).wrapping_add(u64::from(*octet));
    }
    number
}
