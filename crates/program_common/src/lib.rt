//! What the threads of a program share.
#![tactic(auto)]

mod parked;

pub use parked::{Crowd, WorkersLot, hear_step};
use program_desk::Desk;
use program_lot::Lot;
use program_seats::Seats;
use program_storing::Depot;
use program_tallies::Tallies;
use shared_entity::Entity;
use shared_lanes::Names;
use std::alloc::Global;
use std::net::UdpSocket;

/// What the threads of any program share.
#[derive(Drop)]
pub struct Common<'x, N: Names, R: Copy> {
    pub rt: &'x R,
    pub alloc: Global,
    pub entity: &'x Entity<N, R>,
    /// The socket of its datagrams.
    pub socket: &'x UdpSocket,
    /// Where the other threads leave work for the main thread.
    pub desk: &'x Desk,
}

/// Where the threads of a server leave things for each other.
#[derive(Clone, Copy)]
pub struct Shared<'x> {
    pub desk: &'x Desk,
    /// The seats of its clients, if it has a control socket.
    pub seats: Option<&'x Seats>,
    /// Where received files are left to be stored.
    pub depot: &'x Depot,
    /// Where datagrams are parked.
    pub lot: &'x Lot,
    pub tallies: &'x Tallies,
}
