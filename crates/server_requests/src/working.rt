//! What the main thread of a server works with.
use crate::skipping::Opened;
use program_common::Shared;
use program_desk::Step;
use program_outbox::Windows;
use program_start::{ProgramFault, Unread};
use program_station::Station;
use server_kept::{Numbers, Outbox};
use server_lanes::Readiness;
use server_reports::{Audience, Spell};
use shared_lanes::Names;
use station_lines::Moment;
use std::alloc::Global;
use std::rt::Files;

/// How a server was started.
#[derive(Clone, Copy, Debug, PartialEq, Eq)]
pub struct Settings {
    /// Whether all transactions whose journals are full are abandoned, and not only those that the outbox began.
    pub abandons_full: bool,
    /// Whether commands are reported.
    pub logs_commands: bool,
    /// Whether events say why a file couldn't be read.
    pub explains: bool,
    pub started: Moment,
}

/// What the main thread of a server works with, except the writer for replies. The parts are references: what a function
/// over them costs to prove grows with all that a value owns.
#[derive(Drop)]
pub struct Working<'s, 'a, N: Names, R: Files + AllocGlobal + Copy + Drop> {
    pub rt: &'a R,
    pub alloc: Global,
    pub shared: Shared<'a>,
    pub settings: Settings,
    /// The steps to be noted, the last one first.
    pub steps: &'s mut Vec<Step>,
    pub station: &'s mut Station<'a, N, R>,
    pub numbers: &'s mut Numbers<R>,
    pub audience: &'s mut Audience<'a, R>,
    pub outbox: &'s mut Outbox<R>,
    /// The links open for a time.
    pub windows: &'s mut Windows,
    pub readiness: &'s mut Readiness,
    /// A transaction that was opened to use up its number, and isn't abandoned yet.
    pub opened: &'s mut Option<Opened>,
    /// What is known of clients that follow and fell behind, by seat.
    pub spells: &'s mut Vec<Option<Spell>>,
}

/// Why a file can't be read, if it can't be.
pub fn unread_in<T>(read: &Result<T, ProgramFault>) -> Option<Unread> {
    match read {
        Err(ProgramFault::Unread(unread)) => Some(*unread),
        _ => None,
    }
}
