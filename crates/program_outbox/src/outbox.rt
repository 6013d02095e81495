ghost use Rattle.std.specs.Prelude.{◌≡◌, ◌≤◌, ◌<◌, ◌↔◌, ◌⊎◌, [], IfOk, IfSome, OnErr, OnOk, Err, ◌+◌, length, option_to_list, position, true};
ghost use Rattle.std.specs.List.{list_any};
ghost use Rattle.program_outbox.specs.Outboxes.{after_going, at_place, can_go, first_turns, free_place, going, has_number, is_free, is_free_urgent, is_idle, is_stopped, number_place, queued, queued_as, withdrawn};

use cfdp_types::{Class, EntityId, Octets};
use std::alloc::{AllocError, Global};
use std::marker::Model;

/// How many files may wait.
pub const MOST_FILES: usize = 1_024;

/// A file to be sent. It is read when its turn comes.
#[derive(Debug, Drop)]
pub struct OutboxFile {
    pub class: Class,
    pub destination: EntityId,
    /// The path of the file, and its source file name if it has no other.
    pub source: Octets,
    /// Its source file name, if that is another than the path.
    pub source_name: Option<Octets>,
    /// Its destination file name.
    pub destination_name: Octets,
    pub closure: bool,
    /// Whether it goes before its user's files that aren't urgent.
    pub is_urgent: bool,
    /// When it was put in the outbox, in milliseconds since the start of 1970.
    pub since: u64,
}

/// A file that waits.
#[derive(Debug, Drop)]
pub struct Waiting {
    /// Its number in the outbox.
    pub number: u64,
    /// Its user's number in the configuration.
    pub user: usize,
    pub file: OutboxFile,
}

/// Nothing of this user goes to this entity now: its link is held, or no idle sending lane has a number that may go
/// there.
#[derive(Clone, Copy, Debug, PartialEq, Eq)]
pub struct Stop {
    /// The user's number in the configuration.
    pub user: usize,
    pub destination: EntityId,
}

/// Why a file isn't taken into the outbox.
#[derive(Clone, Copy, Debug, PartialEq, Eq)]
pub enum OutboxFault {
    /// `MOST_FILES` wait already, or the numbers are used up.
    Full,
    NoMemory,
}

/// Files that wait until a sending lane of their user is idle, and whose turn it is. Contracts see the files in the
/// order in which they came, and the users in the order of their turns.
#[derive(Drop)]
pub struct Outbox {
    waiting: Vec<Waiting>,
    turns: Vec<usize>,
    next: u64,
}

impl Model for Outbox {
    ghost use Rattle.program_outbox.specs.Outboxes.{OutboxValue};

    ghost Value = { OutboxValue };

    ghost view = { λ o. record { waiting = o.waiting.items; turns = o.turns.items; next = o.next } };
}

impl Outbox {
    /// An empty outbox.
    pub fn new(alloc: Global, users: usize) -> Result<Outbox, AllocError>
        ensures waiting { IfOk result (λ outbox. outbox.waiting ≡ []) }
        ensures turns { IfOk result (λ outbox. outbox.turns ≡ first_turns users) }
        ensures next { IfOk result (λ outbox. outbox.next ≡ 1) }
    {
        let mut turns = Vec::with_capacity(alloc, users)?;
        for user in 0..users {
            turns.push(user)?;
        }
        Ok(Outbox {
            waiting: Vec::new(alloc),
            turns,
            next: 1,
        })
    }

    /// Puts a user's file after all others, and returns its number.
    pub fn push(&mut self, user: usize, file: OutboxFile) -> Result<u64, OutboxFault>
        ensures ok { IfOk result (λ number. (number ≡ self.old.next) × (self.new ≡ queued user file self.old)) }
        ensures err { OnErr result (self.new ≡ self.old) }
        ensures full { (result ≡ Err OutboxFault.Full)
            ↔ ((1024 ≤ length self.old.waiting) ⊎ (self.old.next ≡ 18446744073709551615)) }
    {
        let number = self.next;
        self.push_as(number, user, file)?;
        Ok(number)
    }

    /// Puts a user's file after all others, with this number, as one that waited when an earlier run stopped. The next
    /// file gets the number after it.
    pub fn push_as(&mut self, number: u64, user: usize, file: OutboxFile) -> Result<(), OutboxFault>
        ensures ok { OnOk result (self.new ≡ queued_as number user file self.old) }
        ensures err { OnErr result (self.new ≡ self.old) }
        ensures full { (result ≡ Err OutboxFault.Full)
            ↔ ((1024 ≤ length self.old.waiting) ⊎ (number ≡ 18446744073709551615)) }
    {
        if self.waiting.len() >= MOST_FILES || number == u64::MAX {
            return Err(OutboxFault::Full);
        }
        match self.waiting.push(Waiting { number, user, file }) {
            Ok(()) => {
                self.next = number + 1;
                Ok(())
            }
            Err(_) => Err(OutboxFault::NoMemory),
        }
    }

    /// Gives the next file this number, which an earlier run left.
    pub fn go_on_from(&mut self, next: u64)
        ensures { self.new ≡ record self.old { next = next } }
    {
        self.next = next;
    }

    /// Takes out the next file to be sent. `idle` says for each user whether a lane is idle, and `stops` which user's
    /// files don't go to which entity. It is the first file that may go of the user whose turn it is, or the first
    /// urgent one of those, if there is one. That user's next turn is after all others.
    pub fn take(&mut self, idle: &[bool], stops: &[Stop]) -> Option<Waiting>
        ensures file { result ≡ going idle.now stops.now self.old }
        ensures rest { self.new ≡ after_going idle.now stops.now self.old }
        ensures count { length self.new.waiting + length (option_to_list result) ≡ length self.old.waiting }
    {
        let turn = turn_place(&self.turns, &self.waiting, idle, stops)?;
        let user = self.turns.remove(turn);
        self.turns.push_reserved(user);
        let place = place_of(&self.waiting, stops, user)?;
        Some(self.waiting.remove(place))
    }

    /// Takes out the file with this number, without sending it.
    pub fn withdraw(&mut self, number: u64) -> Option<Waiting>
        ensures file { result ≡ at_place (number_place number self.old) self.old.waiting }
        ensures rest { self.new ≡ withdrawn number self.old }
    {
        let place = number_place(&self.waiting, number)?;
        Some(self.waiting.remove(place))
    }

    /// The files that wait, in the order in which they came.
    pub fn waiting(&self) -> &[Waiting]
        ensures { result.now ≡ self.now.waiting }
    {
        self.waiting.as_slice()
    }
}

/// Whether a user has an idle lane.
pub(crate) fn is_idle(idle: &[bool], user: usize) -> bool
    ensures { result ≡ is_idle idle.now user }
{
    match idle.get(user) {
        Some(word) => *word,
        None => false,
    }
}

/// Whether nothing of a user goes to an entity.
pub(crate) fn is_stopped(stops: &[Stop], user: usize, destination: EntityId) -> bool
    ensures { result ≡ is_stopped stops.now user destination }
{
    stops.iter().any(|stop| stop.user == user && stop.destination.0 == destination.0)
}

// Whether a file is this user's, and the user's files to its entity may go.
fn is_free(stops: &[Stop], user: usize, one: &Waiting) -> bool
    ensures { result ≡ is_free stops.now user one.now }
{
    one.user == user && !is_stopped(stops, user, one.file.destination)
}

// Whether a user has an idle lane and a file that can be sent.
fn can_go(idle: &[bool], stops: &[Stop], waiting: &[Waiting], user: usize) -> bool
    ensures { result ≡ can_go idle.now stops.now waiting.now user }
{
    is_idle(idle, user) && has_file(waiting, stops, user)
}

// Whether a user has a file that may go.
fn has_file(waiting: &[Waiting], stops: &[Stop], user: usize) -> bool
    ensures { result ≡ list_any (is_free stops.now user) waiting.now }
{
    waiting.iter().any(|one| is_free(stops, user, one))
}

// The place of the first user who has a file that can be sent.
fn turn_place(turns: &[usize], waiting: &[Waiting], idle: &[bool], stops: &[Stop]) -> Option<usize>
    ensures place { result ≡ position (can_go idle.now stops.now waiting.now) turns.now }
    ensures range { IfSome result (λ place. place < length turns.now) }
{
    turns
        .iter()
        .position(|user| can_go(idle, stops, waiting, *user))
}

// The place of a user's first file that may go, or of the first urgent one of those, if there is one.
fn place_of(waiting: &[Waiting], stops: &[Stop], user: usize) -> Option<usize>
    ensures place { result ≡ free_place stops.now user waiting.now }
    ensures range { IfSome result (λ place. place < length waiting.now) }
{
    match urgent_place(waiting, stops, user) {
        Some(place) => Some(place),
        None => plain_place(waiting, stops, user),
    }
}

// The place of a user's first file that may go.
fn plain_place(waiting: &[Waiting], stops: &[Stop], user: usize) -> Option<usize>
    ensures place { result ≡ position (is_free stops.now user) waiting.now }
    ensures range { IfSome result (λ place. place < length waiting.now) }
{
    waiting.iter().position(|one| is_free(stops, user, one))
}

// The place of a user's first urgent file that may go.
fn urgent_place(waiting: &[Waiting], stops: &[Stop], user: usize) -> Option<usize>
    ensures place { result ≡ position (is_free_urgent stops.now user) waiting.now }
    ensures range { IfSome result (λ place. place < length waiting.now) }
{
    waiting
        .iter()
        .position(|one| one.file.is_urgent && is_free(stops, user, one))
}

/// The place of the file with this number.
pub(crate) fn number_place(waiting: &[Waiting], number: u64) -> Option<usize>
    ensures place { result ≡ position (has_number number) waiting.now }
    ensures range { IfSome result (λ place. place < length waiting.now) }
{
    waiting.iter().position(|one| one.number == number)
}
