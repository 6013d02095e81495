//! What users receive, and who reads it.
use crate::reports::Reports;
use answer_texts::push_bundle;
use entity_config::Config;
use event_levels::Level;
use indications::Bundle;
use program_seats::{Asker, Seats};
use program_status::StationCounts;
use server_recording::Watched;
use std::alloc::{AllocError, Global};
use std::mem;
use std::sync::Wait;
use std::time::Clock;
use user_queues::UserPort;

/// The ports of a server's users, and those who read what the users receive.
#[derive(Drop)]
pub struct Audience<'a, R> {
    rt: &'a R,
    alloc: Global,
    config: &'a Config,
    ports: Vec<UserPort>,
    /// The user whose bundle is taken next.
    next: usize,
    /// Whether each user's indications are printed as they are issued.
    follows: bool,
    pub reports: Reports<'a, R>,
    pub watched: Watched<'a>,
    /// What is counted, if that is asked for.
    pub counts: Option<StationCounts>,
}

impl<'a, R: Wait + Clock> Audience<'a, R> {
    /// The users of the configuration in `reports`, by their ports.
    pub fn new(
        rt: &'a R,
        alloc: Global,
        ports: Vec<UserPort>,
        follows: bool,
        reports: Reports<'a, R>,
        watched: Watched<'a>,
    ) -> Audience<'a, R> {
        Audience {
            rt,
            alloc,
            config: reports.config,
            ports,
            next: 0,
            follows,
            reports,
            watched,
            counts: None,
        }
    }

    /// Whether each user's bundles are taken as they are issued.
    pub fn receives(&self) -> bool {
        self.follows || self.is_reported()
    }

    /// Whether bundles are reported, recorded or counted as they come, so that no command takes them.
    pub fn is_reported(&self) -> bool {
        self.reports.has_readers() || self.watched.book.records() || self.counts.is_some()
    }

    /// Takes and prints the bundle at the front of a user's queue, unless bundles are reported, recorded or counted.
    pub fn take(&mut self, user: usize, text: &mut String) -> Result<(), AllocError> {
        if self.is_reported() {
            return text.push_str("refused TakenByEvents\n");
        }
        match self.receive(user) {
            Some(bundle) => self.print_bundle(&bundle, text),
            None => text.push_str("none\n"),
        }
    }

    /// Takes and reports at most one bundle of each user in turn, until so many octets were reported or printed in this
    /// turn of the main thread, and prints it if that is wanted. Returns whether there was one.
    pub fn receive_each(&mut self, text: &mut String, most: usize) -> Result<bool, AllocError> {
        let mut has_received = false;
        let users = self.config.users();
        for _ in 0..users {
            if text.len().max(self.reports.octets()) >= most {
                break;
            }
            let user = self.next;
            let after = user.saturating_add(1);
            self.next = if after < users { after } else { 0 };
            if let Some(bundle) = self.receive(user) {
                has_received = true;
                if self.follows {
                    self.print_bundle(&bundle, text)?;
                }
            }
        }
        Ok(has_received)
    }

    /// Sends a client the last events, at most `most`, and all later ones, from a level on if one is asked for. If
    /// memory for that runs out, the client is cut off.
    pub fn follow(&mut self, seats: &Seats, asker: Asker, most: u64, least: Option<Level>) {
        if self.reports.follow(asker, most, least).is_err() {
            seats.cut(self.rt, asker);
        }
    }

    /// Lends the ports of the users, until `take_back`.
    pub fn lend_ports(&mut self) -> Vec<UserPort> {
        mem::replace(&mut self.ports, Vec::new(self.alloc))
    }

    /// Takes the ports back.
    pub fn take_back(&mut self, ports: Vec<UserPort>) {
        self.ports = ports;
    }

    // Takes the bundle at the front of a user's queue, if there is one, and reports it.
    fn receive(&mut self, user: usize) -> Option<Bundle> {
        let bundle = self.next_bundle(user)?;
        let at = self.reports.receive(&bundle);
        self.watched.note(&bundle, at);
        if let Some(counts) = &mut self.counts {
            counts.note(&bundle);
        }
        Some(bundle)
    }

    // Takes the bundle at the front of a user's queue, if there is one.
    fn next_bundle(&mut self, user: usize) -> Option<Bundle> {
        for port in self.ports.iter_mut() {
            if port.user() == user {
                return port.take(self.rt);
            }
        }
        None
    }

    // Adds the lines of a bundle.
    fn print_bundle(&self, bundle: &Bundle, text: &mut String) -> Result<(), AllocError> {
        let name = self.config.name_of(bundle.user).unwrap_or("");
        push_bundle(self.alloc, text, name, bundle)
    }
}
