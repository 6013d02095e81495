//! What the main thread of a server owns.
use program_common::Shared;
use program_desk::Step;
use program_outbox::Windows;
use program_station::Station;
use server_kept::{Numbers, Outbox};
use server_lanes::Readiness;
use server_reports::{Audience, Spell};
use server_requests::{Opened, Settings, Working};
use shared_lanes::Names;
use std::alloc::Global;
use std::rt::Files;

/// What the main thread of a server owns, but for what is kept over restarts and where replies go. It works with
/// references to the parts (`Working`).
#[derive(Drop)]
pub struct Server<'a, N: Names, R: Copy> {
    pub rt: &'a R,
    pub alloc: Global,
    pub shared: Shared<'a>,
    pub settings: Settings,
    pub steps: Vec<Step>,
    pub station: Station<'a, N, R>,
    pub audience: Audience<'a, R>,
    pub windows: Windows,
    pub readiness: Readiness,
    pub opened: Option<Opened>,
    pub spells: Vec<Option<Spell>>,
}

impl<'a, N: Names, R: Files + AllocGlobal + Copy + Drop> Server<'a, N, R> {
    /// What the main thread works with: these parts, and what is kept over restarts.
    pub fn working<'s>(
        &'s mut self,
        numbers: &'s mut Numbers<R>,
        outbox: &'s mut Outbox<R>,
    ) -> Working<'s, 'a, N, R> {
        Working {
            rt: self.rt,
            alloc: self.alloc,
            shared: self.shared,
            settings: self.settings,
            steps: &mut self.steps,
            station: &mut self.station,
            numbers,
            audience: &mut self.audience,
            outbox,
            windows: &mut self.windows,
            readiness: &mut self.readiness,
            opened: &mut self.opened,
            spells: &mut self.spells,
        }
    }
}
