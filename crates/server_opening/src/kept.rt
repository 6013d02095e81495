//! What a server keeps in files over restarts: its numbers, and its outbox.
use disk::SystemDisk;
use entity_config::Config;
use held_outbox::{HeldFault, HeldOutbox, restore_one};
use program_control::ControlSocket;
use program_desk::moment;
use program_numbers::{HeldNumbers, Puts};
use program_outbox::Outgoing;
use program_start::{ProgramFault, may_be_held};
use server_kept::{Numbers, Outbox, OutboxFolder};
use server_lanes::Begun;
use station_config::SendingSettings;
use std::alloc::Global;
use std::net::Net;
use std::rt::Files;
use std::time::Clock;

/// The numbers of a server and its outbox, with the file of each if there is one.
#[derive(Drop)]
pub struct Kept<R: Files + AllocGlobal + Copy + Drop> {
    pub numbers: Numbers<R>,
    pub outbox: Outbox<R>,
}

impl<R: Net + Clock + Files + AllocGlobal + Copy + Drop> Kept<R> {
    /// Opens the files that the settings name. What waited in the outbox when the last run stopped, or was under way from
    /// there, waits again. If the outbox can't be opened, the file of numbers is released.
    pub fn open(
        rt: &R,
        alloc: Global,
        settings: &SendingSettings,
        config: &mut Config,
    ) -> Result<Kept<R>, ProgramFault> {
        let held = match &settings.numbers {
            Some(path) => Some(HeldNumbers::open(rt, alloc, path.as_str(), Puts::Many, config)?),
            None => None,
        };
        let numbers = Numbers { held };
        match outbox_of(rt, alloc, settings, config) {
            Ok(outbox) => Ok(Kept { numbers, outbox }),
            Err(fault) => {
                numbers.leave(rt);
                Err(fault)
            }
        }
    }
}

/// Keeps other servers from the file of an outbox: a socket beside it, where nobody is let in.
#[derive(Drop)]
pub struct OutboxHold {
    socket: ControlSocket,
    path: String,
}

impl OutboxHold {
    /// Takes hold of the file at a path. Fails if another program has it, or if it is a link, has a second name or isn't a
    /// plain file.
    pub fn open<R: Net + Files>(
        rt: &R,
        alloc: Global,
        path: &str,
    ) -> Result<OutboxHold, ProgramFault> {
        if !may_be_held(rt, path) {
            return Err(ProgramFault::Outbox);
        }
        let path = format!(in alloc; "{path}.lock")?;
        match ControlSocket::open(rt, alloc, path.as_str()) {
            Ok(socket) => Ok(OutboxHold { socket, path }),
            Err(_) => Err(ProgramFault::Outbox),
        }
    }

    /// Releases the file.
    pub fn leave<R: Files>(&self, rt: &R) {
        self.socket.leave(rt, self.path.as_str());
    }
}

// The outbox, with its file if the settings name one.
fn outbox_of<R: Clock + Files + AllocGlobal + Copy + Drop>(
    rt: &R,
    alloc: Global,
    settings: &SendingSettings,
    config: &Config,
) -> Result<Outbox<R>, ProgramFault> {
    let mut outgoing = Outgoing::new(alloc, config.users())?;
    let begun = Begun::new(alloc, config)?;
    let held = match &settings.outbox {
        Some(path) => Some(restored(
            rt,
            alloc,
            (path.as_str(), settings.outbox_repair),
            config,
            &mut outgoing,
        )?),
        None => None,
    };
    Ok(Outbox {
        outgoing,
        held,
        begun,
    })
}

// The file of an outbox, without the lines that can't be parsed if it is to be repaired; what it says to be sent waits again.
fn restored<R: Clock + Files + AllocGlobal + Copy + Drop>(
    rt: &R,
    alloc: Global,
    (path, repairs): (&str, bool),
    config: &Config,
    outgoing: &mut Outgoing,
) -> Result<OutboxFolder<R>, ProgramFault> {
    let (folder, name) = parts_of(path);
    let disk = SystemDisk::new(*rt, String::from_str(alloc, folder)?);
    let name = String::from_str(alloc, name)?;
    let held = HeldOutbox::open(disk, alloc, name, repairs).map_err(fault_of)?;
    for entry in held.entries() {
        restore_one(alloc, config, entry, outgoing, moment(rt)).map_err(fault_of)?;
    }
    outgoing.go_on_from(held.next());
    Ok(held)
}

// The fault of a start, by that of its outbox.
fn fault_of(why: HeldFault) -> ProgramFault {
    match why {
        HeldFault::NoMemory => ProgramFault::NoMemory,
        HeldFault::Full | HeldFault::Disk | HeldFault::NoFile => ProgramFault::Outbox,
    }
}

// The folder of a path, and the name after it.
fn parts_of(path: &str) -> (&str, &str) {
    match path.rsplit_once('/') {
        None => (".", path),
        Some(("", name)) => ("/", name),
        Some((folder, name)) => (folder, name),
    }
}
