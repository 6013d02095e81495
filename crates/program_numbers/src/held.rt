//! Transaction numbers that one program holds.
ghost use Rattle.std.specs.Prelude.{◌≡◌, ◌/◌, [], max, IfOk, OnErr, OnOk, string_bytes};
ghost use Rattle.number_file.specs.Files.{Covered, Covers, covered_by};
ghost use Rattle.number_file.specs.Rounds.{cover_of, given};
ghost use Rattle.number_file.specs.declared.rounds.Cover.TheVariants as cover;
ghost use Rattle.program_numbers.specs.Held.{Begins, block_of, name_of, width_of};

use cfdp_types::TxnKey;
use disk::{Disk, SystemDisk};
use entity_config::{Config, Setting};
use number_file::NumberFile;
use program_control::ControlSocket;
use program_start::{ProgramFault, may_be_held};
use std::alloc::Global;
use std::net::Net;
use std::rt::Files;

// How many rounds are covered at a time if few Puts are expected or numbers are short, so that a restart uses up few of
// them.
const FEW_ROUNDS: u64 = 1;

const MANY_ROUNDS: u64 = 64;

// Up to this many octets, a number counts as short.
const SHORT_NUMBER: u8 = 2;

/// How many Puts a run makes.
#[derive(Clone, Copy, Debug, PartialEq, Eq)]
pub enum Puts {
    One,
    Many,
}

/// The transaction numbers of a run, kept in a file that no other program uses meanwhile.
#[derive(Drop)]
pub struct HeldNumbers<R: Files + AllocGlobal + Drop> {
    /// The file that keeps them.
    pub file: NumberFile,
    /// The folder that the file is in.
    pub disk: SystemDisk<R>,
    hold: ControlSocket,
    hold_path: String,
}

impl<R: Files + AllocGlobal + Drop> HeldNumbers<R> {
    /// Opens the file at a path. Numbers begin at the configuration's first round or the file's, whichever is higher,
    /// which becomes the configuration's first. Fails if the file has no number, can't be read or written, is held by
    /// another program, or is a link, has a second name or isn't a plain file.
    pub fn open(
        rt: &R,
        alloc: Global,
        path: &str,
        puts: Puts,
        config: &mut Config,
    ) -> Result<HeldNumbers<R>, ProgramFault>
    where
        R: Net + Copy,
        ensures begins { IfOk result (λ held. Begins (name_of path.now) puts config.old config.new [] (⟦<SystemDisk<R> as Disk>⟧.done held.disk) held.file.rounds) }
        ensures name { IfOk result (λ held. string_bytes held.file.path ≡ name_of path.now) }
        ensures same { OnErr result (config.new ≡ config.old) }
    {
        let hold_path = format!(in alloc; "{path}.lock")?;
        let (folder, name) = parts_of(path);
        let folder = String::from_str(alloc, folder)?;
        let name = String::from_str(alloc, name)?;
        if !may_be_held(rt, path) {
            return Err(ProgramFault::Numbers);
        }
        let Ok(hold) = ControlSocket::open(rt, alloc, hold_path.as_str()) else {
            return Err(ProgramFault::Numbers);
        };
        let mut disk = SystemDisk::new(*rt, folder);
        match begin(&mut disk, alloc, name, puts, config) {
            Ok(file) => Ok(HeldNumbers {
                file,
                disk,
                hold,
                hold_path,
            }),
            Err(fault) => {
                hold.leave(rt, hold_path.as_str());
                Err(fault)
            }
        }
    }

    /// Makes the file cover the number of the next Put.
    pub fn cover(&mut self) -> Result<(), ProgramFault>
        ensures covered { OnOk result (cover_of self.new.file.rounds ≡ cover.Covered) }
        ensures asked { Covers (cover_of self.old.file.rounds) (string_bytes self.old.file.path) self.old.file.rounds (⟦<SystemDisk<R> as Disk>⟧.done self.old.disk) (⟦<SystemDisk<R> as Disk>⟧.done self.new.disk) }
        ensures lasts { OnOk result (Covered (cover_of self.old.file.rounds) (string_bytes self.old.file.path) self.old.file.rounds (⟦<SystemDisk<R> as Disk>⟧.done self.new.disk)) }
        ensures rounds { OnOk result (self.new.file.rounds ≡ covered_by (cover_of self.old.file.rounds) self.old.file.rounds) }
        ensures same { OnErr result (self.new.file.rounds ≡ self.old.file.rounds) }
        ensures name { string_bytes self.new.file.path ≡ string_bytes self.old.file.path }
    {
        self.file
            .cover(&mut self.disk)
            .map_err(|_| ProgramFault::Numbers)
    }

    /// Notes that a Put opened this transaction.
    pub fn note_put(&mut self, key: TxnKey)
        ensures { self.new.file.rounds ≡ given (key.seq / max self.old.file.rounds.width 1) self.old.file.rounds }
    {
        let width = self.file.rounds.width.max(1);
        self.file.note_given(key.seq / width);
    }

    /// Releases the file.
    pub fn leave(&self, rt: &R) {
        self.hold.leave(rt, self.hold_path.as_str());
    }
}

// Opens the file, and sets the configuration's first round.
fn begin<D: Disk>(
    disk: &mut D,
    alloc: Global,
    name: String,
    puts: Puts,
    config: &mut Config,
) -> Result<NumberFile, ProgramFault>
    ensures begins { IfOk result (λ file. Begins (string_bytes name) puts config.old config.new (D.done disk.old) (D.done disk.new) file.rounds) }
    ensures name { IfOk result (λ file. string_bytes file.path ≡ string_bytes name) }
    ensures same { OnErr result (config.new ≡ config.old) }
{
    let first = config.entity().first;
    let (width, block) = (width_of(config), block_of(puts, config));
    let Ok(file) = NumberFile::open(disk, alloc, name, first, width, block) else {
        return Err(ProgramFault::Numbers);
    };
    if config.set(Setting::First(file.rounds.next)).is_err() {
        return Err(ProgramFault::Numbers);
    }
    Ok(file)
}

// How many numbers a round has.
fn width_of(config: &Config) -> u64
    ensures { result ≡ width_of config.now }
{
    (config.users() as u64).saturating_mul(config.entity().put_lanes as u64)
}

// How many rounds are covered at once.
fn block_of(puts: Puts, config: &Config) -> u64
    ensures { result ≡ block_of puts config.now }
{
    match puts {
        Puts::Many if config.entity().lengths.sequence_octets > SHORT_NUMBER => MANY_ROUNDS,
        _ => FEW_ROUNDS,
    }
}

// The folder of a path, and the name after it.
fn parts_of(path: &str) -> (&str, &str)
    ensures { result.1.now ≡ name_of path.now }
{
    match path.rsplit_once('/') {
        None => (".", path),
        Some(("", name)) => ("/", name),
        Some((folder, name)) => (folder, name),
    }
}
