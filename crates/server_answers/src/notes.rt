//! The notes on a configuration, in the order of its tables.
ghost use Rattle.std.specs.Prelude.{◌≡◌, ◌+◌, ◌++◌, IfOk, OnOk, drop};
ghost use Rattle.server_answers.specs.Notes.{duty_notes, ends_early, entity_notes, given_up_after, note_if, notes_of, peers_notes, remote_notes, suspends, suspension_notes, timer_notes};

use crate::note::Note;
use cfdp_types::{Condition, EntityId, FaultTable, Handler, Params, Role};
use entity_config::{Config, Remote};
use std::alloc::{AllocError, Global};

// A silent entity should be waited for at least this long, in milliseconds.
const A_SECOND: u64 = 1_000;

/// What makes little sense in a configuration: first of the entity itself, then of each remote entity in its order.
pub fn notes_of(alloc: Global, config: &Config) -> Result<Vec<Note>, AllocError>
    ensures { IfOk result (λ notes. notes.items ≡ notes_of config.now) }
{
    let mut notes = Vec::new(alloc);
    add_entity(&mut notes, config)?;
    for place in 0..config.remotes() {
        add_at(&mut notes, config, place)?;
    }
    Ok(notes)
}

// Adds the notes on the remote entity at a place.
#[tactic(auto, using(crate::proofs::Peers::one_more, crate::proofs::Peers::no_more))]
fn add_at(notes: &mut Vec<Note>, config: &Config, place: usize) -> Result<(), AllocError>
    ensures { OnOk result (notes.new.items ++ peers_notes (drop (place + 1) config.now.peers)
        ≡ notes.old.items ++ peers_notes (drop place config.now.peers)) }
{
    match config.remote_at(place) {
        Some(remote) => add_remote(notes, &remote),
        None => Ok(()),
    }
}

// Adds a note if something holds.
fn add_if(notes: &mut Vec<Note>, holds: bool, note: Note) -> Result<(), AllocError>
    ensures { OnOk result (notes.new.items ≡ notes.old.items ++ note_if holds note) }
{
    if holds {
        notes.push(note)?;
    }
    Ok(())
}

// Adds the notes on the entity itself.
fn add_entity(notes: &mut Vec<Note>, config: &Config) -> Result<(), AllocError>
    ensures { OnOk result (notes.new.items ≡ notes.old.items ++ entity_notes config.now) }
{
    let entity = config.entity();
    let files = (config.users() * entity.put_lanes) as u64;
    let lanes = entity.receive_lanes as u64;
    let is_short = entity.lengths.sequence_octets == 1;
    add_if(notes, is_short, Note::ShortNumbers)?;
    add_if(notes, lanes < files, Note::FewLanes { files, lanes })
}

// Adds the notes on a remote entity.
fn add_remote(notes: &mut Vec<Note>, remote: &Remote) -> Result<(), AllocError>
    ensures { OnOk result (notes.new.items ≡ notes.old.items ++ remote_notes remote.now) }
{
    add_duties(notes, remote)?;
    add_timers(notes, remote)
}

// Adds the notes on its files: nobody gets them, or somebody has to resume them.
fn add_duties(notes: &mut Vec<Note>, remote: &Remote) -> Result<(), AllocError>
    ensures { OnOk result (notes.new.items ≡ notes.old.items ++ duty_notes remote.now) }
{
    let id = remote.id;
    let tables = remote.params.tables();
    add_if(notes, remote.user.is_none(), Note::NoUser { remote: id })?;
    add_suspensions(notes, id, tables.send, tables.receive_two)
}

// Adds a note for each table that suspends.
fn add_suspensions(
    notes: &mut Vec<Note>,
    remote: EntityId,
    send: FaultTable,
    receive: FaultTable,
) -> Result<(), AllocError>
    ensures { OnOk result (notes.new.items ≡ notes.old.items ++ suspension_notes remote send receive) }
{
    let sending = Note::Suspends {
        remote,
        role: Role::Send,
    };
    let receiving = Note::Suspends {
        remote,
        role: Role::RecvTwo,
    };
    add_if(notes, suspends(&send), sending)?;
    add_if(notes, suspends(&receive), receiving)
}

// Adds a note for each timer that ends too early.
fn add_timers(notes: &mut Vec<Note>, remote: &Remote) -> Result<(), AllocError>
    ensures { OnOk result (notes.new.items ≡ notes.old.items ++ timer_notes remote.now) }
{
    let milliseconds = given_up_after(&remote.params);
    let soon = Note::SoonGivenUp {
        remote: remote.id,
        milliseconds,
    };
    let again = Note::NothingAgain { remote: remote.id };
    add_if(notes, milliseconds < A_SECOND, soon)?;
    add_if(notes, ends_early(&remote.params), again)
}

// Whether a fault that a transaction can survive suspends it.
fn suspends(table: &FaultTable) -> bool
    ensures { result ≡ suspends table.now }
{
    table.action(Condition::POSITIVE_ACK_LIMIT) == Handler::Suspend
        || table.action(Condition::NAK_LIMIT) == Handler::Suspend
        || table.action(Condition::INACTIVITY) == Handler::Suspend
        || table.action(Condition::CHECK_LIMIT) == Handler::Suspend
}

// After how many milliseconds an entity that doesn't acknowledge is given up.
fn given_up_after(params: &Params) -> u64
    ensures { result ≡ given_up_after params.now }
{
    u64::from(params.timers().ack) * u64::from(params.limits().ack)
}

// Whether a transaction ends by inactivity before an EOF or a NAK is sent again.
fn ends_early(params: &Params) -> bool
    ensures { result ≡ ends_early params.now }
{
    let timers = params.timers();
    timers.inactivity <= timers.ack || timers.inactivity <= timers.nak
}
