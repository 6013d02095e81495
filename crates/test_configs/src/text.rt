//! Writes a configuration's text, table by table.
ghost use Rattle.std.specs.Prelude.{◌≡◌, ◌++◌, IfOk, OnOk, string_bytes};
ghost use Rattle.test_configs.specs.Texts.{entity_part, remote_part, text_shown, timers_part, user_part};

use crate::entity::{EntityText, RemoteText};
use std::alloc::{AllocError, Global};

#[tactic(auto, unfolding(crate::specs::Texts::entity_part))]
fn push_entity(text: &mut String, entity: &EntityText) -> Result<(), AllocError>
    ensures { OnOk result (string_bytes text.new ≡ string_bytes text.old ++ entity_part entity.now) }
{
    let (id, capacity) = (entity.id, entity.capacity);
    let (put, receive) = (entity.put_lanes, entity.receive_lanes);
    write!(
        text,
        "[entity]\nid = {id}\nid_octets = 1\nseq_octets = 1\nfirst = 1\nput_lanes = {put}\nrecv_lanes = {receive}\ncapacity = {capacity}\nsegment = 256\n"
    )
}

#[tactic(auto, unfolding(crate::specs::Texts::user_part))]
fn push_user(text: &mut String, name: &str) -> Result<(), AllocError>
    ensures { OnOk result (string_bytes text.new ≡ string_bytes text.old ++ user_part name.now) }
{
    write!(text, "[[user]]\nname = \"{name}\"\n")
}

#[tactic(auto, unfolding(crate::specs::Texts::remote_part))]
fn push_remote(text: &mut String, remote: &RemoteText) -> Result<(), AllocError>
    ensures { OnOk result (string_bytes text.new ≡ string_bytes text.old ++ remote_part remote.now) }
{
    let (id, port, user) = (remote.id, remote.port, remote.user);
    write!(
        text,
        "[[remote]]\nid = {id}\naddress = \"127.0.0.1:{port}\"\nuser = \"{user}\"\nack_limit = 2\nnak_limit = 2\ncheck_limit = 2\n"
    )
}

#[tactic(auto, unfolding(crate::specs::Texts::timers_part))]
fn push_timers(text: &mut String, remote: &RemoteText) -> Result<(), AllocError>
    ensures { OnOk result (string_bytes text.new ≡ string_bytes text.old ++ timers_part remote.now) }
{
    let (each, inactivity) = (remote.timers_ms, remote.inactivity_ms);
    write!(
        text,
        "ack_ms = {each}\nnak_ms = {each}\ncheck_ms = {each}\ninactivity_ms = {inactivity}\n"
    )
}

/// The text of a configuration.
pub fn text_of(alloc: Global, entity: &EntityText) -> Result<String, AllocError>
    ensures { IfOk result (λ text. string_bytes text ≡ text_shown entity.now) }
{
    let mut text = String::new(alloc);
    push_entity(&mut text, entity)?;
    for user in entity.users {
        push_user(&mut text, user)?;
    }
    for remote in entity.remotes {
        push_remote(&mut text, remote)?;
        push_timers(&mut text, remote)?;
    }
    Ok(text)
}
