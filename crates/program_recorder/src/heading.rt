//! The first lines of a recording. Each function appends to `text`; after an `Err` the text is not to be used.
ghost use Rattle.std.specs.Prelude.{◌≡◌, ◌++◌, IfOk, OnOk, string_bytes};
ghost use Rattle.program_recorder.specs.Headings.{begun_line, end_line, entity_line, heading_text, key_part, last_line, moment_line, moment_lines, moment_word, peer_part, transaction_line, user_part, way_word, what_lines};

use answer_texts::push_bundle;
use cfdp_types::{EntityId, TxnKey};
use indications::Bundle;
use station_lines::Moment;
use std::alloc::{AllocError, Global};

/// What the first lines of a recording say.
#[derive(Debug, Drop)]
pub struct Facts<'a> {
    /// The name and the version of the program that records.
    pub program: &'a str,
    pub entity: EntityId,
    pub key: TxnKey,
    /// The name of the transaction's user here.
    pub user: &'a str,
    /// Whether the entity sends the file.
    pub sends: bool,
    /// The entity at the other end.
    pub peer: EntityId,
    /// When the first and the last indication came, if that was noted.
    pub begun: Option<Moment>,
    pub last: Option<Moment>,
    /// The indication that ended the transaction, alone in its bundle; `None` if it hasn't ended.
    pub end: Option<Bundle>,
}

/// Adds the first lines of a recording, which are remarks of a script.
pub fn push_heading(alloc: Global, text: &mut String, facts: &Facts<'_>) -> Result<(), AllocError>
    ensures { OnOk result (string_bytes text.new ≡ string_bytes text.old ++ heading_text facts.now) }
{
    push_what(text, facts)?;
    push_moments(alloc, text, facts)?;
    push_end(alloc, text, facts.user, &facts.end)
}

fn push_what(text: &mut String, facts: &Facts<'_>) -> Result<(), AllocError>
    ensures { OnOk result (string_bytes text.new ≡ string_bytes text.old ++ what_lines facts.now) }
{
    push_entity(text, facts)?;
    push_transaction(text, facts)
}

fn push_moments(alloc: Global, text: &mut String, facts: &Facts<'_>) -> Result<(), AllocError>
    ensures { OnOk result (string_bytes text.new ≡ string_bytes text.old ++ moment_lines facts.now) }
{
    push_begun(alloc, text, facts.begun)?;
    push_last(alloc, text, facts.last)
}

fn push_entity(text: &mut String, facts: &Facts<'_>) -> Result<(), AllocError>
    ensures { OnOk result (string_bytes text.new ≡ string_bytes text.old ++ entity_line facts.now) }
{
    let program = facts.program;
    let entity = facts.entity.0;
    writeln!(text, "# {program}, entity {entity}")
}

fn push_transaction(text: &mut String, facts: &Facts<'_>) -> Result<(), AllocError>
    ensures { OnOk result (string_bytes text.new ≡ string_bytes text.old ++ transaction_line facts.now) }
{
    push_key(text, facts)?;
    push_user(text, facts)?;
    push_peer(text, facts)
}

fn push_key(text: &mut String, facts: &Facts<'_>) -> Result<(), AllocError>
    ensures { OnOk result (string_bytes text.new ≡ string_bytes text.old ++ key_part facts.now) }
{
    let source = facts.key.source.0;
    let seq = facts.key.seq;
    write!(text, "# transaction {source} {seq}")
}

fn push_user(text: &mut String, facts: &Facts<'_>) -> Result<(), AllocError>
    ensures { OnOk result (string_bytes text.new ≡ string_bytes text.old ++ user_part facts.now) }
{
    let user = facts.user;
    let way = way_word(facts.sends);
    write!(text, ": user {user} {way}")
}

fn push_peer(text: &mut String, facts: &Facts<'_>) -> Result<(), AllocError>
    ensures { OnOk result (string_bytes text.new ≡ string_bytes text.old ++ peer_part facts.now) }
{
    let peer = facts.peer.0;
    writeln!(text, " entity {peer}")
}

fn way_word(sends: bool) -> &'static str
    ensures { result.now ≡ way_word sends }
{
    if sends { "sends to" } else { "receives from" }
}

fn push_begun(alloc: Global, text: &mut String, begun: Option<Moment>) -> Result<(), AllocError>
    ensures { OnOk result (string_bytes text.new ≡ string_bytes text.old ++ begun_line begun) }
{
    push_moment(alloc, text, "# first indication: ", begun)
}

fn push_last(alloc: Global, text: &mut String, last: Option<Moment>) -> Result<(), AllocError>
    ensures { OnOk result (string_bytes text.new ≡ string_bytes text.old ++ last_line last) }
{
    push_moment(alloc, text, "# last indication: ", last)
}

// Adds when something came, or that it wasn't noted.
fn push_moment(
    alloc: Global,
    text: &mut String,
    what: &str,
    moment: Option<Moment>,
) -> Result<(), AllocError>
    ensures { OnOk result (string_bytes text.new ≡ string_bytes text.old ++ moment_line what.now moment) }
{
    let word = moment_word(alloc, moment)?;
    text.push_str(what)?;
    text.push_str(word.as_str())?;
    text.push_str("\n")
}

fn moment_word(alloc: Global, moment: Option<Moment>) -> Result<String, AllocError>
    ensures { IfOk result (λ word. string_bytes word ≡ moment_word moment) }
{
    match moment {
        Some(moment) => moment.text(alloc),
        None => String::from_str(alloc, "not noted"),
    }
}

fn push_end(
    alloc: Global,
    text: &mut String,
    user: &str,
    end: &Option<Bundle>,
) -> Result<(), AllocError>
    ensures { OnOk result (string_bytes text.new ≡ string_bytes text.old ++ end_line user.now end.now) }
{
    match end {
        Some(bundle) => {
            text.push_str("# ")?;
            push_bundle(alloc, text, user, bundle)
        }
        None => text.push_str("# it has not ended\n"),
    }
}
