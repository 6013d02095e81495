//! The words of commands about transactions, and of those that change the server.
ghost use Rattle.std.specs.Prelude.{◌≡◌, ◌++◌, OnOk};
ghost use Rattle.server_lines.specs.CommandWords.{about_words, ask_words, limit_octets, limited_octets, tuning_words};
ghost use Rattle.server_lines.specs.declared.command.Tuning.TheVariants as tuning;

use crate::Tuning;
use crate::parts::{push_number, push_user};
use cfdp_types::{EntityId, TxnKey};
use entity_config::Config;
use entity_routing::Request;
use std::alloc::{AllocError, Global};

/// Adds what a user asks for. A report changes nothing, so nothing is added for it.
pub(crate) fn push_asked(
    alloc: Global,
    words: &mut Vec<u8>,
    config: &Config,
    user: usize,
    asked: &Request,
) -> Result<(), AllocError>
    ensures { OnOk result (words.new.items ≡ words.old.items ++ ask_words config.now user asked.now) }
{
    match asked {
        Request::Cancel(key) => push_about(alloc, words, b"cancel ", config, user, *key),
        Request::Suspend(key) => push_about(alloc, words, b"suspend ", config, user, *key),
        Request::Resume(key) => push_about(alloc, words, b"resume ", config, user, *key),
        Request::Abandon(key) => push_about(alloc, words, b"abandon ", config, user, *key),
        Request::Put(_, _) | Request::Report(_) => Ok(()),
    }
}

// Adds a command about a user's transaction, by its first word with the space after it.
fn push_about(
    alloc: Global,
    words: &mut Vec<u8>,
    name: &[u8],
    config: &Config,
    user: usize,
    key: TxnKey,
) -> Result<(), AllocError>
    ensures { OnOk result (words.new.items ≡ words.old.items ++ (name.now ++ about_words config.now user key)) }
{
    words.extend_from_slice(name)?;
    push_user(words, config, user)?;
    push_number(alloc, words, key.source.0)?;
    push_number(alloc, words, key.seq)
}

/// Adds what changes the server. Following changes nothing, so nothing is added for it.
pub(crate) fn push_tuning(
    alloc: Global,
    words: &mut Vec<u8>,
    tuning: &Tuning,
) -> Result<(), AllocError>
    ensures { OnOk result (words.new.items ≡ words.old.items ++ tuning_words tuning.now) }
{
    match tuning {
        Tuning::Rate(remote, limit) => push_rate(alloc, words, *remote, *limit),
        Tuning::HoldAll => words.extend_from_slice(b"hold all"),
        Tuning::ReleaseAll => words.extend_from_slice(b"release all"),
        Tuning::ReleaseFor(remote, seconds) => push_window(alloc, words, *remote, *seconds),
        Tuning::Reopen => words.extend_from_slice(b"reopen"),
        Tuning::FollowFrom(_, _) => Ok(()),
    }
}

// Adds a limit, for one entity or for all.
fn push_rate(
    alloc: Global,
    words: &mut Vec<u8>,
    remote: Option<EntityId>,
    limit: Option<u64>,
) -> Result<(), AllocError>
    ensures { OnOk result (words.new.items ≡ words.old.items ++ tuning_words (tuning.Rate remote limit)) }
{
    words.extend_from_slice(b"rate")?;
    push_limited(alloc, words, remote)?;
    push_limit(alloc, words, limit)
}

// Adds the entity that a limit is for, if it is for one.
fn push_limited(
    alloc: Global,
    words: &mut Vec<u8>,
    remote: Option<EntityId>,
) -> Result<(), AllocError>
    ensures { OnOk result (words.new.items ≡ words.old.items ++ limited_octets remote) }
{
    match remote {
        Some(remote) => push_number(alloc, words, remote.0),
        None => Ok(()),
    }
}

// Adds a limit, or `off` if there is none.
fn push_limit(alloc: Global, words: &mut Vec<u8>, limit: Option<u64>) -> Result<(), AllocError>
    ensures { OnOk result (words.new.items ≡ words.old.items ++ limit_octets limit) }
{
    match limit {
        Some(octets) => push_number(alloc, words, octets),
        None => words.extend_from_slice(b" off"),
    }
}

// Adds a release for some seconds.
fn push_window(
    alloc: Global,
    words: &mut Vec<u8>,
    remote: EntityId,
    seconds: u64,
) -> Result<(), AllocError>
    ensures { OnOk result (words.new.items ≡ words.old.items ++ tuning_words (tuning.ReleaseFor remote seconds)) }
{
    words.extend_from_slice(b"release")?;
    push_number(alloc, words, remote.0)?;
    push_number(alloc, words, seconds)
}
