//! The options of the program.
use clap::{Arg, ArgAction, Command};
use release::VERSION;
use std::alloc::{AllocError, Global};

/// An option with a value.
fn valued<'a>(alloc: Global, name: &'static str) -> Arg<'a> {
    Arg::new(alloc, name).long(name).action(ArgAction::Set)
}

/// An option without a value, present or absent.
fn flag<'a>(alloc: Global, name: &'static str) -> Arg<'a> {
    Arg::new(alloc, name).long(name).action(ArgAction::SetTrue)
}

/// The options and words of the program.
pub(crate) fn command<'a>(alloc: Global) -> Result<Command<'a>, AllocError> {
    let command = with_options(alloc, Command::new(alloc, "cfdp_ctl").version(VERSION))?;
    let command = with_send(alloc, command)?;
    with_choice(alloc, command)?.arg(
        Arg::new(alloc, "words")
            .action(ArgAction::Append)
            .num_args(0..),
    )
}

// The options of the program, and those of `status`, `follow` and `outbox`.
fn with_options<'a>(alloc: Global, command: Command<'a>) -> Result<Command<'a>, AllocError> {
    command
        .override_usage("cfdp_ctl --control PATH [OPTIONS] [COMMAND [WORD..]]")
        .arg(valued(alloc, "control"))?
        .arg(valued(alloc, "wait-for-server"))?
        .arg(valued(alloc, "colour"))?
        .arg(valued(alloc, "width"))?
        .arg(flag(alloc, "json"))?
        .arg(flag(alloc, "watch"))?
        .arg(valued(alloc, "user"))?
        .arg(valued(alloc, "transaction"))?
        .arg(valued(alloc, "last"))?
        .arg(valued(alloc, "level"))?
        .arg(flag(alloc, "follow-again"))
}

// The options of `send` and `watch`, except their user.
fn with_send<'a>(alloc: Global, command: Command<'a>) -> Result<Command<'a>, AllocError> {
    command
        .arg(valued(alloc, "to"))?
        .arg(valued(alloc, "class"))?
        .arg(flag(alloc, "closure"))?
        .arg(flag(alloc, "urgent"))?
        .arg(valued(alloc, "into"))?
        .arg(flag(alloc, "wait"))?
        .arg(valued(alloc, "retry"))?
        .arg(flag(alloc, "recursive").short('r'))?
        .arg(flag(alloc, "once"))?
        .arg(flag(alloc, "delete"))
}

// The options that choose transactions, of `status`, `history`, `resend` and of commands for transactions; and that of
// `windows`.
fn with_choice<'a>(alloc: Global, command: Command<'a>) -> Result<Command<'a>, AllocError> {
    command
        .arg(valued(alloc, "log"))?
        .arg(valued(alloc, "since"))?
        .arg(valued(alloc, "remote"))?
        .arg(flag(alloc, "failed"))?
        .arg(flag(alloc, "all"))?
        .arg(flag(alloc, "yes"))?
        .arg(flag(alloc, "check"))
}
