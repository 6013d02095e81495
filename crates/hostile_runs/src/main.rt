//! How calls behave when memory runs out. The program prints each answer under its title; a call that runs out of
//! memory is made once more, and both answers are printed. `tests/memory.py` runs it with each allocation refused in
//! turn.
#![tactic(auto)]

mod calls;
mod datagrams;
mod fault;
mod shared;
mod transcript;
mod working;

use entity_config::Config;
use fault::Fault;
use std::alloc::{AllocError, Global};
use std::sync::Wait;
use std::thread::Threads;
use transcript::Transcript;

fn main(rt: HostRuntime) -> Result<(), Fault> {
    print_answers(rt)
}

// Prints the answer to each call.
fn print_answers<R: Threads + Wait + AllocGlobal + Print + Copy + Send + Sync>(
    rt: R,
) -> Result<(), Fault> {
    let alloc = rt.alloc();
    let mut transcript = Transcript::new(alloc)?;
    shared::play(rt, alloc, &mut transcript)?;
    calls::make_all(alloc, &mut transcript)?;
    Ok(print!(rt; "{}", transcript.text())?)
}

// The reference configuration.
fn reference(alloc: Global) -> Result<Config, AllocError> {
    Config::reference(alloc).or_else(|_error| Config::reference(alloc))
}
