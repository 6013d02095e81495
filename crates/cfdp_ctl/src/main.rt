//! Commands a running server over its control socket.
#![tactic(auto)]

mod acting;
mod asking;
mod checking;
mod fault;
mod following;
mod history;
mod hold;
mod items;
mod known;
mod looking;
mod opening;
mod paths;
mod planning;
mod reasons;
mod resending;
mod running;
mod screen;
mod sending;
mod sent;
mod tasks;
mod waiting;
mod watching;

use running::run;
use screen::Screen;
use std::io;
use std::io::IsTerminal;
use std::process::ExitCode;

// Does what the command line asks for.
fn main(rt: HostRuntime) -> ExitCode {
    let is_terminal = rt.stdout().is_terminal();
    let shows_progress = rt.stderr().is_terminal();
    let mut screen = Screen::new(io::writer(&rt), rt.stderr(), is_terminal, shows_progress);
    screen.can_ask = shows_progress && rt.stdin().is_terminal();
    ExitCode::from(run(&rt, rt.alloc(), &mut screen))
}
