//! A whole plan.
ghost use Rattle.std.specs.Prelude.{◌≡◌, take_while, nat_eq, not};

use crate::moments::moment_text;
use crate::overlaps::clashes;
use crate::window::{Blame, Why, Window, read_window};
use std::alloc::{AllocError, Global};

/// A line of a plan that can't be used.
#[derive(Drop)]
pub struct Fault {
    /// Its number, from 1.
    pub line: u64,
    /// The word that is wrong.
    pub word: String,
    pub why: Why,
}

/// What a plan's text says.
#[derive(Drop)]
pub struct Plan {
    /// Its windows, in the order of entities, and for each entity in that of beginnings.
    pub windows: Vec<Window>,
    /// Its faults, in the order of lines.
    pub faults: Vec<Fault>,
}

/// Reads the text of a plan. Each line has a window: when it begins, when it ends, the entity, and a rate if there is
/// one. What follows a `#` is left out, and so are empty lines.
pub fn read_plan(alloc: Global, text: &str) -> Result<Plan, AllocError> {
    let mut plan = Plan {
        windows: Vec::new(alloc),
        faults: Vec::new(alloc),
    };
    let mut number = 0u64;
    for line in text.split('\n') {
        number = number.saturating_add(1);
        read_line(alloc, &mut plan, number, line)?;
    }
    plan.windows
        .sort_by_key(|window| (window.remote, window.from))?;
    for clash in clashes(alloc, plan.windows.as_slice())? {
        let word = moment_text(alloc, clash.window.from)?;
        push_fault(&mut plan, clash.window.line, word, Why::Overlap(clash.line))?;
    }
    plan.faults.sort_by_key(|fault| fault.line)?;
    Ok(plan)
}

fn read_line(alloc: Global, plan: &mut Plan, number: u64, line: &str) -> Result<(), AllocError> {
    let mut words = Vec::new(alloc);
    for word in without_comment(line).split_whitespace() {
        words.push(word)?;
    }
    if words.is_empty() {
        return Ok(());
    }
    match read_window(number, words.as_slice()) {
        Ok(window) => match plan.windows.push(window) {
            Ok(()) => Ok(()),
            Err(_) => Err(AllocError),
        },
        Err(Blame { place, why }) => {
            let word = words.as_slice().get(place).copied().unwrap_or("");
            push_fault(plan, number, String::from_str(alloc, word)?, why)
        }
    }
}

fn push_fault(plan: &mut Plan, line: u64, word: String, why: Why) -> Result<(), AllocError> {
    match plan.faults.push(Fault { line, word, why }) {
        Ok(()) => Ok(()),
        Err(_) => Err(AllocError),
    }
}

// What stands before a comment.
fn without_comment(line: &str) -> &str {
    match line.split_once('#') {
        Some((before, _)) => before,
        None => line,
    }
}
