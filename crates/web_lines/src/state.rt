//! The states of transactions.
ghost use Rattle.std.specs.Prelude.{◌≡◌, ◌++◌, IfOk, OnOk, option_map, option_and_then, codes};
ghost use Rattle.json.specs.Find.{as_str, get};
ghost use Rattle.json.specs.Value.{value_view};
ghost use Rattle.web_lines.specs.States.{count_in_state, name_of_state, place_of_state, state_in, state_named, state_of_line, states_of};

use crate::kind::Kind;
use crate::lines::Line;
use json::{Scratch, Value};
use station_names::{member, word};
use std::alloc::{AllocError, Global};

/// The state of a transaction.
#[derive(Clone, Copy, Debug)]
pub(crate) enum State {
    Active,
    Suspended,
    Storing,
    Closing,
    Ended,
}

/// All states.
pub(crate) const STATES: [State; 5] = [
    State::Active,
    State::Suspended,
    State::Storing,
    State::Closing,
    State::Ended,
];

impl State {
    // The state of this name.
    fn named(name: &str) -> Option<State>
        ensures { result ≡ state_named name.now }
    {
        match name {
            "active" => Some(State::Active),
            "suspended" => Some(State::Suspended),
            "storing" => Some(State::Storing),
            "closing" => Some(State::Closing),
            word::ENDED => Some(State::Ended),
            _ => None,
        }
    }

    /// Its name.
    pub(crate) fn name(self) -> &'static str
        ensures { result.now ≡ name_of_state self }
    {
        match self {
            State::Active => "active",
            State::Suspended => "suspended",
            State::Storing => "storing",
            State::Closing => "closing",
            State::Ended => word::ENDED,
        }
    }

    // A number that tells it from the others.
    fn place(self) -> u8
        ensures { result ≡ place_of_state self }
    {
        match self {
            State::Active => 0,
            State::Suspended => 1,
            State::Storing => 2,
            State::Closing => 3,
            State::Ended => 4,
        }
    }
}

/// The states of the transactions that lines are about.
pub(crate) fn states_of(alloc: Global, lines: &[Line<'_>]) -> Result<Vec<State>, AllocError>
    ensures { IfOk result (λ states. states.items ≡ states_of lines.now) }
{
    let mut scratch = Scratch::new(alloc);
    let mut states = Vec::new(alloc);
    for line in lines {
        push_state_of(alloc, &mut states, *line, &mut scratch)?;
    }
    Ok(states)
}

// Adds the state of a line's transaction, if it is about one and says its state.
fn push_state_of(
    alloc: Global,
    states: &mut Vec<State>,
    line: Line<'_>,
    scratch: &mut Scratch,
) -> Result<(), AllocError>
    ensures { OnOk result (states.new.items ≡ states.old.items ++ state_of_line line.entry) }
{
    if line.kind.place() != Kind::Transaction.place() {
        return Ok(());
    }
    scratch.reserve(line.text.len())?;
    let Ok(value) = Value::parse(alloc, line.text, scratch) else {
        return Err(AllocError);
    };
    if let Some(state) = state_in(&value) {
        states.push(state)?;
    }
    Ok(())
}

// The state that a line's member names.
fn state_in(value: &Value<'_>) -> Option<State>
    ensures { result ≡ state_in (value_view value.now) }
{
    match state_name(value) {
        Some(name) => State::named(name),
        None => None,
    }
}

// The text of the member `state`.
fn state_name<'a>(value: &Value<'a>) -> Option<&'a str>
    ensures { option_map (λ s. s.now) result ≡ option_and_then as_str (get (codes "state") (value_view value.now)) }
{
    match value.get(member::STATE) {
        Some(member) => member.as_str(),
        None => None,
    }
}

/// How many of the states are this one.
pub(crate) fn count_of(states: &[State], state: State) -> u64
    ensures { result ≡ count_in_state state states.now }
{
    let mut count = 0u64;
    for other in states {
        if other.place() == state.place() {
            count += 1;
        }
    }
    count
}
