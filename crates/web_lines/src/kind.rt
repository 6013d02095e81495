//! What a line of status is about.
ghost use Rattle.std.specs.Prelude.{◌≡◌, option_map};
ghost use Rattle.json.specs.Value.{value_view};
ghost use Rattle.web_lines.specs.Document.{named, kind_name, kind_of_value, place_of};

use json::Value;
use station_names::{kind, member};

/// What a line of status is about.
#[derive(Clone, Copy, Debug, PartialEq, Eq)]
pub enum Kind {
    Entity,
    Log,
    User,
    Transaction,
    Remote,
    Refusal,
    /// A file that waits in the outbox.
    Queued,
    /// A file being read.
    Reading,
    /// A lane for which datagrams wait, or were dropped.
    Parked,
    /// A received file being stored, or one that couldn't be stored so far.
    Storing,
    /// The recordings of transactions.
    Recorder,
    /// The transactions that ended in one way.
    Ended,
    /// The files that came whole, in one role.
    Delivered,
    /// The last file that was given to the store.
    Store,
}

impl Kind {
    // The kind of this name.
    fn named(name: &str) -> Option<Kind>
        ensures { result ≡ named name.now }
    {
        match name {
            kind::ENTITY => Some(Kind::Entity),
            kind::LOG => Some(Kind::Log),
            kind::USER => Some(Kind::User),
            kind::TRANSACTION => Some(Kind::Transaction),
            kind::REMOTE => Some(Kind::Remote),
            kind::REFUSAL => Some(Kind::Refusal),
            kind::QUEUED => Some(Kind::Queued),
            kind::READING => Some(Kind::Reading),
            kind::PARKED => Some(Kind::Parked),
            kind::STORING => Some(Kind::Storing),
            kind::RECORDER => Some(Kind::Recorder),
            kind::ENDED => Some(Kind::Ended),
            kind::DELIVERED => Some(Kind::Delivered),
            kind::STORE => Some(Kind::Store),
            _ => None,
        }
    }

    /// The place of its list in the document.
    pub(crate) fn place(self) -> u8
        ensures { result ≡ place_of self }
    {
        match self {
            Kind::Entity => 0,
            Kind::Log => 1,
            Kind::User => 2,
            Kind::Transaction => 3,
            Kind::Remote => 4,
            Kind::Refusal => 5,
            Kind::Queued => 6,
            Kind::Reading => 7,
            Kind::Parked => 8,
            Kind::Storing => 9,
            Kind::Recorder => 10,
            Kind::Ended => 11,
            Kind::Delivered => 12,
            Kind::Store => 13,
        }
    }

    /// The kind of a line that was read; None if it isn't an object of a kind known here.
    pub(crate) fn of(value: &Value<'_>) -> Option<Kind>
        ensures { result ≡ kind_of_value (value_view value.now) }
    {
        match kind_name(value) {
            Some(name) => Kind::named(name),
            None => None,
        }
    }
}

// The text of the member `kind`.
fn kind_name<'a>(value: &Value<'a>) -> Option<&'a str>
    ensures { option_map (λ s. s.now) result ≡ kind_name (value_view value.now) }
{
    match value.get(member::KIND) {
        Some(member) => member.as_str(),
        None => None,
    }
}
