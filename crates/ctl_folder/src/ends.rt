//! What is done with a file of the folder at its end.
ghost use Rattle.std.specs.Prelude.{◌≡◌};
ghost use Rattle.ctl_folder.specs.Ends.{at_end, by_turn, given_again, is_as_given, rest_of};

use crate::watched::{Mark, Sight, is_same};

// How many milliseconds a file is looked at after it was moved.
const SETTLING: u64 = 10_000;

/// What is known of a file from before the server read it.
#[derive(Clone, Copy)]
pub enum Given {
    /// How it was seen then.
    Seen(Mark),
    /// Nothing.
    Unseen,
}

/// How a file's turn ended.
#[derive(Clone, Copy)]
pub enum Turn {
    /// The file has arrived, as far as the sender can know.
    Arrived,
    /// It was sent, and didn't arrive, or the server refused it.
    Failed,
    /// It left the outbox unsent.
    Unread,
}

/// What is done with a file at its end.
#[derive(Clone, Copy)]
pub enum AtEnd {
    ToSent,
    ToFailed,
    /// It stays, and is sent again.
    Again,
}

/// What is done with a file after it was moved.
#[derive(Clone, Copy)]
pub enum Rest {
    /// It is looked at again.
    Watch,
    Leave,
    /// It is moved back, and sent again.
    TakeBack,
}

/// What is known of a file that a server turns out to have, by what was known of it, whether it is where it was,
/// whether its turn has begun, and how it is now.
pub fn given_again(given: Given, is_same_place: bool, has_begun: bool, mark: Mark) -> Given
    ensures { result ≡ given_again given is_same_place has_begun mark }
{
    if is_same_place {
        given
    } else if has_begun {
        Given::Unseen
    } else {
        Given::Seen(mark)
    }
}

/// What is done with a file at its end, by how it is now (`None` if it is gone), how its turn ended, and whether it was
/// renamed meanwhile.
pub fn at_end(given: Given, seen: Option<Mark>, turn: Turn, is_renamed: bool) -> AtEnd
    ensures { result ≡ at_end given seen turn is_renamed }
{
    if is_as_given(given, seen) {
        by_turn(turn, is_renamed)
    } else {
        AtEnd::Again
    }
}

// Whether a file is there, and as it was before the server read it.
fn is_as_given(given: Given, seen: Option<Mark>) -> bool
    ensures { result ≡ is_as_given given seen }
{
    match (given, seen) {
        (Given::Seen(mark), Some(seen)) => is_same(mark, seen),
        (Given::Seen(_), None) => false,
        (Given::Unseen, _) => false,
    }
}

// Where an unchanged file goes.
fn by_turn(turn: Turn, is_renamed: bool) -> AtEnd
    ensures { result ≡ by_turn turn is_renamed }
{
    match turn {
        Turn::Arrived => AtEnd::ToSent,
        Turn::Failed => AtEnd::ToFailed,
        Turn::Unread => {
            if is_renamed {
                AtEnd::Again
            } else {
                AtEnd::ToFailed
            }
        }
    }
}

/// What is done with a file that was moved at the moment of its sight, by how it is now; `None` if it is gone.
pub fn rest_of(sight: Sight, seen: Option<Mark>, now: u64) -> Rest
    ensures { result ≡ rest_of sight seen now }
{
    let Some(seen) = seen else {
        return Rest::Leave;
    };
    if !is_same(sight.mark, seen) {
        Rest::TakeBack
    } else if now.saturating_sub(sight.since) >= SETTLING {
        Rest::Leave
    } else {
        Rest::Watch
    }
}
