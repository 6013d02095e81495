//! Commands that the console passes on.
ghost use Rattle.std.specs.Prelude.{◌≡◌, ◌==◌, ◌↔◌, ◌<◌, ◌⊎◌, IsTrue, IfSome, length, nat_le, position};
ghost use Rattle.std.specs.List.{list_all};
ghost use Rattle.web_pages.specs.Commands.{IsCommand, IsOfOutbox, IsOfTransaction, IsOfRemote, first_word};

use crate::guard::is_same;

/// Whether the console passes a command on: those on transactions, the outbox and remotes, in one line without octets
/// below 32. Neither `quit` nor `follow` is one.
pub fn is_command(line: &[u8]) -> bool
    ensures { IsTrue result ↔ IsCommand line.now }
{
    is_plain(line) && is_known(first_word(line))
}

// Whether there are no octets below 32.
fn is_plain(line: &[u8]) -> bool
    ensures { result ≡ list_all (λ octet. nat_le 32 octet) line.now }
{
    line.iter().all(|octet| 32 <= *octet)
}

// The place of the first space.
fn space_place(line: &[u8]) -> Option<usize>
    ensures place { result ≡ position (λ octet. octet == 32) line.now }
    ensures within { IfSome result (λ at. at < length line.now) }
{
    line.iter().position(|octet| *octet == b' ')
}

// All before the first space.
fn first_word(line: &[u8]) -> &[u8]
    ensures { result.now ≡ first_word line.now }
{
    match space_place(line) {
        Some(at) => &line[..at],
        None => line,
    }
}

// Whether the word is of a command that is passed on.
fn is_known(word: &[u8]) -> bool
    ensures { IsTrue result ↔ (IsOfOutbox word.now ⊎ (IsOfTransaction word.now ⊎ IsOfRemote word.now)) }
{
    is_of_outbox(word) || is_of_transaction(word) || is_of_remote(word)
}

fn is_of_outbox(word: &[u8]) -> bool
    ensures { IsTrue result ↔ IsOfOutbox word.now }
{
    is_same(word, b"send".as_slice()) || is_same(word, b"drop".as_slice())
}

fn is_of_transaction(word: &[u8]) -> bool
    ensures { IsTrue result ↔ IsOfTransaction word.now }
{
    is_same(word, b"cancel".as_slice())
        || is_same(word, b"report".as_slice())
        || is_same(word, b"suspend".as_slice())
        || is_same(word, b"resume".as_slice())
        || is_same(word, b"journal".as_slice())
        || is_same(word, b"abandon".as_slice())
}

fn is_of_remote(word: &[u8]) -> bool
    ensures { IsTrue result ↔ IsOfRemote word.now }
{
    is_same(word, b"hold".as_slice())
        || is_same(word, b"release".as_slice())
        || is_same(word, b"rate".as_slice())
}
