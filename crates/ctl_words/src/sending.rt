//! The command that puts a file in the outbox.
ghost use Rattle.std.specs.Prelude.{◌≡◌, ◌++◌, ◌<◌, IfOk, OnOk, codes, flat_map};
ghost use Rattle.std.specs.List.{list_all};
ghost use Rattle.ctl_words.specs.Commands.{alias_octets, closure_octets, head_octets, hex_digit, is_marked, is_plain, is_plain_octet, is_printable, names_octets, numbers_octets, options_octets, quoted_octet, send_octets, urgent_octets, word_octets};

use std::alloc::{AllocError, Global};

/// The operands of a `send`.
#[derive(Clone, Copy)]
pub struct SendCommand<'a> {
    pub user: &'a str,
    /// 1 or 2.
    pub class: u64,
    /// The entity that receives the file.
    pub remote: u64,
    /// The path of the file for the server.
    pub source: &'a str,
    /// The destination file name.
    pub target: &'a str,
    /// Whether the receiver is asked to report at the end what became of the file, in class 1 too.
    pub is_closed: bool,
    /// Whether the file goes before those of its user that aren't urgent.
    pub is_urgent: bool,
    /// The source file name that the receiver learns; if empty, it learns the path.
    pub alias: &'a str,
}

/// The text of a `send`, without its line feed: printable ASCII characters only.
pub fn send_command(alloc: Global, send: &SendCommand<'_>) -> Result<Vec<u8>, AllocError>
    ensures { IfOk result (λ command. command.items
        ≡ send_octets send.now.user.now send.now.class send.now.remote send.now.source.now send.now.target.now
        (options_octets send.now.is_closed send.now.is_urgent send.now.alias.now)) }
{
    let mut command = Vec::new(alloc);
    push_head(alloc, &mut command, send.user, send.class, send.remote)?;
    push_names(&mut command, send.source, send.target)?;
    push_options(&mut command, send.is_closed, send.is_urgent, send.alias)?;
    Ok(command)
}

// Adds the user, the class and the receiver.
fn push_head(
    alloc: Global,
    command: &mut Vec<u8>,
    user: &str,
    class: u64,
    remote: u64,
) -> Result<(), AllocError>
    ensures { OnOk result (command.new.items ≡ command.old.items ++ head_octets user.now class remote) }
{
    command.extend_from_slice(b"send ")?;
    push_word(command, user.as_bytes())?;
    push_numbers(alloc, command, class, remote)
}

// Adds a class and an entity.
fn push_numbers(
    alloc: Global,
    command: &mut Vec<u8>,
    class: u64,
    remote: u64,
) -> Result<(), AllocError>
    ensures { OnOk result (command.new.items ≡ command.old.items ++ numbers_octets class remote) }
{
    let numbers = format!(in alloc; " {class} {remote} ")?;
    command.extend_from_slice(numbers.as_bytes())
}

// Adds the source and the destination file name.
fn push_names(command: &mut Vec<u8>, source: &str, target: &str) -> Result<(), AllocError>
    ensures { OnOk result (command.new.items ≡ command.old.items ++ names_octets source.now target.now) }
{
    push_word(command, source.as_bytes())?;
    command.extend_from_slice(b" ")?;
    push_word(command, target.as_bytes())
}

// Adds what is asked for beside the file's names.
fn push_options(
    command: &mut Vec<u8>,
    is_closed: bool,
    is_urgent: bool,
    alias: &str,
) -> Result<(), AllocError>
    ensures { OnOk result (command.new.items ≡ command.old.items ++ options_octets is_closed is_urgent alias.now) }
{
    command.extend_from_slice(closure_word(is_closed))?;
    command.extend_from_slice(urgent_word(is_urgent))?;
    push_alias(command, alias)
}

// Adds the source file name that the receiver learns, unless it is empty.
fn push_alias(command: &mut Vec<u8>, alias: &str) -> Result<(), AllocError>
    ensures { OnOk result (command.new.items ≡ command.old.items ++ alias_octets alias.now) }
{
    if alias.is_empty() {
        return Ok(());
    }
    command.extend_from_slice(b" as ")?;
    push_word(command, alias.as_bytes())
}

// The word of a file that goes before others of its user.
fn urgent_word(is_urgent: bool) -> &'static [u8]
    ensures { result.now ≡ urgent_octets is_urgent }
{
    if is_urgent { b" urgent" } else { b"" }
}

// The last word, if the receiver is asked to report what became of the file.
fn closure_word(is_closed: bool) -> &'static [u8]
    ensures { result.now ≡ closure_octets is_closed }
{
    if is_closed { b" closure" } else { b"" }
}

// Adds a word, in quotes if it needs them.
pub(crate) fn push_word(command: &mut Vec<u8>, word: &[u8]) -> Result<(), AllocError>
    ensures { OnOk result (command.new.items ≡ command.old.items ++ word_octets word.now) }
{
    if is_plain(word) {
        return command.extend_from_slice(word);
    }
    command.extend_from_slice(b"\"")?;
    push_inner(command, word)?;
    command.extend_from_slice(b"\"")
}

// Adds the text between a word's quotes.
fn push_inner(command: &mut Vec<u8>, word: &[u8]) -> Result<(), AllocError>
    ensures { OnOk result (command.new.items ≡ command.old.items ++ flat_map quoted_octet word.now) }
{
    for octet in word {
        push_octet(command, *octet)?;
    }
    Ok(())
}

// Adds an octet as it is written between quotes.
fn push_octet(command: &mut Vec<u8>, octet: u8) -> Result<(), AllocError>
    ensures { OnOk result (command.new.items ≡ command.old.items ++ quoted_octet octet) }
{
    if is_marked(octet) {
        command.extend_from_slice(&[b'\\', octet])
    } else if is_printable(octet) {
        command.extend_from_slice(&[octet])
    } else {
        command.extend_from_slice(&[b'\\', b'x', hex_digit(octet / 16), hex_digit(octet % 16)])
    }
}

// The hex digit of a number below sixteen.
fn hex_digit(number: u8) -> u8
    requires { number < 16 }
    ensures { result ≡ hex_digit number }
{
    if number < 10 {
        b'0' + number
    } else {
        b'a' + (number - 10)
    }
}

// Whether a word needs no quotes.
fn is_plain(word: &[u8]) -> bool
    ensures { result ≡ is_plain word.now }
{
    if word.is_empty() {
        false
    } else {
        are_plain(word)
    }
}

// Whether no octet of a word makes quotes necessary.
fn are_plain(word: &[u8]) -> bool
    ensures { result ≡ list_all is_plain_octet word.now }
{
    word.iter().all(|octet| is_plain_octet(*octet))
}

// Whether an octet doesn't make quotes necessary.
fn is_plain_octet(octet: u8) -> bool
    ensures { result ≡ is_plain_octet octet }
{
    octet.is_ascii_graphic() && !(octet == b'#' || is_marked(octet))
}

// Whether an octet is a printable ASCII character.
fn is_printable(octet: u8) -> bool
    ensures { result ≡ is_printable octet }
{
    octet == b' ' || octet.is_ascii_graphic()
}

// Whether an octet needs a backslash between quotes.
fn is_marked(octet: u8) -> bool
    ensures { result ≡ is_marked octet }
{
    octet == b'"' || octet == b'\\'
}
