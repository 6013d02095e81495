//! Runs a whole script.
ghost use Rattle.std.specs.Prelude.{◌≡◌, ℕ, ◌<◌, ◌≤◌, ◌+◌, List, [], length, max, Option, IfSome, OnOk, string_bytes};
ghost use Rattle.script_io.specs.Lines.{lines_of};
ghost use Rattle.script_io.specs.Output.{Buffers};
ghost use Rattle.script_replay.specs.declared.session.Session.{Session};
ghost use Rattle.script_replay.specs.Run.{Replays};
ghost use Rattle.script_replay.specs.Running.{Stands, Ran, Ends, GoesOn};
ghost use Rattle.script_replay.specs.Sessions.{Session as Played, configured, fresh};

use crate::session::Session;
use entity_config::Config;
use script_io::{
    BLOCK_OCTETS, NextLine, ReplayFault, flush_buffer, in_blocks, next_line, write_buffered,
};
use std::alloc::Global;
use std::io::{BufRead, Read, Write};

/// The most lines of a script.
pub const LINES: u32 = 1_000_000;

/// When answers are written.
#[derive(Clone, Copy, Debug, PartialEq, Eq)]
pub enum AnswerPace {
    /// In blocks: an answer may be written later than the line after it is read.
    ByBlocks,
    /// Each before the next line is read, for a person at a terminal.
    ByLines,
}

// The line that is played and its output, and the allocator for both.
#[derive(Drop)]
struct Scratch {
    alloc: Global,
    line: Vec<u8>,
    text: String,
}

/// Runs the reader's script through an entity, line by line, and writes the answers in blocks. It also reads in blocks:
/// if the run ends before the script does, the reader is ahead of the last line played. The script begins with the
/// reference configuration.
pub fn replay<R: Read, W: Write>(
    alloc: Global,
    reader: &mut R,
    writer: &mut W,
) -> Result<(), ReplayFault>
    ensures { IfSome (R.remaining reader.old)
        (λ script. Replays fresh result (lines_of script) (W.contents writer.old) (W.contents writer.new)) }
{
    replay_at(alloc, reader, writer, AnswerPace::ByBlocks)
}

/// Like [`replay`], with the answers written at this pace.
pub fn replay_at<R: Read, W: Write>(
    alloc: Global,
    reader: &mut R,
    writer: &mut W,
    pace: AnswerPace,
) -> Result<(), ReplayFault>
    ensures { IfSome (R.remaining reader.old)
        (λ script. Replays fresh result (lines_of script) (W.contents writer.old) (W.contents writer.new)) }
{
    let session = Session::reference(alloc)?;
    replay_in(alloc, session, reader, writer, pace)
}

/// Like [`replay_at`], for a script that begins with this configuration, and may have lines that gather octets.
pub fn replay_with<R: Read, W: Write>(
    alloc: Global,
    config: Config,
    reader: &mut R,
    writer: &mut W,
    pace: AnswerPace,
) -> Result<(), ReplayFault>
    ensures { IfSome (R.remaining reader.old) (λ script. Replays (configured config) result (lines_of script)
        (W.contents writer.old) (W.contents writer.new)) }
{
    let session = Session::configured(alloc, config);
    replay_in(alloc, session, reader, writer, pace)
}

// Runs the reader's script in a session.
fn replay_in<R: Read, W: Write>(
    alloc: Global,
    session: Session,
    reader: &mut R,
    writer: &mut W,
    pace: AnswerPace,
) -> Result<(), ReplayFault>
    ensures { (start : Played) → Stands session start → IfSome (R.remaining reader.old)
        (λ script. Replays start result (lines_of script) (W.contents writer.old) (W.contents writer.new)) }
{
    let mut buffer = Vec::new(alloc);
    let ended = play_script(alloc, session, reader, writer, &mut buffer, pace);
    flush_buffer(writer, &mut buffer)?;
    ended
}

// Runs the script. At the end the buffer holds the output that was not written yet.
fn play_script<R: Read, W: Write>(
    alloc: Global,
    session: Session,
    reader: &mut R,
    writer: &mut W,
    buffer: &mut Vec<u8>,
    pace: AnswerPace,
) -> Result<(), ReplayFault>
    requires { buffer.old.items ≡ [] }
    ensures { (start : Played) → Stands session start → IfSome (R.remaining reader.old)
        (λ script. Ends start result (lines_of script) (W.contents writer.old) (W.contents writer.new)
        buffer.new.items) }
{
    let mut session = session;
    let mut blocks = in_blocks(alloc, reader)?;
    play_lines(alloc, &mut session, &mut blocks, writer, buffer, pace)
}

// Plays all lines of a reader in a new session.
fn play_lines<B: BufRead, W: Write>(
    alloc: Global,
    session: &mut Session,
    reader: &mut B,
    writer: &mut W,
    buffer: &mut Vec<u8>,
    pace: AnswerPace,
) -> Result<(), ReplayFault>
    ensures { (start : Played) (lines : List (List ℕ)) (old : Option (List ℕ))
        → Ran start lines (B.remaining reader.old) 0 session.old old (W.contents writer.old) buffer.old.items
        → Ends start result lines old (W.contents writer.new) buffer.new.items }
{
    let mut scratch = Scratch {
        alloc,
        line: Vec::new(alloc),
        text: String::new(alloc),
    };
    for count in 0..LINES {
        if !turn(session, &mut scratch, reader, writer, buffer, count)? {
            return Ok(());
        }
        hand_on(writer, buffer, pace)?;
    }
    ends(reader, &mut scratch.line)
}

// Writes the buffer if answers are written line by line.
fn hand_on<W: Write>(
    writer: &mut W,
    buffer: &mut Vec<u8>,
    pace: AnswerPace,
) -> Result<(), ReplayFault>
    ensures { Buffers result (W.contents writer.old) (W.contents writer.new) buffer.old.items [] buffer.new.items }
{
    match pace {
        AnswerPace::ByBlocks => Ok(()),
        AnswerPace::ByLines => flush_buffer(writer, buffer),
    }
}

// Returns an error if a line follows the last one that a script may have.
fn ends<B: BufRead>(reader: &mut B, line: &mut Vec<u8>) -> Result<(), ReplayFault>
    ensures { (start : Played) (lines : List (List ℕ)) (session : Session) (old new : Option (List ℕ)) (buffer : List ℕ)
        → Ran start lines (B.remaining reader.old) LINES session old new buffer
        → Ends start result lines old new buffer }
{
    match next_line(reader, line)? {
        NextLine::End => Ok(()),
        NextLine::TooLong => Err(ReplayFault::BadLine(LINES + 1)),
        NextLine::Line => Err(ReplayFault::BadLine(LINES + 1)),
    }
}

// Plays the next line, and returns whether there was one.
fn turn<B: BufRead, W: Write>(
    session: &mut Session,
    scratch: &mut Scratch,
    reader: &mut B,
    writer: &mut W,
    buffer: &mut Vec<u8>,
    count: u32,
) -> Result<bool, ReplayFault>
    requires { count < LINES }
    ensures played { (start : Played) (lines : List (List ℕ)) (old : Option (List ℕ))
        → Ran start lines (B.remaining reader.old) count session.old old (W.contents writer.old) buffer.old.items
        → GoesOn start result lines (B.remaining reader.new) count session.new old (W.contents writer.new)
        buffer.new.items }
    ensures bounded { OnOk result (length buffer.new.items
        ≤ max (length buffer.old.items) (max BLOCK_OCTETS (length (string_bytes scratch.new.text)))) }
{
    let alloc = scratch.alloc;
    let Scratch { line, text, .. } = scratch;
    match next_line(reader, line)? {
        NextLine::End => return Ok(false),
        NextLine::TooLong => return Err(ReplayFault::BadLine(count + 1)),
        NextLine::Line => {}
    }
    if !session.play(alloc, line.as_slice(), text)? {
        return Err(ReplayFault::BadLine(count + 1));
    }
    write_buffered(writer, buffer, text.as_bytes())?;
    Ok(true)
}
