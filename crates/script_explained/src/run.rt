//! Plays a whole script with comments.
use crate::comments::push_comments;
use script_io::{
    NextLine, ReplayFault, conclude, flush_buffer, in_blocks, next_line, write_buffered,
};
use script_replay::{AnswerPace, LINES, Session};
use std::alloc::Global;
use std::io::{BufRead, Read, Write};

// The line that is played, its answer and the comments.
#[derive(Drop)]
struct Scratch {
    line: Vec<u8>,
    answer: String,
    comments: String,
}

/// Plays the reader's script in a session, and writes below each line's answer what both say in words. Without the
/// lines that begin with a hash and a space, the output is what [`script_replay::play_to_end`] writes. Reports how the
/// run ended in the same way, and returns the exit status.
pub fn explain_to_end<R: Read, W: Write, E: Write>(
    alloc: Global,
    session: Session,
    reader: &mut R,
    writer: &mut W,
    errors: &mut E,
    pace: AnswerPace,
) -> u8 {
    let mut buffer = Vec::new(alloc);
    let played = play_script(alloc, session, reader, writer, &mut buffer, pace);
    let ended = match flush_buffer(writer, &mut buffer) {
        Ok(()) => played,
        Err(fault) => Err(fault),
    };
    conclude(ended, writer, errors)
}

// Plays the script. At the end the buffer holds the output that was not written yet.
fn play_script<R: Read, W: Write>(
    alloc: Global,
    session: Session,
    reader: &mut R,
    writer: &mut W,
    buffer: &mut Vec<u8>,
    pace: AnswerPace,
) -> Result<(), ReplayFault> {
    let mut session = session;
    let mut scratch = Scratch {
        line: Vec::new(alloc),
        answer: String::new(alloc),
        comments: String::new(alloc),
    };
    let mut blocks = in_blocks(alloc, reader)?;
    for count in 0..LINES {
        let number = count.saturating_add(1);
        match next_line(&mut blocks, &mut scratch.line)? {
            NextLine::End => return Ok(()),
            NextLine::TooLong => return Err(ReplayFault::BadLine(number)),
            NextLine::Line => {}
        }
        if !turn(alloc, &mut session, &mut scratch, writer, buffer)? {
            return Err(ReplayFault::BadLine(number));
        }
        if pace == AnswerPace::ByLines {
            flush_buffer(writer, buffer)?;
        }
    }
    ends(&mut blocks, &mut scratch.line)
}

// Returns an error if a line follows the last one that a script may have.
fn ends<B: BufRead>(reader: &mut B, line: &mut Vec<u8>) -> Result<(), ReplayFault> {
    match next_line(reader, line)? {
        NextLine::End => Ok(()),
        _ => Err(ReplayFault::BadLine(LINES.saturating_add(1))),
    }
}

// Plays a line, and writes its answer and the comments. Returns whether the script may have that line here.
fn turn<W: Write>(
    alloc: Global,
    session: &mut Session,
    scratch: &mut Scratch,
    writer: &mut W,
    buffer: &mut Vec<u8>,
) -> Result<bool, ReplayFault> {
    let Scratch {
        line,
        answer,
        comments,
    } = scratch;
    if !session.play(alloc, line.as_slice(), answer)? {
        return Ok(false);
    }
    write_buffered(writer, buffer, answer.as_bytes())?;
    comments.clear();
    if let Ok(line) = str::from_utf8(line.as_slice()) {
        push_comments(alloc, comments, line, answer.as_str())?;
    }
    write_buffered(writer, buffer, comments.as_bytes())?;
    Ok(true)
}
