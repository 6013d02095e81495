//! A script's run from the reader to the exit status.
ghost use Rattle.std.specs.Prelude.{◌≤◌, IfSome};
ghost use Rattle.script_io.specs.Lines.{lines_of};
ghost use Rattle.script_replay.specs.Run.{EndsRun};
ghost use Rattle.script_replay.specs.Sessions.{configured, fresh};

use crate::run::{AnswerPace, replay_at, replay_with};
use entity_config::Config;
use script_io::conclude;
use std::alloc::Global;
use std::io::{Read, Write};

/// Runs the reader's script, which begins with the reference configuration, and writes its output at this pace. Reports
/// a bad line in the output, and any other fault to `errors`. Returns the exit status.
pub fn play_to_end<R: Read, W: Write, E: Write>(
    alloc: Global,
    reader: &mut R,
    writer: &mut W,
    errors: &mut E,
    pace: AnswerPace,
) -> u8
    ensures ended { IfSome (R.remaining reader.old) (λ script. EndsRun fresh result (lines_of script)
        (W.contents writer.old) (W.contents writer.new) (E.contents errors.old) (E.contents errors.new)) }
    ensures status { result ≤ 1 }
{
    let ended = replay_at(alloc, reader, writer, pace);
    conclude(ended, writer, errors)
}

/// Like [`play_to_end`], for a script that begins with this configuration, and may have lines that gather octets.
pub fn play_with<R: Read, W: Write, E: Write>(
    alloc: Global,
    config: Config,
    reader: &mut R,
    writer: &mut W,
    errors: &mut E,
    pace: AnswerPace,
) -> u8
    ensures ended { IfSome (R.remaining reader.old) (λ script. EndsRun (configured config) result (lines_of script)
        (W.contents writer.old) (W.contents writer.new) (E.contents errors.old) (E.contents errors.new)) }
    ensures status { result ≤ 1 }
{
    let ended = replay_with(alloc, config, reader, writer, pace);
    conclude(ended, writer, errors)
}
