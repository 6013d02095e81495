use program_desk::{Desk, NextLine, Said};
use server_lines::Command;
use std::alloc::{AllocError, Global};
use std::sync::Wait;
use std::test::*;

// The ways in which the lines of a desk end.
#[derive(Clone, Copy)]
enum End {
    Over,
    NoMemory,
    Deserted,
}

// The line that the main thread gets, as a letter.
fn letter_of(next: NextLine) -> u8 {
    match next {
        NextLine::Line(_) => b'l',
        NextLine::Awaited => b'a',
        NextLine::End => b'e',
        NextLine::NoMemory => b'm',
        NextLine::Deserted => b'd',
    }
}

fn tell_end<R: Wait>(rt: &R, desk: &Desk, end: End) {
    match end {
        End::Over => desk.end_lines(rt),
        End::NoMemory => desk.fail_lines(rt),
        End::Deserted => desk.desert(rt),
    }
}

// The letters of what the main thread gets before a line is left, and after that line and two ends; and whether the
// desk accepts the line, and no line once it is closed.
fn found<R: Wait>(rt: &R, desk: &Desk, first: End, second: End) -> ([u8; 4], bool) {
    let before = letter_of(desk.take_line(rt));
    let is_left = desk.leave_line(rt, Said::Command(Command::Quit), None);
    tell_end(rt, desk, first);
    tell_end(rt, desk, second);
    let line = letter_of(desk.take_line(rt));
    let end = letter_of(desk.take_line(rt));
    let again = letter_of(desk.take_line(rt));
    desk.close(rt);
    let is_refused = !desk.leave_line(rt, Said::NoMemory, None);
    (
        [before, line, end, again],
        is_left && is_refused && desk.is_closed(),
    )
}

// The line that was left comes first, and then the first end, whatever follows it.
const ENDS: [(End, End, [u8; 4]); 3] = [
    (End::Over, End::NoMemory, *b"alee"),
    (End::NoMemory, End::Over, *b"almm"),
    (End::Deserted, End::Over, *b"aldd"),
];

fn is_found<R: Wait>(
    rt: &R,
    alloc: Global,
    ends: (End, End),
    letters: [u8; 4],
) -> Result<bool, AllocError> {
    let desk = Desk::new(alloc, 1, 1)?;
    Ok(found(rt, &desk, ends.0, ends.1) == (letters, true))
}

#[test]
fn ends(rt: HostRuntime) -> Result<(), Fail> {
    for (first, second, letters) in ENDS {
        assert!(rt; is_found(&rt, rt.alloc(), (first, second), letters)?);
    }
    Ok(())
}
