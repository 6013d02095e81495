use cfdp_types::{Class, EntityId};
use program_words::{EntityWords, PutWords, ServerWords, put_words, server_words};
use std::alloc::{AllocError, Global};
use std::test::*;

// Appends the words of a line, with one space between them.
fn split(alloc: Global, words: &mut Vec<String>, line: &str) -> Result<(), AllocError> {
    for word in line.split(' ') {
        words.push(String::from_str(alloc, word)?)?;
    }
    Ok(())
}

// The words of a line, and then those of another.
fn words_of(alloc: Global, front: &str, rest: &str) -> Result<Vec<String>, AllocError> {
    let mut words = Vec::new(alloc);
    split(alloc, &mut words, front)?;
    split(alloc, &mut words, rest)?;
    Ok(words)
}

const PUT: &str = "p --config c --bind 1.2.3.4:5 --user u";

// Words of a put, and whether they are accepted.
const PUTS: [(&str, bool); 4] = [
    ("--remote 7 --class 1 s t", true),
    (
        "--remote=18446744073709551615 --class=02 --closure --rate=01 --first=0 --numbers n --known-sources s t",
        true,
    ),
    ("--remote 18446744073709551616 --class 1 s t", false),
    ("--remote 7 --class 1 --numbers= s t", false),
];

fn is_put_taken(alloc: Global, rest: &str) -> Result<bool, AllocError> {
    let words = words_of(alloc, PUT, rest)?;
    Ok(put_words(alloc, words.as_slice()).is_ok())
}

#[test]
fn lines_of_puts(rt: HostRuntime) -> Result<(), Fail> {
    for (rest, is_taken) in PUTS {
        assert!(rt; is_put_taken(rt.alloc(), rest)? == is_taken, "{rest}");
    }
    Ok(())
}

// Words of the server, and whether they are accepted.
const SERVERS: [(&str, bool); 14] = [
    ("station.toml", true),
    ("-- --config", true),
    ("--check station.toml", true),
    ("--config c --bind 1.2.3.4:5 --folder f", true),
    ("--config c --bind 1.2.3.4:5 --folder f --workers 17", false),
    ("--config c --bind 1.2.3.4:05 --folder f", false),
    ("--config c --bind 1.2.3.4:5 --folder=", false),
    ("--config c --bind 1.2.3.4:5", false),
    ("--config c --bind 1.2.3.4:5 --folder f more", false),
    ("--check c --config c --bind 1.2.3.4:5 --folder f", false),
    ("--check a b", false),
    ("--workers 2 a", false),
    ("a b", false),
    ("--control c a", false),
];

fn is_server_taken(alloc: Global, line: &str) -> Result<bool, AllocError> {
    let words = words_of(alloc, "s", line)?;
    Ok(server_words(alloc, words.as_slice()).is_ok())
}

#[test]
fn lines_of_servers(rt: HostRuntime) -> Result<(), Fail> {
    for (line, is_taken) in SERVERS {
        assert!(rt; is_server_taken(rt.alloc(), line)? == is_taken, "{line}");
    }
    Ok(())
}

fn is_put(words: &PutWords<'_>) -> bool {
    (words.config, words.bind, words.user) == ("c", "1.2.3.4:5", "u")
        && (words.source, words.destination_name) == ("s", "t")
        && (words.remote, words.class) == (EntityId(7), Class::Two)
        && (words.rate, words.first, words.numbers) == (Some(1), Some(9), Some("n"))
        && words.closure
        && !words.known_sources
}

fn is_entity(words: &EntityWords<'_>, workers: u64) -> bool {
    (words.config, words.bind, words.folder) == ("c", "1.2.3.4:5", "f") && words.workers == workers
}

fn puts_as_told(alloc: Global) -> Result<bool, AllocError> {
    let rest = "--first 9 --rate 1 s --class 2 --remote 7 --numbers n --closure t";
    let words = words_of(alloc, PUT, rest)?;
    Ok(match put_words(alloc, words.as_slice()) {
        Ok(words) => is_put(&words),
        Err(_) => false,
    })
}

// Whether a line names a station's file.
fn is_station(alloc: Global, line: &str, path: &str) -> Result<bool, AllocError> {
    let words = words_of(alloc, "s", line)?;
    Ok(match server_words(alloc, words.as_slice()) {
        Ok(ServerWords::Station(told)) => told == path,
        _ => false,
    })
}

// Whether a line asks for a check of a file.
fn is_check(alloc: Global, line: &str, path: &str) -> Result<bool, AllocError> {
    let words = words_of(alloc, "s", line)?;
    Ok(match server_words(alloc, words.as_slice()) {
        Ok(ServerWords::Check(told)) => told == path,
        _ => false,
    })
}

// Whether a line names what an entity needs, and it has so many workers.
fn is_entity_line(alloc: Global, line: &str, workers: u64) -> Result<bool, AllocError> {
    let words = words_of(alloc, "s", line)?;
    Ok(match server_words(alloc, words.as_slice()) {
        Ok(ServerWords::Entity(told)) => is_entity(&told, workers),
        _ => false,
    })
}

#[test]
fn values(rt: HostRuntime) -> Result<(), Fail> {
    let alloc = rt.alloc();
    assert!(rt; puts_as_told(alloc)? && is_station(alloc, "x", "x")?);
    assert!(rt; is_check(alloc, "--check x", "x")?);
    Ok(())
}

#[test]
fn entities(rt: HostRuntime) -> Result<(), Fail> {
    let line = "--config c --bind 1.2.3.4:5 --folder f";
    assert!(rt; is_entity_line(rt.alloc(), line, 4)?);
    Ok(())
}
