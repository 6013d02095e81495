use std::alloc::Global;
use std::test::Fail;
use web_lines::{event_number, start_moment, to_metrics};

const LINES: &str = r#"{"kind":"entity","id":2,"version":"0.1"}
no JSON
{"kind":"transaction","seq":1,"state":"active"}
"#;

// Numbers of the lines, with their labels: how many transactions are in each state, too.
const NUMBERS: [&str; 2] = [
    "\ncfdp_entity_info{id=\"2\",version=\"0.1\"} 1\n",
    "\ncfdp_transactions{state=\"active\"} 1\ncfdp_transactions{state=\"suspended\"} 0\n",
];

fn have_labels(alloc: Global) -> Result<bool, Fail> {
    let metrics = to_metrics(alloc, LINES)?;
    let text = str::from_utf8(metrics.as_slice())?;
    Ok(text.contains(NUMBERS[0]) && text.contains(NUMBERS[1]))
}

#[test]
fn numbers_have_labels(rt: HostRuntime) -> Result<(), Fail> {
    assert!(rt; have_labels(rt.alloc())?);
    Ok(())
}

const STARTED: &str = r#"{"kind":"log"}
{"kind":"entity","started":"2026-11-26T12:00:00.000Z"}
"#;

fn is_start(started: Option<String>) -> bool {
    match &started {
        Some(moment) => moment.as_str() == "2026-11-26T12:00:00.000Z",
        None => false,
    }
}

fn lines_are_read(alloc: Global) -> Result<bool, Fail> {
    let (seventh, none) = (
        event_number(alloc, r#"{"number":7}"#)?,
        event_number(alloc, "[]")?,
    );
    Ok(seventh == Some(7) && none.is_none() && is_start(start_moment(alloc, STARTED)?))
}

#[test]
fn lines_say_when_and_which(rt: HostRuntime) -> Result<(), Fail> {
    assert!(rt; lines_are_read(rt.alloc())?);
    Ok(())
}
