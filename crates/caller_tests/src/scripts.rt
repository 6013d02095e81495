use script_replay::{ReplayFault, replay};
use std::alloc::Global;

/// What the reference entity prints for a script.
fn answers_to(alloc: Global, script: &[u8]) -> Result<Vec<u8>, ReplayFault> {
    let mut lines = script;
    let mut answers = Vec::new(alloc);
    replay(alloc, &mut lines, &mut answers)?;
    Ok(answers)
}

// ---- the test

use std::test::*;

#[test]
fn a_script_is_answered(rt: HostRuntime) -> Result<(), Fail> {
    match answers_to(rt.alloc(), b"take alice\n") {
        Err(_) => Err(Fail::from("the script is played")),
        Ok(answers) => {
            assert_eq!(rt; answers.as_slice(), b"none\n".as_slice());
            Ok(())
        }
    }
}
