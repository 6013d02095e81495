use disk::{Disk, Fault};

/// Keeps a note on a disk: after `Ok` a power cut leaves it whole.
fn keep_note<D: Disk>(disk: &mut D, note: &[u8]) -> Result<(), Fault> {
    disk.create("note.new")?;
    disk.append(note)?;
    disk.flush()?;
    disk.rename("note.new", "note")?;
    disk.flush_folder("")
}

// ---- the test

use disk::SystemDisk;
use std::test::*;

#[test]
fn a_note_is_read_again(rt: HostRuntime) -> Result<(), Fail> {
    let folder = String::from_str(rt.alloc(), ".")?;
    let mut disk = SystemDisk::new(rt, folder);
    assert!(rt; keep_note(&mut disk, b"abc").is_ok());
    match disk.read("note") {
        Ok(Some(octets)) => assert_eq!(rt; octets.as_slice(), b"abc".as_slice()),
        _ => return Err(Fail::from("the note is there")),
    }
    Ok(())
}
