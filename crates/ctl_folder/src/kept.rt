//! Files that were moved to `sent` a short time ago.
use crate::folder::mark_at;
use crate::{Rest, Sight, rest_of};
use std::alloc::{AllocError, Global};
use std::rt::Files;
use std::{fs, mem};

/// A file that was moved.
#[derive(Drop)]
pub struct KeptFile {
    /// Its name in the folder.
    pub name: String,
    /// Where it is now.
    pub path: String,
    /// How it was when the server got it, and when it was moved.
    pub sight: Sight,
}

/// The files that are looked at since they were moved a short time ago.
#[derive(Drop)]
pub struct KeptFiles {
    alloc: Global,
    files: Vec<KeptFile>,
    /// Whether a file that stays as it is goes at last.
    deletes: bool,
}

impl KeptFiles {
    /// No files yet.
    pub fn new(alloc: Global, deletes: bool) -> KeptFiles {
        KeptFiles {
            alloc,
            files: Vec::new(alloc),
            deletes,
        }
    }

    /// Adds a file that was moved.
    pub fn add(&mut self, file: KeptFile) -> Result<(), AllocError> {
        push(&mut self.files, file)
    }

    /// Whether files have to be deleted yet.
    pub fn is_busy(&self) -> bool {
        self.deletes && !self.files.is_empty()
    }

    /// Looks at each file, and forgets those that stayed as they are for long enough. Returns those that changed, which
    /// it forgets too.
    pub fn look<R: Files>(&mut self, rt: &R, now: u64) -> Result<Vec<KeptFile>, AllocError> {
        let mut changed = Vec::new(self.alloc);
        let files = mem::replace(&mut self.files, Vec::new(self.alloc));
        for file in files {
            match rest_of(file.sight, mark_at(rt, file.path.as_str()), now) {
                Rest::Watch => push(&mut self.files, file)?,
                Rest::TakeBack => push(&mut changed, file)?,
                Rest::Leave => {
                    if self.deletes {
                        let _as_it_may = fs::remove_file(rt, file.path.as_str());
                    }
                }
            }
        }
        Ok(changed)
    }
}

fn push(files: &mut Vec<KeptFile>, file: KeptFile) -> Result<(), AllocError> {
    match files.push(file) {
        Ok(()) => Ok(()),
        Err(_) => Err(AllocError),
    }
}
