//! The files of the watched folder, as far as they are known.
use crate::folder::Found;
use crate::{Given, Mark, Standing, Watched, given_again, is_renamed, next_to_send, watched_now};
use std::alloc::{AllocError, Global};
use std::collections::BTreeMap;
use std::mem;

/// Where the server has a file.
#[derive(Clone, Copy)]
pub enum Place {
    /// In the outbox, with this number.
    Queued(u64),
    /// In this transaction, by its source and its number.
    Sent(u64, u64),
}

/// A file of the folder.
#[derive(Clone, Copy)]
pub struct HotFile {
    pub watched: Watched,
    /// What is known of it from before the server read it, if it is under way.
    pub given: Given,
    /// Whether it got its name since it is under way.
    pub is_renamed: bool,
    // Where the server has it, if it is under way.
    place: Option<Place>,
    // Where the server had it before its places were forgotten.
    lost: Option<Place>,
}

/// The files of the folder, in the order of their names.
#[derive(Drop)]
pub struct HotFiles {
    alloc: Global,
    files: BTreeMap<String, HotFile>,
}

impl HotFiles {
    /// No files yet.
    pub fn new(alloc: Global) -> HotFiles {
        HotFiles {
            alloc,
            files: BTreeMap::new(alloc),
        }
    }

    /// Notes what is in the folder now. A file under way that has another name is known by its number on the disk. One that
    /// is gone is forgotten, unless it is under way.
    pub fn look(&mut self, found: Vec<Found>, now: u64) -> Result<(), AllocError> {
        let mut before = mem::replace(&mut self.files, BTreeMap::new(self.alloc));
        let found = self.take_same(&mut before, found, now)?;
        let found = self.take_renamed(&mut before, found, now)?;
        for one in found {
            let old = before.remove(one.name.as_str());
            self.put(one.name, file_now(old, one.mark, now))?;
        }
        for (name, file) in before {
            if is_under_way(&file) {
                self.put(name, file)?;
            }
        }
        Ok(())
    }

    // Takes the files that have kept their names. Returns the others.
    fn take_same(
        &mut self,
        before: &mut BTreeMap<String, HotFile>,
        found: Vec<Found>,
        now: u64,
    ) -> Result<Vec<Found>, AllocError> {
        let mut others = Vec::new(self.alloc);
        for one in found {
            match before.get(one.name.as_str()).copied() {
                Some(old) if has_number(&old, one.mark) => {
                    let _old = before.remove(one.name.as_str());
                    self.put(one.name, file_now(Some(old), one.mark, now))?;
                }
                _ => push(&mut others, one)?,
            }
        }
        Ok(others)
    }

    // Takes the files under way that have other names now. Returns the others.
    fn take_renamed(
        &mut self,
        before: &mut BTreeMap<String, HotFile>,
        found: Vec<Found>,
        now: u64,
    ) -> Result<Vec<Found>, AllocError> {
        let mut others = Vec::new(self.alloc);
        for one in found {
            match renamed_in(before, one.mark)? {
                Some((name, old)) => {
                    let _old = before.remove(name.as_str());
                    let file = file_now(Some(old), one.mark, now);
                    self.put(
                        one.name,
                        HotFile {
                            is_renamed: true,
                            ..file
                        },
                    )?;
                }
                None => push(&mut others, one)?,
            }
        }
        Ok(others)
    }

    fn put(&mut self, name: String, file: HotFile) -> Result<(), AllocError> {
        match self.files.insert(name, file) {
            Ok(_) => Ok(()),
            Err(_) => Err(AllocError),
        }
    }

    /// The name of the file sent next, and how it was seen; `None` if none is ready.
    pub fn next(&self, now: u64) -> Result<Option<(String, Mark)>, AllocError> {
        let mut watched = Vec::new(self.alloc);
        for file in self.files.values() {
            watched.push(file.watched)?;
        }
        let Some(place) = next_to_send(watched.as_slice(), now) else {
            return Ok(None);
        };
        match self.files.iter().nth(place) {
            Some((name, file)) => Ok(Some((name.clone()?, file.watched.sight.mark))),
            None => Ok(None),
        }
    }

    /// Notes that the server has a file.
    pub fn give(&mut self, name: &str, place: Place) {
        if let Some(file) = self.files.get_mut(name) {
            file.watched.standing = Standing::UnderWay;
            file.given = Given::Seen(file.watched.sight.mark);
            file.is_renamed = false;
            file.place = Some(place);
        }
    }

    /// Notes that a server turns out to have a file, and whether its turn has begun.
    pub fn find(&mut self, name: &str, place: Place, has_begun: bool) {
        if let Some(file) = self.files.get_mut(name) {
            let is_same_place = is_place(file.lost, place);
            let mark = file.watched.sight.mark;
            file.given = given_again(file.given, is_same_place, has_begun, mark);
            file.watched.standing = Standing::UnderWay;
            file.place = Some(place);
        }
    }

    /// Notes that a server turns out to read a file.
    pub fn find_read(&mut self, name: &str) {
        if let Some(file) = self.files.get_mut(name) {
            file.given = Given::Unseen;
        }
    }

    /// Notes that a file isn't sent as it is.
    pub fn refuse(&mut self, name: &str) {
        self.stand(name, Standing::Refused);
    }

    /// Notes that a file is to be sent again.
    pub fn send_again(&mut self, name: &str) {
        self.stand(name, Standing::Waiting);
    }

    fn stand(&mut self, name: &str, standing: Standing) {
        if let Some(file) = self.files.get_mut(name) {
            file.watched.standing = standing;
            file.place = None;
        }
    }

    /// Forgets a file.
    pub fn forget(&mut self, name: &str) {
        let _file = self.files.remove(name);
    }

    /// Forgets where the server has files: all of them are to be sent.
    pub fn forget_places(&mut self) {
        for file in self.files.values_mut() {
            if is_under_way(file) {
                file.watched.standing = Standing::Waiting;
                file.lost = file.place;
                file.place = None;
            }
        }
    }

    /// Notes that the file with this number in the outbox is being sent by a transaction.
    pub fn start(&mut self, number: u64, source: u64, seq: u64) {
        for file in self.files.values_mut() {
            if is_place(file.place, Place::Queued(number)) {
                file.place = Some(Place::Sent(source, seq));
            }
        }
    }

    /// The file that the server has at a place, and its name.
    pub fn at(&self, place: Place) -> Result<Option<(String, HotFile)>, AllocError> {
        for (name, file) in self.files.iter() {
            if is_place(file.place, place) {
                return Ok(Some((name.clone()?, *file)));
            }
        }
        Ok(None)
    }

    /// Whether a file is to be sent, or under way.
    pub fn is_busy(&self) -> bool {
        self.files
            .values()
            .any(|file| !matches!(file.watched.standing, Standing::Refused))
    }
}

// A file that is in the folder now, by what was known of it.
fn file_now(before: Option<HotFile>, mark: Mark, now: u64) -> HotFile {
    match before {
        Some(file) => HotFile {
            watched: watched_now(Some(file.watched), mark, now),
            ..file
        },
        None => HotFile {
            watched: watched_now(None, mark, now),
            given: Given::Unseen,
            is_renamed: false,
            place: None,
            lost: None,
        },
    }
}

// The file under way that was renamed to one that is seen now, and its old name.
fn renamed_in(
    before: &BTreeMap<String, HotFile>,
    mark: Mark,
) -> Result<Option<(String, HotFile)>, AllocError> {
    for (name, file) in before.iter() {
        if is_renamed(file.watched, mark) {
            return Ok(Some((name.clone()?, *file)));
        }
    }
    Ok(None)
}

fn push(files: &mut Vec<Found>, file: Found) -> Result<(), AllocError> {
    match files.push(file) {
        Ok(()) => Ok(()),
        Err(_) => Err(AllocError),
    }
}

fn has_number(file: &HotFile, mark: Mark) -> bool {
    file.watched.sight.mark.inode == mark.inode
}

fn is_under_way(file: &HotFile) -> bool {
    matches!(file.watched.standing, Standing::UnderWay)
}

// Whether a file is at a place.
fn is_place(own: Option<Place>, place: Place) -> bool {
    match (own, place) {
        (Some(Place::Queued(own)), Place::Queued(number)) => own == number,
        (Some(Place::Sent(own, first)), Place::Sent(source, seq)) => own == source && first == seq,
        _ => false,
    }
}
