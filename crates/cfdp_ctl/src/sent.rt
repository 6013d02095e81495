//! Files that were put in the outbox, and what became of them.
ghost use Rattle.std.specs.Prelude.{◌≡◌};
ghost use Rattle.std.specs.List.{list_all};
ghost use Rattle.cfdp_ctl.specs.Exits.{goes_again, has_arrived, is_good_end, send_status, waits_for_room};

use crate::items::Item;
use ctl_views::{End, Event, Progress, Step, Transaction};
use std::alloc::{AllocError, Global};
use std::collections::BTreeMap;

/// What became of a file.
#[derive(Clone, Copy)]
pub(crate) enum Fate {
    /// It waits for its turn.
    Queued,
    /// It didn't arrive, and is to be sent again.
    Again,
    /// It is being sent.
    UnderWay,
    /// It was taken out of the outbox, or can't be sent.
    Unsent,
    /// Its transaction has ended.
    Ended(End),
}

/// A file that was put in the outbox.
#[derive(Drop)]
pub(crate) struct SentFile<'a> {
    pub(crate) item: &'a Item,
    pub(crate) fate: Fate,
    /// How often it is sent again at most.
    pub(crate) retries: u64,
    /// How many octets were sent, and how many the file has.
    pub(crate) octets: u64,
    pub(crate) size: u64,
}

/// The files that were put in the outbox, found by their numbers there and by their transactions.
#[derive(Drop)]
pub(crate) struct SentFiles<'a> {
    pub(crate) files: Vec<SentFile<'a>>,
    by_number: BTreeMap<u64, usize>,
    by_key: BTreeMap<(u64, u64), usize>,
    /// How many files have not ended.
    pub(crate) open: usize,
}

impl<'a> SentFiles<'a> {
    /// No files yet.
    pub(crate) fn new(alloc: Global) -> SentFiles<'a> {
        SentFiles {
            files: Vec::new(alloc),
            by_number: BTreeMap::new(alloc),
            by_key: BTreeMap::new(alloc),
            open: 0,
        }
    }

    /// Adds a file that was put in the outbox under this number, and may be sent so often again.
    pub(crate) fn add(
        &mut self,
        item: &'a Item,
        number: u64,
        retries: u64,
    ) -> Result<(), AllocError> {
        let place = self.files.len();
        let file = SentFile {
            item,
            fate: Fate::Queued,
            retries,
            octets: 0,
            size: 0,
        };
        if self.files.push(file).is_err() || self.by_number.insert(number, place).is_err() {
            return Err(AllocError);
        }
        self.open = self.open.saturating_add(1);
        Ok(())
    }

    /// Notes that a file was put in the outbox again, under this number.
    pub(crate) fn add_again(&mut self, place: usize, number: u64) -> Result<(), AllocError> {
        if self.by_number.insert(number, place).is_err() {
            return Err(AllocError);
        }
        if let Some(file) = self.files.get_mut(place) {
            file.fate = Fate::Queued;
            file.retries = file.retries.saturating_sub(1);
            file.octets = 0;
        }
        Ok(())
    }

    /// Notes that a file can't be put in the outbox again.
    pub(crate) fn give_up(&mut self, place: usize) {
        let _place = self.end(Some(place), Fate::Unsent);
    }

    /// The first file that is to be sent again, and its place.
    pub(crate) fn next_again(&self) -> Option<(usize, &'a Item)> {
        let place = self
            .files
            .iter()
            .position(|file| matches!(file.fate, Fate::Again))?;
        Some((place, self.files.get(place)?.item))
    }

    /// Handles an event; returns the place of the file that it ends, if it ends one.
    pub(crate) fn take(
        &mut self,
        is_reported: bool,
        event: &Event,
    ) -> Result<Option<usize>, AllocError> {
        match event.step {
            Step::Started(number) => {
                self.start(number, event.transaction)?;
                Ok(None)
            }
            Step::Unsent(number) => {
                let place = self.by_number.get(&number).copied();
                Ok(self.end(place, Fate::Unsent))
            }
            Step::Ended(end) => {
                let place = self.place_of(event.transaction);
                Ok(self.end_try(is_reported, place, end))
            }
            Step::Other => Ok(None),
        }
    }

    /// Notes the progress of a transaction.
    pub(crate) fn note(&mut self, progress: Progress) {
        if let Some(place) = self.by_key.get(&(progress.source, progress.seq)).copied()
            && let Some(file) = self.files.get_mut(place)
        {
            file.octets = progress.octets;
            file.size = progress.size;
        }
    }

    // The place of the file of a transaction.
    fn place_of(&self, transaction: Option<Transaction>) -> Option<usize> {
        let transaction = transaction?;
        self.by_key
            .get(&(transaction.source, transaction.seq))
            .copied()
    }

    // Notes that the file with this number is being sent by a transaction.
    fn start(&mut self, number: u64, transaction: Option<Transaction>) -> Result<(), AllocError> {
        let Some(transaction) = transaction else {
            return Ok(());
        };
        let Some(place) = self.by_number.get(&number).copied() else {
            return Ok(());
        };
        let key = (transaction.source, transaction.seq);
        if self.by_key.insert(key, place).is_err() {
            return Err(AllocError);
        }
        if let Some(file) = self.files.get_mut(place) {
            file.fate = Fate::UnderWay;
        }
        Ok(())
    }

    // Notes the end of a file's transaction; returns its place, if the file has one.
    fn end_try(&mut self, is_reported: bool, place: Option<usize>, end: End) -> Option<usize> {
        let file = self.files.get_mut(place?)?;
        if matches!(file.fate, Fate::UnderWay) && goes_again(is_reported, end, file.retries) {
            file.fate = Fate::Again;
            return place;
        }
        self.end(place, Fate::Ended(end))
    }

    // Notes that a file has ended; returns its place, if it had not ended before.
    fn end(&mut self, place: Option<usize>, fate: Fate) -> Option<usize> {
        let place = place?;
        let file = self.files.get_mut(place)?;
        if matches!(file.fate, Fate::Unsent | Fate::Ended(_)) {
            return None;
        }
        file.fate = fate;
        self.open = self.open.saturating_sub(1);
        Some(place)
    }
}

// Whether a file is sent again, by its end, and how often it may be.
fn goes_again(is_reported: bool, end: End, retries: u64) -> bool
    ensures { result ≡ goes_again is_reported end retries }
{
    !is_good_end(is_reported, end) && retries > 0
}

/// Whether a file waits for a place in a full outbox, by whether ends are awaited, and how many files haven't ended.
pub(crate) fn waits_for_room(is_awaited: bool, under_way: usize) -> bool
    ensures { result ≡ waits_for_room is_awaited under_way }
{
    is_awaited && under_way > 0
}

/// The exit status for files that were sent, by whether the server took all of them, whether their ends were awaited,
/// and whether all have arrived.
pub(crate) fn send_status(all_taken: bool, is_awaited: bool, all_arrived: bool) -> u8
    ensures { result ≡ send_status all_taken is_awaited all_arrived }
{
    if !all_taken {
        3
    } else if is_awaited && !all_arrived {
        4
    } else {
        0
    }
}

/// Whether all files have arrived, as far as the sender can know.
pub(crate) fn have_arrived(is_reported: bool, files: &[SentFile<'_>]) -> bool
    ensures { result ≡ list_all (λ file. has_arrived is_reported file.fate) files.now }
{
    files.iter().all(|file| has_arrived(is_reported, file.fate))
}

/// Whether a file has arrived, as far as the sender can know.
pub(crate) fn has_arrived(is_reported: bool, fate: Fate) -> bool
    ensures { result ≡ has_arrived is_reported fate }
{
    match fate {
        Fate::Ended(end) => is_good_end(is_reported, end),
        _ => false,
    }
}

// Whether an end is a success: the file is kept, or it is unreported and no report was asked for.
fn is_good_end(is_reported: bool, end: End) -> bool
    ensures { result ≡ is_good_end is_reported end }
{
    match end {
        End::Kept => true,
        End::Unreported => !is_reported,
        End::Lost => false,
    }
}
