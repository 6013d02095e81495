//! Which files of a folder are sent next.
ghost use Rattle.std.specs.Prelude.{◌≡◌};
ghost use Rattle.std.specs.List.{count_by, position};
ghost use Rattle.ctl_folder.specs.Watching.{is_alike, is_ready, is_renamed, is_same, is_steady, is_under_way, is_waiting, next_to_send, sight_now, standing_now, watched_now};

// How many milliseconds a file has to stay as it is before it is sent.
const QUIET: u64 = 2_000;

// How many files may be under way at once.
const MOST: u64 = 64;

/// What tells one content of a file from another.
#[derive(Clone, Copy)]
pub struct Mark {
    pub size: u64,
    /// When it was written, on the clock of its disk.
    pub modified: u64,
    /// Its number on its disk, which it keeps under another name.
    pub inode: u64,
}

/// A file of the folder as it was seen.
#[derive(Clone, Copy)]
pub struct Sight {
    pub mark: Mark,
    /// Since when it has been so, in milliseconds of the watcher's clock.
    pub since: u64,
}

/// Where a file stands.
#[derive(Clone, Copy)]
pub enum Standing {
    /// It is to be sent.
    Waiting,
    /// The server has it, and its end isn't known yet.
    UnderWay,
    /// It isn't sent unless it changes.
    Refused,
}

/// A file of the folder.
#[derive(Clone, Copy)]
pub struct Watched {
    pub sight: Sight,
    pub standing: Standing,
}

/// A file that is seen now, given what was known of it before.
pub fn watched_now(before: Option<Watched>, mark: Mark, now: u64) -> Watched
    ensures { result ≡ watched_now before mark now }
{
    match before {
        Some(watched) => Watched {
            sight: sight_now(watched.sight, mark, now),
            standing: standing_now(watched, mark),
        },
        None => Watched {
            sight: Sight { mark, since: now },
            standing: Standing::Waiting,
        },
    }
}

// A file that was seen before.
fn sight_now(before: Sight, mark: Mark, now: u64) -> Sight
    ensures { result ≡ sight_now before mark now }
{
    if is_same(before.mark, mark) {
        before
    } else {
        Sight { mark, since: now }
    }
}

// Where a file that was seen before stands: one that wasn't sent waits again once it changes.
fn standing_now(before: Watched, mark: Mark) -> Standing
    ensures { result ≡ standing_now before mark }
{
    match before.standing {
        Standing::Waiting => Standing::Waiting,
        Standing::UnderWay => Standing::UnderWay,
        Standing::Refused => {
            if is_same(before.sight.mark, mark) {
                Standing::Refused
            } else {
                Standing::Waiting
            }
        }
    }
}

/// Whether a file is the one that was seen, and unchanged.
pub fn is_same(before: Mark, mark: Mark) -> bool
    ensures { result ≡ is_same before mark }
{
    is_alike(before, mark) && before.inode == mark.inode
}

/// Whether a file, or a copy of it that keeps its time, is as it was seen.
pub fn is_alike(before: Mark, mark: Mark) -> bool
    ensures { result ≡ is_alike before mark }
{
    before.size == mark.size && before.modified == mark.modified
}

/// Whether a file under another name is this one, renamed while it is under way.
pub fn is_renamed(file: Watched, mark: Mark) -> bool
    ensures { result ≡ is_renamed file mark }
{
    is_under_way(file) && file.sight.mark.inode == mark.inode
}

/// The place of the file sent next, in the order of the list; `None` if none is ready, or if as many files as allowed
/// are under way.
pub fn next_to_send(files: &[Watched], now: u64) -> Option<usize>
    ensures { result ≡ next_to_send now files.now }
{
    if count_under_way(files) < MOST {
        first_ready(files, now)
    } else {
        None
    }
}

// How many files are under way.
fn count_under_way(files: &[Watched]) -> u64
    ensures { result ≡ count_by is_under_way files.now }
{
    let mut count = 0u64;
    for file in files {
        if is_under_way(*file) {
            count += 1;
        }
    }
    count
}

// The place of the first file that is ready.
fn first_ready(files: &[Watched], now: u64) -> Option<usize>
    ensures { result ≡ position (is_ready now) files.now }
{
    files.iter().position(|file| is_ready(*file, now))
}

fn is_under_way(file: Watched) -> bool
    ensures { result ≡ is_under_way file }
{
    matches!(file.standing, Standing::UnderWay)
}

// Whether a file waits, and is steady.
fn is_ready(file: Watched, now: u64) -> bool
    ensures { result ≡ is_ready now file }
{
    is_waiting(file.standing) && is_steady(file.sight, now)
}

fn is_waiting(standing: Standing) -> bool
    ensures { result ≡ is_waiting standing }
{
    matches!(standing, Standing::Waiting)
}

// Whether a file has stayed as it is for long enough.
fn is_steady(sight: Sight, now: u64) -> bool
    ensures { result ≡ is_steady now sight }
{
    now.saturating_sub(sight.since) >= QUIET
}
