use smallvec::SmallVec;

/// The offsets of a file from `start` to `end` - 1.
#[derive(Clone, Copy, Default, PartialEq, Eq, Debug)]
pub struct Run {
    pub start: u32,
    pub end: u32,
}

/// Runs of offsets. A single run, the usual case, takes no memory of its own.
pub type Runs = SmallVec<Run, 1>;
