//! Laws over whole histories of a disk, stated over the definitions alone.
ghost use Rattle.disk.specs.Needed.{EachStepCounts};
ghost use Rattle.disk.specs.Staying.{StaysKept};

/// Without a flush, or with one that failed, a file may be lost.
pub fn steps_count()
    ensures { EachStepCounts }
{}

/// A file that survives any power cut continues to do so, until a later step names its path.
pub fn files_stay()
    ensures { StaysKept }
{}
