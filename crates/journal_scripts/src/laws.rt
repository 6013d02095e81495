//! Laws of scripts, about the definitions alone.

ghost use Rattle.journal_scripts.specs.Laws.{GathersFiles, ReadsBack};

/// The line of each event is read back as that event, in the form in which the entity's caller gives it: by the names
/// of the configuration's users, and where a put's file has been gathered.
pub fn reads_back()
    ensures { ReadsBack }
{}

/// The lines before a put gather its file, piece by piece and whole.
pub fn gathers_files()
    ensures { GathersFiles }
{}
