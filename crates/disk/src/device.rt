//! A disk, described by the requests to it and their results.
ghost use Rattle.std.specs.Prelude.{◌≡◌, ◌∷◌, List};
ghost use Rattle.disk.specs.Steps.{Step, step_of, read_by, looked_by};
ghost use Rattle.disk.specs.Steps.Call.{create, append, flush, rename, link, remove, make_folder, flush_folder};

use crate::faults::Hindrance;

/// Why a disk doesn't do what it was asked.
#[derive(Clone, Copy, Debug, PartialEq, Eq)]
pub enum Fault {
    /// There is something at the path, so nothing was done.
    Exists,
    /// The operation failed for a reason that may pass, such as a full disk. It may or may not have taken effect.
    MayPass,
    /// The operation failed for another reason. It may or may not have taken effect.
    Failed,
}

/// A disk. Paths are relative to its own folder, with slashes between names; the empty path is that folder.
pub trait Disk {
    // The requests to the disk with their results, newest first.
    ghost done: { Self → List Step };

    /// Makes a new file, which is the open file from then on.
    fn create(&mut self, path: &str) -> Result<(), Fault>
        ensures { done self.new ≡ step_of result (create path.now) ∷ done self.old };

    /// Appends octets to the open file.
    fn append(&mut self, octets: &[u8]) -> Result<(), Fault>
        ensures { done self.new ≡ step_of result (append octets.now) ∷ done self.old };

    /// Flushes the open file.
    fn flush(&mut self) -> Result<(), Fault>
        ensures { done self.new ≡ step_of result flush ∷ done self.old };

    /// Gives a file another path, and replaces the file there, if any. `from` is a file: no folder is renamed, and the
    /// system refuses to replace a folder by a file.
    fn rename(&mut self, from: &str, to: &str) -> Result<(), Fault>
        ensures { done self.new ≡ step_of result (rename from.now to.now) ∷ done self.old };

    /// Gives a file a second path, unless something is there already.
    fn link(&mut self, from: &str, to: &str) -> Result<(), Fault>
        ensures { done self.new ≡ step_of result (link from.now to.now) ∷ done self.old };

    /// Removes a file's path.
    fn remove(&mut self, path: &str) -> Result<(), Fault>
        ensures { done self.new ≡ step_of result (remove path.now) ∷ done self.old };

    /// Makes a folder, unless something is there already.
    fn make_folder(&mut self, path: &str) -> Result<(), Fault>
        ensures { done self.new ≡ step_of result (make_folder path.now) ∷ done self.old };

    /// Flushes a folder.
    fn flush_folder(&mut self, path: &str) -> Result<(), Fault>
        ensures { done self.new ≡ step_of result (flush_folder path.now) ∷ done self.old };

    /// Returns the octets of a file, or None if there is no file.
    fn read(&mut self, path: &str) -> Result<Option<Vec<u8>>, Fault>
        ensures { done self.new ≡ read_by result path.now (done self.old) };

    /// What hindered the last call that failed; None if no call has failed.
    fn hindrance(&self) -> Option<Hindrance>;

    /// Whether there is a folder at a path. A link to a folder doesn't count.
    fn is_folder(&mut self, path: &str) -> Result<bool, Fault>
        ensures { done self.new ≡ looked_by result path.now (done self.old) };
}
