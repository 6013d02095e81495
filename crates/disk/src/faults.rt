//! Which failures of the system may pass.
ghost use Rattle.std.specs.Prelude.{◌≡◌};
ghost use Rattle.std.specs.IoError.{error_kind, raw_os_error};
ghost use Rattle.disk.specs.Faults.{fault_of, hindrance_of, numbered_hindrance, passes, words_of};

use crate::device::Fault;
use std::io;
use std::io::ErrorKind;

// The system's numbers of errors that have no kind of their own.
const INPUT_OUTPUT_ERROR: i32 = 5;

const TOO_MANY_FILES_IN_SYSTEM: i32 = 23;

const TOO_MANY_FILES: i32 = 24;

/// The fault of an error of the system.
pub(crate) fn fault_of(error: &io::Error) -> Fault
    ensures { result ≡ fault_of (error_kind error.now) (raw_os_error error.now) }
{
    match error.kind() {
        ErrorKind::AlreadyExists => Fault::Exists,
        ErrorKind::NotFound => Fault::MayPass,
        ErrorKind::OutOfMemory => Fault::MayPass,
        ErrorKind::QuotaExceeded => Fault::MayPass,
        ErrorKind::ReadOnlyFilesystem => Fault::MayPass,
        ErrorKind::StorageFull => Fault::MayPass,
        _ if passes(error.raw_os_error()) => Fault::MayPass,
        _ => Fault::Failed,
    }
}

// Whether an error with this number may pass.
fn passes(code: Option<i32>) -> bool
    ensures { result ≡ passes code }
{
    match code {
        None => false,
        Some(code) => {
            code == INPUT_OUTPUT_ERROR || code == TOO_MANY_FILES_IN_SYSTEM || code == TOO_MANY_FILES
        }
    }
}

/// What hinders a disk from doing what it was asked.
#[derive(Clone, Copy, Debug, PartialEq, Eq)]
pub enum Hindrance {
    NoFolder,
    NoSpace,
    NoQuota,
    ReadOnly,
    NoMemory,
    InputOutput,
    TooManyFiles,
    /// Another error of the system.
    Refuses,
}

impl Hindrance {
    /// What hinders, in words for people.
    pub fn words(self) -> &'static str
        ensures { result.now ≡ words_of self }
    {
        match self {
            Hindrance::NoFolder => "the folder isn't there",
            Hindrance::NoSpace => "no space is left",
            Hindrance::NoQuota => "the quota is used up",
            Hindrance::ReadOnly => "the file system is read-only",
            Hindrance::NoMemory => "no memory is left",
            Hindrance::InputOutput => "an input or output error",
            Hindrance::TooManyFiles => "too many files are open",
            Hindrance::Refuses => "the system refuses it",
        }
    }
}

/// What hinders the disk where the system returns this error.
pub(crate) fn hindrance_of(error: &io::Error) -> Hindrance
    ensures { result ≡ hindrance_of (error_kind error.now) (raw_os_error error.now) }
{
    match error.kind() {
        ErrorKind::NotFound => Hindrance::NoFolder,
        ErrorKind::StorageFull => Hindrance::NoSpace,
        ErrorKind::QuotaExceeded => Hindrance::NoQuota,
        ErrorKind::ReadOnlyFilesystem => Hindrance::ReadOnly,
        ErrorKind::OutOfMemory => Hindrance::NoMemory,
        _ => numbered_hindrance(error.raw_os_error()),
    }
}

// What hinders the disk where an error has this number and no kind of its own.
fn numbered_hindrance(code: Option<i32>) -> Hindrance
    ensures { result ≡ numbered_hindrance code }
{
    match code {
        None => Hindrance::Refuses,
        Some(code) => {
            if code == INPUT_OUTPUT_ERROR {
                Hindrance::InputOutput
            } else if code == TOO_MANY_FILES_IN_SYSTEM || code == TOO_MANY_FILES {
                Hindrance::TooManyFiles
            } else {
                Hindrance::Refuses
            }
        }
    }
}
