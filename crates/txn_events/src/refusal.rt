ghost use Rattle.std.specs.Prelude.{◌≡◌};
ghost use Rattle.txn_events.specs.Refusal.{refusal_number, refusal_name};
ghost use Rattle.txn_events.specs.declared.refusal.Refusal.TheVariants as refusals;

use std::alloc::{AllocError, AllocFailed};

/// Why an event is refused; it then changes nothing. Where several reasons apply, the first is reported.
#[derive(Clone, Copy, Debug, PartialEq, Eq)]
pub enum Refusal {
    /// No transaction with this key was opened here.
    NoTransaction = 1,
    /// The transaction has ended, or it was never opened but a later one was.
    OldTransaction = 2,
    /// The lane is running another transaction.
    LaneBusy = 3,
    /// The PDU's transmission mode is not the transaction's class.
    ModeMismatch = 4,
    /// The timer does not run, or runs with another stamp.
    StaleTimer = 5,
    /// No deposit with this stamp is waiting for an answer.
    StaleStored = 6,
    /// A deposit is waiting for the file store's answer.
    Storing = 7,
    /// The event is not possible in the state of the transaction.
    WrongState = 8,
    /// The lane has used up its sequence numbers.
    SeqExhausted = 9,
    /// The file is larger than the entity supports.
    TooLarge = 10,
    /// The journal has no room for another event of this kind.
    JournalFull = 11,
    /// Memory ran out.
    NoMemory = 12,
    /// The user's queue has no room for the step's indications.
    QueueFull = 13,
}

impl Refusal {
    /// The refusal's number, as it is printed.
    pub fn number(self) -> u8
        ensures { result ≡ refusal_number self }
    {
        self as u8
    }

    /// The refusal's name, as it is printed.
    pub fn name(self) -> &'static str
        ensures { result.now ≡ refusal_name self }
    {
        match self {
            Refusal::NoTransaction => "NoTransaction",
            Refusal::OldTransaction => "OldTransaction",
            Refusal::LaneBusy => "LaneBusy",
            Refusal::ModeMismatch => "ModeMismatch",
            Refusal::StaleTimer => "StaleTimer",
            Refusal::StaleStored => "StaleStored",
            Refusal::Storing => "Storing",
            Refusal::WrongState => "WrongState",
            Refusal::SeqExhausted => "SeqExhausted",
            Refusal::TooLarge => "TooLarge",
            Refusal::JournalFull => "JournalFull",
            Refusal::NoMemory => "NoMemory",
            Refusal::QueueFull => "QueueFull",
        }
    }
}

impl From<AllocError> for Refusal {
    ghost from_gives = { λ _ e. e ≡ refusals.NoMemory };

    fn from(_error: AllocError) -> Refusal {
        Refusal::NoMemory
    }
}

impl<T: Drop> From<AllocFailed<T>> for Refusal {
    ghost from_gives = { λ _ e. e ≡ refusals.NoMemory };

    fn from(_error: AllocFailed<T>) -> Refusal {
        Refusal::NoMemory
    }
}
