ghost use Rattle.std.specs.Prelude.{◌≡◌, ◌<◌, [], length, IfSome, OnOk, OnErr};
ghost use Rattle.program_agenda.specs.Turns.{awake_place, key_place, next_key, turned, rested, forgotten, begun, least_rest, woken, woken_one};

use crate::sending::Sending;
use cfdp_types::TxnKey;
use std::alloc::{AllocError, Global};
use std::marker::Model;

/// The files being sent, which take turns. Contracts see the list of them, in the order of their turns.
#[derive(Drop)]
pub struct Rotation {
    sendings: Vec<Sending>,
}

impl Model for Rotation {
    ghost use Rattle.std.specs.Prelude.{List};
    ghost use Rattle.program_agenda.specs.declared.sending.Sending.{Sending};

    ghost Value = { List Sending };

    ghost view = { λ r. r.sendings.items };
}

impl Rotation {
    /// An empty list.
    pub fn new(alloc: Global) -> Rotation
        ensures { result ≡ [] }
    {
        Rotation {
            sendings: Vec::new(alloc),
        }
    }

    /// Reserves memory for one more file.
    pub fn reserve(&mut self) -> Result<(), AllocError>
        ensures { self.new ≡ self.old }
    {
        self.sendings.reserve(1)
    }

    /// Adds a transaction whose file is to be sent, after all others.
    pub fn begin(&mut self, key: TxnKey) -> Result<(), AllocError>
        ensures ok { OnOk result (self.new ≡ begun key self.old) }
        ensures err { OnErr result (self.new ≡ self.old) }
    {
        match self.sendings.push(Sending {
            key,
            rests_until: 0,
        }) {
            Ok(()) => Ok(()),
            Err(_) => Err(AllocError),
        }
    }

    /// The transaction of the first file that doesn't rest; that file's next turn is after all others.
    pub fn next(&mut self, now: u64) -> Option<TxnKey>
        ensures next { result ≡ next_key now self.old }
        ensures order { self.new ≡ turned now self.old }
    {
        let place = awake_place(&self.sendings, now)?;
        let sending = self.sendings.remove(place);
        self.sendings.push_reserved(sending);
        Some(sending.key)
    }

    /// Lets the file of a transaction rest until a moment.
    pub fn rest(&mut self, key: TxnKey, until: u64)
        ensures { self.new ≡ rested key until self.old }
    {
        if let Some(place) = key_place(&self.sendings, key) {
            self.sendings[place] = Sending {
                key,
                rests_until: until,
            };
        }
    }

    /// Wakes all files that rest.
    pub fn wake_all(&mut self)
        ensures { self.new ≡ woken self.old }
    {
        wake_each(&mut self.sendings);
    }

    /// Removes the file of a transaction: it is no longer being sent.
    pub fn forget(&mut self, key: TxnKey)
        ensures { self.new ≡ forgotten key self.old }
    {
        if let Some(place) = key_place(&self.sendings, key) {
            self.sendings.remove(place);
        }
    }

    /// The first moment at which a file doesn't rest, or the greatest of 64 bits if no file is being sent.
    pub fn soonest(&self) -> u64
        ensures { result ≡ least_rest self.now }
    {
        self.sendings
            .iter()
            .fold(u64::MAX, |least, sending| least.min(sending.rests_until))
    }
}

// The place of the first file that doesn't rest.
fn awake_place(sendings: &[Sending], now: u64) -> Option<usize>
    ensures place { result ≡ awake_place now sendings.now }
    ensures range { IfSome result (λ place. place < length sendings.now) }
{
    sendings
        .iter()
        .position(|sending| sending.rests_until <= now)
}

// The place of the file of a transaction.
fn key_place(sendings: &[Sending], key: TxnKey) -> Option<usize>
    ensures place { result ≡ key_place key sendings.now }
    ensures range { IfSome result (λ place. place < length sendings.now) }
{
    sendings.iter().position(|sending| key == sending.key)
}

fn wake_each(sendings: &mut Vec<Sending>)
    ensures { sendings.new.items ≡ woken sendings.old.items }
{
    for sending in sendings.iter_mut() {
        *sending = woken_one(*sending);
    }
}

fn woken_one(sending: Sending) -> Sending
    ensures { result ≡ woken_one sending }
{
    Sending {
        key: sending.key,
        rests_until: 0,
    }
}
