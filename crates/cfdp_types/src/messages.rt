ghost use Rattle.std.specs.Prelude.{◌≡◌, [], ◌∷◌, ◌++◌, IfOk, OnOk, OnErr, map, nat_eq};
ghost use Rattle.std.proofs.lemmas.Cmp.{nat_list_eq_equiv, lists_equiv};
ghost use Rattle.std.specs.Cmp as Cmp;
ghost use lib.Pointwise.{pointwise};

use crate::octets::Octets;
use std::alloc::{AllocError, Global};
use std::marker::Model;

/// The messages to the user in a Metadata PDU, in order. Contracts see the list of them.
#[derive(Clone, Debug, Drop)]
pub struct Messages {
    items: Vec<Octets>,
}

impl Model for Messages {
    ghost use Rattle.std.specs.Prelude.{List, ℕ};

    ghost Value = { List (List ℕ) };

    ghost view = { λ m. m.items.items };
}

impl Messages {
    pub fn new(alloc: Global) -> Messages
        ensures { result ≡ [] }
    {
        Messages {
            items: Vec::new(alloc),
        }
    }

    /// Copies the slices, in order.
    pub fn from_slices(alloc: Global, slices: &[&[u8]]) -> Result<Messages, AllocError>
        ensures { IfOk result (λ messages. messages ≡ map (λ slice. slice.now) slices.now) }
    {
        let mut items = Vec::with_capacity(alloc, slices.len())?;
        for slice in slices {
            items.push(Octets::from_slice(alloc, slice)?)?;
        }
        Ok(Messages { items })
    }

    /// A copy of the list, which shares the messages' octets.
    pub fn copy(&self) -> Result<Messages, AllocError>
        ensures { IfOk result (λ copy. copy ≡ self.now) }
    {
        let mut items = Vec::with_capacity(*self.items.allocator(), self.items.len())?;
        for message in &self.items {
            items.push(message.copy()?)?;
        }
        Ok(Messages { items })
    }

    /// An empty list with room for `count` messages.
    pub fn with_capacity(alloc: Global, count: usize) -> Result<Messages, AllocError>
        ensures { IfOk result (λ messages. messages ≡ []) }
    {
        Ok(Messages {
            items: Vec::with_capacity(alloc, count)?,
        })
    }

    pub fn as_slice(&self) -> &[Octets]
        ensures { result.now ≡ self.now }
    {
        self.items.as_slice()
    }

    /// Adds a message at the end.
    pub fn push(&mut self, message: Octets) -> Result<(), AllocError>
        ensures ok { OnOk result (self.new ≡ self.old ++ message ∷ []) }
        ensures err { OnErr result (self.new ≡ self.old) }
    {
        self.items.push(message)?;
        Ok(())
    }
}

impl PartialEq for Messages {
    ghost eq = { pointwise (pointwise nat_eq) };

    ghost laws = { Cmp.partial_equiv_from_equiv (lists_equiv nat_list_eq_equiv) };

    fn eq(&self, other: &Messages) -> bool {
        self.as_slice() == other.as_slice()
    }
}

impl Eq for Messages {
    ghost laws = { lists_equiv nat_list_eq_equiv };
}
