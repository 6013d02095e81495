ghost use Rattle.std.specs.Prelude.{◌≡◌, [], length, nat_eq, IfOk, IsTrue, ◌↔◌};
ghost use Rattle.std.proofs.lemmas.Cmp.{nat_list_eq_equiv};
ghost use Rattle.std.specs.Cmp as Cmp;
ghost use lib.Pointwise.{pointwise};

use bytes::Bytes;
use std::alloc::{AllocError, Global};
use std::marker::Model;

/// An uninterpreted sequence of octets, such as a name or a piece of a file. Copies and parts share one block of
/// memory, which is freed with the last of them. Contracts see the list of octets.
#[derive(Debug, Drop)]
pub struct Octets {
    items: Bytes<Global>,
}

impl Model for Octets {
    ghost use Rattle.std.specs.Prelude.{List, ℕ};

    ghost Value = { List ℕ };

    ghost view = { λ o. o.items };
}

impl Octets {
    ghost use Rattle.std.specs.Prelude.{◌≤◌, slice_range};

    pub fn new() -> Octets
        ensures { result ≡ [] }
    {
        Octets {
            items: Bytes::new(),
        }
    }

    /// Copies the octets into new memory.
    pub fn from_slice(alloc: Global, octets: &[u8]) -> Result<Octets, AllocError>
        ensures { IfOk result (λ o. o ≡ octets.now) }
    {
        Ok(Octets {
            items: Bytes::copy_from_slice(alloc, octets)?,
        })
    }

    /// Takes over the vector's octets without copying them.
    pub fn from_vec(items: Vec<u8>) -> Result<Octets, AllocError>
        ensures { IfOk result (λ o. o ≡ items.items) }
    {
        Ok(Octets {
            items: Bytes::from_vec(items)?,
        })
    }

    /// A copy that shares the memory.
    pub fn copy(&self) -> Result<Octets, AllocError>
        ensures { IfOk result (λ copy. copy ≡ self.now) }
    {
        Ok(Octets {
            items: self.items.clone()?,
        })
    }

    /// The octets from `start` to `end` - 1, which share the memory.
    pub fn part(&self, start: usize, end: usize) -> Result<Octets, AllocError>
        requires ordered { start ≤ end }
        requires inside { end ≤ length self.now }
        ensures { IfOk result (λ part. part ≡ slice_range self.now start end) }
    {
        Ok(Octets {
            items: self.items.slice(start..end)?,
        })
    }

    pub fn as_slice(&self) -> &[u8]
        ensures { result.now ≡ self.now }
    {
        self.items.as_slice()
    }
}

impl Clone for Octets {
    ghost is_clone = { λ octets copy. copy ≡ octets };

    fn clone(&self) -> Result<Octets, AllocError> {
        self.copy()
    }
}

/// No octets.
impl Default for Octets {
    fn default() -> Octets {
        Octets::new()
    }
}

impl PartialEq for Octets {
    ghost eq = { pointwise nat_eq };

    ghost laws = { Cmp.partial_equiv_from_equiv nat_list_eq_equiv };

    fn eq(&self, other: &Octets) -> bool {
        self.as_slice() == other.as_slice()
    }
}

impl Eq for Octets {
    ghost laws = { nat_list_eq_equiv };
}
