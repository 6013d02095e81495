//! The octets of a file that is too long for one line.
ghost use Rattle.std.specs.Prelude.{◌≡◌, [], ◌++◌, is_some, IfOk, OnOk};
ghost use Rattle.std.specs.Option.{option_map};

use cfdp_types::Octets;
use std::alloc::{AllocError, Global};
use std::marker::Model;

/// The octets that lines have gathered for the file of the next put, or none in a script that has no such lines.
/// Contracts see them as an optional list.
#[derive(Drop)]
pub struct Gathered {
    octets: Option<Vec<u8>>,
}

impl Model for Gathered {
    ghost use Rattle.std.specs.Prelude.{List, ℕ, Option};
    ghost use Rattle.std.specs.Option.{option_map};

    ghost Value = { Option (List ℕ) };

    ghost view = { λ g. option_map (λ octets. octets.items) g.octets };
}

impl Gathered {
    /// For a script whose lines gather nothing.
    pub fn never() -> Gathered
        ensures { result ≡ None }
    {
        Gathered { octets: None }
    }

    /// Nothing yet, in a script whose lines may gather octets.
    pub fn nothing(alloc: Global) -> Gathered
        ensures { result ≡ Some [] }
    {
        Gathered {
            octets: Some(Vec::new(alloc)),
        }
    }

    /// Appends octets, and returns whether the script gathers any.
    pub fn add(&mut self, octets: &[u8]) -> Result<bool, AllocError>
        ensures gathers { IfOk result (λ gathers. gathers ≡ is_some self.old) }
        ensures added { OnOk result (self.new ≡ option_map (λ front. front ++ octets.now) self.old) }
    {
        match &mut self.octets {
            None => Ok(false),
            Some(gathered) => {
                gathered.extend_from_slice(octets)?;
                Ok(true)
            }
        }
    }

    /// Drops the octets, once their put has used them.
    pub fn clear(&mut self)
        ensures { self.new ≡ option_map (λ front. []) self.old }
    {
        if let Some(gathered) = &mut self.octets {
            gathered.clear();
        }
    }

    /// A copy of the octets, in its own memory.
    pub(crate) fn copy(&self, alloc: Global) -> Result<Option<Octets>, AllocError>
        ensures { IfOk result (λ file. file ≡ self.now) }
    {
        match &self.octets {
            None => Ok(None),
            Some(gathered) => Ok(Some(Octets::from_slice(alloc, gathered.as_slice())?)),
        }
    }
}
