//! Tables of identifiers: each is told by its base name and its stamps, and is found without a search through the others.

ghost use Rattle.std.specs.Prelude.{◌≡◌, [], not, IfOk, OnOk};
ghost use Rattle.ps_pattern.specs.Identifiers.{key, stands, with_key, place_of};

use indexmap::IndexSet;
use ps_base::NoMemory;
use ps_pattern::Ident;
use std::alloc::{AllocError, Global};
use std::marker::Model;

/// Distinct keys of identifiers, numbered from 0 in the order in which they were first added.
#[derive(Drop)]
pub struct Keys {
    keys: IndexSet<Vec<u64>>,
    alloc: Global,
}

impl Model for Keys {
    ghost use Rattle.std.specs.Prelude.{ℕ, List, map};

    ghost Value = { List (List ℕ) };

    ghost view = { λ s. map (λ t. t.items) s.keys.keys };
}

// What an identifier is told by.
fn key_of(alloc: Global, id: &Ident) -> Result<Vec<u64>, AllocError>
    ensures { IfOk result (λ k. k.items ≡ key id.now) }
{
    let mut key = Vec::new(alloc);
    key.push(id.name.0 as u64)?;
    key.extend_from_slice(id.stamps.as_slice())?;
    Ok(key)
}

impl Keys {
    /// An empty table.
    pub fn new(alloc: Global) -> Keys
        ensures { result ≡ [] }
    {
        Keys {
            keys: IndexSet::new(alloc),
            alloc,
        }
    }

    /// Where an identifier stands.
    pub fn find(&self, id: &Ident) -> Result<Option<usize>, NoMemory>
        ensures { IfOk result (λ r. r ≡ place_of self.now (key id.now)) }
    {
        let key = key_of(self.alloc, id)?;
        Ok(self.keys.get_index_of(key.as_slice()))
    }

    /// Adds an identifier, and tells whether it is new.
    pub fn add(&mut self, id: &Ident) -> Result<bool, NoMemory>
        ensures added { OnOk result (self.new ≡ with_key self.old (key id.now)) }
        ensures told { IfOk result (λ r. r ≡ not (stands self.old (key id.now))) }
    {
        let key = key_of(self.alloc, id)?;
        let new = self.keys.insert(key)?;
        Ok(new)
    }
}
