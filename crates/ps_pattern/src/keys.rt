//! Tables of identifiers: each is told by its base name and its stamps, and is found without a search through the others.

ghost use Rattle.std.specs.Prelude.{◌≡◌, [], ◌∷◌, ◌++◌, not, IfOk, OnOk};
ghost use Rattle.ps_pattern.specs.Identifiers.{key, stands, with_key, place_of, among as among_spec, all_keys};
ghost use Rattle.ps_pattern.specs.Compiling.{table_of as table_spec};

use crate::syntax::Ident;
use crate::variables::Var;
use indexmap::IndexSet;
use std::alloc::{AllocError, Global};
use std::marker::Model;

/// Distinct keys of identifiers, numbered from 0 in the order in which they were first added.
#[derive(Drop)]
pub struct Keys {
    keys: IndexSet<Vec<u64>>,
    alloc: Global,
}

impl Model for Keys {
    ghost use Rattle.std.specs.Prelude.{ℕ, List, map};

    ghost Value = { List (List ℕ) };

    ghost view = { λ s. map (λ t. t.items) s.keys.keys };
}

// What an identifier is told by.
fn key_of(alloc: Global, id: &Ident) -> Result<Vec<u64>, AllocError>
    ensures { IfOk result (λ k. k.items ≡ key id.now) }
{
    let mut key = Vec::new(alloc);
    key.push(id.name.0 as u64)?;
    key.extend_from_slice(id.stamps.as_slice())?;
    Ok(key)
}

impl Keys {
    /// An empty table.
    pub fn new(alloc: Global) -> Keys
        ensures { result ≡ [] }
    {
        Keys {
            keys: IndexSet::new(alloc),
            alloc,
        }
    }

    /// Where an identifier stands.
    pub fn find(&self, id: &Ident) -> Result<Option<usize>, AllocError>
        ensures { IfOk result (λ r. r ≡ place_of self.now (key id.now)) }
    {
        let key = key_of(self.alloc, id)?;
        Ok(self.keys.get_index_of(key.as_slice()))
    }

    /// Whether an identifier stands in the table.
    pub fn has(&self, id: &Ident) -> Result<bool, AllocError>
        ensures { IfOk result (λ r. r ≡ among_spec id.now self.now) }
    {
        let key = key_of(self.alloc, id)?;
        Ok(self.keys.contains(key.as_slice()))
    }

    /// Adds an identifier, and tells whether it is new.
    pub fn add(&mut self, id: &Ident) -> Result<bool, AllocError>
        ensures added { OnOk result (self.new ≡ with_key self.old (key id.now)) }
        ensures told { IfOk result (λ r. r ≡ not (stands self.old (key id.now))) }
    {
        let key = key_of(self.alloc, id)?;
        let new = self.keys.insert(key)?;
        Ok(new)
    }
}

/// The table of identifiers, each once.
pub fn keys_of(alloc: Global, ids: &[Ident]) -> Result<Keys, AllocError>
    ensures { IfOk result (λ r. r ≡ all_keys [] ids.now) }
{
    let mut keys = Keys::new(alloc);
    for id in ids {
        keys.add(id)?;
    }
    Ok(keys)
}

/// The table of variables; nothing where one stands twice.
pub fn table_of(alloc: Global, vars: &[Var]) -> Result<Option<Keys>, AllocError>
    ensures { IfOk result (λ r. r ≡ table_spec [] vars.now) }
{
    let mut keys = Keys::new(alloc);
    for var in vars {
        let is_new = keys.add(&var.id)?;
        if !is_new {
            return Ok(None);
        }
    }
    Ok(Some(keys))
}
