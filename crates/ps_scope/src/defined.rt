//! What owners define.

ghost use Rattle.std.specs.Prelude.{◌≡◌, [], ◌∷◌, length, IfOk, OnOk, OnErr};
ghost use Rattle.ps_scope.specs.Environments.{word, entry_of, defined};

use crate::table::Table;
use ps_base::Name;
use ps_pattern::Binding;
use std::alloc::{AllocError, Global};
use std::marker::Model;

/// Definitions of identifiers by owners, as of variables by structures. Contracts see them as a list, the newest first.
#[derive(Drop)]
pub struct Defined {
    table: Table,
}

impl Model for Defined {
    ghost use Rattle.std.specs.Prelude.{List};
    ghost use Rattle.ps_scope.specs.Environments.{Entry};

    ghost Value = { List Entry };

    ghost view = { λ d. d.table.live };
}

impl Defined {
    /// No definitions.
    ///
    /// # Errors
    ///
    /// `AllocError` where memory ran out.
    pub fn new(alloc: Global) -> Result<Defined, AllocError>
        ensures { IfOk result (λ d. d ≡ []) }
    {
        let table = Table::new(alloc)?;
        Ok(Defined { table })
    }

    /// Adds a definition, which hides an older one of the same identifier by the same owner.
    ///
    /// # Errors
    ///
    /// `AllocError` where memory ran out; then nothing is added.
    pub fn define(
        &mut self,
        owner: u32,
        name: Name,
        stamps: &[u64],
        binding: Binding,
    ) -> Result<(), AllocError>
        ensures added { OnOk result (self.new ≡ entry_of owner (word name stamps.now) binding ∷ self.old) }
        ensures unchanged { OnErr result (self.new ≡ self.old) }
    {
        self.table.push(owner, name, stamps, binding)
    }

    /// What an owner defines an identifier as.
    pub fn find(&self, owner: u32, name: Name, stamps: &[u64]) -> Option<Binding>
        ensures { result ≡ defined self.now owner (word name stamps.now) }
    {
        self.table.find(owner, name, stamps)
    }

    /// How many definitions there are.
    pub fn len(&self) -> usize
        ensures { result ≡ length self.now }
    {
        self.table.len()
    }
}
