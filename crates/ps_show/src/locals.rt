//! Locals in order.

ghost use Rattle.std.specs.Prelude.{◌≡◌, [], nat_eq, OnOk};
ghost use Rattle.std.specs.List.{position_or_len};
ghost use Rattle.ps_show.specs.Bindings.{met};

use indexmap::IndexSet;
use ps_base::NoMemory;
use std::alloc::Global;
use std::marker::Model;

/// Locals in the order in which they were met first, each found at once.
#[derive(Drop)]
pub(crate) struct Locals {
    numbers: IndexSet<u32>,
}

impl Model for Locals {
    ghost use Rattle.std.specs.Prelude.{ℕ, List};

    ghost Value = { List ℕ };

    ghost view = { λ s. s.numbers.keys };
}

impl Locals {
    /// No locals.
    pub(crate) fn new(alloc: Global) -> Locals
        ensures { result ≡ [] }
    {
        Locals {
            numbers: IndexSet::new(alloc),
        }
    }

    /// How many were met before a local; all, where it was not met.
    pub(crate) fn place(&self, local: u32) -> usize
        ensures { result ≡ position_or_len (nat_eq local) self.now }
    {
        match self.numbers.get_index_of(&local) {
            Some(place) => place,
            None => self.numbers.len(),
        }
    }

    /// A local is met.
    ///
    /// # Errors
    ///
    /// `NoMemory` where memory ran out.
    pub(crate) fn meet(&mut self, local: u32) -> Result<(), NoMemory>
        ensures { OnOk result (self.new ≡ met self.old local) }
    {
        self.numbers.insert(local)?;
        Ok(())
    }
}
