//! Sets of locals.

ghost use Rattle.std.specs.Prelude.{◌≡◌, [], IfOk, OnOk};
ghost use Rattle.ps_kernel.specs.Lists.{stands_in};
ghost use Rattle.ps_captured.specs.InsideTables.{with_local};

use ps_base::NoMemory;
use ps_kernel::Numbers;
use std::alloc::Global;
use std::collections::BTreeSet;
use std::marker::Model;

/// A set of locals, in order of their numbers.
#[derive(Drop)]
pub struct Locals {
    set: BTreeSet<u32>,
}

impl Model for Locals {
    ghost use Rattle.std.specs.Prelude.{ℕ, List};

    ghost Value = { List ℕ };

    ghost view = { λ s. s.set.keys };
}

impl Locals {
    /// A set of none.
    pub fn new(alloc: Global) -> Locals
        ensures { result ≡ [] }
    {
        Locals {
            set: BTreeSet::new(alloc),
        }
    }

    /// Whether a local is in the set.
    pub fn contains(&self, local: u32) -> bool
        ensures { result ≡ stands_in local self.now }
    {
        self.set.contains(&local)
    }

    /// Puts a local in the set.
    pub fn insert(&mut self, local: u32) -> Result<(), NoMemory>
        ensures { OnOk result (self.new ≡ with_local self.old local) }
    {
        self.set.insert(local)?;
        Ok(())
    }

    /// Its locals, in order of their numbers.
    pub fn numbers(&self, alloc: Global) -> Result<Numbers, NoMemory>
        ensures { IfOk result (λ numbers. numbers ≡ self.now) }
    {
        let mut numbers = Numbers::new(alloc);
        for local in &self.set {
            numbers.push(*local)?;
        }
        Ok(numbers)
    }
}
