//! Codes of labels, all different.

ghost use Rattle.ps_bodies.specs.InsideBranches.{with_code};
ghost use Rattle.ps_kernel.specs.Rules.{is_among};
ghost use Rattle.std.specs.Prelude.{[], IfOk, OnOk, length, not, ◌≡◌};

use indexmap::IndexSet;
use ps_base::NoMemory;
use std::alloc::Global;
use std::marker::Model;

/// Different codes in the order in which they were added, each found at once.
#[derive(Drop)]
pub(crate) struct Codes {
    codes: IndexSet<i64>,
}

impl Model for Codes {
    ghost use Rattle.std.specs.Prelude.{List, ℤ};

    ghost Value = { List ℤ };

    ghost view = { λ s. s.codes.keys };
}

impl Codes {
    /// No codes.
    pub(crate) fn new(alloc: Global) -> Codes
        ensures { result ≡ [] }
    {
        Codes {
            codes: IndexSet::new(alloc),
        }
    }

    /// How many there are.
    pub(crate) fn len(&self) -> usize
        ensures { result ≡ length self.now }
    {
        self.codes.len()
    }

    /// Adds a code, and tells whether it is new.
    ///
    /// # Errors
    ///
    /// `NoMemory` where memory ran out.
    pub(crate) fn add(&mut self, code: i64) -> Result<bool, NoMemory>
        ensures added { OnOk result (self.new ≡ with_code self.old code) }
        ensures told { IfOk result (λ r. r ≡ not (is_among code self.old)) }
    {
        let new = self.codes.insert(code)?;
        Ok(new)
    }
}
