//! Rows of distinct numbers.

ghost use Rattle.std.specs.Prelude.{◌≡◌, ◌<◌, ◌≤◌, ◌^◌, [], ◌∷◌, ◌++◌, length, None, IfSome, OnOk};
ghost use Rattle.ps_modules.specs.Texts.{place_in};

use indexmap::IndexSet;
use ps_base::NoMemory;
use std::alloc::Global;
use std::marker::Model;

/// Distinct numbers in the order in which they were added, each found at once.
#[derive(Drop)]
pub(crate) struct Numbers {
    numbers: IndexSet<u32>,
}

impl Model for Numbers {
    ghost use Rattle.std.specs.Prelude.{ℕ, List};
    ghost use Rattle.ps_modules.specs.InsideTables.{AreNumbers};

    ghost Value = { List ℕ };

    ghost view = { λ s. s.numbers.keys };

    ghost invariant = { λ s. AreNumbers s.numbers.keys };
}

impl Numbers {
    /// No numbers.
    pub(crate) fn new(alloc: Global) -> Numbers
        ensures { result ≡ [] }
    {
        Numbers {
            numbers: IndexSet::new(alloc),
        }
    }

    /// The place of a number.
    pub(crate) fn place(&self, number: u32) -> Option<usize>
        ensures is { result ≡ place_in self.now number }
        ensures within { IfSome result (λ i. i < length self.now) }
    {
        self.numbers.get_index_of(&number)
    }

    /// Adds a number that is not there. There are never more than there are numbers of 32 bits.
    ///
    /// # Errors
    ///
    /// `NoMemory` where memory ran out.
    pub(crate) fn push(&mut self, number: u32) -> Result<(), NoMemory>
        requires { place_in self.old number ≡ None }
        ensures is { OnOk result (self.new ≡ self.old ++ number ∷ []) }
        ensures few { OnOk result (length self.new ≤ 2 ^ 32) }
    {
        self.numbers.insert_full(number)?;
        Ok(())
    }
}
