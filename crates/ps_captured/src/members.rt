//! The lambdas of a group, by their locals.

ghost use Rattle.std.specs.Prelude.{◌≡◌, IfOk, OnOk};
ghost use Rattle.std.specs.List.{fold};
ghost use Rattle.ps_captured.specs.InsideKeeping.{looked, no_entry, with_entry, without};

use ps_base::NoMemory;
use ps_kernel::{GroupEntry, Numbers};
use std::alloc::Global;
use std::collections::BTreeMap;

/// The lambdas of each local of a group.
#[derive(Drop)]
pub struct Members {
    table: BTreeMap<u32, Numbers>,
}

impl Members {
    /// Those of a group.
    pub fn new(alloc: Global, group: &[GroupEntry]) -> Result<Members, NoMemory>
        ensures { IfOk result (λ members. looked members ≡ fold with_entry no_entry group.now) }
    {
        let mut members = Members::none(alloc);
        for entry in group {
            members.add(alloc, *entry)?;
        }
        Ok(members)
    }

    /// The lambdas of a local.
    pub fn at(&self, local: u32) -> &[u32]
        ensures { result.now ≡ looked self.now local }
    {
        match self.table.get(&local) {
            Some(lambdas) => lambdas.as_slice(),
            None => &[],
        }
    }

    fn none(alloc: Global) -> Members
        ensures { looked result ≡ no_entry }
    {
        Members {
            table: BTreeMap::new(alloc),
        }
    }

    fn add(&mut self, alloc: Global, entry: GroupEntry) -> Result<(), NoMemory>
        ensures { OnOk result (looked self.new ≡ with_entry (looked self.old) entry) }
    {
        let mut lambdas = self.take(alloc, entry.local);
        lambdas.push(entry.lambda)?;
        self.table.insert(entry.local, lambdas)?;
        Ok(())
    }

    // The lambdas of a local, which has none then.
    fn take(&mut self, alloc: Global, local: u32) -> Numbers
        ensures taken { result ≡ looked self.old local }
        ensures rest { looked self.new ≡ without (looked self.old) local }
    {
        match self.table.remove(&local) {
            Some(lambdas) => lambdas,
            None => Numbers::new(alloc),
        }
    }
}
