//! The group in which each lambda stands.

ghost use Rattle.std.specs.Prelude.{◌≡◌, IfOk, OnOk};
ghost use Rattle.std.specs.List.{fold};
ghost use Rattle.ps_captured.specs.InsideReading.{sight_of, sights};
ghost use Rattle.ps_captured.specs.InsideKeeping.{no_place, or_none, placed, with_place, with_sight};

use crate::seen::Seen;
use ps_base::NoMemory;
use ps_kernel::GroupEntry;
use std::alloc::Global;
use std::collections::BTreeMap;

/// The group in which each lambda of a text stands first.
#[derive(Drop)]
pub struct Places<'a> {
    table: BTreeMap<usize, &'a [GroupEntry]>,
}

impl<'a> Places<'a> {
    /// Those of what is seen in a text.
    pub fn new(alloc: Global, seen: &[Seen<'a>]) -> Result<Places<'a>, NoMemory>
        ensures { IfOk result (λ places. placed places ≡ fold with_sight no_place (sights seen.now)) }
    {
        let mut places = Places::none(alloc);
        for one in seen {
            places.add_sight(one)?;
        }
        Ok(places)
    }

    /// The group of a lambda, or no entries where it stands in none.
    pub fn at(&self, lambda: usize) -> &'a [GroupEntry]
        ensures { result.now ≡ or_none (placed self.now lambda) }
    {
        match self.table.get(&lambda) {
            Some(group) => *group,
            None => &[],
        }
    }

    fn none(alloc: Global) -> Places<'a>
        ensures { placed result ≡ no_place }
    {
        Places {
            table: BTreeMap::new(alloc),
        }
    }

    fn add_sight(&mut self, seen: &Seen<'a>) -> Result<(), NoMemory>
        ensures { OnOk result (placed self.new ≡ with_sight (placed self.old) (sight_of seen.now)) }
    {
        match seen {
            Seen::Stands(lambda, group) => self.add(*lambda as usize, *group),
            Seen::Binds(_) => Ok(()),
            Seen::Enters(_) => Ok(()),
            Seen::Mentions(_) => Ok(()),
            Seen::Sets(_, _) => Ok(()),
        }
    }

    fn add(&mut self, lambda: usize, group: &'a [GroupEntry]) -> Result<(), NoMemory>
        ensures { OnOk result (placed self.new ≡ with_place (placed self.old) lambda group.now) }
    {
        if !self.table.contains_key(&lambda) {
            self.table.insert(lambda, group)?;
        }
        Ok(())
    }
}
