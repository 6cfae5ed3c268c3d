//! Special forms at a place, taken apart.

ghost use Rattle.ps_derived.specs.Seen.{seen as seen_parts};
ghost use Rattle.ps_expansion.specs.Apart.{parts_at};
ghost use Rattle.ps_expansion.specs.Does.{Gives_by, state_of, task_of};

use crate::expansion::Expansion;
use crate::stop::Stop;
use crate::task::Task;
use ps_base::Core;
use ps_derived::{Parts, parts};
use ps_pattern::Syntax;

impl Expansion {
    /// The parts of a special form here.
    pub fn parts<'a>(&self, task: &Task, core: Core, form: &'a Syntax) -> Result<Parts<'a>, Stop>
        ensures { Gives_by seen_parts result (parts_at (task_of task.now) self.now.hygiene.here core form.now (state_of self.now)) self.now.hygiene.here self.now }
    {
        Ok(parts(self.alloc, core, form, task.names, &self.hygiene.around())?)
    }
}
