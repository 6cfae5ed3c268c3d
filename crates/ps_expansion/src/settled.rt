//! Forms, transcribed until they are no macro uses.

ghost use Rattle.ps_expansion.specs.Does.{Does_by};
ghost use Rattle.ps_expansion.specs.Settled.{held_form};
ghost use Rattle.ps_expansion.specs.States.{settled};
ghost use Rattle.std.specs.Prelude.{◌≡◌};

use crate::expansion::Expansion;
use crate::stop::Stop;
use crate::task::Task;
use ps_pattern::Syntax;

/// A form, once its own macro uses are transcribed: as it was given, or as it was made.
#[derive(Drop)]
pub enum Held<'a> {
    Given(&'a Syntax),
    Made(Syntax),
}

impl<'a> Held<'a> {
    pub fn form(&self) -> &Syntax
        ensures { result.now ≡ held_form self.now }
    {
        match self {
            Held::Given(form) => form,
            Held::Made(form) => form,
        }
    }
}

impl Expansion {
    /// A form, transcribed until it is no macro use.
    pub fn settled<'a>(&mut self, task: &Task, form: &'a Syntax) -> Result<Held<'a>, Stop>
        ensures { Does_by held_form result (settled task.now.limits.now self.old.hygiene.here form.now) self.old self.new }
    {
        match self.hygiene.settle(task.limits, form)? {
            None => Ok(Held::Given(form)),
            Some(made) => Ok(Held::Made(made)),
        }
    }
}
