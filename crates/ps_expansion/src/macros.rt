//! Macros: their rules, and local ones.

ghost use Rattle.ps_derived.specs.Seen.{seen_macro};
ghost use Rattle.ps_expansion.specs.Does.{Does, Gives, state_of, task_of};
ghost use Rattle.ps_expansion.specs.Macros.{add_macro, add_macros, bind_macros, rules_from};
ghost use Rattle.ps_expansion.specs.declared.stop.Stop.TheVariants.{NoMemory as WantOfMemory};
ghost use Rattle.std.specs.Prelude.{IfErr, IfOk, OnOk, length, map, ◌≡◌};

use crate::expansion::{Expansion, refused};
use crate::stop::Stop;
use crate::task::Task;
use ps_base::FormKind;
use ps_derived::Macro;
use ps_pattern::{Binding, PatternFault, Rules, Syntax, compile_rules};

impl Expansion {
    /// The number of the next macro.
    pub fn next_macro(&self) -> Result<u32, Stop>
        ensures err { IfErr result (λ e. e ≡ WantOfMemory) }
        ensures number { IfOk result (λ m. m ≡ length self.now.hygiene.world.rules) }
    {
        let number = self.hygiene.macros();
        if number >= u32::MAX as usize {
            return Err(Stop::NoMemory);
        }
        Ok(number as u32)
    }

    fn rules_from(&self, task: &Task, form: &Syntax) -> Result<Rules, Stop>
        ensures { Gives result (rules_from (task_of task.now) form.now (state_of self.now)) self.now.hygiene.here self.now }
    {
        match compile_rules(self.alloc, form, task.names) {
            Ok(rules) => Ok(rules),
            Err(PatternFault::BadRules) => Err(refused(FormKind::BadRules, form.place)),
            Err(PatternFault::NoMemory) => Err(Stop::NoMemory),
            Err(PatternFault::NoRule) => Err(Stop::NoMemory),
            Err(PatternFault::Uneven) => Err(Stop::NoMemory),
            Err(PatternFault::TooLarge) => Err(Stop::NoMemory),
        }
    }

    /// A macro, whose rules stand here.
    pub fn add_macro(&mut self, task: &Task, form: &Syntax) -> Result<u32, Stop>
        ensures { Does result (add_macro (task_of task.now) self.old.hygiene.here form.now) self.old self.new }
    {
        let rules = self.rules_from(task, form)?;
        Ok(self.hygiene.add_macro(rules)?)
    }

    /// Macros in order, whose rules stand here.
    pub fn add_macros(&mut self, task: &Task, macros: &[Macro]) -> Result<(), Stop>
        ensures { Does result (add_macros (task_of task.now) self.old.hygiene.here (map seen_macro macros.now)) self.old self.new }
    {
        for x in macros {
            self.add_macro(task, x.rules)?;
        }
        Ok(())
    }

    /// Keywords stand for macros, numbered in a row from this one on.
    pub fn bind_macros(&mut self, macros: &[Macro], first: u32) -> Result<(), Stop>
        ensures err { IfErr result (λ e. e ≡ WantOfMemory) }
        ensures bound { OnOk result (self.new.hygiene.here ≡ bind_macros (map seen_macro macros.now) first self.old.hygiene.here) }
        ensures state { OnOk result (state_of self.new ≡ state_of self.old) }
    {
        let mut number = first;
        for x in macros {
            self.hygiene.bind(x.keyword, Binding::Macro(number))?;
            if number == u32::MAX {
                return Err(Stop::NoMemory);
            }
            number += 1;
        }
        Ok(())
    }
}
