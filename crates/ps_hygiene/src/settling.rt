//! Macro uses.

ghost use Rattle.std.specs.Prelude.{◌≡◌, ◌≢◌, ◌+◌, ◌<◌, length, is_some, IfOk, OnOk, Some};
ghost use Rattle.ps_pattern.specs.Matching.{literal_of};
ghost use Rattle.ps_pattern.specs.Transcribing.{chosen, Transcribed};
ghost use Rattle.ps_pattern.specs.declared.transcription.PatternFault.TheVariants as p;
ghost use Rattle.ps_hygiene.specs.Answers.{or_given, Gives, Settles};
ghost use Rattle.ps_hygiene.specs.Forms.{shape, used};
ghost use Rattle.ps_hygiene.specs.InsideSettling.{refused};
ghost use Rattle.ps_hygiene.specs.Meanings.{binding_of, meaning_in_rules};
ghost use Rattle.ps_hygiene.specs.Transcriptions.{begun, accepted, transcribed, settled};
ghost use Rattle.ps_hygiene.specs.Worlds.{rules_at};

use crate::extents::{nests_within, weigh};
use crate::hygiene::Hygiene;
use crate::uses::Uses;
use ps_base::{Fault, FormKind, Items, Limits, Place, Refusal};
use ps_pattern::{PatternFault, Syntax, transcribe};

impl Hygiene {
    /// A form is transcribed, where it is a macro use, until it is none (R5RS 4.3). Nothing is made where it is none from the start;
    /// what `held` answers is then the form itself.
    ///
    /// # Errors
    ///
    /// `NoRule` and `Uneven` as transcriptions have them, and `TooDeep` where what one gives nests deeper than `limits.depth`, each at
    /// the place of the use. `ExpansionSpent` where there were `limits.transcriptions` transcriptions already, or where more nodes
    /// would be transcribed than `new` was given. `NoMemory` where memory ran out.
    pub fn settle(&mut self, limits: &Limits, form: &Syntax) -> Result<Option<Syntax>, Refusal>
        ensures answer { Settles form.now result (settled limits.now self.old.here form.now self.old.world) self.old.here self.new }
        ensures used { IfOk result (λ made. is_some made ≡ is_some (used (shape self.old.world self.old.here form.now))) }
    {
        let mut made: Option<Syntax> = None;
        'uses: loop {
            let now = held(form, &made);
            match self.used(now) {
                None => return Ok(made),
                Some(number) => {
                    let g = self.transcribed(limits, now, number)?;
                    made = Some(g);
                }
            }
        }
    }

    // One use of a macro.
    fn transcribed(
        &mut self,
        limits: &Limits,
        form: &Syntax,
        number: u32,
    ) -> Result<Syntax, Refusal>
        ensures answer { Gives result (transcribed limits.now self.old.here form.now number self.old.world) self.old.here self.new }
        ensures counted { OnOk result ((length self.old.world.uses < limits.now.transcriptions) × (length self.new.world.uses ≡ length self.old.world.uses + 1)) }
    {
        let stamp = self.begin(limits, number)?;
        match self.filled(form, number, stamp) {
            Ok(g) => self.accept(limits, form.place, g),
            Err(fault) => Err(refused(limits.transcribed, form.place, fault)),
        }
    }

    // A transcription begins: its stamp.
    fn begin(&mut self, limits: &Limits, number: u32) -> Result<u64, Refusal>
        ensures answer { Gives result (begun limits.now number self.old.world) self.old.here self.new }
        ensures counted { OnOk result ((length self.old.world.uses < limits.now.transcriptions) × (length self.new.world.uses ≡ length self.old.world.uses + 1)) }
    {
        let so_far = self.uses.len() as u64;
        if so_far < limits.transcriptions {
            match self.uses.push(number) {
                Ok(()) => Ok(so_far + 1),
                Err(_) => Err(Refusal::NoMemory),
            }
        } else {
            Err(Refusal::Fault(Fault::ExpansionSpent(limits.transcriptions)))
        }
    }

    // What a use of a macro gives, within the room that is left.
    fn filled(&self, form: &Syntax, number: u32, stamp: u64) -> Result<Syntax, PatternFault>
        ensures { Transcribed (chosen (literal_of (meaning_in_rules self.now.world self.now.here number) (binding_of self.now.world self.now.here)) stamp form.now (rules_at self.now.world number)) self.now.world.room result }
    {
        let none = Items::new(self.alloc);
        let rules = match self.rules.get(number as usize) {
            Some(rules) => rules,
            None => &none,
        };
        let uses = Uses {
            hygiene: self,
            home: number,
        };
        transcribe(self.alloc, rules, form, &uses, stamp, self.room)
    }

    // What was transcribed counts by its size, and may not nest too deep.
    fn accept(&mut self, limits: &Limits, at: Place, g: Syntax) -> Result<Syntax, Refusal>
        ensures answer { Gives result (accepted limits.now at (Some (Some g)) self.old.world) self.old.here self.new }
        ensures counted { OnOk result (self.new.world.uses ≡ self.old.world.uses) }
    {
        match weigh(Some(self.room), &g) {
            None => Err(Refusal::Fault(Fault::ExpansionSpent(limits.transcribed))),
            Some(left) => {
                self.room = left;
                if nests_within(limits.depth, &g) {
                    Ok(g)
                } else {
                    Err(Refusal::Fault(Fault::Form(FormKind::TooDeep, at)))
                }
            }
        }
    }
}

/// What `settle` made of a form, or the form itself where it made nothing.
pub fn held<'a>(form: &'a Syntax, made: &'a Option<Syntax>) -> &'a Syntax
    ensures { result.now ≡ or_given form.now made.now }
{
    match made {
        Some(g) => g,
        None => form,
    }
}

// Why an expansion stops where a transcription does.
fn refused(transcribed: u64, at: Place, fault: PatternFault) -> Refusal
    requires { fault ≢ p.BadRules }
    ensures { result ≡ refused transcribed at fault }
{
    match fault {
        PatternFault::NoRule => Refusal::Fault(Fault::Form(FormKind::NoRule, at)),
        PatternFault::Uneven => Refusal::Fault(Fault::Form(FormKind::Uneven, at)),
        PatternFault::TooLarge => Refusal::Fault(Fault::ExpansionSpent(transcribed)),
        PatternFault::BadRules => unreachable!(),
        PatternFault::NoMemory => Refusal::NoMemory,
    }
}
