//! Transcription by the first rule that matches.

ghost use Rattle.std.specs.Prelude.{◌≡◌, Some};
ghost use Rattle.ps_pattern.specs.Matching.{literal_of};
ghost use Rattle.ps_pattern.specs.Filling.{filled};
ghost use Rattle.ps_pattern.specs.Transcribing.{chosen, Transcribed};
ghost use Rattle.ps_pattern.specs.declared.transcription.PatternFault.TheVariants.{NoMemory as Memory};

use crate::binding::Scope;
use crate::bound::Bound;
use crate::environment::Environment;
use crate::filling::fill;
use crate::matching::matches;
use crate::room::FillFault;
use crate::rules::Pattern;
use crate::syntax::Syntax;
use crate::template::Template;
use crate::uneven::is_uneven;
use ps_base::{Items, Place};
use std::alloc::{AllocError, Global};

#[derive(Clone, Copy, Debug, PartialEq, Eq)]
pub enum PatternFault {
    NoRule,
    BadRules,
    Uneven,
    TooLarge,
    NoMemory,
}

impl From<AllocError> for PatternFault {
    ghost from_gives = { λ _ e. e ≡ Memory };

    fn from(_e: AllocError) -> PatternFault {
        PatternFault::NoMemory
    }
}

/// A rule: what it matches, and what that stands for.
#[derive(Drop)]
pub struct Rule {
    /// What it matches.
    pub pattern: Pattern,
    /// What that stands for.
    pub template: Template,
}

/// The rules of a macro, in order.
pub type Rules = Items<Rule>;

/// The template of the first rule that matches a use, filled in. Identifiers that it inserts gain the stamp, and what it inserts
/// has the place of the use.
///
/// # Errors
///
/// `NoRule` exactly where no rule matches. `Uneven` exactly where two variables under one ellipsis stand for different numbers
/// of forms. `TooLarge` exactly where the form has more nodes than `room`. `NoMemory` where memory ran out.
pub fn transcribe<S: Scope>(
    alloc: Global,
    rules: &Rules,
    form: &Syntax,
    scope: &S,
    stamp: u64,
    room: u64,
) -> Result<Syntax, PatternFault>
    ensures { Transcribed (chosen (literal_of (S.rules_of scope.now) (S.use_of scope.now)) stamp form.now rules.now) room result }
{
    first_match(alloc, rules.as_slice(), form, scope, stamp, room)
}

fn first_match<S: Scope>(
    alloc: Global,
    rules: &[Rule],
    form: &Syntax,
    scope: &S,
    stamp: u64,
    room: u64,
) -> Result<Syntax, PatternFault>
    ensures { Transcribed (chosen (literal_of (S.rules_of scope.now) (S.use_of scope.now)) stamp form.now rules.now) room result }
{
    for rule in rules {
        match matches(alloc, scope, &rule.pattern, form)? {
            None => {}
            Some(binds) => {
                let empty = Bound::Many(Items::new(alloc));
                let binds = Environment::new(alloc, binds.as_slice(), &empty);
                return within(alloc, stamp, form.place, &rule.template, &binds, room);
            }
        }
    }
    Err(PatternFault::NoRule)
}

fn within(
    alloc: Global,
    stamp: u64,
    place: Place,
    template: &Template,
    binds: &Environment,
    room: u64,
) -> Result<Syntax, PatternFault>
    ensures { Transcribed (Some (filled stamp place template.now binds.now)) room result }
{
    match fill(alloc, stamp, place, template, binds, room) {
        Ok(built) => Ok(built.made),
        Err(FillFault::Uneven) => Err(PatternFault::Uneven),
        Err(FillFault::NoMemory) => Err(PatternFault::NoMemory),
        Err(FillFault::TooLarge) => {
            if is_uneven(alloc, stamp, place, template, binds)? {
                Err(PatternFault::Uneven)
            } else {
                Err(PatternFault::TooLarge)
            }
        }
    }
}
