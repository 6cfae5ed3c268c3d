//! What is seen from outside.

ghost use Rattle.std.specs.Prelude.{◌≡◌, List, [], ◌∷◌, ◌++◌, MatchResult};
ghost use Rattle.ps_prims.specs.Rows.{seen_at};
ghost use Rattle.ps_prims.specs.Needs.{Events, Takes};
ghost use Rattle.ps_prims.specs.Inside.{Tells};

use crate::outcome::PrimOut;
use crate::stages::Stage;
use byte_store::{Event, Events, Value};
use ps_base::NoMemory;

/// Adds an event, at run time.
#[tactic(auto, using(crate::proofs::NothingIsAdded::and_nothing))]
pub fn tell(events: &mut Events, stage: Stage, event: Event) -> Result<(), NoMemory>
    ensures { MatchResult result (λ done. events.new ≡ events.old ++ seen_at stage (event ∷ [])) (λ e. Takes Events stage × (events.new ≡ events.old)) }
{
    match stage {
        Stage::Compile => Ok(()),
        Stage::Run => {
            events.push(event)?;
            Ok(())
        }
    }
}

/// Adds an event, at run time, and answers.
pub fn told(events: &mut Events, stage: Stage, event: Event, answer: Value) -> PrimOut
    ensures { Tells result answer (event ∷ []) stage events.old events.new }
{
    match tell(events, stage, event) {
        Ok(()) => PrimOut::Value(answer),
        Err(NoMemory) => PrimOut::NoMemory,
    }
}

/// Takes back the event that was added last.
pub fn untell(events: &mut Events, stage: Stage)
    ensures { (before : List Event) (event : Event) → events.old ≡ before ++ seen_at stage (event ∷ []) → events.new ≡ before }
{
    match stage {
        Stage::Compile => {}
        Stage::Run => {
            let _event = events.pop();
        }
    }
}
