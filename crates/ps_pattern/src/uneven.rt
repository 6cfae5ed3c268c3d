//! Whether a template has no result.

ghost use Rattle.std.specs.Prelude.{◌≡◌, map, is_none, IfOk};
ghost use Rattle.ps_pattern.specs.Filling.{filled, filled_part, steps, in_order};

use crate::environment::Environment;
use crate::template::{Part, Template};
use ps_base::Place;
use std::alloc::{AllocError, Global};

/// Walks through the template alone, so it takes no room for what the variables stand for.
#[cycle(uneven)]
#[tactic(auto, unfolding(crate::specs::Filling::filled))]
pub fn is_uneven(
    alloc: Global,
    stamp: u64,
    place: Place,
    t: &Template,
    binds: &Environment,
) -> Result<bool, AllocError>
    ensures { IfOk result (λ r. r ≡ is_none (filled stamp place t.now binds.now)) }
{
    match t {
        Template::Variable(_)
        | Template::Inserted(_)
        | Template::Boolean(_)
        | Template::Integer(_)
        | Template::Char(_)
        | Template::Text(_) => Ok(false),
        Template::List(parts) => some_uneven(alloc, stamp, place, parts.as_slice(), binds),
        Template::Vector(parts) => some_uneven(alloc, stamp, place, parts.as_slice(), binds),
        Template::Dotted(parts, last) => {
            if some_uneven(alloc, stamp, place, parts.as_slice(), binds)? {
                Ok(true)
            } else {
                is_uneven(alloc, stamp, place, last.get(), binds)
            }
        }
    }
}

#[cycle(uneven)]
fn some_uneven(
    alloc: Global,
    stamp: u64,
    place: Place,
    parts: &[Part],
    binds: &Environment,
) -> Result<bool, AllocError>
    ensures { IfOk result (λ r. r ≡ is_none (in_order (map (λ p. filled_part stamp place p binds.now) parts.now))) }
{
    for part in parts {
        if is_part_uneven(alloc, stamp, place, part, binds)? {
            return Ok(true);
        }
    }
    Ok(false)
}

#[cycle(uneven)]
#[tactic(auto, unfolding(crate::specs::Filling::filled, crate::specs::Filling::filled_part))]
fn is_part_uneven(
    alloc: Global,
    stamp: u64,
    place: Place,
    part: &Part,
    binds: &Environment,
) -> Result<bool, AllocError>
    ensures { IfOk result (λ r. r ≡ is_none (filled_part stamp place part.now binds.now)) }
{
    match part {
        Part::Plain(t) => is_uneven(alloc, stamp, place, t, binds),
        Part::Each(t, through) => {
            let through = through.as_slice();
            let n = binds.find_count(through);
            if binds.have_count(through, n) {
                some_step_uneven(alloc, stamp, place, t, binds, n)
            } else {
                Ok(true)
            }
        }
    }
}

#[cycle(uneven)]
fn some_step_uneven(
    alloc: Global,
    stamp: u64,
    place: Place,
    t: &Template,
    binds: &Environment,
    n: usize,
) -> Result<bool, AllocError>
    ensures { IfOk result (λ r. r ≡ is_none (steps (filled stamp place t.now) binds.now n)) }
{
    for i in 0..n {
        let here = binds.step(alloc, i)?;
        if is_uneven(alloc, stamp, place, t, &here)? {
            return Ok(true);
        }
    }
    Ok(false)
}
