//! Cases of bindings: steps one after another, each with what it answers.

use crate::texts::{form_of, number_of};
use crate::trouble::Trouble;
use crate::types::{taken, type_of};
use ps_base::Names;
use ps_datum::Datum;
use ps_unify::{Subst, UnifyFault, WithinFault, room_after, unify, unify_within};
use std::alloc::Global;

/// What the steps answer, with a space between each two.
pub fn steps_line(alloc: Global, names: &Names, steps: &[Datum]) -> Result<Vec<u8>, Trouble> {
    let mut bindings = Subst::new(alloc);
    let mut line = Vec::new(alloc);
    for (i, step) in steps.iter().enumerate() {
        if i > 0 {
            line.push(b' ')?;
        }
        let answer = answer_of(alloc, names, &mut bindings, step)?;
        line.extend_from_slice(answer.as_slice())?;
    }
    Ok(line)
}

fn answer_of(
    alloc: Global,
    names: &Names,
    bindings: &mut Subst,
    step: &Datum,
) -> Result<Vec<u8>, Trouble> {
    match form_of(names, step) {
        Ok((b"within", [limit, a, b])) => {
            let (a, b) = (type_of(alloc, names, a)?, type_of(alloc, names, b)?);
            let answer = unify_within(bindings, &a, &b, u64::from(number_of(limit)?));
            word(alloc, within_word(answer))
        }
        Ok((b"equal", [a, b])) => {
            let (a, b) = (type_of(alloc, names, a)?, type_of(alloc, names, b)?);
            word(alloc, word_of(unify(bindings, &a, &b)))
        }
        Ok((b"means", [t])) => {
            let meaning = bindings.apply(&type_of(alloc, names, t)?)?;
            taken(alloc, names, u32::MAX, b"", &[], &meaning)
        }
        Ok((b"room", [room, t])) => {
            let t = type_of(alloc, names, t)?;
            match room_after(bindings, &t, u64::from(number_of(room)?)) {
                Some(left) => Ok(format!(in alloc; "{left}")?.into_bytes()),
                None => word(alloc, b"none"),
            }
        }
        Ok((b"bound", [])) => Ok(format!(in alloc; "{}", bindings.len())?.into_bytes()),
        _ => Err(Trouble::Unread(step.place)),
    }
}

fn word(alloc: Global, word: &[u8]) -> Result<Vec<u8>, Trouble> {
    Ok(Vec::from_slice(alloc, word)?)
}

fn word_of(answer: Result<(), UnifyFault>) -> &'static [u8] {
    match answer {
        Ok(()) => b"ok",
        Err(UnifyFault::Unequal) => b"unequal",
        Err(UnifyFault::NoMemory) => b"memory",
    }
}

fn within_word(answer: Result<(), WithinFault>) -> &'static [u8] {
    match answer {
        Ok(()) => b"ok",
        Err(WithinFault::Unequal) => b"unequal",
        Err(WithinFault::TooLarge) => b"large",
        Err(WithinFault::NoMemory) => b"memory",
    }
}
