//! Parts are given their levels.

ghost use Rattle.ps_plans.specs.Nodes.{in_row as in_row_spec, staged as staged_spec, staged_all as staged_all_spec, staged_forms as staged_forms_spec, staged_row as staged_row_spec, staged_sum as staged_sum_spec};
ghost use Rattle.ps_plans.specs.Parts.{givens as givens_spec, part_of as part_of_spec};
ghost use Rattle.ps_plans.specs.Seen.{seen_all, seen_operand, seen_operands, seen_part, seen_staged};
ghost use Rattle.std.specs.Prelude.{IfOk, ◌≡◌};

use crate::node::{Scope, Staged};
use crate::part::{Operand, Part, Piece};
use ps_base::Boxed;
use ps_expansion::Level;
use ps_pattern::Syntax;
use std::alloc::{AllocError, Global};
use std::collections::VecDeque;

/// A part for which nothing is bound.
pub fn staged<'a>(alloc: Global, level: Level, part: Part<'a>) -> Result<Staged<'a>, AllocError>
    ensures { IfOk result (λ s. seen_staged s ≡ staged_spec level (seen_part part.entry)) }
{
    Ok(Staged {
        level,
        scope: Scope::Here,
        part: Boxed::new(alloc, part)?,
    })
}

/// What an operand is as a part.
pub fn part_of<'a>(operand: Operand<'a>) -> Part<'a>
    ensures { seen_part result ≡ part_of_spec (seen_operand operand.entry) }
{
    match operand {
        Operand::Given(form) => Part::One(form),
        Operand::Held(at, local) => Part::Row(Piece::Mention(at, local)),
    }
}

/// Forms as operands.
pub fn givens<'a>(alloc: Global, forms: &'a [Syntax]) -> Result<VecDeque<Operand<'a>>, AllocError>
    ensures { IfOk result (λ ps. seen_operands ps.items ≡ givens_spec forms.now) }
{
    let mut all = Vec::new(alloc);
    for form in forms {
        all.push(Operand::Given(form))?;
    }
    Ok(VecDeque::from_vec(all))
}

/// Operands of one level.
pub fn staged_all<'a>(
    alloc: Global,
    level: Level,
    operands: VecDeque<Operand<'a>>,
) -> Result<VecDeque<Staged<'a>>, AllocError>
    ensures { IfOk result (λ ss. seen_all ss.items ≡ staged_all_spec level (seen_operands operands.entry.items)) }
{
    let mut left = operands;
    let mut all = Vec::new(alloc);
    'left: loop {
        match left.pop_front() {
            None => return Ok(VecDeque::from_vec(all)),
            Some(operand) => all.push(staged(alloc, level, part_of(operand))?)?,
        }
    }
}

/// Forms of one level.
pub fn staged_forms<'a>(
    alloc: Global,
    level: Level,
    forms: &'a [Syntax],
) -> Result<VecDeque<Staged<'a>>, AllocError>
    ensures { IfOk result (λ ss. seen_all ss.items ≡ staged_forms_spec level forms.now) }
{
    let mut all = Vec::new(alloc);
    for form in forms {
        all.push(staged(alloc, level, Part::One(form))?)?;
    }
    Ok(VecDeque::from_vec(all))
}

/// Forms in a row, of which the last is passed tail position.
pub fn staged_row<'a>(
    alloc: Global,
    level: Level,
    forms: &'a [Syntax],
) -> Result<VecDeque<Staged<'a>>, AllocError>
    ensures { IfOk result (λ ss. seen_all ss.items ≡ staged_row_spec level forms.now) }
{
    let mut all = Vec::new(alloc);
    for (i, form) in forms.iter().enumerate() {
        let place = in_row(level, &forms[i + 1..]);
        all.push(staged(alloc, place, Part::One(form))?)?;
    }
    Ok(VecDeque::from_vec(all))
}

/// The level of a form in a row, by the forms behind it: the last is passed tail position.
pub fn in_row(level: Level, behind: &[Syntax]) -> Level
    ensures { result ≡ in_row_spec level behind.now }
{
    match behind {
        [] => level.passed(),
        [_, ..] => level.down(),
    }
}

/// Operands that are grouped to the left.
pub fn staged_sum<'a>(
    alloc: Global,
    level: Level,
    operands: VecDeque<Operand<'a>>,
) -> Result<VecDeque<Staged<'a>>, AllocError>
    ensures { IfOk result (λ ss. seen_all ss.items ≡ staged_sum_spec level (seen_operands operands.entry.items)) }
{
    let mut left = operands;
    let mut all = Vec::new(alloc);
    'left: loop {
        let count = left.len();
        match left.pop_front() {
            None => return Ok(VecDeque::from_vec(all)),
            Some(operand) => all.push(staged(alloc, level.operand_at(count), part_of(operand))?)?,
        }
    }
}
