//! Reading of patterns.

ghost use Rattle.std.specs.Prelude.{◌≡◌, map, IfOk};
ghost use Rattle.std.specs.Option.{option_map, option_and_then};
ghost use Rattle.ps_pattern.specs.Reading.{pattern_of, row_of, in_front, list_read, vector_read, dotted_read, ident_read, lone_each, behind_first, bare as bare_spec};

use crate::identifiers::{after, is_named, is_only_dots};
use crate::keys::Keys;
use crate::rules::{Pattern, Patterns};
use crate::syntax::{Ident, Syntax, SyntaxNode, copy_ident};
use crate::variables::{Read, Row, RowRead, Var, Vars};
use ps_base::{Boxed, Items};
use std::alloc::{AllocError, Global};

fn read_ident(
    alloc: Global,
    dots: Option<u32>,
    literals: &Keys,
    depth: usize,
    id: &Ident,
) -> Result<Option<Read>, AllocError>
    ensures { IfOk result (λ r. r ≡ ident_read dots literals.now id.now depth) }
{
    if is_named(dots, id) {
        Ok(None)
    } else if literals.has(id)? {
        Ok(Some(Read {
            pattern: Pattern::Literal(copy_ident(alloc, id)?),
            vars: Items::new(alloc),
        }))
    } else {
        let mut vars = Items::new(alloc);
        vars.push(Var {
            id: copy_ident(alloc, id)?,
            depth,
        })?;
        Ok(Some(Read {
            pattern: Pattern::Variable,
            vars,
        }))
    }
}

fn list_of_row(alloc: Global, read: RowRead) -> Result<Read, AllocError>
    ensures { IfOk result (λ r. r ≡ list_read read) }
{
    let RowRead { row, vars } = read;
    let pattern = match row {
        Row::Plain(ps) => Pattern::List(ps),
        Row::Each(ps, p, width) => Pattern::ListEach(ps, Boxed::new(alloc, p)?, width),
    };
    Ok(Read { pattern, vars })
}

fn vector_of_row(alloc: Global, read: RowRead) -> Result<Read, AllocError>
    ensures { IfOk result (λ r. r ≡ vector_read read) }
{
    let RowRead { row, vars } = read;
    let pattern = match row {
        Row::Plain(ps) => Pattern::Vector(ps),
        Row::Each(ps, p, width) => Pattern::VectorEach(ps, Boxed::new(alloc, p)?, width),
    };
    Ok(Read { pattern, vars })
}

pub fn dotted_of_row(
    alloc: Global,
    read: RowRead,
    last: Option<Read>,
) -> Result<Option<Read>, AllocError>
    ensures { IfOk result (λ r. r ≡ dotted_read last read) }
{
    let RowRead { row, vars } = read;
    match row {
        Row::Each(_, _, _) => Ok(None),
        Row::Plain(ps) => match last {
            None => Ok(None),
            Some(last) => {
                let Read {
                    pattern,
                    vars: more,
                } = last;
                let mut vars = vars;
                vars.append(more)?;
                Ok(Some(Read {
                    pattern: Pattern::Dotted(ps, Boxed::new(alloc, pattern)?),
                    vars,
                }))
            }
        },
    }
}

/// A row behind the ignored first pattern.
pub fn behind_ignored(alloc: Global, read: RowRead) -> Result<RowRead, AllocError>
    ensures { IfOk result (λ r. r ≡ behind_first read) }
{
    let RowRead { row, vars } = read;
    let mut front = Items::new(alloc);
    front.push(Pattern::Ignored)?;
    let row = match row {
        Row::Plain(ps) => {
            front.append(ps)?;
            Row::Plain(front)
        }
        Row::Each(ps, p, width) => {
            front.append(ps)?;
            Row::Each(front, p, width)
        }
    };
    Ok(RowRead { row, vars })
}

pub fn list_of(alloc: Global, read: Option<RowRead>) -> Result<Option<Read>, AllocError>
    ensures { IfOk result (λ r. r ≡ option_map list_read read) }
{
    match read {
        None => Ok(None),
        Some(read) => Ok(Some(list_of_row(alloc, read)?)),
    }
}

fn vector_of(alloc: Global, read: Option<RowRead>) -> Result<Option<Read>, AllocError>
    ensures { IfOk result (λ r. r ≡ option_map vector_read read) }
{
    match read {
        None => Ok(None),
        Some(read) => Ok(Some(vector_of_row(alloc, read)?)),
    }
}

fn bare(alloc: Global, pattern: Pattern) -> Option<Read>
    ensures { result ≡ bare_spec pattern }
{
    Some(Read {
        pattern,
        vars: Items::new(alloc),
    })
}

/// The pattern that a form is under so many ellipses, with its variables from left to right.
#[cycle(reading)]
#[tactic(auto, unfolding(crate::specs::Reading::pattern_of, crate::specs::Reading::view))]
pub fn read_pattern(
    alloc: Global,
    dots: Option<u32>,
    literals: &Keys,
    depth: usize,
    form: &Syntax,
) -> Result<Option<Read>, AllocError>
    ensures { IfOk result (λ r. r ≡ pattern_of dots literals.now form.now depth) }
{
    match &form.node {
        SyntaxNode::Ident(id) => read_ident(alloc, dots, literals, depth, id),
        SyntaxNode::Boolean(x) => Ok(bare(alloc, Pattern::Boolean(*x))),
        SyntaxNode::Integer(x) => Ok(bare(alloc, Pattern::Integer(*x))),
        SyntaxNode::Char(x) => Ok(bare(alloc, Pattern::Char(*x))),
        SyntaxNode::Text(x) => Ok(bare(
            alloc,
            Pattern::Text(Items::from_slice(alloc, x.as_slice())?),
        )),
        SyntaxNode::List(forms) => {
            let row = read_row(alloc, dots, literals, depth, forms.as_slice())?;
            list_of(alloc, row)
        }
        SyntaxNode::Vector(forms) => {
            let row = read_row(alloc, dots, literals, depth, forms.as_slice())?;
            vector_of(alloc, row)
        }
        SyntaxNode::Dotted(forms, last) => {
            match read_row(alloc, dots, literals, depth, forms.as_slice())? {
                None => Ok(None),
                Some(row) => {
                    let last = read_pattern(alloc, dots, literals, depth, last.get())?;
                    dotted_of_row(alloc, row, last)
                }
            }
        }
    }
}

/// The patterns of a row.
#[cycle(reading)]
pub fn read_row(
    alloc: Global,
    dots: Option<u32>,
    literals: &Keys,
    depth: usize,
    forms: &[Syntax],
) -> Result<Option<RowRead>, AllocError>
    ensures { IfOk result (λ r. r ≡ row_of dots literals.now depth forms.now) }
{
    let mut ps: Patterns = Items::new(alloc);
    let mut vars: Vars = Items::new(alloc);
    for (i, form) in forms.iter().enumerate() {
        if is_only_dots(dots, after(forms, i + 1)) {
            // a list under this many ellipses has no place in memory
            let Some(under) = depth.checked_add(1) else {
                return Err(AllocError);
            };
            return match read_pattern(alloc, dots, literals, under, form)? {
                None => Ok(None),
                Some(each) => Ok(Some(end_in_each(ps, vars, each)?)),
            };
        }
        match read_pattern(alloc, dots, literals, depth, form)? {
            None => return Ok(None),
            Some(read) => {
                ps.push(read.pattern)?;
                vars.append(read.vars)?;
            }
        }
    }
    Ok(Some(RowRead {
        row: Row::Plain(ps),
        vars,
    }))
}

fn end_in_each(ps: Patterns, vars: Vars, each: Read) -> Result<RowRead, AllocError>
    ensures { IfOk result (λ r. r ≡ in_front ps vars (lone_each each)) }
{
    let width = each.vars.len();
    let mut vars = vars;
    vars.append(each.vars)?;
    Ok(RowRead {
        row: Row::Each(ps, each.pattern, width),
        vars,
    })
}
