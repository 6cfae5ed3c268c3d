//! Filling of templates.

ghost use Rattle.std.specs.Prelude.{◌≡◌, [], ◌++◌, OnOk, ◌+◌, ◌<◌, ◌≤◌, map, length, IfOk, IfErr, MatchOption, Some, None, List};
ghost use Rattle.ps_pattern.specs.Meaning.{nth_bound};
ghost use Rattle.ps_pattern.specs.Filling.{size, sizes, taken, Fills, vector_of, filled, filled_part, form_of, items_of, counts, all_are, first_count, one_count, at_step, steps, in_order, single, stamped, joined, joined_node, dotted_at};
ghost use Rattle.ps_pattern.specs.declared.syntax.SyntaxNode.{out-SyntaxNode};
ghost use Rattle.ps_pattern.specs.Matching.{list_of};

use crate::bound::Bound;
use crate::environment::Environment;
use crate::room::{Built, FillFault};
use crate::syntax::{Ident, Nodes, Syntax, SyntaxNode, copy};
use crate::template::{Part, Template};
use ps_base::{Boxed, Items, Place};
use std::alloc::{AllocError, Global};

/// What is left of a room when this many nodes are taken from it; nothing where they do not fit.
fn take(left: Option<u64>, size: u64) -> Option<u64>
    ensures { result ≡ taken left size }
{
    match left {
        None => None,
        Some(left) => {
            if size <= left {
                Some(left - size)
            } else {
                None
            }
        }
    }
}

/// What is left of the room behind the nodes of a form. Stops once nothing is left.
#[cycle(weigh)]
#[tactic(auto, unfolding(crate::specs::Filling::size), using(crate::proofs::Weights::taken_twice, crate::proofs::Weights::taken_none))]
fn weigh(left: Option<u64>, form: &Syntax) -> Option<u64>
    ensures { result ≡ taken left (size form.now) }
{
    match &form.node {
        SyntaxNode::Boolean(_)
        | SyntaxNode::Integer(_)
        | SyntaxNode::Char(_)
        | SyntaxNode::Text(_)
        | SyntaxNode::Ident(_) => take(left, 1),
        SyntaxNode::List(parts) => weigh_all(take(left, 1), parts.as_slice()),
        SyntaxNode::Vector(parts) => weigh_all(take(left, 1), parts.as_slice()),
        SyntaxNode::Dotted(parts, last) => {
            weigh(weigh_all(take(left, 1), parts.as_slice()), last.get())
        }
    }
}

#[cycle(weigh)]
fn weigh_all(left: Option<u64>, forms: &[Syntax]) -> Option<u64>
    ensures { result ≡ taken left (sizes forms.now) }
{
    let mut left = left;
    for form in forms {
        match left {
            None => return None,
            Some(_) => {
                left = weigh(left, form);
            }
        }
    }
    left
}

/// A form that is made anew.
fn counted(form: Syntax, left: u64) -> Result<Built<Syntax>, FillFault>
    ensures { Fills size (Some form) left result }
{
    match weigh(Some(left), &form) {
        None => Err(FillFault::TooLarge),
        Some(left) => Ok(Built { made: form, left }),
    }
}

/// A form that a variable stands for. It is weighed before it is copied.
fn copied(alloc: Global, form: &Syntax, left: u64) -> Result<Built<Syntax>, FillFault>
    ensures { Fills size (Some form.now) left result }
{
    match weigh(Some(left), form) {
        None => Err(FillFault::TooLarge),
        Some(left) => Ok(Built {
            made: copy(alloc, form)?,
            left,
        }),
    }
}

/// A list or a vector around parts that are made.
fn around_list(place: Place, parts: Built<Nodes>) -> Result<Built<Syntax>, FillFault>
    ensures { Fills size (Some (list_of place parts.made)) (parts.left + sizes parts.made) result }
{
    if parts.left == 0 {
        Err(FillFault::TooLarge)
    } else {
        Ok(Built {
            made: Syntax {
                place,
                node: SyntaxNode::List(parts.made),
            },
            left: parts.left - 1,
        })
    }
}

fn around_vector(place: Place, parts: Built<Nodes>) -> Result<Built<Syntax>, FillFault>
    ensures { Fills size (Some (vector_of place parts.made)) (parts.left + sizes parts.made) result }
{
    if parts.left == 0 {
        Err(FillFault::TooLarge)
    } else {
        Ok(Built {
            made: Syntax {
                place,
                node: SyntaxNode::Vector(parts.made),
            },
            left: parts.left - 1,
        })
    }
}

/// Forms before the dot and a last form that is no list.
fn before_dot(
    alloc: Global,
    place: Place,
    forms: Nodes,
    last: Syntax,
    left: u64,
) -> Result<Built<Syntax>, FillFault>
    ensures { Fills size (Some (dotted_at place forms last)) (left + size last + sizes forms) result }
{
    if left == 0 {
        Err(FillFault::TooLarge)
    } else {
        Ok(Built {
            made: Syntax {
                place,
                node: SyntaxNode::Dotted(forms, Boxed::new(alloc, last)?),
            },
            left: left - 1,
        })
    }
}

/// Forms before the parts of a list or a dotted list, or before any other form.
fn join_some(
    alloc: Global,
    place: Place,
    forms: Nodes,
    last: Built<Syntax>,
) -> Result<Built<Syntax>, FillFault>
    ensures { Fills size (Some (joined_node place forms last.made (out-SyntaxNode last.made.node))) (last.left + size last.made + sizes forms) result }
{
    let Built { made, left } = last;
    let Syntax { place: there, node } = made;
    match node {
        SyntaxNode::List(more) => {
            let mut all = forms;
            all.append(more)?;
            Ok(Built {
                made: Syntax {
                    place,
                    node: SyntaxNode::List(all),
                },
                left,
            })
        }
        SyntaxNode::Dotted(more, end) => {
            let mut all = forms;
            all.append(more)?;
            Ok(Built {
                made: Syntax {
                    place,
                    node: SyntaxNode::Dotted(all, end),
                },
                left,
            })
        }
        SyntaxNode::Vector(parts) => before_dot(
            alloc,
            place,
            forms,
            Syntax {
                place: there,
                node: SyntaxNode::Vector(parts),
            },
            left,
        ),
        SyntaxNode::Boolean(x) => before_dot(
            alloc,
            place,
            forms,
            Syntax {
                place: there,
                node: SyntaxNode::Boolean(x),
            },
            left,
        ),
        SyntaxNode::Integer(x) => before_dot(
            alloc,
            place,
            forms,
            Syntax {
                place: there,
                node: SyntaxNode::Integer(x),
            },
            left,
        ),
        SyntaxNode::Char(x) => before_dot(
            alloc,
            place,
            forms,
            Syntax {
                place: there,
                node: SyntaxNode::Char(x),
            },
            left,
        ),
        SyntaxNode::Text(x) => before_dot(
            alloc,
            place,
            forms,
            Syntax {
                place: there,
                node: SyntaxNode::Text(x),
            },
            left,
        ),
        SyntaxNode::Ident(x) => before_dot(
            alloc,
            place,
            forms,
            Syntax {
                place: there,
                node: SyntaxNode::Ident(x),
            },
            left,
        ),
    }
}

fn join(
    alloc: Global,
    place: Place,
    forms: Nodes,
    last: Built<Syntax>,
) -> Result<Built<Syntax>, FillFault>
    ensures { Fills size (Some (joined place forms last.made)) (last.left + size last.made + sizes forms) result }
{
    if forms.is_empty() {
        Ok(last)
    } else {
        join_some(alloc, place, forms, last)
    }
}

fn variable(
    alloc: Global,
    place: Place,
    v: usize,
    binds: &Environment,
    left: u64,
) -> Result<Built<Syntax>, FillFault>
    ensures { Fills size (Some (form_of place (nth_bound v binds.now))) left result }
{
    match binds.get(v) {
        Bound::One(form) => copied(alloc, form, left),
        Bound::Many(_) => counted(empty(alloc, place), left),
    }
}

fn empty(alloc: Global, place: Place) -> Syntax
    ensures { result ≡ list_of place [] }
{
    Syntax {
        place,
        node: SyntaxNode::List(Items::new(alloc)),
    }
}

fn mark(alloc: Global, stamp: u64, id: &Ident) -> Result<Ident, AllocError>
    ensures { IfOk result (λ r. r ≡ stamped stamp id.now) }
{
    let mut stamps = Items::new(alloc);
    stamps.push(stamp)?;
    stamps.append(Items::from_slice(alloc, id.stamps.as_slice())?)?;
    Ok(Ident {
        name: id.name,
        stamps,
    })
}

/// A list of one form.
fn alone(alloc: Global, built: Built<Syntax>) -> Result<Built<Nodes>, FillFault>
    ensures { Fills sizes (Some (single built.made)) (built.left + size built.made) result }
{
    let mut forms = Items::new(alloc);
    forms.push(built.made)?;
    Ok(Built {
        made: forms,
        left: built.left,
    })
}

#[cycle(filling)]
#[tactic(auto, unfolding(crate::specs::Filling::filled))]
pub fn fill(
    alloc: Global,
    stamp: u64,
    place: Place,
    t: &Template,
    binds: &Environment,
    left: u64,
) -> Result<Built<Syntax>, FillFault>
    ensures { Fills size (filled stamp place t.now binds.now) left result }
{
    match t {
        Template::Variable(v) => variable(alloc, place, *v, binds, left),
        Template::Inserted(id) => counted(
            Syntax {
                place,
                node: SyntaxNode::Ident(mark(alloc, stamp, id)?),
            },
            left,
        ),
        Template::Boolean(x) => counted(
            Syntax {
                place,
                node: SyntaxNode::Boolean(*x),
            },
            left,
        ),
        Template::Integer(x) => counted(
            Syntax {
                place,
                node: SyntaxNode::Integer(*x),
            },
            left,
        ),
        Template::Char(x) => counted(
            Syntax {
                place,
                node: SyntaxNode::Char(*x),
            },
            left,
        ),
        Template::Text(x) => counted(
            Syntax {
                place,
                node: SyntaxNode::Text(Items::from_slice(alloc, x.as_slice())?),
            },
            left,
        ),
        Template::List(parts) => {
            match fill_parts(alloc, stamp, place, parts.as_slice(), binds, left) {
                Err(fault) => Err(fault),
                Ok(built) => around_list(place, built),
            }
        }
        Template::Vector(parts) => {
            match fill_parts(alloc, stamp, place, parts.as_slice(), binds, left) {
                Err(fault) => Err(fault),
                Ok(built) => around_vector(place, built),
            }
        }
        Template::Dotted(parts, last) => {
            match fill_parts(alloc, stamp, place, parts.as_slice(), binds, left) {
                Err(fault) => Err(fault),
                Ok(built) => match fill(alloc, stamp, place, last.get(), binds, built.left) {
                    Err(fault) => Err(fault),
                    Ok(end) => join(alloc, place, built.made, end),
                },
            }
        }
    }
}

#[cycle(filling)]
fn fill_parts(
    alloc: Global,
    stamp: u64,
    place: Place,
    parts: &[Part],
    binds: &Environment,
    left: u64,
) -> Result<Built<Nodes>, FillFault>
    ensures { Fills sizes (in_order (map (λ p. filled_part stamp place p binds.now) parts.now)) left result }
{
    let mut forms = Items::new(alloc);
    let mut left = left;
    for part in parts {
        match fill_part(alloc, stamp, place, part, binds, left) {
            Err(fault) => return Err(fault),
            Ok(more) => {
                forms.append(more.made)?;
                left = more.left;
            }
        }
    }
    Ok(Built { made: forms, left })
}

#[cycle(filling)]
#[tactic(auto, unfolding(crate::specs::Filling::filled, crate::specs::Filling::filled_part))]
fn fill_part(
    alloc: Global,
    stamp: u64,
    place: Place,
    part: &Part,
    binds: &Environment,
    left: u64,
) -> Result<Built<Nodes>, FillFault>
    ensures { Fills sizes (filled_part stamp place part.now binds.now) left result }
{
    match part {
        Part::Plain(t) => match fill(alloc, stamp, place, t, binds, left) {
            Err(fault) => Err(fault),
            Ok(built) => alone(alloc, built),
        },
        Part::Each(t, through) => {
            let through = through.as_slice();
            let n = binds.find_count(through);
            if binds.have_count(through, n) {
                fill_steps(alloc, stamp, place, t, binds, n, left)
            } else {
                Err(FillFault::Uneven)
            }
        }
    }
}

#[cycle(filling)]
fn fill_steps(
    alloc: Global,
    stamp: u64,
    place: Place,
    t: &Template,
    binds: &Environment,
    n: usize,
    left: u64,
) -> Result<Built<Nodes>, FillFault>
    ensures { Fills sizes (steps (filled stamp place t.now) binds.now n) left result }
{
    let mut forms = Items::new(alloc);
    let mut left = left;
    for i in 0..n {
        let here = binds.step(alloc, i)?;
        match fill(alloc, stamp, place, t, &here, left) {
            Err(fault) => return Err(fault),
            Ok(more) => {
                forms.push(more.made)?;
                left = more.left;
            }
        }
    }
    Ok(Built { made: forms, left })
}
