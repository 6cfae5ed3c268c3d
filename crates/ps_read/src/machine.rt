//! Reading with a stack: the data so far, and what is open, one token after another.

ghost use Rattle.std.specs.Prelude.{◌≡◌, List, [], ◌∷◌, ◌++◌, IfOk, OnOk};
ghost use Rattle.ps_datum.specs.declared.datum.Datum.{Datum};
ghost use Rattle.ps_datum.specs.declared.datum.DatumKind.TheVariants as k;
ghost use Rattle.ps_read.specs.declared.token.Shape.TheVariants as s;
ghost use Rattle.ps_read.specs.Grammar.{datum, quoted, joined};
ghost use Rattle.ps_read.specs.Breaches.{breach, breach_at, datum_breach, close_breach, dot_breach, open_breach};
ghost use Rattle.ps_read.specs.InsideMachine.{frame, put, closed, close, dot, moved};

use crate::stack::Stack;
use crate::token::{Breach, Frame, Shape, Word};
use ps_base::{Boxed, Items, Name, NoMemory, Place, SyntaxKind};
use ps_datum::{Datum, DatumKind};
use std::alloc::Global;

// How many lists, vectors and quotes may be open.
const LEVELS: usize = 200;

// A datum of a kind, at a place.
#[tactic(auto, unfolding(crate::specs::Grammar::datum))]
fn datum_at(place: Place, kind: DatumKind) -> Datum
    ensures { result ≡ datum place kind }
{
    Datum { place, kind }
}

// `'d`
#[tactic(auto, unfolding(crate::specs::Grammar::quoted))]
fn quote(alloc: Global, name: Name, place: Place, inner: Datum) -> Result<Datum, NoMemory>
    ensures { IfOk result (λ d. d ≡ quoted name place inner) }
{
    let mut items = Items::new(alloc);
    items.push(datum_at(place, DatumKind::Symbol(name)))?;
    items.push(inner)?;
    Ok(datum_at(place, DatumKind::List(items)))
}

// A list with a tail, which is joined with it where it is a list.
#[tactic(auto, unfolding(crate::specs::Grammar::joined))]
fn join(alloc: Global, items: Items<Datum>, tail: Datum) -> Result<DatumKind, NoMemory>
    ensures { IfOk result (λ x. x ≡ joined items tail) }
{
    let Datum { place, kind } = tail;
    let mut items = items;
    match kind {
        DatumKind::List(more) => {
            items.append(more)?;
            Ok(DatumKind::List(items))
        }
        DatumKind::Dotted(more, last) => {
            items.append(more)?;
            Ok(DatumKind::Dotted(items, last))
        }
        kind @ (DatumKind::Boolean(_)
        | DatumKind::Integer(_)
        | DatumKind::Char(_)
        | DatumKind::Text(_)
        | DatumKind::Symbol(_)
        | DatumKind::Vector(_)) => {
            let tail = Boxed::new(alloc, Datum { place, kind })?;
            Ok(DatumKind::Dotted(items, tail))
        }
    }
}

// The datum that a closing bracket ends.
fn closed_by(
    alloc: Global,
    place: Place,
    shape: Shape,
    items: Items<Datum>,
) -> Result<Datum, NoMemory>
    ensures { IfOk result (λ d. d ≡ closed place shape items) }
{
    match shape {
        Shape::List => Ok(datum_at(place, DatumKind::List(items))),
        Shape::Vector => Ok(datum_at(place, DatumKind::Vector(items))),
        Shape::Quote(_) => Ok(datum_at(place, DatumKind::List(items))),
        Shape::Dotted(_) => Ok(datum_at(place, DatumKind::List(items))),
        Shape::Ended(_, tail) => Ok(datum_at(place, join(alloc, items, tail)?)),
    }
}

// The frame with one more datum.
fn longer(place: Place, shape: Shape, items: Items<Datum>, value: Datum) -> Result<Frame, NoMemory>
    ensures { IfOk result (λ f. f ≡ frame place shape (items ++ value ∷ [])) }
{
    let mut items = items;
    items.push(value)?;
    Ok(Frame {
        place,
        shape,
        items,
    })
}

// The frame of a list behind the datum behind its dot.
fn ended(place: Place, dot: Place, tail: Datum, items: Items<Datum>) -> Frame
    ensures { result ≡ frame place (s.Ended dot tail) items }
{
    Frame {
        place,
        shape: Shape::Ended(dot, tail),
        items,
    }
}

// Adds one more datum, which also ends the quotes that stand directly before it.
#[tactic(auto, unfolding(crate::specs::InsideMachine::put))]
fn add(
    alloc: Global,
    done: &mut Items<Datum>,
    stack: &mut Stack<Frame>,
    value: Datum,
) -> Result<(), NoMemory>
    ensures { OnOk result ((done.new, stack.new) ≡ put done.old stack.old value) }
{
    let mut value = value;
    while let Some(
        Frame {
            place,
            shape,
            items,
        },
    ) = stack.pop()
    {
        match shape {
            Shape::Quote(name) => value = quote(alloc, name, place, value)?,
            Shape::List => return stack.push(longer(place, Shape::List, items, value)?),
            Shape::Vector => return stack.push(longer(place, Shape::Vector, items, value)?),
            Shape::Dotted(dot) => return stack.push(ended(place, dot, value, items)),
            Shape::Ended(dot, tail) => return stack.push(ended(place, dot, tail, items)),
        }
    }
    done.push(value)?;
    Ok(())
}

// A breach of a kind, at a place.
fn breach(kind: SyntaxKind, place: Place) -> Option<Breach>
    ensures { result ≡ breach kind place }
{
    Some(Breach { kind, place })
}

// The breach that a datum shows: a second one behind a dot.
fn second_datum(stack: &Stack<Frame>) -> Option<Breach>
    ensures { result ≡ datum_breach stack.now }
{
    match stack.top() {
        None => None,
        Some(frame) => match &frame.shape {
            Shape::List => None,
            Shape::Vector => None,
            Shape::Quote(_) => None,
            Shape::Dotted(_) => None,
            Shape::Ended(dot, _) => breach(SyntaxKind::BadDot, *dot),
        },
    }
}

// The breach that `)` shows.
fn stray_close(stack: &Stack<Frame>, place: Place) -> Option<Breach>
    ensures { result ≡ close_breach stack.now place }
{
    match stack.top() {
        None => breach(SyntaxKind::StrayClose, place),
        Some(frame) => match &frame.shape {
            Shape::Quote(_) => breach(SyntaxKind::StrayClose, place),
            Shape::Dotted(dot) => breach(SyntaxKind::BadDot, *dot),
            Shape::List => None,
            Shape::Vector => None,
            Shape::Ended(_, _) => None,
        },
    }
}

// The breach that `.` shows.
fn bad_dot(stack: &Stack<Frame>, place: Place) -> Option<Breach>
    ensures { result ≡ dot_breach stack.now place }
{
    match stack.top() {
        None => breach(SyntaxKind::BadDot, place),
        Some(frame) => match &frame.shape {
            Shape::List => {
                if frame.items.is_empty() {
                    breach(SyntaxKind::BadDot, place)
                } else {
                    None
                }
            }
            Shape::Vector => breach(SyntaxKind::BadDot, place),
            Shape::Quote(_) => breach(SyntaxKind::BadDot, place),
            Shape::Dotted(dot) => breach(SyntaxKind::BadDot, *dot),
            Shape::Ended(dot, _) => breach(SyntaxKind::BadDot, *dot),
        },
    }
}

// The breach that `(`, `#(` or `'` shows.
fn too_deep(stack: &Stack<Frame>, place: Place) -> Option<Breach>
    ensures { result ≡ open_breach stack.now place }
{
    if stack.len() < LEVELS {
        second_datum(stack)
    } else {
        breach(SyntaxKind::TooDeep, place)
    }
}

/// The breach that a token shows.
pub(crate) fn breach_of(stack: &Stack<Frame>, place: Place, word: &Word) -> Option<Breach>
    ensures { result ≡ breach_at stack.now place word.now }
{
    match word {
        Word::Open => too_deep(stack, place),
        Word::VectorOpen => too_deep(stack, place),
        Word::Close => stray_close(stack, place),
        Word::Quote(_) => too_deep(stack, place),
        Word::Dot => bad_dot(stack, place),
        Word::Atom(_) => second_datum(stack),
        Word::Broken(kind) => breach(*kind, place),
    }
}

// Opens a list, a vector or a quote.
fn open(alloc: Global, stack: &mut Stack<Frame>, place: Place, shape: Shape) -> Result<(), NoMemory>
    ensures { OnOk result (stack.new ≡ frame place shape [] ∷ stack.old) }
{
    stack.push(Frame {
        place,
        shape,
        items: Items::new(alloc),
    })
}

// Closes the innermost list or vector.
fn close(alloc: Global, done: &mut Items<Datum>, stack: &mut Stack<Frame>) -> Result<(), NoMemory>
    ensures { OnOk result ((done.new, stack.new) ≡ close done.old stack.old) }
{
    match stack.pop() {
        None => Ok(()),
        Some(
            Frame {
                place,
                shape,
                items,
            },
        ) => {
            let value = closed_by(alloc, place, shape, items)?;
            add(alloc, done, stack, value)
        }
    }
}

// Puts a dot behind the data of the innermost list.
fn dot(stack: &mut Stack<Frame>, place: Place) -> Result<(), NoMemory>
    ensures { OnOk result ((done : List Datum) → (done, stack.new) ≡ dot done stack.old place) }
{
    match stack.pop() {
        None => Ok(()),
        Some(
            Frame {
                place: opened,
                shape: _,
                items,
            },
        ) => stack.push(Frame {
            place: opened,
            shape: Shape::Dotted(place),
            items,
        }),
    }
}

/// Takes a token that shows no breach.
///
/// # Errors
///
/// `NoMemory` where memory ran out.
#[tactic(auto, unfolding(crate::specs::InsideMachine::moved))]
pub(crate) fn take(
    alloc: Global,
    done: &mut Items<Datum>,
    stack: &mut Stack<Frame>,
    place: Place,
    word: Word,
) -> Result<(), NoMemory>
    ensures { OnOk result ((done.new, stack.new) ≡ moved (done.old, stack.old) place word) }
{
    match word {
        Word::Open => open(alloc, stack, place, Shape::List),
        Word::VectorOpen => open(alloc, stack, place, Shape::Vector),
        Word::Close => close(alloc, done, stack),
        Word::Quote(name) => open(alloc, stack, place, Shape::Quote(name)),
        Word::Dot => dot(stack, place),
        Word::Atom(kind) => add(alloc, done, stack, datum_at(place, kind)),
        Word::Broken(_) => Ok(()),
    }
}
