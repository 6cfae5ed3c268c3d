//! The walk of structures from the entry: at each, what it opens first, then its files, then the structure itself.

ghost use Rattle.std.specs.Prelude.{◌≡◌, ℕ, ◌+◌, ◌-◌, ◌^◌, ◌<◌, ◌≤◌, List, [], length, map, slice_get, Some, IfOk, IfSome, MatchResult};
ghost use Rattle.ps_modules.specs.BuiltIn.{built_in};
ghost use Rattle.ps_modules.specs.InsideTexts.{Indexed, defined, IsEntry};
ghost use Rattle.ps_base.specs.declared.faults.Refusal.TheVariants as refusals;
ghost use Rattle.ps_modules.specs.InsideWalking.{listing, IsMet, LeadsTo, OpensAre, LeftIs, outcome, opens_by, all_unmet};
ghost use Rattle.ps_modules.specs.Playing.{Plays};
ghost use Rattle.ps_modules.specs.Shapes.{text_of};
ghost use Rattle.ps_modules.specs.Texts.{structure_at, last_of};
ghost use Rattle.ps_modules.specs.Walking.{meant, opened_by, opens_of, by_entry};

use crate::built_in::built_in;
use crate::files::{Count, body_of};
use crate::forms::text_of;
use crate::openings::{Meant, two_opened};
use crate::shapes::{OpenedName, Shape};
use crate::stack::Stack;
use crate::tables::Numbers;
use crate::text::{Text, exports_of, module, refusal_by};
use crate::types::{Exports, Opened, Opens, Structure, Structures};
use ps_base::{Items, Limits, ModuleKind, Name, Names, NoMemory, Refusal};
use ps_library::Library;
use std::alloc::Global;

/// A structure on the path from the entry: its number, how many of its opened names are done, and what it exports.
#[derive(Drop)]
pub(crate) struct Frame {
    pub(crate) structure: usize,
    pub(crate) next: usize,
    pub(crate) exports: Exports,
}

/// A structure that is left, and the count behind its files.
#[derive(Drop)]
pub(crate) struct Left {
    pub(crate) structure: Structure,
    pub(crate) count: Count,
}

/// The structures that the entry reaches, which exports these names, in the order in which the walk leaves them.
///
/// # Errors
///
/// The first fault of the walk.
pub(crate) fn walk(
    alloc: Global,
    text: &Text,
    entry: Exports,
    taken: u64,
    names: &mut Names,
    libs: &mut Vec<Box<dyn Library>>,
    limits: &Limits,
) -> Result<Structures, Refusal>
    requires indexed { Indexed text.now }
    requires entry { IsEntry names.old (defined text.now) (last_of text.now.shapes) entry }
    requires taken { taken ≤ limits.now.all_bytes }
    requires room { length names.old + (limits.now.all_bytes - taken) < 2 ^ 32 - 1 }
    ensures { Plays (by_entry names.old (defined text.now) limits.now taken (last_of text.now.shapes)) (map (λ b. shows b) libs.old.items) (map (λ b. shows b) libs.new.items) (outcome result names.new) }
{
    let Ok(mut met) = unmet(alloc, text.shapes.len()) else {
        return Err(Refusal::NoMemory);
    };
    let mut walked = Numbers::new(alloc);
    let mut order: Structures = Items::new(alloc);
    let mut count = Count { number: 0, taken };
    let mut frames = Stack::new(alloc);
    let last = text.shapes.len() - 1;
    if frames.push(first_frame(last, entry)).is_err() {
        return Err(Refusal::NoMemory);
    }
    met.set(last, true);
    'walking: loop {
        let Some(frame) = frames.pop() else {
            return Ok(order);
        };
        match opened_at(text, &frame) {
            Some(opened) => {
                let leads = match leading(names, text, &walked, &met, opened) {
                    Ok(leads) => leads,
                    Err(refusal) => return Err(refusal),
                };
                if frames.push(next_of(frame)).is_err() {
                    return Err(Refusal::NoMemory);
                }
                if let Some(j) = leads {
                    match exports_of(alloc, text, &shape_at(text, j).interface) {
                        Ok(exports) => {
                            if frames.push(first_frame(j, exports)).is_err() {
                                return Err(Refusal::NoMemory);
                            }
                            met.set(j, true);
                        }
                        Err(broken) => {
                            return Err(refusal_by(ModuleKind::UnknownInterface, broken));
                        }
                    }
                }
            }
            None => {
                let Frame {
                    structure,
                    exports,
                    ..
                } = frame;
                let shape = shape_at(text, structure);
                match leave(
                    alloc, text, shape, exports, &walked, &order, count, names, libs, limits,
                ) {
                    Ok(left) => {
                        count = left.count;
                        if walked.push(structure as u32).is_err()
                            || order.push(left.structure).is_err()
                        {
                            return Err(Refusal::NoMemory);
                        }
                    }
                    Err(refusal) => return Err(refusal),
                }
            }
        }
    }
}

// The structure of this number.
fn shape_at(text: &Text, i: usize) -> &Shape
    requires { i < length text.now.shapes }
    ensures { slice_get text.now.shapes i ≡ Some result.now }
{
    &text.shapes.as_slice()[i]
}

// A frame of which no opened name is done.
fn first_frame(structure: usize, exports: Exports) -> Frame
    ensures { result ≡ record { structure = structure; next = 0; exports = exports } }
{
    Frame {
        structure,
        next: 0,
        exports,
    }
}

// The frame, where one opened name more is done.
fn next_of(frame: Frame) -> Frame
    requires { frame.next < 2 ^ 64 - 1 }
    ensures { result ≡ record { structure = frame.structure; next = frame.next + 1; exports = frame.exports } }
{
    let Frame {
        structure,
        next,
        exports,
    } = frame;
    Frame {
        structure,
        next: next + 1,
        exports,
    }
}

// A table in which no structure was met.
fn unmet(alloc: Global, structures: usize) -> Result<Items<bool>, NoMemory>
    ensures { IfOk result (λ met. met ≡ all_unmet structures) }
{
    let mut met = Items::new(alloc);
    for _i in 0..structures {
        met.push(false)?;
    }
    Ok(met)
}

// The next name that a structure on the path opens.
fn opened_at(text: &Text, frame: &Frame) -> Option<OpenedName>
    ensures is { result ≡ slice_get (opens_by (slice_get text.now.shapes frame.now.structure)) frame.now.next }
    ensures within { IfSome result (λ o. frame.now.next < 2 ^ 64 - 1) }
{
    match text.shapes.get(frame.structure) {
        Some(shape) => {
            if frame.next >= shape.clauses.opens.len() {
                return None;
            }
            match shape.clauses.opens.get(frame.next) {
                Some(opened) => Some(*opened),
                None => None,
            }
        }
        None => None,
    }
}

// What an opened name leads to: what is there, or a structure that was not met.
fn leading(
    names: &Names,
    text: &Text,
    walked: &Numbers,
    met: &Items<bool>,
    opened: OpenedName,
) -> Result<Option<usize>, Refusal>
    requires indexed { Indexed text.now }
    requires all { length met.now ≡ length text.now.shapes }
    ensures { (path : List ℕ) → IsMet (length text.now.shapes) met.now path walked.now → LeadsTo text.now.shapes path opened names.now walked.now met.now result }
{
    if built_in(text_of(names, opened.name)).is_some() {
        return Ok(None);
    }
    match text.structures.place(opened.name.0) {
        Some(j) => {
            if walked.place(j as u32).is_some() {
                Ok(None)
            } else if met.as_slice()[j] {
                Err(module(ModuleKind::Circle, opened.place))
            } else {
                Ok(Some(j))
            }
        }
        None => Err(module(ModuleKind::UnknownStructure, opened.place)),
    }
}

// A structure of which all opened names are done.
fn leave(
    alloc: Global,
    text: &Text,
    shape: &Shape,
    exports: Exports,
    walked: &Numbers,
    order: &Structures,
    count: Count,
    names: &mut Names,
    libs: &mut Vec<Box<dyn Library>>,
    limits: &Limits,
) -> Result<Left, Refusal>
    requires indexed { Indexed text.now }
    requires numbered { length walked.now < 2 ^ 32 }
    requires taken { count.taken ≤ limits.now.all_bytes }
    requires room { length names.old + (limits.now.all_bytes - count.taken) < 2 ^ 32 - 1 }
    ensures { LeftIs text.now.shapes limits.now shape.now exports (record { walked = walked.now; order = order.now; count = count; table = names.old }) (map (λ b. shows b) libs.old.items) names.new (map (λ b. shows b) libs.new.items) result }
{
    let opens = match opens_of_shape(alloc, names, text, walked, order.as_slice(), shape) {
        Ok(opens) => opens,
        Err(refusal) => return Err(refusal),
    };
    match body_of(
        alloc,
        shape.clauses.parts.as_slice(),
        count,
        names,
        libs,
        limits,
    ) {
        Ok(body) => Ok(Left {
            structure: Structure {
                name: shape.name.name,
                opens,
                exports,
                body: body.forms,
            },
            count: body.count,
        }),
        Err(refusal) => Err(refusal),
    }
}

// What a structure opens, where no two of its opened names give one name different bindings.
fn opens_of_shape(
    alloc: Global,
    names: &Names,
    text: &Text,
    walked: &Numbers,
    order: &[Structure],
    shape: &Shape,
) -> Result<Opens, Refusal>
    requires indexed { Indexed text.now }
    requires numbered { length walked.now < 2 ^ 32 }
    ensures { OpensAre names.now order.now (opened_by names.now text.now.shapes walked.now shape.now.clauses.opens) result }
{
    let Ok(meants) = opened_by(alloc, names, text, walked, shape.clauses.opens.as_slice()) else {
        return Err(Refusal::NoMemory);
    };
    match two_opened(alloc, names, order, meants.as_slice()) {
        Ok(Some(place)) => Err(module(ModuleKind::TwoOpened, place)),
        Ok(None) => opens_of(alloc, meants.as_slice()),
        Err(_) => Err(Refusal::NoMemory),
    }
}

// What these opened names mean, as far as they were left.
fn opened_by(
    alloc: Global,
    names: &Names,
    text: &Text,
    walked: &Numbers,
    opens: &[OpenedName],
) -> Result<Items<Meant>, NoMemory>
    requires indexed { Indexed text.now }
    requires numbered { length walked.now < 2 ^ 32 }
    ensures { IfOk result (λ meants. meants ≡ opened_by names.now text.now.shapes walked.now opens.now) }
{
    let mut meants = Items::new(alloc);
    for name in opens {
        if let Some(opened) = meaning(names, text, walked, name.name) {
            meants.push(Meant {
                place: name.place,
                opened,
            })?;
        }
    }
    Ok(meants)
}

// What an opened name means, where what it leads to was left.
fn meaning(names: &Names, text: &Text, walked: &Numbers, name: Name) -> Option<Opened>
    requires indexed { Indexed text.now }
    requires numbered { length walked.now < 2 ^ 32 }
    ensures { listing result ≡ meant walked.now (built_in (text_of names.now name)) (structure_at text.now.shapes name) }
{
    if let Some(known) = built_in(text_of(names, name)) {
        return Some(known);
    }
    let j = text.structures.place(name.0)?;
    let k = walked.place(j as u32)?;
    Some(Opened::At(k as u32))
}

fn opens_of(alloc: Global, meants: &[Meant]) -> Result<Opens, Refusal>
    ensures { MatchResult result (λ opens. opens ≡ opens_of meants.now) (λ e. e ≡ refusals.NoMemory) }
{
    let mut opens = Items::new(alloc);
    for meant in meants {
        if opens.push(meant.opened).is_err() {
            return Err(Refusal::NoMemory);
        }
    }
    Ok(opens)
}
