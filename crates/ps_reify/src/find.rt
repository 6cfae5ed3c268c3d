//! The walk from `main`, with a stack of its own.

ghost use Rattle.std.specs.Prelude.{◌≡◌, ◌<◌, ◌&&◌, length, true, false, List, [], map, drop, nat_eq, nat_lt, slice_get, slice_set, slice_index_or, if◌then◌else◌, Option, Some, None, is_some, OnOk, IfOk};
ghost use Rattle.ps_base.specs.declared.faults.Place.{Place as PlaceSpec};
ghost use Rattle.ps_survive.specs.declared.steps.Node.TheVariants as Node;
ghost use Rattle.ps_survive.specs.declared.steps.Step.TheVariants as Step;
ghost use Rattle.ps_kernel.specs.Texts.{procedure_of};
ghost use Rattle.ps_survive.specs.Steps.{steps_of, cell_steps, names, mark_names, value_names, pointer_names, fault, mark_fault, faulty, is_compile_only, if_there};
ghost use Rattle.ps_survive.specs.Walk.{begins, begins_lambda, begins_by, missing_main, main_node};
ghost use Rattle.ps_reify.specs.InsideWork.{program_of, IsImage, part_steps, part_from, kind_at, fault_of, NextOf, flagged, set_flag, Visits, VisitsNamed, onto, frame_of, Takes, Works, Turns, IsWalk, IsStart, Ends};

use crate::image::Image;
use crate::marks::push_marks;
use byte_store::{Base, Contents, Pointer, Value};
use ps_base::{Fault, Items, Place, Refusal, SurviveKind};
use ps_prims::{Stages, stages_of};
use ps_survive::{Mark, Marked, Node, Step};
use std::alloc::{AllocError, Allocator, Global};

/// What there is to do at a node: the marks of a body, the cells of a block, or one step.
#[derive(Drop)]
pub enum Part {
    Body(Items<Marked>),
    Data(u32),
    One(Step),
}

/// A part of which what stands before `next` is done.
#[derive(Drop)]
pub struct Frame {
    pub part: Part,
    pub next: usize,
}

/// Which nodes are seen, by their numbers and in order, and what is left to do; the last frame is the top.
#[derive(Drop)]
pub struct Walk {
    pub definitions: Items<bool>,
    pub lambdas: Items<bool>,
    pub blocks: Items<bool>,
    pub order: Items<Node>,
    pub frames: Items<Frame>,
}

/// The walk goes on to its end.
pub fn run<A: Allocator + Copy>(
    alloc: Global,
    image: &Image<'_, A>,
    walk: Walk,
) -> Result<Walk, Refusal>
    requires image { IsImage image.now }
    requires walk { IsWalk (program_of image.now) walk }
    ensures { Ends (program_of image.now) result }
{
    let mut walk = walk;
    while let Some(frame) = take(&mut walk) {
        match turn(alloc, image, &mut walk, frame) {
            Ok(()) => {}
            Err(refusal) => return Err(refusal),
        }
    }
    Ok(walk)
}

/// `main` alone is seen.
pub fn start<A: Allocator + Copy>(alloc: Global, image: &Image<'_, A>) -> Result<Walk, AllocError>
    requires image { IsImage image.now }
    ensures { IfOk result (λ walk. IsStart (program_of image.now) walk) }
{
    let kernel = image.kernel;
    let mut walk = Walk {
        definitions: Items::from_vec(vec![in alloc; false; kernel.definitions.len()]?),
        lambdas: Items::from_vec(vec![in alloc; false; kernel.lambdas.len()]?),
        blocks: Items::from_vec(vec![in alloc; false; image.store.next_fixed() as usize]?),
        order: Items::new(alloc),
        frames: Items::new(alloc),
    };
    visit(alloc, image, &mut walk, Node::Global(kernel.main))?;
    Ok(walk)
}

/// `main` is a procedure without parameters.
pub fn begins<A: Allocator + Copy>(image: &Image<'_, A>) -> bool
    requires image { IsImage image.now }
    ensures { result ≡ begins (program_of image.now) }
{
    match procedure(image, image.kernel.main) {
        None => false,
        Some(l) => match image.kernel.lambdas.get(l as usize) {
            None => false,
            Some(lambda) => lambda.parameters.len() == 0,
        },
    }
}

/// The place of the definition of `main`.
pub fn missing_place<A: Allocator + Copy>(image: &Image<'_, A>) -> Place
    ensures { result ≡ (missing_main (program_of image.now)).at }
{
    match image.kernel.definitions.get(image.kernel.main as usize) {
        None => Place {
            file: 0,
            line: 1,
            column: 1,
        },
        Some(definition) => definition.place,
    }
}

/// The lambda of a definition, where it is a procedure definition.
pub fn procedure<A: Allocator + Copy>(image: &Image<'_, A>, g: u32) -> Option<u32>
    requires image { IsImage image.now }
    ensures { result ≡ procedure_of (program_of image.now).kernel g }
{
    match image.procedures.get(g as usize) {
        None => None,
        Some(lambda) => *lambda,
    }
}

/// The node is seen.
pub fn flagged(walk: &Walk, node: Node) -> bool
    ensures { result ≡ flagged walk.now node }
{
    match node {
        Node::Global(g) => flag(&walk.definitions, g),
        Node::Inner(l) => flag(&walk.lambdas, l),
        Node::Data(b) => flag(&walk.blocks, b),
    }
}

fn flag(flags: &Items<bool>, number: u32) -> bool
    ensures { result ≡ slice_index_or flags.now number false }
{
    match flags.get(number as usize) {
        Some(flag) => *flag,
        None => false,
    }
}

fn raise(flags: &mut Items<bool>, number: u32)
    ensures { flags.new ≡ slice_set flags.old number true }
{
    if (number as usize) < flags.len() {
        flags.set(number as usize, true);
    }
}

fn set_flag(walk: &mut Walk, node: Node)
    ensures { walk.new ≡ set_flag node walk.old }
{
    match node {
        Node::Global(g) => raise(&mut walk.definitions, g),
        Node::Inner(l) => raise(&mut walk.lambdas, l),
        Node::Data(b) => raise(&mut walk.blocks, b),
    }
}

// ---- nodes

fn body_part<A: Allocator + Copy>(
    alloc: Global,
    image: &Image<'_, A>,
    l: u32,
) -> Result<Part, AllocError>
    ensures { IfOk result (λ part. part_steps (program_of image.now) part ≡ steps_of (program_of image.now) (Node.Inner l)) }
{
    let mut marks = Items::new(alloc);
    match image.kernel.lambdas.get(l as usize) {
        None => {}
        Some(lambda) => push_marks(&lambda.body, &mut marks)?,
    }
    Ok(Part::Body(marks))
}

fn global_part<A: Allocator + Copy>(alloc: Global, image: &Image<'_, A>, g: u32) -> Part
    requires image { IsImage image.now }
    ensures { part_steps (program_of image.now) result ≡ steps_of (program_of image.now) (Node.Global g) }
{
    match procedure(image, g) {
        Some(l) => Part::One(Step::Enters(l)),
        None => match image.globals.get(g as usize) {
            Some(Some(value)) => Part::One(Step::Keeps(*value)),
            Some(None) => Part::Body(Items::new(alloc)),
            None => Part::Body(Items::new(alloc)),
        },
    }
}

// What there is to do at a node.
fn part_of<A: Allocator + Copy>(
    alloc: Global,
    image: &Image<'_, A>,
    node: Node,
) -> Result<Part, AllocError>
    requires image { IsImage image.now }
    ensures { IfOk result (λ part. part_steps (program_of image.now) part ≡ steps_of (program_of image.now) node) }
{
    match node {
        Node::Global(g) => Ok(global_part(alloc, image, g)),
        Node::Inner(l) => body_part(alloc, image, l),
        Node::Data(b) => Ok(Part::Data(b)),
    }
}

// The walk comes to a node: it is new, or it was seen before.
fn visit<A: Allocator + Copy>(
    alloc: Global,
    image: &Image<'_, A>,
    walk: &mut Walk,
    node: Node,
) -> Result<(), AllocError>
    requires image { IsImage image.now }
    ensures { OnOk result (Visits (program_of image.now) node walk.old walk.new) }
{
    if !flagged(walk, node) {
        let part = part_of(alloc, image, node)?;
        set_flag(walk, node);
        walk.order.push(node)?;
        walk.frames.push(Frame { part, next: 0 })?;
    }
    Ok(())
}

fn visit_named<A: Allocator + Copy>(
    alloc: Global,
    image: &Image<'_, A>,
    walk: &mut Walk,
    named: Option<Node>,
) -> Result<(), AllocError>
    requires image { IsImage image.now }
    ensures { OnOk result (VisitsNamed (program_of image.now) named walk.old walk.new) }
{
    match named {
        None => Ok(()),
        Some(node) => visit(alloc, image, walk, node),
    }
}

// ---- steps

// The next cell that is set, and the place behind it.
fn next_cell(cells: &[Option<Value>], from: usize) -> Option<(Step, usize)>
    ensures { NextOf (λ i. cell_steps (drop i cells.now)) from result }
{
    let mut i = from;
    while i < cells.len() {
        match cells[i] {
            Some(value) => return Some((Step::Keeps(value), i + 1)),
            None => i += 1,
        }
    }
    None
}

fn next_mark(marks: &[Marked], i: usize) -> Option<(Step, usize)>
    ensures { NextOf (λ i. drop i (map Step.Does marks.now)) i result }
{
    if i < marks.len() {
        Some((Step::Does(marks[i]), i + 1))
    } else {
        None
    }
}

// The next step of a part, and the place behind it.
fn step<A: Allocator + Copy>(image: &Image<'_, A>, part: &Part, i: usize) -> Option<(Step, usize)>
    ensures { NextOf (λ i. part_from (program_of image.now) part.now i) i result }
{
    match part {
        Part::Body(marks) => next_mark(marks.as_slice(), i),
        Part::Data(b) => match image.store.fixed_block(*b) {
            Some(Contents::Cells(cells)) => next_cell(cells, i),
            Some(Contents::Bytes(_)) => None,
            Some(Contents::Freed(_)) => None,
            None => None,
        },
        Part::One(step) => { if i == 0 { Some((*step, 1)) } else { None } }
    }
}

fn is_there(number: u32, count: usize, node: Node) -> Option<Node>
    ensures { result ≡ (if nat_lt number count then Some node else None) }
{
    if (number as usize) < count {
        Some(node)
    } else {
        None
    }
}

fn pointer_names<A: Allocator + Copy>(image: &Image<'_, A>, p: Pointer) -> Option<Node>
    ensures { result ≡ pointer_names (program_of image.now) p }
{
    match p {
        Pointer::Null => None,
        Pointer::At(Base::Fixed(b), _) => match image.store.fixed_block(b) {
            Some(_) => Some(Node::Data(b)),
            None => None,
        },
        Pointer::At(Base::Made(_), _) => None,
    }
}

fn value_names<A: Allocator + Copy>(image: &Image<'_, A>, v: Value) -> Option<Node>
    ensures { result ≡ value_names (program_of image.now) v }
{
    match v {
        Value::Integer(_) => None,
        Value::Boolean(_) => None,
        Value::Char(_) => None,
        Value::Unit => None,
        Value::Address(p) => pointer_names(image, p),
        Value::Text(p) => pointer_names(image, p),
        Value::Vector(p) => pointer_names(image, p),
        Value::Tuple(_, p) => pointer_names(image, p),
    }
}

fn mark_names<A: Allocator + Copy>(image: &Image<'_, A>, mark: Mark) -> Option<Node>
    requires image { IsImage image.now }
    ensures { result ≡ mark_names (program_of image.now) mark }
{
    match mark {
        Mark::Reads(g) => is_there(g, image.kernel.definitions.len(), Node::Global(g)),
        Mark::Assigns(g) => is_there(g, image.kernel.definitions.len(), Node::Global(g)),
        Mark::Quotes(q) => match image.literals.get(q as usize) {
            None => None,
            Some(value) => value_names(image, *value),
        },
        Mark::Performs(_) => None,
        Mark::Stands(l) => is_there(l, image.kernel.lambdas.len(), Node::Inner(l)),
    }
}

fn names<A: Allocator + Copy>(image: &Image<'_, A>, step: Step) -> Option<Node>
    requires image { IsImage image.now }
    ensures { result ≡ names (program_of image.now) step }
{
    match step {
        Step::Does(d) => mark_names(image, d.mark),
        Step::Enters(l) => is_there(l, image.kernel.lambdas.len(), Node::Inner(l)),
        Step::Keeps(v) => value_names(image, v),
    }
}

// ---- faults

fn is_compile_only(stages: Stages) -> bool
    ensures { result ≡ is_compile_only stages }
{
    match stages {
        Stages::Both => false,
        Stages::CompileOnly => true,
        Stages::RunOnly => false,
    }
}

fn mark_fault<A: Allocator + Copy>(image: &Image<'_, A>, mark: Mark) -> Option<SurviveKind>
    requires image { IsImage image.now }
    ensures { (at : PlaceSpec) → mark_fault (program_of image.now) at mark ≡ kind_at at result }
{
    match mark {
        Mark::Reads(_) => None,
        Mark::Assigns(g) => match procedure(image, g) {
            Some(_) => Some(SurviveKind::ProcedureAssigned),
            None => None,
        },
        Mark::Quotes(_) => None,
        Mark::Performs(p) => {
            if is_compile_only(stages_of(p)) {
                Some(SurviveKind::CompileOnly)
            } else {
                None
            }
        }
        Mark::Stands(_) => None,
    }
}

fn fault<A: Allocator + Copy>(image: &Image<'_, A>, step: Step) -> Option<(SurviveKind, Place)>
    requires image { IsImage image.now }
    ensures { fault (program_of image.now) step ≡ fault_of result }
{
    match step {
        Step::Does(d) => match mark_fault(image, d.mark) {
            Some(kind) => Some((kind, d.at)),
            None => None,
        },
        Step::Enters(_) => None,
        Step::Keeps(_) => None,
    }
}

// ---- turns

fn take(walk: &mut Walk) -> Option<Frame>
    ensures { Takes walk.old walk.new result }
{
    walk.frames.pop()
}

// The step that was due is done, and leads to this.
fn advance<A: Allocator + Copy>(
    alloc: Global,
    image: &Image<'_, A>,
    walk: &mut Walk,
    frame: Frame,
    named: Option<Node>,
) -> Result<(), AllocError>
    requires image { IsImage image.now }
    ensures { OnOk result (VisitsNamed (program_of image.now) named (onto frame walk.old) walk.new) }
{
    walk.frames.push(frame)?;
    visit_named(alloc, image, walk, named)
}

// A step of a part is done, and the part goes on behind it.
fn work<A: Allocator + Copy>(
    alloc: Global,
    image: &Image<'_, A>,
    walk: &mut Walk,
    frame: Frame,
    step: Step,
) -> Result<(), Refusal>
    requires image { IsImage image.now }
    ensures { Works (program_of image.now) frame step walk.old walk.new result }
{
    match fault(image, step) {
        Some((kind, at)) => Err(Refusal::Fault(Fault::Survives(kind, at))),
        None => match advance(alloc, image, walk, frame, names(image, step)) {
            Ok(()) => Ok(()),
            Err(_) => Err(Refusal::NoMemory),
        },
    }
}

// The next step of the frame that was taken is done, or the frame is over.
fn turn<A: Allocator + Copy>(
    alloc: Global,
    image: &Image<'_, A>,
    walk: &mut Walk,
    frame: Frame,
) -> Result<(), Refusal>
    requires image { IsImage image.now }
    ensures { Turns (program_of image.now) frame walk.old walk.new result }
{
    match step(image, &frame.part, frame.next) {
        None => Ok(()),
        Some((due, next)) => {
            let rest = Frame {
                part: frame.part,
                next,
            };
            work(alloc, image, walk, rest, due)
        }
    }
}
