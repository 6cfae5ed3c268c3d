//! The kernel of a program.

ghost use Rattle.std.specs.Prelude.{◌≡◌, ◌+◌, ◌<◌, ◌^◌, ◌++◌, ◌∷◌, [], true, take, length, map, IfOk};
ghost use Rattle.ps_plain.specs.Size.{program_size};
ghost use Rattle.ps_plain.specs.Valid.{IsValid, all_true};
ghost use Rattle.ps_convert.specs.Inside.{within, write_within, procedure_within, parameters_in};
ghost use Rattle.ps_kernel.specs.Texts.{expr_at};
ghost use Rattle.ps_convert.specs.Kernels.{operator, comparison, primitive, expr_of, write_of, sequence, body_of, numbers_from, lambda_of, lambdas_from, definition_of, forms_from, kernel_of};

use ps_base::{Boxed, Items, Name, NoMemory, Place, Prim};
use ps_kernel::{
    Constant, Definition, Definitions, Expr, ExprKind, Exprs, Form, Forms, Kernel, Lambda, Lambdas,
    Numbers,
};
use ps_plain::{Comparison, Expr as Plain, Operator, Procedure, Program, Write};
use std::alloc::Global;

// The primitive of an operator.
fn operator(o: Operator) -> Prim
    ensures { result ≡ operator o }
{
    match o {
        Operator::Add => Prim::Add,
        Operator::Subtract => Prim::Subtract,
        Operator::Multiply => Prim::Multiply,
    }
}

// The primitive of a comparison.
fn comparison(q: Comparison) -> Prim
    ensures { result ≡ comparison q }
{
    match q {
        Comparison::Less => Prim::Less,
        Comparison::Equal => Prim::Equal,
    }
}

// An expression of a kind, at a place.
fn expr_at(place: Place, kind: ExprKind) -> Expr
    ensures { result ≡ expr_at place kind }
{
    Expr { place, kind }
}

// A primitive and its operands, at a place.
fn primitive(place: Place, name: Prim, operands: Exprs) -> Expr
    ensures { result ≡ primitive place name operands }
{
    expr_at(place, ExprKind::Primitive(name, operands))
}

// Two expressions in order.
fn pair(alloc: Global, a: Expr, b: Expr) -> Result<Exprs, NoMemory>
    ensures { IfOk result (λ es. es ≡ a ∷ b ∷ []) }
{
    let mut es = Items::new(alloc);
    es.push(a)?;
    es.push(b)?;
    Ok(es)
}

// An expression, in a procedure whose first parameter is this local.
#[cycle(convert)]
#[tactic(auto, using(crate::proofs::Walks::if_parts, crate::proofs::Walks::operation_parts, crate::proofs::Walks::call_parts, crate::proofs::Walks::parameter_parts))]
fn expr(alloc: Global, first: u32, count: u32, e: &Plain) -> Result<Expr, NoMemory>
    requires fits { first + count < 4294967296 }
    requires within { within count e.now ≡ true }
    ensures { IfOk result (λ r. r ≡ expr_of first e.now) }
{
    let converted = match e {
        Plain::Integer(place, i) => expr_at(*place, ExprKind::Constant(Constant::Integer(*i))),
        Plain::Parameter(place, k) => expr_at(*place, ExprKind::Local(first + *k)),
        Plain::Operation(place, o, a, b) => {
            let a = expr(alloc, first, count, a.get())?;
            let b = expr(alloc, first, count, b.get())?;
            let operands = pair(alloc, a, b)?;
            primitive(*place, operator(*o), operands)
        }
        Plain::If(place, at, q, a, b, c, d) => {
            let a = expr(alloc, first, count, a.get())?;
            let b = expr(alloc, first, count, b.get())?;
            let operands = pair(alloc, a, b)?;
            let test = Boxed::new(alloc, primitive(*at, comparison(*q), operands))?;
            let c = Boxed::new(alloc, expr(alloc, first, count, c.get())?)?;
            let d = Boxed::new(alloc, expr(alloc, first, count, d.get())?)?;
            expr_at(*place, ExprKind::If(test, c, d))
        }
        Plain::Call(place, at, f, es) => {
            let called = Boxed::new(alloc, expr_at(*at, ExprKind::Global(*f)))?;
            let operands = exprs(alloc, first, count, es.as_slice())?;
            expr_at(*place, ExprKind::Call(called, operands))
        }
        Plain::ReadByte(place) => primitive(*place, Prim::ReadByte, Items::new(alloc)),
    };
    Ok(converted)
}

// The operands of a call.
#[cycle(convert)]
fn exprs(alloc: Global, first: u32, count: u32, es: &[Plain]) -> Result<Exprs, NoMemory>
    requires fits { first + count < 4294967296 }
    requires within { all_true (map (within count) es.now) ≡ true }
    ensures { IfOk result (λ r. r ≡ map (expr_of first) es.now) }
{
    let mut all = Items::new(alloc);
    for e in es {
        all.push(expr(alloc, first, count, e)?)?;
    }
    Ok(all)
}

// (write-byte e)
fn write(alloc: Global, first: u32, count: u32, w: &Write) -> Result<Expr, NoMemory>
    requires fits { first + count < 4294967296 }
    requires within { write_within count w.now ≡ true }
    ensures { IfOk result (λ r. r ≡ write_of first w.now) }
{
    let mut operands = Items::new(alloc);
    operands.push(expr(alloc, first, count, &w.value)?)?;
    Ok(primitive(w.place, Prim::WriteByte, operands))
}

// The writes of a body.
fn writes(alloc: Global, first: u32, count: u32, ws: &[Write]) -> Result<Exprs, NoMemory>
    requires fits { first + count < 4294967296 }
    requires within { all_true (map (write_within count) ws.now) ≡ true }
    ensures { IfOk result (λ r. r ≡ map (write_of first) ws.now) }
{
    let mut all = Items::new(alloc);
    for w in ws {
        all.push(write(alloc, first, count, w)?)?;
    }
    Ok(all)
}

// The writes, and then the value.
fn sequence(place: Place, writes: Exprs, value: Expr) -> Result<Expr, NoMemory>
    ensures { IfOk result (λ r. r ≡ sequence place writes value) }
{
    if writes.is_empty() {
        return Ok(value);
    }
    let mut parts = writes;
    parts.push(value)?;
    Ok(expr_at(place, ExprKind::Begin(parts)))
}

// So many numbers from one on.
fn numbers(alloc: Global, first: u32, count: u32) -> Result<Numbers, NoMemory>
    requires { first + count < 4294967296 }
    ensures { IfOk result (λ r. r ≡ numbers_from first count) }
{
    let mut all = Items::new(alloc);
    for number in first..first + count {
        all.push(number)?;
    }
    Ok(all)
}

// The lambda of a procedure whose first parameter is this local.
fn lambda(alloc: Global, first: u32, q: &Procedure) -> Result<Lambda, NoMemory>
    requires fits { first + q.now.parameters < 4294967296 }
    requires within { procedure_within q.now ≡ true }
    ensures { IfOk result (λ r. r ≡ lambda_of first q.now) }
{
    let parameters = numbers(alloc, first, q.parameters)?;
    let writes = writes(alloc, first, q.parameters, q.writes.as_slice())?;
    let value = expr(alloc, first, q.parameters, &q.value)?;
    Ok(Lambda {
        place: q.place,
        parameters,
        captured: Items::new(alloc),
        body: sequence(q.place, writes, value)?,
    })
}

// The lambdas of procedures, whose parameters are numbered from 0.
fn lambdas(alloc: Global, qs: &[Procedure]) -> Result<Lambdas, NoMemory>
    requires fits { parameters_in qs.now < 4294967296 }
    requires within { all_true (map procedure_within qs.now) ≡ true }
    ensures { IfOk result (λ r. r ≡ lambdas_from 0 qs.now) }
{
    let mut all = Items::new(alloc);
    let mut first = 0;
    for q in qs {
        all.push(lambda(alloc, first, q)?)?;
        first += q.parameters;
    }
    Ok(all)
}

// The definitions of procedures, in a structure of this name.
fn definitions(alloc: Global, structure: Name, qs: &[Procedure]) -> Result<Definitions, NoMemory>
    ensures { IfOk result (λ r. r ≡ map (definition_of structure) qs.now) }
{
    let mut all = Items::new(alloc);
    for q in qs {
        all.push(Definition {
            structure,
            name: q.name,
            place: q.place,
        })?;
    }
    Ok(all)
}

// Each definition by the lambda of its own number.
fn forms(alloc: Global, qs: &[Procedure]) -> Result<Forms, NoMemory>
    requires { length qs.now < 4294967296 }
    ensures { IfOk result (λ r. r ≡ forms_from 0 qs.now) }
{
    let mut all = Items::new(alloc);
    let mut number = 0;
    for q in qs {
        all.push(Form::Define(number, expr_at(q.place, ExprKind::Lambda(number))))?;
        number += 1;
    }
    Ok(all)
}

/// The kernel of a program, where `structure` is the name of the structure in which its definitions stand: each procedure is
/// a definition by a lambda, in the order of the program, each form of a body is a node with the place of that form, and
/// every call nests. The program must be valid, and smaller than 4,294,967,295.
///
/// # Errors
///
/// `NoMemory` where memory ran out.
#[tactic(auto, using(crate::proofs::Walks::program_within, crate::proofs::Walks::few_parameters, crate::proofs::Walks::few_procedures))]
pub fn convert(alloc: Global, structure: Name, program: &Program) -> Result<Kernel, NoMemory>
    requires valid { IsValid program.now }
    requires small { program_size program.now + 1 < 2 ^ 32 }
    ensures { IfOk result (λ k. k ≡ kernel_of structure program.now) }
{
    let qs = program.procedures.as_slice();
    Ok(Kernel {
        definitions: definitions(alloc, structure, qs)?,
        lambdas: lambdas(alloc, qs)?,
        literals: Items::new(alloc),
        kinds: Items::new(alloc),
        forms: forms(alloc, qs)?,
        main: 0,
    })
}
