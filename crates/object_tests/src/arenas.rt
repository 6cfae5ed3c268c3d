//! An arena with the values of compile time: it is reset only when the store that was evaluated into lies in it no more.

ghost use Rattle.std.specs.Prelude.{IfOk, IsTrue};
ghost use Rattle.ps_prims.specs.Kinds.{AreKinds};

use bumpalo::{Bump, ResetError};
use byte_store::Value::{Integer, Vector};
use byte_store::{Base, Pointer, Store, Value};
use ps_base::Op::Bounds;
use ps_base::{Items, Limits, Name, NoMemory, Place, PrimName};
use ps_kernel::{Constant, Definition, Expr, ExprKind, Form, Kernel, Lambda, valid};
use ps_static_eval::evaluate;
use std::alloc::Global;
use std::mem;
use std::process::Abort;

const HERE: Place = Place {
    file: 0,
    line: 1,
    column: 1,
};

fn expr(kind: ExprKind) -> Expr {
    Expr { place: HERE, kind }
}

fn integer(i: i64) -> Expr {
    expr(ExprKind::Constant(Constant::Integer(i)))
}

fn definition(name: u32) -> Definition {
    Definition {
        structure: Name(0),
        name: Name(name),
        place: HERE,
    }
}

// (define t (make-vector 3 7)) (define (main) 0)
fn sevens(alloc: Global) -> Result<Kernel, NoMemory> {
    let operands = vec![in alloc; integer(3), integer(7)]?;
    let made = ExprKind::Primitive(PrimName::MakeVector, Items::from_vec(operands));
    let main = Lambda {
        place: HERE,
        parameters: Items::new(alloc),
        captured: Items::new(alloc),
        body: integer(0),
    };
    let forms = vec![in alloc;
        Form::Define(0, expr(made)),
        Form::Define(1, expr(ExprKind::Lambda(0))),
    ]?;
    Ok(Kernel {
        definitions: Items::from_slice(alloc, &[definition(1), definition(2)])?,
        lambdas: Items::from_vec(vec![in alloc; main]?),
        literals: Items::new(alloc),
        kinds: Items::new(alloc),
        forms: Items::from_vec(forms),
        main: 1,
    })
}

// Whether a kernel keeps the rules, by which its kinds of records fit.
#[tactic(auto, using(ps_kernel::proofs::ValidKindsAreFilled::are_filled))]
fn keeps_the_rules(alloc: Global, kernel: &Kernel) -> Result<bool, NoMemory>
    ensures { IfOk result (λ right. IsTrue right → AreKinds kernel.now.kinds) }
{
    valid(alloc, kernel)
}

// A store in the arena, with what the forms come to: the vector is its first block, and each of the three cells holds 7.
fn evaluated<'a>(rt: &impl Abort, alloc: Global, arena: &'a Bump) -> Store<Value, &'a Bump> {
    let kernel = sevens(alloc).expect(rt, "memory");
    let right = keeps_the_rules(alloc, &kernel).expect(rt, "memory");
    assert!(rt; right);
    let mut store = Store::new(arena);
    let globals = evaluate(alloc, arena, &kernel, &mut store, &Limits::standard());
    let globals = globals.expect(rt, "values");
    let first = Pointer::At(Base::Fixed(0), 0);
    assert_eq!(rt; globals.as_slice(), [Some(Vector(first)), None].as_slice());
    let cells = [
        store.get(first, 0),
        store.get(first, 1),
        store.get(first, 2),
        store.get(first, 3),
    ];
    let seven = Ok(Integer(7));
    assert_eq!(rt; cells, [seven, seven, seven, Err(Bounds)]);
    store
}

#[test]
fn a_store_that_is_dropped_lets_its_arena_go(rt: HostRuntime) {
    let mut arena = Bump::new(rt.alloc());
    let store = evaluated(&rt, rt.alloc(), &arena);
    drop(store);
    assert!(rt; 0 < arena.allocated_bytes());
    assert_eq!(rt; arena.reset(), Ok(()));
}

#[test]
fn a_store_that_is_forgotten_holds_its_arena(rt: HostRuntime) {
    let mut arena = Bump::new(rt.alloc());
    mem::forget(evaluated(&rt, rt.alloc(), &arena));
    assert_eq!(rt; arena.reset(), Err(ResetError));
}
