//! Units that no program is translated to, run to their end.

ghost use Rattle.std.specs.Prelude.{◌≡◌, IfOk};
ghost use Rattle.c_ast.specs.WellFormed.{IsWellFormed};

use byte_store::Event::Output;
use byte_store::{Events, World};
use c_ast::Atom::{Integer, Variable};
use c_ast::BinaryOperator::{Equal, Less, Subtract};
use c_ast::Statement::{Call, Goto, IfGoto, Label, Move, Operation, Return, Write};
use c_ast::{CFunction, CUnit, Statement};
use c_meaning::*;
use ps_base::{Items, NoMemory, Op};
use std::alloc::Global;
use std::test::Fail;

// How a run ends within 100 steps, and what it does before. A further step of a run that has ended answers the same.
fn run(alloc: Global, unit: &CUnit) -> Result<(StepOut, Events), Fail>
    requires { IsWellFormed unit.now }
{
    let mut state = CState::start(alloc, unit)?;
    let mut world = World::new(Items::new(alloc), Items::new(alloc));
    let mut events = Items::new(alloc);
    let mut out = StepOut::Going;
    for _ in 0..100 {
        out = step(unit, &mut state, &mut world, &mut events);
    }
    Ok((out, events))
}

fn function(parameters: u32, locals: u32, statements: Vec<Statement>) -> CFunction
    ensures { result ≡ record { parameters = parameters; locals = locals; statements = statements.items } }
{
    CFunction {
        parameters,
        locals,
        statements: Items::from_vec(statements),
    }
}

fn unit(functions: Vec<CFunction>) -> CUnit
    ensures { result ≡ record { functions = functions.items } }
{
    CUnit {
        functions: Items::from_vec(functions),
    }
}

// Writes what a comparison that holds gives, then what one that does not hold gives, and returns what the last call gave.
fn compares(alloc: Global) -> Result<CUnit, NoMemory>
    ensures { IfOk result (λ u. IsWellFormed u) }
{
    let main = vec![in alloc;
        Operation(0, Integer(-1), Less, Integer(0)),
        Operation(1, Integer(5), Equal, Integer(-5)),
        Write(2, Variable(0)),
        Write(2, Variable(1)),
        Move(0, Integer(7)),
        Write(0, Integer(65)),
        Return(Variable(0)),
    ]?;
    Ok(unit(vec![in alloc; function(0, 3, main)]?))
}

// Counts down from 3, and then skips a statement.
fn jumps(alloc: Global) -> Result<CUnit, NoMemory>
    ensures { IfOk result (λ u. IsWellFormed u) }
{
    let main = vec![in alloc;
        Move(0, Integer(3)),
        Label(0),
        Write(1, Variable(0)),
        Operation(0, Variable(0), Subtract, Integer(1)),
        IfGoto(Variable(0), 0),
        Goto(1),
        Return(Integer(7)),
        Label(1),
        Return(Integer(8)),
    ]?;
    Ok(unit(vec![in alloc; function(0, 2, main)]?))
}

// Calls a function that assigns its parameter, and then one that returns a variable that it never assigned. The caller
// assigned its own of that number.
fn forgets(alloc: Global) -> Result<CUnit, NoMemory>
    ensures { IfOk result (λ u. IsWellFormed u) }
{
    let main = vec![in alloc;
        Move(0, Integer(1)),
        Move(1, Integer(2)),
        Call(2, 1, Items::from_vec(vec![in alloc; 0]?)),
        Write(2, Variable(0)),
        Call(0, 2, Items::from_vec(vec![in alloc; 0]?)),
        Return(Variable(1)),
    ]?;
    let assigns = vec![in alloc; Move(0, Integer(9)), Return(Variable(0))]?;
    let callee = vec![in alloc; Return(Variable(1))]?;
    Ok(unit(vec![in alloc;
        function(0, 3, main),
        function(1, 0, assigns),
        function(1, 1, callee),
    ]?))
}

#[test]
fn units_do_what_they_say(rt: HostRuntime) -> Result<(), Fail> {
    let alloc = rt.alloc();
    let (out, events) = run(alloc, &compares(alloc)?)?;
    assert_eq!(rt; out, StepOut::Returned(0));
    assert_eq!(rt;
        events.as_slice(),
        [Output(1), Output(0), Output(65)].as_slice()
    );
    let (out, events) = run(alloc, &jumps(alloc)?)?;
    assert_eq!(rt; out, StepOut::Returned(8));
    assert_eq!(rt;
        events.as_slice(),
        [Output(3), Output(2), Output(1)].as_slice()
    );
    let (out, events) = run(alloc, &forgets(alloc)?)?;
    assert_eq!(rt; out, StepOut::Stuck(Op::Unset));
    assert_eq!(rt; events.as_slice(), [Output(1)].as_slice());
    Ok(())
}
