//! The values that a statement works with.

ghost use Rattle.std.specs.Prelude.{◌≡◌, ◌++◌, map, slice_index_or, IfOk, None, is_some};
ghost use Rattle.ps_base.specs.Numbers.{fit, byte_of};
ghost use Rattle.c_meaning.specs.Machine.{atom_value, values_of, result_of, unset};

use c_ast::{Atom, BinaryOperator};
use ps_base::{Items, NoMemory};
use std::alloc::Global;

// What a variable stands for, where it was assigned.
fn variable(locals: &[Option<i64>], number: u32) -> Option<i64>
    ensures { result ≡ slice_index_or locals.now number None }
{
    if (number as usize) < locals.len() {
        locals[number as usize]
    } else {
        None
    }
}

// What an atom stands for, where it was assigned.
pub fn value_of(locals: &[Option<i64>], atom: Atom) -> Option<i64>
    ensures { result ≡ atom_value locals.now atom }
{
    match atom {
        Atom::Variable(number) => variable(locals, number),
        Atom::Integer(i) => Some(i),
    }
}

// The result of an operator, where it has 64 bits.
pub fn operate(operator: BinaryOperator, i: i64, j: i64) -> Option<i64>
    ensures { result ≡ fit (result_of operator i j) }
{
    match operator {
        BinaryOperator::Add => i.checked_add(j),
        BinaryOperator::Subtract => i.checked_sub(j),
        BinaryOperator::Multiply => i.checked_mul(j),
        BinaryOperator::Less => Some(if i < j { 1 } else { 0 }),
        BinaryOperator::Equal => Some(if i == j { 1 } else { 0 }),
    }
}

// The integer, where it is a byte.
pub fn byte(i: i64) -> Option<i64>
    ensures { result ≡ byte_of i }
{
    if i >= 0 && i < 256 { Some(i) } else { None }
}

// Whether each of the variables was assigned.
pub fn are_assigned(locals: &[Option<i64>], variables: &[u32]) -> bool
    ensures { result ≡ is_some (values_of locals.now variables.now) }
{
    for number in variables {
        if variable(locals, *number).is_none() {
            return false;
        }
    }
    true
}

// The variables of a function as it is called: copies of the arguments, and then so many more that are unset.
pub fn variables_of_call(
    alloc: Global,
    locals: &[Option<i64>],
    arguments: &[u32],
    more: u32,
) -> Result<Items<Option<i64>>, NoMemory>
    ensures { IfOk result (λ new. new ≡ map (λ k. slice_index_or locals.now k None) arguments.now ++ unset more) }
{
    let mut variables = vec![in alloc; None; arguments.len() + more as usize]?;
    for (i, number) in arguments.iter().enumerate() {
        variables[i] = variable(locals, *number);
    }
    Ok(Items::from_vec(variables))
}
