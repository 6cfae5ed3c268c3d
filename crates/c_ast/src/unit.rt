//! The trees of C texts.

use ps_base::Items;

/// A variable or a constant.
#[derive(Clone, Copy, Debug, PartialEq, Eq)]
pub enum Atom {
    /// The variable `vK`, counted from 0.
    Variable(u32),
    /// This constant, which `INT64_C(..)` writes.
    Integer(i64),
}

/// An operator of two operands.
#[derive(Clone, Copy, Debug, PartialEq, Eq)]
pub enum BinaryOperator {
    /// `+`, which is undefined where the sum has no 64 bits (C99 6.5, paragraph 5).
    Add,
    /// `-`, which is undefined where the difference has no 64 bits.
    Subtract,
    /// `*`, which is undefined where the product has no 64 bits.
    Multiply,
    /// `<`, which is 1 or 0 (C99 6.5.8).
    Less,
    /// `==`, which is 1 or 0 (C99 6.5.9).
    Equal,
}

/// A statement of a function's body.
#[derive(Debug, Drop)]
pub enum Statement {
    /// `vK = ATOM;`, which is undefined where the atom is a variable that was never assigned.
    Move(u32, Atom),
    /// `vK = ATOM OP ATOM;`, which is also undefined where the operator has no result.
    Operation(u32, Atom, BinaryOperator, Atom),
    /// `vK = ps_read();`, which reads a byte of the input, or gives -1 at its end.
    Read(u32),
    /// `vK = ps_write(ATOM);`, which writes a byte and gives 0. It is undefined where the atom is no byte.
    Write(u32, Atom),
    /// `vK = ps_fN(v1, v2);`, which calls function N with the values of variables. It is undefined where one of them was
    /// never assigned.
    Call(u32, u32, Items<u32>),
    /// `if (ATOM) goto LN;`, which jumps where the atom is not 0.
    IfGoto(Atom, u32),
    /// `goto LN;`
    Goto(u32),
    /// `LN:;`
    Label(u32),
    /// `return ATOM;`, which ends the call of the function.
    Return(Atom),
}

/// A function of integers. Its first variables are its parameters.
#[derive(Debug, Drop)]
pub struct CFunction {
    /// How many parameters it has: `v0` is the first.
    pub parameters: u32,
    /// How many variables it has behind its parameters.
    pub locals: u32,
    /// Its statements in order.
    pub statements: Items<Statement>,
}

/// A text: the functions `ps_f0`, `ps_f1` and so on, of which the first is the program's `main`. It is well formed where
/// that one has no parameters, no function has more than 127, each function names no other variables and labels than its
/// own, its labels are numbered from 0 in order, its last statement returns or jumps, and a call has as many arguments as the
/// called function has parameters.
#[derive(Debug, Drop)]
pub struct CUnit {
    /// The functions in order of their numbers.
    pub functions: Items<CFunction>,
}
