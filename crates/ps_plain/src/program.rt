//! The trees of programs.

use ps_base::{Boxed, Items, Name, Place};

/// An operator of two integers.
#[derive(Clone, Copy, Debug, PartialEq, Eq)]
pub enum Operator {
    /// `+`
    Add,
    /// `-`
    Subtract,
    /// `*`
    Multiply,
}

/// A comparison of two integers.
#[derive(Clone, Copy, Debug, PartialEq, Eq)]
pub enum Comparison {
    /// `<`
    Less,
    /// `=`
    Equal,
}

/// A word with a meaning of its own. It is the name of nothing.
#[derive(Clone, Copy, Debug, PartialEq, Eq)]
pub enum Keyword {
    /// `define`
    Define,
    /// `if`
    If,
    /// `write-byte`
    WriteByte,
    /// `read-byte`
    ReadByte,
    /// `+`, `-` or `*`
    Arithmetic(Operator),
    /// `<` or `=`
    Compare(Comparison),
}

/// An expression of integers. Its parts are evaluated from left to right. The first place of each is that of its own datum.
#[derive(Debug, Drop)]
pub enum Expr {
    /// An integer of 64 bits.
    Integer(Place, i64),
    /// A parameter of the procedure around it, counted from 0.
    Parameter(Place, u32),
    /// `(+ a b)`, `(- a b)` or `(* a b)`.
    Operation(Place, Operator, Boxed<Expr>, Boxed<Expr>),
    /// `(if (< a b) c d)` or `(if (= a b) c d)`: c where the comparison holds, and else d. The second place is that of the
    /// test.
    If(Place, Place, Comparison, Boxed<Expr>, Boxed<Expr>, Boxed<Expr>, Boxed<Expr>),
    /// `(f a ...)`: a call of a procedure, by its number in the program. The second place is that of `f`.
    Call(Place, Place, u32, Items<Expr>),
    /// `(read-byte)`: the next byte of the input, or -1 at its end.
    ReadByte(Place),
}

/// A form `(write-byte W)` in the body of a procedure.
#[derive(Debug, Drop)]
pub struct Write {
    /// Where the form stands.
    pub place: Place,
    /// The expression W whose value is written as a byte.
    pub value: Expr,
}

/// A procedure `(define (f x ...) (write-byte W) ... E)`.
#[derive(Debug, Drop)]
pub struct Procedure {
    /// Where its definition stands.
    pub place: Place,
    /// The number of f in the table of names.
    pub name: Name,
    /// How many parameters it has.
    pub parameters: u32,
    /// The bytes that are written before the value is evaluated, in order.
    pub writes: Items<Write>,
    /// The expression E whose value is that of a call.
    pub value: Expr,
}

/// A program: its procedures, of which `main` is the first. The others follow in order of the text.
#[derive(Debug, Drop)]
pub struct Program {
    /// The procedures in order of their numbers.
    pub procedures: Items<Procedure>,
}
