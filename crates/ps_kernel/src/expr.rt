//! The trees of expressions.

use ps_base::{Boxed, Items, Place, Prim};

/// A constant.
#[derive(Clone, Copy, Debug, PartialEq, Eq)]
pub enum Constant {
    /// An integer of 64 bits.
    Integer(i64),
    /// `#t` or `#f`.
    Boolean(bool),
    /// A character, by its code.
    Char(u8),
    /// The one value of what answers nothing.
    Unit,
    /// The null address.
    NullAddress,
    /// The literal of this number: a quoted string or vector.
    Quoted(u32),
}

/// A local that a `letrec` binds, and the lambda that it stands for.
#[derive(Clone, Copy, Debug, PartialEq, Eq)]
pub struct GroupEntry {
    /// The local's number.
    pub local: u32,
    /// The lambda's number.
    pub lambda: u32,
}

/// The locals that one `letrec` binds, in order.
pub type Group = Items<GroupEntry>;

/// Expressions in order.
pub type Exprs = Items<Expr>;

/// Whether the labels of a `case` are integers or the codes of characters (R5RS 4.2.1).
#[derive(Clone, Copy, Debug, PartialEq, Eq)]
pub enum CaseKind {
    /// Integers.
    Integer,
    /// Characters, by their codes from 0 to 255.
    Char,
}

/// Labels in order.
pub type Labels = Items<i64>;

/// The branches of a `case`, in order.
pub type Branches = Items<Labelled>;

/// A branch of a `case`: its labels, of which it has at least one, and what is evaluated where the key is one of them.
#[cycle(kernel)]
#[derive(Debug, Drop)]
pub struct Labelled {
    /// The labels.
    pub labels: Labels,
    /// The expression.
    pub body: Expr,
}

/// An expression, with the place of the form that it was made of.
#[cycle(kernel)]
#[derive(Debug, Drop)]
pub struct Expr {
    /// Where the form stands.
    pub place: Place,
    /// What it is.
    pub kind: ExprKind,
}

/// What an expression is. Locals, definitions, lambdas and literals are told by their numbers.
#[cycle(kernel)]
#[derive(Debug, Drop)]
pub enum ExprKind {
    /// A constant.
    Constant(Constant),
    /// A mention of a local (R5RS 4.1.1).
    Local(u32),
    /// A mention of a definition (R5RS 4.1.1).
    Global(u32),
    /// The lambda of this number stands here (R5RS 4.1.4).
    Lambda(u32),
    /// A test, and the expressions for true and for false (R5RS 4.1.5).
    If(Boxed<Expr>, Boxed<Expr>, Boxed<Expr>),
    /// A local, its value, and where it is bound (R5RS 4.2.2).
    Let(u32, Boxed<Expr>, Boxed<Expr>),
    /// Locals that stand for lambdas, and where they are bound beside these lambdas (R5RS 4.2.2).
    Letrec(Group, Boxed<Expr>),
    /// A sequence of at least one part (R5RS 4.2.3).
    Begin(Exprs),
    /// The assignment of a value to a definition (R5RS 4.1.6).
    SetGlobal(u32, Boxed<Expr>),
    /// The assignment of a value to a local, which no letrec binds and no procedure keeps (R5RS 4.1.6).
    SetLocal(u32, Boxed<Expr>),
    /// A key, the branches, of which all labels differ, and the expression where no branch has the key's value (R5RS 4.2.1).
    Case(CaseKind, Boxed<Expr>, Branches, Boxed<Expr>),
    /// A call that nests: its operator and its operands (R5RS 4.1.3).
    Call(Boxed<Expr>, Exprs),
    /// A call in tail position that takes the place of the procedure in which it stands (R5RS 3.5).
    ProperCall(Boxed<Expr>, Exprs),
    /// A primitive of the table, and its operands. `null-address` may stand here too, without operands, and gives what the
    /// constant of its name is.
    Primitive(Prim, Exprs),
}
