//! The parts of special forms. They refer to the form that they are parts of.

use ps_base::{Boxed, Items};
use ps_pattern::{Ident, Syntax};

/// A binding `(x e)`.
#[derive(Clone, Copy, Drop)]
pub struct Binding<'a> {
    /// The variable that is bound.
    pub name: &'a Ident,
    /// The expression of its value.
    pub value: &'a Syntax,
}

/// A binding of a loop, `(x i s)` or `(x i)` (R5RS 4.2.4).
#[derive(Clone, Copy, Drop)]
pub struct LoopBinding<'a> {
    /// The variable that is bound.
    pub name: &'a Ident,
    /// The expression of its first value.
    pub first: &'a Syntax,
    /// The expression of its next value; it keeps its value where there is none.
    pub step: Option<&'a Syntax>,
}

/// A keyword and its rules, `(k rules)`. The rules may be any form here.
#[derive(Clone, Copy, Drop)]
pub struct Macro<'a> {
    /// The name of the macro.
    pub keyword: &'a Ident,
    /// The form of its rules.
    pub rules: &'a Syntax,
}

/// What `define` defines (R5RS 5.2).
#[derive(Drop)]
pub enum Defined<'a> {
    /// `x e`
    Variable(&'a Ident, &'a Syntax),
    /// `(f x ...) body`, where a parameter may stand twice.
    Procedure(&'a Ident, Items<&'a Ident>, &'a [Syntax]),
}

/// A clause of `cond` (R5RS 4.2.1).
#[derive(Clone, Copy, Drop)]
pub enum Clause<'a> {
    /// `(t)`
    Alone(&'a Syntax),
    /// `(t => f)`
    Arrow(&'a Syntax, &'a Syntax),
    /// `(t e ...)`, with at least one expression.
    Then(&'a Syntax, &'a [Syntax]),
}

/// A datum that `case` compares its key with.
#[derive(Clone, Copy, Debug, PartialEq, Eq)]
pub enum Label {
    /// An integer.
    Integer(i64),
    /// A character, by its code.
    Char(u8),
    /// `#t` or `#f`
    Boolean(bool),
}

/// A clause of `case`, `((d ...) e ...)` (R5RS 4.2.1).
#[derive(Drop)]
pub struct CaseClause<'a> {
    /// The data, in order.
    pub labels: Items<Label>,
    /// Its expressions, at least one.
    pub body: &'a [Syntax],
}

/// A field of a record type, `(field type accessor)` or `(field type accessor modifier)`.
#[derive(Clone, Copy, Drop)]
pub struct Field<'a> {
    /// Its name.
    pub name: &'a Ident,
    /// The form of its type, which `type_of` reads.
    pub kind: &'a Syntax,
    /// The name of its accessor.
    pub accessor: &'a Ident,
    /// The name of its modifier.
    pub modifier: Option<&'a Ident>,
}

/// A record type, `n :n (maker field ...) pred spec ...`.
#[derive(Drop)]
pub struct RecordType<'a> {
    /// `n`, which defines nothing.
    pub name: &'a Ident,
    /// `:n`, the name of the type.
    pub kind: &'a Ident,
    /// The name of the maker.
    pub maker: &'a Ident,
    /// For each operand of the maker the index of its field: each field's once.
    pub operands: Items<usize>,
    /// The name of the predicate.
    pub predicate: Option<&'a Ident>,
    /// The fields, at least one, with different names.
    pub fields: Items<Field<'a>>,
}

/// The parts of a special form, in the order in which they are written.
#[derive(Drop)]
pub enum Parts<'a> {
    /// `(define x e)` or `(define (f x ...) body)`
    Define(Defined<'a>),
    /// `(define-syntax k rules)`
    DefineSyntax(Macro<'a>),
    /// `(define-record-type n :n (maker field ...) pred spec ...)`
    RecordType(RecordType<'a>),
    /// `(lambda (x ...) body)`
    Lambda(Items<&'a Ident>, &'a [Syntax]),
    /// `(if t a b)` or `(if t a)`
    If(&'a Syntax, &'a Syntax, Option<&'a Syntax>),
    /// `(let ((x e) ...) body)`
    Let(Items<Binding<'a>>, &'a [Syntax]),
    /// `(let f ((x e) ...) body)`
    NamedLet(&'a Ident, Items<Binding<'a>>, &'a [Syntax]),
    /// `(let* ((x e) ...) body)`
    LetStar(Items<Binding<'a>>, &'a [Syntax]),
    /// `(letrec ((x e) ...) body)`
    Letrec(Items<Binding<'a>>, &'a [Syntax]),
    /// `(begin e ...)`, with at least one expression
    Begin(&'a [Syntax]),
    /// `(set! x e)`
    Set(&'a Ident, &'a Syntax),
    /// `(quote d)`, whose datum `quoted` reads
    Quote(&'a Syntax),
    /// `(cond clause ...)`, and the expressions of its `else` clause
    Cond(Items<Clause<'a>>, Option<&'a [Syntax]>),
    /// `(case k clause ...)`, and the expressions of its `else` clause
    Case(&'a Syntax, Items<CaseClause<'a>>, Option<&'a [Syntax]>),
    /// `(and e ...)`
    And(&'a [Syntax]),
    /// `(or e ...)`
    Or(&'a [Syntax]),
    /// `(do ((x i s) ...) (t e ...) c ...)`
    Do(Items<LoopBinding<'a>>, &'a Syntax, &'a [Syntax], &'a [Syntax]),
    /// `(goto f a ...)`
    Goto(&'a Syntax, &'a [Syntax]),
    /// `(let-syntax ((k rules) ...) body)`
    LetSyntax(Items<Macro<'a>>, &'a [Syntax]),
    /// `(letrec-syntax ((k rules) ...) body)`
    LetrecSyntax(Items<Macro<'a>>, &'a [Syntax]),
}

/// A quoted datum (R5RS 4.1.2, in this project's profile).
#[derive(Clone, Copy, Drop)]
pub enum Quoted<'a> {
    /// An integer.
    Integer(i64),
    /// `#t` or `#f`
    Boolean(bool),
    /// A character, by its code.
    Char(u8),
    /// A string, or a vector of constants.
    Block(&'a Syntax),
}

/// The type of a record's field.
#[cycle(type_form)]
#[derive(Drop)]
pub enum TypeForm {
    /// `integer`
    Integer,
    /// `boolean`
    Boolean,
    /// `char`
    Char,
    /// `unit`
    Unit,
    /// `address`
    Address,
    /// `string`
    Text,
    /// `(vector t)`
    Vector(Boxed<TypeForm>),
    /// The record type of this name.
    Record(Ident),
}

/// The numbers of the names of types, each where the table has it.
#[derive(Clone, Copy, Drop)]
pub struct TypeWords {
    pub integer: Option<u32>,
    pub boolean: Option<u32>,
    pub character: Option<u32>,
    pub unit: Option<u32>,
    pub address: Option<u32>,
    pub text: Option<u32>,
    pub vector: Option<u32>,
}
