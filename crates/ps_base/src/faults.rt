//! Places, and why a run of the compiler is refused.

ghost use Rattle.std.specs.Prelude.{◌≡◌};
ghost use Rattle.ps_base.specs.Faults.{number_of};

use crate::memory::NoMemory;
use crate::names::Name;

/// A place in a text.
#[derive(Clone, Copy, Debug, PartialEq, Eq)]
pub struct Place {
    /// 0 is the input, and k is the k-th fetched file, counted from 1.
    pub file: u32,
    /// The line, counted from 1. A line ends after byte 10.
    pub line: u32,
    /// The byte in its line, counted from 1.
    pub column: u32,
}

/// Why an operation has no meaning for its operands.
#[derive(Clone, Copy, Debug, PartialEq, Eq)]
pub enum Op {
    /// The result has no 64 bits.
    Overflow,
    /// The divisor is 0, or the quotient has no 64 bits.
    Division,
    /// A shift by a count outside 0 to 63.
    Shift,
    /// A character's code outside 0 to 255.
    Char,
    /// A byte outside 0 to 255.
    Byte,
    /// A size that no block may have.
    Size,
    /// A pointer to no block, or a place outside a block.
    Bounds,
    /// What is read was never set.
    Unset,
    /// A block that was freed.
    Freed,
    /// Two pointers into different blocks, which have no distance and no order.
    Blocks,
}

/// What is wrong with the tokens or data of a text (R5RS 7.1.1 and 7.1.2, in this project's profile).
#[derive(Clone, Copy, Debug, PartialEq, Eq)]
pub enum SyntaxKind {
    /// A byte or run of bytes that begins no token.
    BadToken,
    /// The text ends in a string, or while a list, a vector or a quote is open.
    Unclosed,
    /// A `)` where no list or vector is open, or directly after `'`.
    StrayClose,
    /// A number that is no integer.
    FloatLiteral,
    /// An integer outside 64 bits.
    WideLiteral,
    /// `#\` that begins no character, or a byte 0 in a string.
    BadCharacter,
    /// A backslash in a string that begins no escape.
    BadEscape,
    /// A dot outside a list, without a datum before it, or without just one behind it.
    BadDot,
    /// Lists, vectors and quotes nested more than 200 deep.
    TooDeep,
}

/// What is wrong with structures and interfaces.
#[derive(Clone, Copy, Debug, PartialEq, Eq)]
pub enum ModuleKind {
    /// An opened structure is not defined.
    UnknownStructure,
    /// An interface is not defined, or its definitions lead back to it.
    UnknownInterface,
    /// Two structures or two interfaces of one name, or a structure of a built-in one's name.
    DefinedTwice,
    /// Structures that open each other.
    Circle,
    /// No library has the file.
    MissingFile,
    /// There is no structure, or the entry does not export the value `main`.
    NoMain,
    /// Two opened names give one name different bindings.
    TwoOpened,
    /// A form or clause of another shape.
    BadClause,
}

/// What is wrong with a form.
#[derive(Clone, Copy, Debug, PartialEq, Eq)]
pub enum FormKind {
    /// A form of another shape, or one that may not stand here.
    BadForm,
    /// An identifier without a binding.
    Unbound,
    /// A primitive or a `lambda` at the head of a call with another number of operands.
    Arity,
    /// A `letrec` or an internal definition whose value is no `lambda`.
    LetrecValue,
    /// A `set!` of a local variable.
    LocalSet,
    /// A use of a macro that matches none of its rules.
    NoRule,
    /// A `syntax-rules` form of another shape, or with variables or ellipses out of place.
    BadRules,
    /// Two variables under one ellipsis that matched different numbers of forms.
    Uneven,
    /// A second definition of one identifier.
    NameTwice,
    /// An exported name without a definition of its sort.
    ExportUndefined,
    /// A kernel, a quoted datum or a transcribed form deeper than its limit.
    TooDeep,
}

/// What may not be reached from `main`.
#[derive(Clone, Copy, Debug, PartialEq, Eq)]
pub enum SurviveKind {
    /// A primitive that is for compile time alone.
    CompileOnly,
    /// A `set!` of the name of a procedure definition.
    ProcedureAssigned,
    /// `main` itself, which is no procedure without parameters.
    MainMissing,
}

/// Where a procedure may not stand as a value.
#[derive(Clone, Copy, Debug, PartialEq, Eq)]
pub enum Position {
    /// A branch of `if`.
    Branch,
    /// An operand of a primitive, or a primitive itself.
    Primitive,
    /// The value of a `set!`.
    Assigned,
    /// A part of a sequence other than its last.
    Ignored,
}

/// Why a run of the compiler is refused.
#[derive(Clone, Copy, Debug, PartialEq, Eq)]
pub enum Fault {
    /// The words break the rules, at the word of this index. It is the number of words where one is missing.
    Usage(u64),
    /// The input failed.
    Source,
    /// The output failed.
    Sink,
    /// The library of this index failed.
    Library(u64),
    /// The text of this file is too long. 0 is the input, and k is the k-th fetched file, counted from 1.
    TooLong(u32),
    /// The tokens or data of a text are wrong, at this place.
    Syntax(SyntaxKind, Place),
    /// The structures and interfaces are wrong, at this place.
    Module(ModuleKind, Place),
    /// A form is wrong, at this place.
    Form(FormKind, Place),
    /// Macros were transcribed more often than this limit, or transcribed forms have more nodes than this limit together.
    ExpansionSpent(u64),
    /// The kernel has more than this number of nodes.
    CoreSpent(u64),
    /// A top-level form at compile time meets a value of the wrong kind, at this place.
    StaticWrong(Place),
    /// A top-level form at compile time meets an operation without a meaning, at this place.
    StaticUndefined(Op, Place),
    /// A top-level form at compile time meets what is for run time alone, at this place.
    StaticRunOnly(Place),
    /// The top-level forms were still running after this number of calls at compile time.
    BudgetSpent(u64),
    /// The top-level forms made more than this number of cells.
    CellsSpent(u64),
    /// `main` reaches what it may not, at this place.
    Survives(SurviveKind, Place),
    /// The definition of this structure and name has no type. The place is its form's.
    TypeFault(Name, Name, Place),
    /// A procedure stands as a value where it may not. The place is that of the form around it.
    Unresolved(Position, Place),
    /// There are more than this number of specialised procedures.
    KeysSpent(u64),
    /// The call at this place would be nested in too many substitutions.
    InlineSpent(Place),
    /// A specialised procedure would have this number of parameters.
    TooWide(u64, Place),
    /// The specialised procedures are larger than this.
    CodeSpent(u64),
    /// The text has a form that is not built yet.
    NotBuilt(Place),
    /// The text is none of the C subset, first shown at this line. Its column is 1.
    CText(Place),
    /// A kernel as a text would open too many brackets, first at this place.
    ShowDeep(Place),
    /// A kernel as a text would have more than this number of bytes.
    ShowLong(u64),
}

/// A fault, or want of memory: all that a call of the compiler can refuse with.
#[derive(Clone, Copy, Debug, PartialEq, Eq)]
pub enum Refusal {
    /// The fault of what was given.
    Fault(Fault),
    /// Memory ran out.
    NoMemory,
}

impl From<NoMemory> for Refusal {
    ghost use Rattle.ps_base.specs.declared.faults.Refusal.TheVariants.{NoMemory as WantOfMemory};

    ghost from_gives = { λ _ refusal. refusal ≡ WantOfMemory };

    fn from(_e: NoMemory) -> Refusal {
        Refusal::NoMemory
    }
}

impl Fault {
    /// The fault's number, from 1 to 19. It is also the status with which the program ends.
    pub fn number(&self) -> u8
        ensures { result ≡ number_of self.now }
    {
        match self {
            Fault::Usage(_) => 1,
            Fault::Source => 2,
            Fault::Sink => 3,
            Fault::Library(_) => 4,
            Fault::TooLong(_) => 5,
            Fault::Syntax(_, _) => 6,
            Fault::Module(_, _) => 7,
            Fault::Form(_, _) => 8,
            Fault::ExpansionSpent(_) => 9,
            Fault::CoreSpent(_) => 9,
            Fault::StaticWrong(_) => 10,
            Fault::StaticUndefined(_, _) => 10,
            Fault::StaticRunOnly(_) => 10,
            Fault::BudgetSpent(_) => 11,
            Fault::CellsSpent(_) => 11,
            Fault::Survives(_, _) => 12,
            Fault::TypeFault(_, _, _) => 13,
            Fault::Unresolved(_, _) => 14,
            Fault::KeysSpent(_) => 15,
            Fault::InlineSpent(_) => 15,
            Fault::TooWide(_, _) => 15,
            Fault::CodeSpent(_) => 16,
            Fault::NotBuilt(_) => 17,
            Fault::CText(_) => 18,
            Fault::ShowDeep(_) => 19,
            Fault::ShowLong(_) => 19,
        }
    }
}
