//! The names of the language, and what they mean.

use ps_base::{Core, Prim};
use ps_pattern::Binding;

/// A name of the language, and what it means.
pub(crate) type Word = (&'static [u8], Binding);

/// The names of special forms and primitives but those for addresses.
pub(crate) const LANGUAGE: &[Word] = &[
    (b"define", Binding::Core(Core::Define)),
    (b"define-syntax", Binding::Core(Core::DefineSyntax)),
    (b"lambda", Binding::Core(Core::Lambda)),
    (b"if", Binding::Core(Core::If)),
    (b"let", Binding::Core(Core::Let)),
    (b"let*", Binding::Core(Core::LetStar)),
    (b"letrec", Binding::Core(Core::Letrec)),
    (b"begin", Binding::Core(Core::Begin)),
    (b"set!", Binding::Core(Core::Set)),
    (b"quote", Binding::Core(Core::Quote)),
    (b"cond", Binding::Core(Core::Cond)),
    (b"case", Binding::Core(Core::Case)),
    (b"and", Binding::Core(Core::And)),
    (b"or", Binding::Core(Core::Or)),
    (b"do", Binding::Core(Core::Do)),
    (b"goto", Binding::Core(Core::Goto)),
    (b"let-syntax", Binding::Core(Core::LetSyntax)),
    (b"letrec-syntax", Binding::Core(Core::LetrecSyntax)),
    (b"+", Binding::Primitive(Prim::Add)),
    (b"-", Binding::Primitive(Prim::Subtract)),
    (b"*", Binding::Primitive(Prim::Multiply)),
    (b"quotient", Binding::Primitive(Prim::Quotient)),
    (b"remainder", Binding::Primitive(Prim::Remainder)),
    (b"modulo", Binding::Primitive(Prim::Modulo)),
    (b"=", Binding::Primitive(Prim::Equal)),
    (b"<", Binding::Primitive(Prim::Less)),
    (b">", Binding::Primitive(Prim::Greater)),
    (b"<=", Binding::Primitive(Prim::LessOrEqual)),
    (b">=", Binding::Primitive(Prim::GreaterOrEqual)),
    (b"zero?", Binding::Primitive(Prim::IsZero)),
    (b"positive?", Binding::Primitive(Prim::IsPositive)),
    (b"negative?", Binding::Primitive(Prim::IsNegative)),
    (b"bitwise-and", Binding::Primitive(Prim::BitwiseAnd)),
    (b"bitwise-ior", Binding::Primitive(Prim::BitwiseOr)),
    (b"bitwise-xor", Binding::Primitive(Prim::BitwiseXor)),
    (b"bitwise-not", Binding::Primitive(Prim::BitwiseNot)),
    (b"shift-left", Binding::Primitive(Prim::ShiftLeft)),
    (
        b"arithmetic-shift-right",
        Binding::Primitive(Prim::ArithmeticShiftRight),
    ),
    (
        b"logical-shift-right",
        Binding::Primitive(Prim::LogicalShiftRight),
    ),
    (b"not", Binding::Primitive(Prim::Not)),
    (b"boolean=?", Binding::Primitive(Prim::BooleanEqual)),
    (b"char=?", Binding::Primitive(Prim::CharEqual)),
    (b"char<?", Binding::Primitive(Prim::CharLess)),
    (b"char->ascii", Binding::Primitive(Prim::CharToAscii)),
    (b"ascii->char", Binding::Primitive(Prim::AsciiToChar)),
    (b"unspecific", Binding::Primitive(Prim::Unspecific)),
    (b"string-length", Binding::Primitive(Prim::StringLength)),
    (b"string-ref", Binding::Primitive(Prim::StringRef)),
    (b"make-vector", Binding::Primitive(Prim::MakeVector)),
    (b"vector-ref", Binding::Primitive(Prim::VectorRef)),
    (b"vector-set!", Binding::Primitive(Prim::VectorSet)),
    (b"null-vector?", Binding::Primitive(Prim::IsNullVector)),
    (
        b"deallocate-vector",
        Binding::Primitive(Prim::DeallocateVector),
    ),
    (b"read-byte", Binding::Primitive(Prim::ReadByte)),
    (b"write-byte", Binding::Primitive(Prim::WriteByte)),
    (b"string-append", Binding::Primitive(Prim::StringAppend)),
    (b"string=?", Binding::Primitive(Prim::StringEqual)),
    (b"vector-length", Binding::Primitive(Prim::VectorLength)),
];

/// The names for addresses.
pub(crate) const MEMORY: &[Word] = &[
    (b"null-address", Binding::Primitive(Prim::NullAddress)),
    (b"null-address?", Binding::Primitive(Prim::IsNullAddress)),
    (b"allocate-memory", Binding::Primitive(Prim::AllocateMemory)),
    (
        b"deallocate-memory",
        Binding::Primitive(Prim::DeallocateMemory),
    ),
    (
        b"unsigned-byte-ref",
        Binding::Primitive(Prim::UnsignedByteRef),
    ),
    (
        b"unsigned-byte-set!",
        Binding::Primitive(Prim::UnsignedByteSet),
    ),
    (b"word-ref", Binding::Primitive(Prim::WordRef)),
    (b"word-set!", Binding::Primitive(Prim::WordSet)),
    (b"address+", Binding::Primitive(Prim::AddressAdd)),
    (
        b"address-difference",
        Binding::Primitive(Prim::AddressDifference),
    ),
    (b"address=", Binding::Primitive(Prim::AddressEqual)),
    (b"address<", Binding::Primitive(Prim::AddressLess)),
];

/// The name for record types.
pub(crate) const RECORDS: &[Word] = &[(
    b"define-record-type",
    Binding::Core(Core::DefineRecordType),
)];
