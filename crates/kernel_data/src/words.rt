//! The words that the cases are written with.

use crate::data::text_of;
use crate::trouble::Trouble;
use ps_base::{Names, Prim};
use ps_datum::{Datum, DatumKind};
use ps_kernel::CaseKind;

/// What an expression begins with.
#[derive(Clone, Copy)]
pub enum Head {
    Unit,
    Null,
    Local,
    Global,
    Lambda,
    Quoted,
    If,
    Let,
    Letrec,
    Begin,
    Set,
    SetLocal,
    Case,
    Call,
    Proper,
    Maker,
    Predicate,
    Accessor,
    Modifier,
    At,
    Deep,
    Wide,
    Prim(Prim),
}

/// What a part of a case begins with.
#[derive(Clone, Copy)]
pub enum Section {
    Definitions,
    Lambda,
    Literal,
    DeepLiteral,
    Kind,
    Define,
    Do,
    Main,
    Source,
    Globals,
    Cells,
    Bytes,
    Input,
    Grants,
    Calls,
    Turns,
}

/// What a type begins with.
#[derive(Clone, Copy)]
pub enum TypeWord {
    Integer,
    Char,
    Unit,
    Vector,
    Tuple,
    Proc,
    Var,
    Deep,
}

pub const HEADS: &[(&str, Head)] = &[
    ("unit", Head::Unit),
    ("null", Head::Null),
    ("local", Head::Local),
    ("global", Head::Global),
    ("lambda", Head::Lambda),
    ("quoted", Head::Quoted),
    ("if", Head::If),
    ("let", Head::Let),
    ("letrec", Head::Letrec),
    ("begin", Head::Begin),
    ("set!", Head::Set),
    ("set-local!", Head::SetLocal),
    ("case", Head::Case),
    ("call", Head::Call),
    ("proper", Head::Proper),
    ("maker", Head::Maker),
    ("predicate", Head::Predicate),
    ("accessor", Head::Accessor),
    ("modifier", Head::Modifier),
    ("at", Head::At),
    ("deep", Head::Deep),
    ("wide", Head::Wide),
    ("+", Head::Prim(Prim::Add)),
    ("-", Head::Prim(Prim::Subtract)),
    ("*", Head::Prim(Prim::Multiply)),
    ("=", Head::Prim(Prim::Equal)),
    ("<", Head::Prim(Prim::Less)),
    ("quotient", Head::Prim(Prim::Quotient)),
    ("remainder", Head::Prim(Prim::Remainder)),
    ("shift-left", Head::Prim(Prim::ShiftLeft)),
    ("not", Head::Prim(Prim::Not)),
    ("ascii->char", Head::Prim(Prim::AsciiToChar)),
    ("string-length", Head::Prim(Prim::StringLength)),
    ("string-ref", Head::Prim(Prim::StringRef)),
    ("string-append", Head::Prim(Prim::StringAppend)),
    ("string=?", Head::Prim(Prim::StringEqual)),
    ("make-vector", Head::Prim(Prim::MakeVector)),
    ("vector-ref", Head::Prim(Prim::VectorRef)),
    ("vector-set!", Head::Prim(Prim::VectorSet)),
    ("vector-length", Head::Prim(Prim::VectorLength)),
    ("deallocate-vector", Head::Prim(Prim::DeallocateVector)),
    ("read-byte", Head::Prim(Prim::ReadByte)),
    ("write-byte", Head::Prim(Prim::WriteByte)),
    ("null-address?", Head::Prim(Prim::IsNullAddress)),
    ("allocate-memory", Head::Prim(Prim::AllocateMemory)),
    ("deallocate-memory", Head::Prim(Prim::DeallocateMemory)),
    ("unsigned-byte-ref", Head::Prim(Prim::UnsignedByteRef)),
    ("unsigned-byte-set!", Head::Prim(Prim::UnsignedByteSet)),
    ("word-ref", Head::Prim(Prim::WordRef)),
    ("word-set!", Head::Prim(Prim::WordSet)),
    ("address+", Head::Prim(Prim::AddressAdd)),
    ("address-difference", Head::Prim(Prim::AddressDifference)),
    ("address=", Head::Prim(Prim::AddressEqual)),
    ("address<", Head::Prim(Prim::AddressLess)),
];

pub const SECTIONS: &[(&str, Section)] = &[
    ("definitions", Section::Definitions),
    ("lambda", Section::Lambda),
    ("literal", Section::Literal),
    ("deep-literal", Section::DeepLiteral),
    ("kind", Section::Kind),
    ("define", Section::Define),
    ("do", Section::Do),
    ("main", Section::Main),
    ("source", Section::Source),
    ("globals", Section::Globals),
    ("cells", Section::Cells),
    ("bytes", Section::Bytes),
    ("input", Section::Input),
    ("grants", Section::Grants),
    ("calls", Section::Calls),
    ("turns", Section::Turns),
];

pub const TYPES: &[(&str, TypeWord)] = &[
    ("integer", TypeWord::Integer),
    ("char", TypeWord::Char),
    ("unit", TypeWord::Unit),
    ("vector", TypeWord::Vector),
    ("tuple", TypeWord::Tuple),
    ("proc", TypeWord::Proc),
    ("var", TypeWord::Var),
    ("deep", TypeWord::Deep),
];

pub const CASE_KINDS: &[(&str, CaseKind)] = &[
    ("integer", CaseKind::Integer),
    ("char", CaseKind::Char),
];

/// What a table says of the word that a symbol is.
pub fn meaning_of<T: Copy>(
    table: &[(&str, T)],
    names: &Names,
    symbol: &Datum,
) -> Result<T, Trouble> {
    if let DatumKind::Symbol(name) = &symbol.kind {
        let word = text_of(names, *name);
        for (text, meaning) in table {
            if text.as_bytes() == word {
                return Ok(*meaning);
            }
        }
    }
    Err(Trouble::Unread(symbol.place))
}
