//! The built-in structures.

ghost use Rattle.std.specs.Prelude.{◌≡◌};
ghost use Rattle.ps_modules.specs.BuiltIn.{built_in};

use crate::types::Opened;

/// The names of special forms and primitives but those for addresses.
pub(crate) const LANGUAGE: &[&[u8]] = &[
    b"define",
    b"define-syntax",
    b"lambda",
    b"if",
    b"let",
    b"let*",
    b"letrec",
    b"begin",
    b"set!",
    b"quote",
    b"cond",
    b"case",
    b"and",
    b"or",
    b"do",
    b"goto",
    b"let-syntax",
    b"letrec-syntax",
    b"+",
    b"-",
    b"*",
    b"quotient",
    b"remainder",
    b"modulo",
    b"=",
    b"<",
    b">",
    b"<=",
    b">=",
    b"zero?",
    b"positive?",
    b"negative?",
    b"bitwise-and",
    b"bitwise-ior",
    b"bitwise-xor",
    b"bitwise-not",
    b"shift-left",
    b"arithmetic-shift-right",
    b"logical-shift-right",
    b"not",
    b"boolean=?",
    b"char=?",
    b"char<?",
    b"char->ascii",
    b"ascii->char",
    b"unspecific",
    b"string-length",
    b"string-ref",
    b"make-vector",
    b"vector-ref",
    b"vector-set!",
    b"null-vector?",
    b"deallocate-vector",
    b"read-byte",
    b"write-byte",
    b"string-append",
    b"string=?",
    b"vector-length",
];

/// The names for addresses.
pub(crate) const MEMORY: &[&[u8]] = &[
    b"null-address",
    b"null-address?",
    b"allocate-memory",
    b"deallocate-memory",
    b"unsigned-byte-ref",
    b"unsigned-byte-set!",
    b"word-ref",
    b"word-set!",
    b"address+",
    b"address-difference",
    b"address=",
    b"address<",
];

/// The name for record types.
pub(crate) const RECORDS: &[&[u8]] = &[b"define-record-type"];

/// The built-in structure of this name.
pub(crate) fn built_in(name: &[u8]) -> Option<Opened>
    ensures { result ≡ built_in name.now }
{
    if name == b"prescheme".as_slice() {
        Some(Opened::Prescheme)
    } else if name == b"ps-memory".as_slice() {
        Some(Opened::Memory)
    } else if name == b"ps-record-types".as_slice() {
        Some(Opened::Records)
    } else {
        None
    }
}
