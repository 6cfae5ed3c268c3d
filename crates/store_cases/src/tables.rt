//! The words of cases.

use ps_base::Prim;

/// What a word stands for in a table.
pub fn found<T: Copy>(table: &[(&[u8], T)], word: &[u8]) -> Option<T> {
    for (text, meaning) in table {
        if *text == word {
            return Some(*meaning);
        }
    }
    None
}

/// The primitives, by their names in the language, and those of the records of two kinds.
pub const PRIMS: &[(&[u8], Prim)] = &[
    (b"+", Prim::Add),
    (b"-", Prim::Subtract),
    (b"*", Prim::Multiply),
    (b"quotient", Prim::Quotient),
    (b"remainder", Prim::Remainder),
    (b"modulo", Prim::Modulo),
    (b"=", Prim::Equal),
    (b"<", Prim::Less),
    (b">", Prim::Greater),
    (b"<=", Prim::LessOrEqual),
    (b">=", Prim::GreaterOrEqual),
    (b"zero?", Prim::IsZero),
    (b"positive?", Prim::IsPositive),
    (b"negative?", Prim::IsNegative),
    (b"bitwise-and", Prim::BitwiseAnd),
    (b"bitwise-ior", Prim::BitwiseOr),
    (b"bitwise-xor", Prim::BitwiseXor),
    (b"bitwise-not", Prim::BitwiseNot),
    (b"shift-left", Prim::ShiftLeft),
    (b"arithmetic-shift-right", Prim::ArithmeticShiftRight),
    (b"logical-shift-right", Prim::LogicalShiftRight),
    (b"not", Prim::Not),
    (b"boolean=?", Prim::BooleanEqual),
    (b"char=?", Prim::CharEqual),
    (b"char<?", Prim::CharLess),
    (b"char->ascii", Prim::CharToAscii),
    (b"ascii->char", Prim::AsciiToChar),
    (b"unspecific", Prim::Unspecific),
    (b"string-length", Prim::StringLength),
    (b"string-ref", Prim::StringRef),
    (b"make-vector", Prim::MakeVector),
    (b"vector-ref", Prim::VectorRef),
    (b"vector-set!", Prim::VectorSet),
    (b"null-vector?", Prim::IsNullVector),
    (b"deallocate-vector", Prim::DeallocateVector),
    (b"read-byte", Prim::ReadByte),
    (b"write-byte", Prim::WriteByte),
    (b"null-address", Prim::NullAddress),
    (b"null-address?", Prim::IsNullAddress),
    (b"allocate-memory", Prim::AllocateMemory),
    (b"deallocate-memory", Prim::DeallocateMemory),
    (b"unsigned-byte-ref", Prim::UnsignedByteRef),
    (b"unsigned-byte-set!", Prim::UnsignedByteSet),
    (b"word-ref", Prim::WordRef),
    (b"word-set!", Prim::WordSet),
    (b"address+", Prim::AddressAdd),
    (b"address-difference", Prim::AddressDifference),
    (b"address=", Prim::AddressEqual),
    (b"address<", Prim::AddressLess),
    (b"string-append", Prim::StringAppend),
    (b"string=?", Prim::StringEqual),
    (b"vector-length", Prim::VectorLength),
    (b"make-node", Prim::Maker(0)),
    (b"node?", Prim::Predicate(0)),
    (b"node-0", Prim::Accessor(0, 0)),
    (b"node-1", Prim::Accessor(0, 1)),
    (b"node-2", Prim::Accessor(0, 2)),
    (b"node-3", Prim::Accessor(0, 3)),
    (b"set-node-1!", Prim::Modifier(0, 1)),
    (b"set-node-3!", Prim::Modifier(0, 3)),
    (b"make-leaf", Prim::Maker(1)),
    (b"leaf?", Prim::Predicate(1)),
    (b"leaf-0", Prim::Accessor(1, 0)),
    (b"leaf-1", Prim::Accessor(1, 1)),
    (b"leaf-2", Prim::Accessor(1, 2)),
    (b"leaf-3", Prim::Accessor(1, 3)),
    (b"set-leaf-0!", Prim::Modifier(1, 0)),
    (b"set-leaf-3!", Prim::Modifier(1, 3)),
];
