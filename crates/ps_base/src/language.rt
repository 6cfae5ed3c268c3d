//! The names that the language itself gives a meaning.

/// A special form, by its name.
#[derive(Clone, Copy, Debug, PartialEq, Eq)]
pub enum Core {
    /// `define`
    Define,
    /// `define-syntax`
    DefineSyntax,
    /// `define-record-type`
    DefineRecordType,
    /// `lambda`
    Lambda,
    /// `if`
    If,
    /// `let`, also with a name
    Let,
    /// `let*`
    LetStar,
    /// `letrec`
    Letrec,
    /// `begin`
    Begin,
    /// `set!`
    Set,
    /// `quote`
    Quote,
    /// `cond`
    Cond,
    /// `case`
    Case,
    /// `and`
    And,
    /// `or`
    Or,
    /// `do`
    Do,
    /// `goto`
    Goto,
    /// `let-syntax`
    LetSyntax,
    /// `letrec-syntax`
    LetrecSyntax,
}

/// A primitive, by its name, or by the record kind and the field that it is for.
#[derive(Clone, Copy, Debug, PartialEq, Eq)]
pub enum PrimName {
    /// `+` of two operands
    Add,
    /// `-` of two operands
    Subtract,
    /// `*` of two operands
    Multiply,
    /// `quotient`
    Quotient,
    /// `remainder`
    Remainder,
    /// `modulo`
    Modulo,
    /// `=`
    Equal,
    /// `<`
    Less,
    /// `>`
    Greater,
    /// `<=`
    LessOrEqual,
    /// `>=`
    GreaterOrEqual,
    /// `zero?`
    IsZero,
    /// `positive?`
    IsPositive,
    /// `negative?`
    IsNegative,
    /// `bitwise-and`
    BitwiseAnd,
    /// `bitwise-ior`
    BitwiseOr,
    /// `bitwise-xor`
    BitwiseXor,
    /// `bitwise-not`
    BitwiseNot,
    /// `shift-left`
    ShiftLeft,
    /// `arithmetic-shift-right`
    ArithmeticShiftRight,
    /// `logical-shift-right`
    LogicalShiftRight,
    /// `not`
    Not,
    /// `boolean=?`
    BooleanEqual,
    /// `char=?`
    CharEqual,
    /// `char<?`
    CharLess,
    /// `char->ascii`
    CharToAscii,
    /// `ascii->char`
    AsciiToChar,
    /// `unspecific`
    Unspecific,
    /// `string-length`
    StringLength,
    /// `string-ref`
    StringRef,
    /// `make-vector`
    MakeVector,
    /// `vector-ref`
    VectorRef,
    /// `vector-set!`
    VectorSet,
    /// `null-vector?`
    IsNullVector,
    /// `deallocate-vector`
    DeallocateVector,
    /// `read-byte`
    ReadByte,
    /// `write-byte`
    WriteByte,
    /// `null-address`, a constant
    NullAddress,
    /// `null-address?`
    IsNullAddress,
    /// `allocate-memory`
    AllocateMemory,
    /// `deallocate-memory`
    DeallocateMemory,
    /// `unsigned-byte-ref`
    UnsignedByteRef,
    /// `unsigned-byte-set!`
    UnsignedByteSet,
    /// `word-ref`
    WordRef,
    /// `word-set!`
    WordSet,
    /// `address+`
    AddressAdd,
    /// `address-difference`
    AddressDifference,
    /// `address=`
    AddressEqual,
    /// `address<`
    AddressLess,
    /// `string-append` of two operands
    StringAppend,
    /// `string=?`
    StringEqual,
    /// `vector-length`
    VectorLength,
    /// The maker of the record kind of this number
    Maker(u32),
    /// The predicate of this record kind
    Predicate(u32),
    /// The accessor of this record kind and of its field of this number
    Accessor(u32, u32),
    /// The modifier of this record kind and of its field of this number
    Modifier(u32, u32),
}
