//! Laws of the rows. Each is the contract of a function that does nothing.

ghost use Rattle.ps_prims.specs.Counting.{AskedIsGained, UndefinedAsksNone, WrongAsksNone};
ghost use Rattle.ps_prims.specs.Division.{DivisionsAreRounded, DivisionsAreUndefined};
ghost use Rattle.ps_prims.specs.Mapping.{RowsAreNatural, SeenAlike};
ghost use Rattle.ps_prims.specs.Shifting.{ShiftsAreUndefined, ShiftsRoundDown};
ghost use Rattle.ps_prims.specs.Sorts.{Values};
ghost use Rattle.ps_prims.specs.TwosComplement.{BitsAreCombined, BitsAreMoved, BitsAreTurned, BitsMakeTheInteger, BitsTellTheInteger, IntegersHaveTheirBits};

/// For all integers of 64 bits whose quotient has 64 bits, `quotient` answers it rounded toward zero, `remainder` what is left,
/// with the sign of the dividend, and `modulo` what is left with the sign of the divisor (R5RS 6.2.5). Where the divisor is
/// 0, or the least integer is divided by -1, all three are undefined with the cause Division.
pub fn divisions_are_rounded()
    ensures rounded { DivisionsAreRounded }
    ensures undefined { DivisionsAreUndefined }
{}

/// For every integer and count from 0 to 63, `arithmetic-shift-right` answers the greatest integer that is not above the
/// quotient by that power of 2. For every other count it, `shift-left` and `logical-shift-right` are undefined with the cause
/// Shift.
pub fn shifts_round_down()
    ensures rounded { ShiftsRoundDown }
    ensures undefined { ShiftsAreUndefined }
{}

/// Two's complement of 64 bits (C99 6.2.6.2): each integer from -2^63 to 2^63 - 1 is the sum of what its bits are worth, where
/// bit 63 is worth -2^63; no two such integers have the same 64 bits; and any 64 bits are those of such an integer.
pub fn integers_have_their_bits()
    ensures made { BitsMakeTheInteger }
    ensures told { BitsTellTheInteger }
    ensures had { IntegersHaveTheirBits }
{}

/// For all integers of 64 bits, `bitwise-and`, `bitwise-ior` and `bitwise-xor` answer the integer whose bits are made of the two
/// bits at the same place, and `bitwise-not` that whose bits are the others.
pub fn bits_are_combined()
    ensures combined { BitsAreCombined }
    ensures turned { BitsAreTurned }
{}

/// For every integer of 64 bits and every count from 0 to 63: `shift-left` answers the integer whose bits are those of its
/// operand so many places up, with no bit set below them, which differs from the operand times that power of 2 by a multiple
/// of 2^64; `arithmetic-shift-right` and `logical-shift-right` answer that whose bits are so many places down, where copies of
/// bit 63 come in, and where no set bit does.
pub fn bits_are_moved()
    ensures { BitsAreMoved }
{}

/// For all values, kinds of records, primitives and scenes: where a primitive is performed, at a stage to which it belongs, the
/// cells that it asks for are those that the memory gains. Where it is undefined or wrong it asks for none.
pub fn cells_are_counted<V>()
    ensures gained { AskedIsGained V }
    ensures undefined { UndefinedAsksNone V }
    ensures wrong { WrongAsksNone V }
{}

/// For every map of values to others that are seen alike: a primitive does on the others, in a memory whose cells hold them,
/// what it does on the values, and asks for as many cells.
pub fn rows_are_natural<A, B>()
    ensures { (f : A → B) (values : Values A) (others : Values B) → SeenAlike f values others → RowsAreNatural f values others }
{}
