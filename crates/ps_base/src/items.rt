//! Lists and boxes that contracts see as what they hold, so that a tree of them is plain data.

pub use sqlite_items::{Boxed, Items};

/// A list of bytes.
pub type Bytes = Items<u8>;

/// A list of yes or no.
pub type Flags = Items<bool>;

/// A list of numbers of 32 bits.
pub type Numbers = Items<u32>;

/// A list of integers of 64 bits.
pub type Numbers64 = Items<i64>;

/// Numbers of transcriptions, the latest first.
pub type Stamps = Items<u64>;

/// Numbers of calls, counted from 0.
pub type Calls = Items<u64>;
