//! The limits of a run of the compiler.

ghost use Rattle.std.specs.Prelude.{◌≡◌};
ghost use Rattle.ps_base.specs.Limits.{standard_limits};

/// How much a run of the compiler may take. Each limit is reached without a fault; one more is the fault.
#[derive(Clone, Copy, Debug, PartialEq, Eq)]
pub struct Limits {
    /// Bytes of one text.
    pub text_bytes: u64,
    /// Bytes of the input and of all fetched files together.
    pub all_bytes: u64,
    /// Transcriptions of macros.
    pub transcriptions: u64,
    /// Nodes of all transcribed forms together.
    pub transcribed: u64,
    /// Nodes of the kernel, which is what the program is after expansion.
    pub nodes: u64,
    /// Depth of the kernel, of a quoted datum, and of a transcribed form.
    pub depth: u64,
    /// Calls at compile time.
    pub budget: u64,
    /// Cells that are made at compile time.
    pub cells: u64,
    /// Specialised procedures.
    pub keys: u64,
    /// Substitutions of a procedure's body for its call that are nested at one place.
    pub nested: u64,
    /// Parameters of one specialised procedure.
    pub leaves: u64,
    /// The sum of the sizes of the specialised procedures that each root reaches.
    pub code: u64,
}

impl Limits {
    /// The limits that the program runs with.
    pub fn standard() -> Limits
        ensures { result ≡ standard_limits }
    {
        Limits {
            text_bytes: 4_194_304,
            all_bytes: 16_777_216,
            transcriptions: 100_000,
            transcribed: 10_000_000,
            nodes: 1_000_000,
            depth: 1_000,
            budget: 1_000_000,
            cells: 16_000_000,
            keys: 4_096,
            nested: 200,
            leaves: 127,
            code: 2_000_000,
        }
    }
}
