//! When primitives may be performed.

/// When an expression is evaluated.
#[derive(Clone, Copy, Debug, PartialEq, Eq)]
pub enum Stage {
    /// By the compiler.
    Compile,
    /// By the compiled program.
    Run,
}

/// The stages to which a primitive belongs.
#[derive(Clone, Copy, Debug, PartialEq, Eq)]
pub enum Stages {
    /// Both.
    Both,
    /// Compile time alone.
    CompileOnly,
    /// Run time alone.
    RunOnly,
}
