//! The limits of the language.

/// The most parameters of a program.
pub const MAX_PARAMS: usize = 8;

/// The most variables of a program, parameters included.
pub const MAX_VARS: usize = 64;

/// The most statements of a program, each one inside another counted too, `main`'s own block not.
pub const MAX_STMTS: usize = 1_000;

/// The greatest bound on the turns of a run.
pub const MAX_TURNS: u32 = 256;

/// The most bytes of a name.
pub const MAX_NAME: usize = 63;

/// The most bytes of a file.
pub const MAX_FILE: usize = 65_536;

/// The most constructs that are open at once.
pub const MAX_OPEN: u32 = 100;

/// The most operators of one expression.
pub const MAX_OPERATORS: u32 = 256;
