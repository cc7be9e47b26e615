//! Programs and pairs of versions. Both types keep their limits and that each variable is one of their own, so
//! whoever is handed one runs it without a test.
ghost use Rattle.std.specs.Prelude.{◌≡◌, ◌↔◌, IsTrue, IsSome, IfSome};
ghost use Rattle.std.proofs.Props.{props};
ghost use Rattle.prv_model.specs.Programs.{IsProgram, IsPair};

use crate::name::Name;
use crate::same::same_program;
use crate::stmt::Stmt;
use crate::wellformed::is_program;
use sqlite_items::Items;

/// A program: its variables, by their declarations with the parameters first, and the body of `main`.
///
/// It has 1 to 8 parameters, at most 64 variables with them and at most 1,000 statements, and each
/// variable in it is one of its own.
#[derive(Debug, Drop)]
pub struct Program {
    /// How many of the variables are parameters, which come first: 1 to 8.
    pub params: u8,
    /// The variables' names, by their numbers.
    pub names: Items<Name>,
    /// The statements of `main`.
    pub body: Items<Stmt>,
    pub ghost kept: { IsProgram params names body } by { Prim.hlevel props },
}

impl Program {
    /// The program of these parameters, names and statements; none exactly where they make none: where a
    /// limit is passed, no parameter is there, or a variable is none of the names.
    pub fn new(params: u8, names: Items<Name>, body: Items<Stmt>) -> Option<Program>
        ensures some { IsSome result ↔ IsProgram params names body }
        ensures program { IfSome result (λ p. (p.params ≡ params) × (p.names ≡ names) × (p.body ≡ body)) }
    {
        if is_program(params, names.as_slice(), body.as_slice()) {
            Some(Program {
                params,
                names,
                body,
            })
        } else {
            None
        }
    }
}

/// Two versions of one program, and the bound on the turns of each run.
///
/// Both have the same number of parameters, and the bound is 1 to 256.
#[derive(Debug, Drop)]
pub struct Pair {
    /// The version as it was.
    pub before: Program,
    /// The version as it is.
    pub after: Program,
    /// The most turns that the loops of one run take together: 1 to 256.
    pub turns: u32,
    pub ghost kept: { IsPair before.params after.params turns } by { Prim.hlevel props },
}

impl Pair {
    /// Whether both are one pair: the programs with the names of their variables, and the turns.
    pub fn same(&self, other: &Pair) -> bool
        ensures { IsTrue result ↔ (self.now ≡ other.now) }
    {
        self.turns == other.turns
            && same_program(&self.before, &other.before)
            && same_program(&self.after, &other.after)
    }
}
