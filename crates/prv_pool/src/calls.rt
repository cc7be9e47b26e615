//! The calls that make terms.
ghost use Rattle.std.specs.Prelude.{◌≡◌, ◌<◌, length};
ghost use Rattle.prv_model.specs.declared.term.Term.TheVariants.{Param, Num};
ghost use Rattle.prv_pool.specs.Folding.{folded, folded_pick, negation, truth};
ghost use Rattle.prv_pool.specs.Tables.{Makes, term_at};

use crate::error::PoolError;
use crate::node::Node;
use crate::pool::Pool;
use prv_model::TermOp;

impl Pool {
    /// The node of a parameter.
    pub fn param(&mut self, k: u8) -> Result<u32, PoolError>
        ensures { Makes (Param k) self.old self.new result }
    {
        self.intern(Node::Param(k))
    }

    /// The node of a number.
    pub fn num(&mut self, n: i32) -> Result<u32, PoolError>
        ensures { Makes (Num n) self.old self.new result }
    {
        self.intern(Node::Num(n))
    }

    /// The node of an operator on two nodes, folded.
    pub fn op(&mut self, op: TermOp, a: u32, b: u32) -> Result<u32, PoolError>
        requires first { a < length self.old.terms }
        requires second { b < length self.old.terms }
        ensures { Makes (folded op (term_at self.old.terms a) (term_at self.old.terms b)) self.old self.new result }
    {
        let answer = self.fold(op, a, b);
        self.make(answer)
    }

    /// The node of the choice of `a` where `c` is nonzero, else of `b`, folded.
    pub fn pick(&mut self, c: u32, a: u32, b: u32) -> Result<u32, PoolError>
        requires test { c < length self.old.terms }
        requires chosen { a < length self.old.terms }
        requires other { b < length self.old.terms }
        ensures { Makes (folded_pick (term_at self.old.terms c) (term_at self.old.terms a) (term_at self.old.terms b)) self.old self.new result }
    {
        let answer = self.fold_pick(c, a, b);
        self.make(answer)
    }

    /// The node of the negation: 1 where `a` is 0, else 0.
    pub fn not(&mut self, a: u32) -> Result<u32, PoolError>
        requires { a < length self.old.terms }
        ensures { Makes (negation (term_at self.old.terms a)) self.old self.new result }
    {
        let answer = self.negate(a);
        self.make(answer)
    }

    /// The node of the truth: `a` itself where it is truth-shaped, else 1 where `a` is nonzero and 0 elsewhere.
    pub fn truth(&mut self, a: u32) -> Result<u32, PoolError>
        requires { a < length self.old.terms }
        ensures { Makes (truth (term_at self.old.terms a)) self.old self.new result }
    {
        let answer = self.fold_truth(a);
        self.make(answer)
    }
}
