//! The equality of two slices.
ghost use Rattle.std.specs.Prelude.{◌≡◌, ◌<◌, nat_eq, ◌&&◌, [], ◌∷◌, IfOk, length, pos};
ghost use Rattle.prv_model.specs.Comparison.{ending_eq};
ghost use Rattle.prv_pool.specs.Folding.{folded};
ghost use Rattle.prv_pool.specs.Tables.{term_at};
ghost use Rattle.prv_model.specs.declared.op.TermOp.TheVariants.{And, Eq};
ghost use Rattle.prv_model.specs.declared.term.Term.TheVariants as term;
ghost use Rattle.prv_sym.specs.Calls.{Names, StandsFor};
ghost use Rattle.prv_general.specs.Answers.{IsSlice, terms_at};
ghost use Rattle.prv_general.specs.Slices as slices;
ghost use Rattle.prv_part.specs.Literals.{equality as equality_of, equality_named, all_equal as all_equal_of, all_equal_named};
ghost use Rattle.prv_settle.specs.Making.{AreNodes};

use prv_general::Slice;
use prv_model::TermOp;
use prv_pool::{Pool, PoolError};

/// The node of the equality of two slices: nonzero where both put out the same, and 0 where they can't.
pub(crate) fn equality(before: &Slice, after: &Slice, pool: &mut Pool) -> Result<u32, PoolError>
    requires { (a b : slices.Slice) × IsSlice pool.old.terms before.now a × IsSlice pool.old.terms after.now b }
    ensures stands { (a b : slices.Slice) → IsSlice pool.old.terms before.now a → IsSlice pool.old.terms after.now b →
        IfOk result (λ n. StandsFor pool.new.terms n (equality_of a b)) }
    ensures names { (a b : slices.Slice) → IsSlice pool.old.terms before.now a → IsSlice pool.old.terms after.now b →
        Names (equality_named a b) pool.old pool.new result }
{
    if are_comparable(before, after) {
        all_equal(before.outs.as_slice(), after.outs.as_slice(), pool)
    } else {
        pool.num(0)
    }
}

/// Whether two slices end alike and put out equally many words.
fn are_comparable(before: &Slice, after: &Slice) -> bool
    ensures { result ≡ (ending_eq before.now.how after.now.how && nat_eq (length before.now.outs) (length after.now.outs)) }
{
    before.how == after.how && before.outs.len() == after.outs.len()
}

/// The node that says that terms are equal, pair by pair.
fn all_equal(before: &[u32], after: &[u32], pool: &mut Pool) -> Result<u32, PoolError>
    requires same { length before.now ≡ length after.now }
    requires before { AreNodes pool.old.terms before.now }
    requires after { AreNodes pool.old.terms after.now }
    ensures stands { IfOk result (λ n. StandsFor pool.new.terms n (all_equal_of (term.Num (pos 1)) (terms_at pool.old.terms before.now) (terms_at pool.old.terms after.now))) }
    ensures names { Names (term.Num (pos 1) ∷ all_equal_named (term.Num (pos 1)) (terms_at pool.old.terms before.now) (terms_at pool.old.terms after.now)) pool.old pool.new result }
{
    let mut made = pool.num(1)?;
    for k in 0..before.len() {
        made = one_more(made, before[k], after[k], pool)?;
    }
    Ok(made)
}

/// A term joined with the equality of two terms.
fn one_more(made: u32, before: u32, after: u32, pool: &mut Pool) -> Result<u32, PoolError>
    requires made { made < length pool.old.terms }
    requires before { before < length pool.old.terms }
    requires after { after < length pool.old.terms }
    ensures stands { IfOk result (λ n. StandsFor pool.new.terms n (folded And (term_at pool.old.terms made) (folded Eq (term_at pool.old.terms before) (term_at pool.old.terms after)))) }
    ensures names { let same = folded Eq (term_at pool.old.terms before) (term_at pool.old.terms after) in
        Names (same ∷ folded And (term_at pool.old.terms made) same ∷ []) pool.old pool.new result }
{
    let same = pool.op(TermOp::Eq, before, after)?;
    pool.op(TermOp::And, made, same)
}
