//! The formula of a condition.
ghost use Rattle.std.specs.Prelude.{◌≡◌, ◌≢◌, ◌+◌, ◌*◌, ◌<◌, ◌≤◌, ◌^◌, ◌↔◌, ℕ, Err, List, length, map, All, IfOk};
ghost use Rattle.std.specs.List.{AllByRecursion};
ghost use Rattle.prv_model.specs.Terms.{IsTerm};
ghost use Rattle.prv_cnf.specs.Models.{values_of};
ghost use Rattle.prv_pool.specs.Tables.{term_at};
ghost use Rattle.prv_bits.specs.Numbers.{word};
ghost use Rattle.prv_blast.specs.Inputs.{variables, input_at};
ghost use Rattle.prv_blast.specs.declared.error.BlastError.TheVariants.{Clauses, Memory};
ghost use Rattle.prv_blast.specs.Subterms.{subterms, cost as cost_of, param_count as param_count_of};
ghost use Rattle.prv_blast.specs.Orders.{AreWithin, terms_at};
ghost use Rattle.prv_blast.specs.Formulas.{formula, StandsFor, IsWithinCost};

use crate::cost::{cost, param_count};
use crate::encoder::Encoder;
use crate::error::BlastError;
use crate::order::{Order, order_of};
use prv_cnf::Cnf;
use prv_model::Input;
use prv_pool::Pool;
use prv_region::Cond;
use std::alloc::{AllocError, Global};

/// The greatest cost of a condition that has a formula.
pub const MAX_CLAUSES: u64 = 1_500_000;

/// A condition's formula. Its first variables are the bits of an input, 32 for each parameter, the
/// highest bit of parameter 0 first.
#[derive(Debug, Drop)]
pub struct Blasted {
    /// The formula. Its first variables are the bits of the parameters, 32 of each, bit 31 first.
    pub cnf: Cnf,
    /// How many parameters the condition has, from 0 to 8.
    pub params: u8,
}

/// The formula of a condition on at most 8 parameters.
///
/// `Clauses` comes exactly where the condition's cost passes [`MAX_CLAUSES`], and carries the cost.
pub fn blast(alloc: Global, pool: &Pool, cond: &Cond) -> Result<Blasted, BlastError>
    requires nodes { All (λ n. n < length pool.now.terms) cond.now }
    requires few { length cond.now ≤ 2 ^ 49 }
    requires params { All (IsTerm 8) (map (term_at pool.now.terms) cond.now) }
    ensures formula { IfOk result (λ b. b.cnf ≡ formula (map (term_at pool.now.terms) cond.now)) }
    ensures params { IfOk result (λ b. b.params ≡ param_count_of (map (term_at pool.now.terms) cond.now)) }
    ensures stands { IfOk result (λ b. StandsFor b.params b.cnf (map (term_at pool.now.terms) cond.now)) }
    ensures size { IfOk result (λ b. IsWithinCost b.params b.cnf (map (term_at pool.now.terms) cond.now)) }
    ensures costly { result ≢ Err Memory → (count : ℕ) → (result ≡ Err (Clauses count)) ↔ ((MAX_CLAUSES < cost_of (map (term_at pool.now.terms) cond.now)) × (count ≡ cost_of (map (term_at pool.now.terms) cond.now))) }
{
    let roots = cond.roots();
    let order = order_of(alloc, pool, roots)?;
    let count = cost(pool, &order, roots.len());
    if count > MAX_CLAUSES {
        return Err(BlastError::Clauses { count });
    }
    let params = param_count(pool, &order);
    let cnf = encoded(alloc, pool, &order, roots, params)?;
    Ok(Blasted { cnf, params })
}

/// The formula of the literals of a condition on so many parameters, by the order of its subterms.
fn encoded(
    alloc: Global,
    pool: &Pool,
    order: &Order,
    roots: &[u32],
    params: u8,
) -> Result<Cnf, AllocError>
    requires within { AreWithin (length pool.now.terms) order.now }
    requires roots { AreWithin (length pool.now.terms) roots.now }
    requires order { terms_at pool.now.terms order.now ≡ subterms (terms_at pool.now.terms roots.now) }
    requires known { AllByRecursion (IsTerm 8) (terms_at pool.now.terms roots.now) }
    requires cheap { cost_of (terms_at pool.now.terms roots.now) ≤ 1500000 }
    requires params { params ≡ param_count_of (terms_at pool.now.terms roots.now) }
    ensures { IfOk result (λ cnf. cnf ≡ formula (terms_at pool.now.terms roots.now)) }
{
    let _ = pool.len();
    let mut encoder = Encoder::new(alloc, params);
    for root in roots {
        encoder.literal(pool, order, *root)?;
    }
    Ok(encoder.into_cnf())
}

impl Blasted {
    /// The input whose bits are the values of the first variables; a variable past the values is false.
    pub fn input_of(&self, alloc: Global, values: &[bool]) -> Result<Input, AllocError>
        ensures { IfOk result (λ input. input ≡ input_at self.now.params (values_of values.now)) }
    {
        let mut input = Input::new(alloc);
        for k in 0..self.params {
            input.push(word_at(values, k))?;
        }
        Ok(input)
    }
}

/// The word whose bits are the values of a parameter's variables.
fn word_at(values: &[bool], param: u8) -> i32
    ensures { result ≡ word (map (values_of values.now) (variables param)) }
{
    let first = 32 * param as usize + 1;
    let mut number: u32 = 0;
    for i in 0..32 {
        let value = u32::from(value_of(values, first + i));
        number = 2 * number + value;
    }
    number.cast_signed()
}

/// The value of a variable.
fn value_of(values: &[bool], variable: usize) -> bool
    requires { 0 < variable }
    ensures { result ≡ values_of values.now variable }
{
    values.get(variable - 1).copied().unwrap_or(false)
}
