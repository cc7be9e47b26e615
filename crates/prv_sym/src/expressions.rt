//! Expressions as nodes over what the variables have.
ghost use Rattle.std.specs.Prelude.{◌≡◌, [], ◌∷◌, pos, IfOk, slice_get, unwrap_or};
ghost use Rattle.prv_model.specs.declared.term.Term.TheVariants.{Num};
ghost use Rattle.prv_sym.specs.Calls.{Names, StandsFor, AreSlots, terms_of, variable_term};
ghost use Rattle.prv_sym.specs.Named.{named};
ghost use Rattle.prv_sym.specs.Symbols.{symbol as symbol_of};

use crate::operators::{binary, pick, unary};
use crate::symbol_nodes::{Slot, SymbolNodes};
use prv_model::Expr;
use prv_pool::{Pool, PoolError};
use sqlite_items::at;

/// The nodes of an expression, where each variable has what its slot says.
pub fn symbol(expr: &Expr, slots: &[Slot], pool: &mut Pool) -> Result<SymbolNodes, PoolError>
    requires { AreSlots pool.old.terms slots.now }
    ensures value { IfOk result (λ n. StandsFor pool.new.terms n.value (symbol_of expr.now (terms_of pool.old.terms slots.now)).term) }
    ensures safe { IfOk result (λ n. StandsFor pool.new.terms n.safe (symbol_of expr.now (terms_of pool.old.terms slots.now)).safe) }
    ensures names { Names (named expr.now (terms_of pool.old.terms slots.now)) pool.old pool.new result }
{
    match expr {
        Expr::Num(n) => number(*n, pool),
        Expr::Var(v) => read(slots, *v, pool),
        Expr::Un(op, a) => {
            let x = symbol(a.get(), slots, pool)?;
            unary(*op, x, pool)
        }
        Expr::Bin(op, a, b) => {
            let x = symbol(a.get(), slots, pool)?;
            let y = symbol(b.get(), slots, pool)?;
            binary(*op, x, y, pool)
        }
        Expr::Pick(test, chosen, other) => {
            let c = symbol(test.get(), slots, pool)?;
            let x = symbol(chosen.get(), slots, pool)?;
            let y = symbol(other.get(), slots, pool)?;
            pick(c, x, y, pool)
        }
    }
}

/// The nodes of a number.
fn number(n: i32, pool: &mut Pool) -> Result<SymbolNodes, PoolError>
    ensures value { IfOk result (λ nodes. StandsFor pool.new.terms nodes.value (Num n)) }
    ensures safe { IfOk result (λ nodes. StandsFor pool.new.terms nodes.safe (Num (pos 1))) }
    ensures names { Names (Num n ∷ Num (pos 1) ∷ []) pool.old pool.new result }
{
    let value = pool.num(n)?;
    let safe = pool.num(1)?;
    Ok(SymbolNodes { value, safe })
}

/// The nodes of a variable.
fn read(slots: &[Slot], var: u8, pool: &mut Pool) -> Result<SymbolNodes, PoolError>
    requires { AreSlots pool.old.terms slots.now }
    ensures value { IfOk result (λ n. StandsFor pool.new.terms n.value (variable_term (terms_of pool.old.terms slots.now) var)) }
    ensures safe { IfOk result (λ n. StandsFor pool.new.terms n.safe (Num (pos 1))) }
    ensures names { Names (variable_term (terms_of pool.old.terms slots.now) var ∷ Num (pos 1) ∷ []) pool.old pool.new result }
{
    let value = variable(slots, var, pool)?;
    let safe = pool.num(1)?;
    Ok(SymbolNodes { value, safe })
}

/// The node of a variable's term.
fn variable(slots: &[Slot], var: u8, pool: &mut Pool) -> Result<u32, PoolError>
    requires { AreSlots pool.old.terms slots.now }
    ensures stands { IfOk result (λ n. StandsFor pool.new.terms n (variable_term (terms_of pool.old.terms slots.now) var)) }
    ensures names { Names (variable_term (terms_of pool.old.terms slots.now) var ∷ []) pool.old pool.new result }
{
    match slot(slots, var) {
        Slot::Param(k) => pool.param(k),
        Slot::Zero => pool.num(0),
        Slot::Node(n) => Ok(n),
    }
}

/// What a variable has.
fn slot(slots: &[Slot], var: u8) -> Slot
    ensures { result ≡ unwrap_or (slice_get slots.now var) Slot.Zero }
{
    at(slots, var as usize).copied().unwrap_or(Slot::Zero)
}
