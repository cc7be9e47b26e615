//! Operators of the language as operators of terms, each with where it is safe: divisors and shifts that fault.
ghost use Rattle.std.specs.Prelude.{◌≡◌, ◌<◌, ◌++◌, length, IfOk};
ghost use Rattle.prv_pool.specs.Folding.{folded, folded_pick, truth as truth_of};
ghost use Rattle.prv_pool.specs.Tables.{term_at};
ghost use Rattle.prv_sym.specs.Calls.{Names, StandsFor, AreIn, symbol_at};
ghost use Rattle.prv_sym.specs.Named.{unary_named, join_named, class_named, safe_where_true, safe_where_false, true_named, false_named, chosen_safe, chosen_named, division_named, safety_named, pick_named};
ghost use Rattle.prv_sym.specs.Symbols.{class_of, unary_term, class_term, class_safe, pick_safe};

use crate::symbol_nodes::SymbolNodes;
use prv_model::{BinOp, TermOp, UnOp};
use prv_pool::{Pool, PoolError};

/// How an operator on two operands makes its term.
#[derive(Clone, Copy)]
pub enum Class {
    /// Of its operands.
    Plain(TermOp),
    /// Of its operands exchanged.
    Exchanged(TermOp),
    /// Of its operands, by a division.
    Divides(TermOp),
    /// Of the truths of its operands, the second one evaluated where the first holds.
    WhereTrue,
    /// Of the truths of its operands, the second one evaluated where the first fails.
    WhereFalse,
}

/// How an operator makes its term.
fn classify(op: BinOp) -> Class
    ensures { result ≡ class_of op }
{
    match op {
        BinOp::Add => Class::Plain(TermOp::Add),
        BinOp::Sub => Class::Plain(TermOp::Sub),
        BinOp::Mul => Class::Plain(TermOp::Mul),
        BinOp::Div => Class::Divides(TermOp::Div),
        BinOp::Rem => Class::Divides(TermOp::Rem),
        BinOp::Shl => Class::Plain(TermOp::Shl),
        BinOp::Shr => Class::Plain(TermOp::Shr),
        BinOp::And => Class::Plain(TermOp::And),
        BinOp::Or => Class::Plain(TermOp::Or),
        BinOp::Xor => Class::Plain(TermOp::Xor),
        BinOp::Lt => Class::Plain(TermOp::Lt),
        BinOp::Le => Class::Plain(TermOp::Le),
        BinOp::Gt => Class::Exchanged(TermOp::Lt),
        BinOp::Ge => Class::Exchanged(TermOp::Le),
        BinOp::Eq => Class::Plain(TermOp::Eq),
        BinOp::Ne => Class::Plain(TermOp::Ne),
        BinOp::AndAlso => Class::WhereTrue,
        BinOp::OrElse => Class::WhereFalse,
    }
}

/// The nodes of an operator on one operand.
pub fn unary(op: UnOp, x: SymbolNodes, pool: &mut Pool) -> Result<SymbolNodes, PoolError>
    requires { AreIn pool.old.terms x }
    ensures value { IfOk result (λ n. StandsFor pool.new.terms n.value (unary_term op (term_at pool.old.terms x.value))) }
    ensures safe { IfOk result (λ n. StandsFor pool.new.terms n.safe (term_at pool.old.terms x.safe)) }
    ensures names { Names (unary_named op (term_at pool.old.terms x.value)) pool.old pool.new result }
{
    let value = unary_value(op, x.value, pool)?;
    Ok(SymbolNodes {
        value,
        safe: x.safe,
    })
}

/// The node of an operator on one node.
fn unary_value(op: UnOp, a: u32, pool: &mut Pool) -> Result<u32, PoolError>
    requires { a < length pool.old.terms }
    ensures stands { IfOk result (λ n. StandsFor pool.new.terms n (unary_term op (term_at pool.old.terms a))) }
    ensures names { Names (unary_named op (term_at pool.old.terms a)) pool.old pool.new result }
{
    match op {
        UnOp::Neg => negate(a, pool),
        UnOp::Not => invert(a, pool),
        UnOp::Flip => flip(a, pool),
    }
}

/// The node of 0 less a node.
fn negate(a: u32, pool: &mut Pool) -> Result<u32, PoolError>
    requires { a < length pool.old.terms }
    ensures stands { IfOk result (λ n. StandsFor pool.new.terms n (unary_term UnOp.Neg (term_at pool.old.terms a))) }
    ensures names { Names (unary_named UnOp.Neg (term_at pool.old.terms a)) pool.old pool.new result }
{
    let zero = pool.num(0)?;
    pool.op(TermOp::Sub, zero, a)
}

/// The node that is 1 where a node is 0, else 0.
fn invert(a: u32, pool: &mut Pool) -> Result<u32, PoolError>
    requires { a < length pool.old.terms }
    ensures stands { IfOk result (λ n. StandsFor pool.new.terms n (unary_term UnOp.Not (term_at pool.old.terms a))) }
    ensures names { Names (unary_named UnOp.Not (term_at pool.old.terms a)) pool.old pool.new result }
{
    let truth = pool.truth(a)?;
    pool.not(truth)
}

/// The node of a node with all bits flipped.
fn flip(a: u32, pool: &mut Pool) -> Result<u32, PoolError>
    requires { a < length pool.old.terms }
    ensures stands { IfOk result (λ n. StandsFor pool.new.terms n (unary_term UnOp.Flip (term_at pool.old.terms a))) }
    ensures names { Names (unary_named UnOp.Flip (term_at pool.old.terms a)) pool.old pool.new result }
{
    let ones = pool.num(-1)?;
    pool.op(TermOp::Xor, a, ones)
}

/// The nodes of an operator on two operands.
pub fn binary(
    op: BinOp,
    x: SymbolNodes,
    y: SymbolNodes,
    pool: &mut Pool,
) -> Result<SymbolNodes, PoolError>
    requires first { AreIn pool.old.terms x }
    requires second { AreIn pool.old.terms y }
    ensures value { IfOk result (λ n. StandsFor pool.new.terms n.value (class_term (class_of op) (term_at pool.old.terms x.value) (term_at pool.old.terms y.value))) }
    ensures safe { IfOk result (λ n. StandsFor pool.new.terms n.safe (class_safe (class_of op) (symbol_at pool.old.terms x) (symbol_at pool.old.terms y))) }
    ensures names { Names (class_named (class_of op) (term_at pool.old.terms x.value) (term_at pool.old.terms y.value) ++ safety_named (class_of op) (symbol_at pool.old.terms x) (symbol_at pool.old.terms y)) pool.old pool.new result }
{
    let class = classify(op);
    let value = binary_value(class, x.value, y.value, pool)?;
    let safe = binary_safe(class, x, y, pool)?;
    Ok(SymbolNodes { value, safe })
}

/// The node of an operator on two nodes.
fn binary_value(class: Class, a: u32, b: u32, pool: &mut Pool) -> Result<u32, PoolError>
    requires first { a < length pool.old.terms }
    requires second { b < length pool.old.terms }
    ensures stands { IfOk result (λ n. StandsFor pool.new.terms n (class_term class (term_at pool.old.terms a) (term_at pool.old.terms b))) }
    ensures names { Names (class_named class (term_at pool.old.terms a) (term_at pool.old.terms b)) pool.old pool.new result }
{
    match class {
        Class::Plain(op) => pool.op(op, a, b),
        Class::Exchanged(op) => pool.op(op, b, a),
        Class::Divides(op) => pool.op(op, a, b),
        Class::WhereTrue => join(TermOp::And, a, b, pool),
        Class::WhereFalse => join(TermOp::Or, a, b, pool),
    }
}

/// The node that joins the truths of two nodes.
fn join(op: TermOp, a: u32, b: u32, pool: &mut Pool) -> Result<u32, PoolError>
    requires first { a < length pool.old.terms }
    requires second { b < length pool.old.terms }
    ensures stands { IfOk result (λ n. StandsFor pool.new.terms n (folded op (truth_of (term_at pool.old.terms a)) (truth_of (term_at pool.old.terms b)))) }
    ensures names { Names (join_named op (term_at pool.old.terms a) (term_at pool.old.terms b)) pool.old pool.new result }
{
    let first = pool.truth(a)?;
    let second = pool.truth(b)?;
    pool.op(op, first, second)
}

/// The node of the safety of an operator on two operands.
fn binary_safe(
    class: Class,
    x: SymbolNodes,
    y: SymbolNodes,
    pool: &mut Pool,
) -> Result<u32, PoolError>
    requires first { AreIn pool.old.terms x }
    requires second { AreIn pool.old.terms y }
    ensures stands { IfOk result (λ n. StandsFor pool.new.terms n (class_safe class (symbol_at pool.old.terms x) (symbol_at pool.old.terms y))) }
    ensures names { Names (safety_named class (symbol_at pool.old.terms x) (symbol_at pool.old.terms y)) pool.old pool.new result }
{
    match class {
        Class::Plain(_) => pool.op(TermOp::And, x.safe, y.safe),
        Class::Exchanged(_) => pool.op(TermOp::And, x.safe, y.safe),
        Class::Divides(_) => division_safe(x, y, pool),
        Class::WhereTrue => also_safe(x, y, pool),
        Class::WhereFalse => else_safe(x, y, pool),
    }
}

/// The node of the safety of a division.
fn division_safe(x: SymbolNodes, y: SymbolNodes, pool: &mut Pool) -> Result<u32, PoolError>
    requires first { AreIn pool.old.terms x }
    requires second { AreIn pool.old.terms y }
    ensures stands { (op : TermOp) → IfOk result (λ n. StandsFor pool.new.terms n (class_safe (Class.Divides op) (symbol_at pool.old.terms x) (symbol_at pool.old.terms y))) }
    ensures names { Names (division_named (symbol_at pool.old.terms x) (symbol_at pool.old.terms y)) pool.old pool.new result }
{
    let both = pool.op(TermOp::And, x.safe, y.safe)?;
    let zero = pool.num(0)?;
    let divides = pool.op(TermOp::Ne, y.value, zero)?;
    pool.op(TermOp::And, both, divides)
}

/// The node of the safety of an operator whose second operand is evaluated where the first one holds.
fn also_safe(x: SymbolNodes, y: SymbolNodes, pool: &mut Pool) -> Result<u32, PoolError>
    requires first { AreIn pool.old.terms x }
    requires second { AreIn pool.old.terms y }
    ensures stands { IfOk result (λ n. StandsFor pool.new.terms n (class_safe Class.WhereTrue (symbol_at pool.old.terms x) (symbol_at pool.old.terms y))) }
    ensures names { Names (safety_named Class.WhereTrue (symbol_at pool.old.terms x) (symbol_at pool.old.terms y)) pool.old pool.new result }
{
    let truth = pool.truth(x.value)?;
    where_true(truth, x.safe, y.safe, pool)
}

/// The node of the safety of an operator whose second operand is evaluated where the first one fails.
fn else_safe(x: SymbolNodes, y: SymbolNodes, pool: &mut Pool) -> Result<u32, PoolError>
    requires first { AreIn pool.old.terms x }
    requires second { AreIn pool.old.terms y }
    ensures stands { IfOk result (λ n. StandsFor pool.new.terms n (class_safe Class.WhereFalse (symbol_at pool.old.terms x) (symbol_at pool.old.terms y))) }
    ensures names { Names (safety_named Class.WhereFalse (symbol_at pool.old.terms x) (symbol_at pool.old.terms y)) pool.old pool.new result }
{
    let truth = pool.truth(x.value)?;
    where_false(truth, x.safe, y.safe, pool)
}

/// The node that both `safe` and, where `truth` holds, `inner` are 1.
fn where_true(truth: u32, safe: u32, inner: u32, pool: &mut Pool) -> Result<u32, PoolError>
    requires test { truth < length pool.old.terms }
    requires first { safe < length pool.old.terms }
    requires second { inner < length pool.old.terms }
    ensures stands { IfOk result (λ n. StandsFor pool.new.terms n (safe_where_true (term_at pool.old.terms truth) (term_at pool.old.terms safe) (term_at pool.old.terms inner))) }
    ensures names { Names (true_named (term_at pool.old.terms truth) (term_at pool.old.terms safe) (term_at pool.old.terms inner)) pool.old pool.new result }
{
    let fails = pool.not(truth)?;
    let either = pool.op(TermOp::Or, fails, inner)?;
    pool.op(TermOp::And, safe, either)
}

/// The node that both `safe` and, where `truth` fails, `inner` are 1.
fn where_false(truth: u32, safe: u32, inner: u32, pool: &mut Pool) -> Result<u32, PoolError>
    requires test { truth < length pool.old.terms }
    requires first { safe < length pool.old.terms }
    requires second { inner < length pool.old.terms }
    ensures stands { IfOk result (λ n. StandsFor pool.new.terms n (safe_where_false (term_at pool.old.terms truth) (term_at pool.old.terms safe) (term_at pool.old.terms inner))) }
    ensures names { Names (false_named (term_at pool.old.terms truth) (term_at pool.old.terms safe) (term_at pool.old.terms inner)) pool.old pool.new result }
{
    let either = pool.op(TermOp::Or, truth, inner)?;
    pool.op(TermOp::And, safe, either)
}

/// The nodes of a choice.
pub fn pick(
    c: SymbolNodes,
    x: SymbolNodes,
    y: SymbolNodes,
    pool: &mut Pool,
) -> Result<SymbolNodes, PoolError>
    requires test { AreIn pool.old.terms c }
    requires chosen { AreIn pool.old.terms x }
    requires other { AreIn pool.old.terms y }
    ensures value { IfOk result (λ n. StandsFor pool.new.terms n.value (folded_pick (truth_of (term_at pool.old.terms c.value)) (term_at pool.old.terms x.value) (term_at pool.old.terms y.value))) }
    ensures safe { IfOk result (λ n. StandsFor pool.new.terms n.safe (pick_safe (symbol_at pool.old.terms c) (symbol_at pool.old.terms x) (symbol_at pool.old.terms y))) }
    ensures names { Names (pick_named (symbol_at pool.old.terms c) (symbol_at pool.old.terms x) (symbol_at pool.old.terms y)) pool.old pool.new result }
{
    let truth = pool.truth(c.value)?;
    let value = pool.pick(truth, x.value, y.value)?;
    let safe = choice_safe(truth, c.safe, x.safe, y.safe, pool)?;
    Ok(SymbolNodes { value, safe })
}

/// The node that `safe` is 1 and, where `truth` holds, `chosen`, and where it fails, `other`.
fn choice_safe(
    truth: u32,
    safe: u32,
    chosen: u32,
    other: u32,
    pool: &mut Pool,
) -> Result<u32, PoolError>
    requires test { truth < length pool.old.terms }
    requires first { safe < length pool.old.terms }
    requires second { chosen < length pool.old.terms }
    requires third { other < length pool.old.terms }
    ensures stands { IfOk result (λ n. StandsFor pool.new.terms n (chosen_safe (term_at pool.old.terms truth) (term_at pool.old.terms safe) (term_at pool.old.terms chosen) (term_at pool.old.terms other))) }
    ensures names { Names (chosen_named (term_at pool.old.terms truth) (term_at pool.old.terms safe) (term_at pool.old.terms chosen) (term_at pool.old.terms other)) pool.old pool.new result }
{
    let first = where_true(truth, safe, chosen, pool)?;
    where_false(truth, first, other, pool)
}
