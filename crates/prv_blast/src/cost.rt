//! What a condition costs, and how many parameters it has.
ghost use Rattle.std.specs.Prelude.{◌≡◌, ◌+◌, ◌*◌, ◌≤◌, ◌^◌, max, length};
ghost use Rattle.std.specs.List.{AllByRecursion};
ghost use Rattle.prv_model.specs.declared.term.Term.{out-Term};
ghost use Rattle.prv_arith.specs.Costs.{op_cost as op_cost_of};
ghost use Rattle.prv_blast.specs.Subterms.{node_params, costs, most_params};
ghost use Rattle.prv_blast.specs.Orders.{AreWithin, terms_at};
ghost use Rattle.prv_blast.specs.Encoders.{run_cost, run_params};

use crate::order::Order;
use prv_model::TermOp;
use prv_pool::{Node, Pool};

/// The cost of a literal's assertion.
const LITERAL_COST: u64 = 40;

/// The most clauses, and the most variables, of an operator.
fn op_cost(op: TermOp) -> u64
    ensures { result ≡ op_cost_of op }
{
    match op {
        TermOp::Add | TermOp::Sub | TermOp::Lt | TermOp::Le => 500,
        TermOp::Mul => 10_000,
        TermOp::Div | TermOp::Rem => 24_000,
        TermOp::Shl | TermOp::Shr => 700,
        TermOp::And | TermOp::Or | TermOp::Xor => 128,
        TermOp::Eq | TermOp::Ne => 256,
    }
}

/// That of a node.
fn node_cost(node: Node) -> u64
    ensures value { result ≡ run_cost node }
    ensures bound { result ≤ 24000 }
{
    match node {
        Node::Param(_) => 0,
        Node::Num(_) => 0,
        Node::Op(op, _, _) => op_cost(op),
        Node::Pick(_, _, _) => 256,
    }
}

/// The cost of a condition: of each distinct subterm, and of each literal as it is written.
pub(crate) fn cost(pool: &Pool, order: &Order, literals: usize) -> u64
    requires within { AreWithin (length pool.now.terms) order.now }
    requires few { literals ≤ 2 ^ 49 }
    ensures { result ≡ costs (terms_at pool.now.terms order.now) + 40 * literals }
{
    let _ = pool.len();
    let mut sum = 0;
    for place in 0..order.len() {
        let number = order.node(place);
        let node = pool.node(number);
        sum += node_cost(node);
    }
    sum + LITERAL_COST * literals as u64
}

/// The least number that is above each parameter of a condition.
pub(crate) fn param_count(pool: &Pool, order: &Order) -> u8
    requires within { AreWithin (length pool.now.terms) order.now }
    requires few { AllByRecursion (λ t. node_params (out-Term t) ≤ 8) (terms_at pool.now.terms order.now) }
    ensures value { result ≡ most_params (terms_at pool.now.terms order.now) }
    ensures bound { result ≤ 8 }
{
    let mut count = 0;
    for place in 0..order.len() {
        let number = order.node(place);
        let node = pool.node(number);
        count = larger(count, params_of(node));
    }
    count
}

/// How many parameters a node asks for.
fn params_of(node: Node) -> u8
    requires { run_params node ≤ 8 }
    ensures { result ≡ run_params node }
{
    match node {
        Node::Param(k) => k + 1,
        Node::Num(_) => 0,
        Node::Op(_, _, _) => 0,
        Node::Pick(_, _, _) => 0,
    }
}

/// The larger of two numbers.
fn larger(a: u8, b: u8) -> u8
    ensures { result ≡ max a b }
{
    if a < b { b } else { a }
}
