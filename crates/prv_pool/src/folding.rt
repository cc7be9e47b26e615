//! The rules of folding, on nodes: what term an operator, a choice, a negation or a truth is simplified to
//! before its node is made. None of the rules makes a node, so that a table gets no term but those that are
//! asked for.
ghost use Rattle.std.specs.Prelude.{◌≡◌, ◌<◌, ◌&&◌, length, pos, IfSome, if◌then◌else◌};
ghost use Rattle.std.specs.Option.{option_map};
ghost use Rattle.std.specs.Ordering.{is_gt};
ghost use Rattle.prv_model.specs.TermOrder.{term_cmp, same_term};
ghost use Rattle.prv_pool.specs.Folding.{folded, folded_pick, folded_by, negation, truth, as_number, is_number, is_comparison, is_truth_shaped, exchanges as exchanges_of, are_exchanged as are_exchanged_of, is_neutral as is_neutral_of, decided as decided_of, beside_neutral, beside_decided, twice as twice_of, on_numbers as on_numbers_of, on_one_twice as on_one_twice_of, are_opposite, on_truths as on_truths_of, beside_zero as beside_zero_of, in_order as in_order_of};
ghost use Rattle.prv_pool.specs.Tables.{IsTable, term_at};
ghost use Rattle.prv_model.specs.declared.term.Term.{Term};
ghost use Rattle.prv_model.specs.declared.term.Term.TheVariants.{Op, Num};
ghost use Rattle.prv_pool.specs.Folds.{or_else, folded_term, IsOver};

use crate::folded::Folded;
use crate::node::Node;
use crate::pool::Pool;
use prv_model::{TermOp, total};
use std::cmp::Ordering;

impl Pool {
    /// An operator on two nodes.
    ///
    /// Whether operands are to be exchanged is told by going down both, which takes time on deep terms. An
    /// operator that stands in the table has its operands in their order, so it is looked up before.
    pub(crate) fn fold(&self, op: TermOp, a: u32, b: u32) -> Folded
        requires first { a < length self.now.terms }
        requires second { b < length self.now.terms }
        ensures value { folded_term self.now.terms result ≡ folded op (term_at self.now.terms a) (term_at self.now.terms b) }
        ensures over { IsOver (length self.now.terms) result }
        ensures table { IsTable self.now }
    {
        self.keeps_a_table();
        if let Some(there) = self.find_exchangeable(op, a, b) {
            return Folded::Known(there);
        }
        if let Some(value) = self.on_numbers(op, a, b) {
            return value;
        }
        if self.are_exchanged(op, a, b) {
            self.in_order(op, b, a)
        } else {
            self.in_order(op, a, b)
        }
    }

    /// The node of an operator whose operands may be exchanged, where it stands in the table in either order.
    fn find_exchangeable(&self, op: TermOp, a: u32, b: u32) -> Option<u32>
        requires first { a < length self.now.terms }
        requires second { b < length self.now.terms }
        ensures value { IfSome result (λ n. term_at self.now.terms n ≡ folded op (term_at self.now.terms a) (term_at self.now.terms b)) }
        ensures within { IfSome result (λ n. n < length self.now.terms) }
    {
        if !exchanges(op) {
            return None;
        }
        match self.find(Node::Op(op, a, b)) {
            Some(there) => Some(there),
            None => self.find(Node::Op(op, b, a)),
        }
    }

    /// A choice between two nodes.
    pub(crate) fn fold_pick(&self, c: u32, a: u32, b: u32) -> Folded
        requires test { c < length self.now.terms }
        requires chosen { a < length self.now.terms }
        requires other { b < length self.now.terms }
        ensures value { folded_term self.now.terms result ≡ folded_pick (term_at self.now.terms c) (term_at self.now.terms a) (term_at self.now.terms b) }
        ensures over { IsOver (length self.now.terms) result }
        ensures table { IsTable self.now }
    {
        match self.number(c) {
            Some(n) => Folded::Known(if n == 0 { b } else { a }),
            None => {
                if self.same(a, b) {
                    Folded::Known(a)
                } else {
                    Folded::New(Node::Pick(c, a, b))
                }
            }
        }
    }

    /// The negation of a node.
    pub(crate) fn negate(&self, a: u32) -> Folded
        requires { a < length self.now.terms }
        ensures value { folded_term self.now.terms result ≡ negation (term_at self.now.terms a) }
        ensures over { IsOver (length self.now.terms) result }
        ensures table { IsTable self.now }
    {
        let node = self.node(a);
        if let Some(test) = node.zero_test() {
            return Folded::New(test);
        }
        match node {
            Node::Param(_) => Folded::WithZero(TermOp::Eq, a),
            Node::Num(_) => Folded::Known(a),
            Node::Op(op, x, y) => self.negate_operator(a, op, x, y),
            Node::Pick(_, _, _) => Folded::WithZero(TermOp::Eq, a),
        }
    }

    /// The negation of a node that is an operator on two others.
    fn negate_operator(&self, a: u32, op: TermOp, x: u32, y: u32) -> Folded
        requires node { a < length self.now.terms }
        requires first { x < length self.now.terms }
        requires second { y < length self.now.terms }
        requires is { term_at self.now.terms a ≡ Op op (term_at self.now.terms x) (term_at self.now.terms y) }
        requires table { IsTable self.now }
        ensures value { folded_term self.now.terms result ≡ negation (term_at self.now.terms a) }
        ensures over { IsOver (length self.now.terms) result }
    {
        match op {
            TermOp::Lt => Folded::New(Node::Op(TermOp::Le, y, x)),
            TermOp::Le => Folded::New(Node::Op(TermOp::Lt, y, x)),
            TermOp::Eq => self.unequal_in_order(x, y),
            TermOp::Ne => Folded::New(Node::Op(TermOp::Eq, x, y)),
            _ => Folded::WithZero(TermOp::Eq, a),
        }
    }

    /// `x != y` of the operands of an equation that stands in the table, so that they are in their order.
    fn unequal_in_order(&self, x: u32, y: u32) -> Folded
        requires first { x < length self.now.terms }
        requires second { y < length self.now.terms }
        ensures value { folded_term self.now.terms result
            ≡ (if is_truth_shaped (term_at self.now.terms x) && is_number (pos 0) (term_at self.now.terms y) then term_at self.now.terms x
            else Op TermOp.Ne (term_at self.now.terms x) (term_at self.now.terms y)) }
        ensures over { IsOver (length self.now.terms) result }
    {
        if self.is_truth(x) && self.is_number(0, y) {
            return Folded::Known(x);
        }
        Folded::New(Node::Op(TermOp::Ne, x, y))
    }

    /// The truth of a node.
    pub(crate) fn fold_truth(&self, a: u32) -> Folded
        requires { a < length self.now.terms }
        ensures value { folded_term self.now.terms result ≡ truth (term_at self.now.terms a) }
        ensures over { IsOver (length self.now.terms) result }
        ensures table { IsTable self.now }
    {
        if self.is_truth(a) {
            return Folded::Known(a);
        }
        match self.number(a) {
            Some(_) => Folded::New(Node::Num(1)),
            None => Folded::WithZero(TermOp::Ne, a),
        }
    }

    /// The number that a node is, if it is one.
    fn number(&self, a: u32) -> Option<i32>
        requires { a < length self.now.terms }
        ensures value { result ≡ as_number (term_at self.now.terms a) }
        ensures table { IsTable self.now }
    {
        self.node(a).number()
    }

    fn is_number(&self, n: i32, a: u32) -> bool
        requires { a < length self.now.terms }
        ensures { result ≡ is_number n (term_at self.now.terms a) }
    {
        match self.number(a) {
            Some(k) => n == k,
            None => false,
        }
    }

    fn is_comparison(&self, a: u32) -> bool
        requires { a < length self.now.terms }
        ensures { result ≡ is_comparison (term_at self.now.terms a) }
    {
        self.node(a).is_comparison()
    }

    fn on_numbers(&self, op: TermOp, a: u32, b: u32) -> Option<Folded>
        requires first { a < length self.now.terms }
        requires second { b < length self.now.terms }
        ensures value { option_map (folded_term self.now.terms) result ≡ on_numbers_of op (term_at self.now.terms a) (term_at self.now.terms b) }
        ensures over { IfSome result (IsOver (length self.now.terms)) }
        ensures table { IsTable self.now }
    {
        let m = self.number(a)?;
        let n = self.number(b)?;
        Some(Folded::New(Node::Num(total(op, m, n))))
    }

    /// Whether the operands are to be exchanged.
    fn are_exchanged(&self, op: TermOp, a: u32, b: u32) -> bool
        requires first { a < length self.now.terms }
        requires second { b < length self.now.terms }
        ensures { result ≡ are_exchanged_of op (term_at self.now.terms a) (term_at self.now.terms b) }
    {
        exchanges(op) && self.compare(a, b) == Ordering::Greater
    }

    /// An operator on operands that are not both numbers, in their order.
    fn in_order(&self, op: TermOp, a: u32, b: u32) -> Folded
        requires first { a < length self.now.terms }
        requires second { b < length self.now.terms }
        ensures value { folded_term self.now.terms result ≡ in_order_of negation op (term_at self.now.terms a) (term_at self.now.terms b) }
        ensures over { IsOver (length self.now.terms) result }
    {
        if let Some(answer) = self.beside_number(op, a, b) {
            return answer;
        }
        if let Some(answer) = self.on_one_twice(op, a, b) {
            return answer;
        }
        if let Some(answer) = self.on_truths(op, a, b) {
            return answer;
        }
        if let Some(answer) = self.beside_zero(op, a, b) {
            return answer;
        }
        Folded::New(Node::Op(op, a, b))
    }

    /// An operator with a number behind that is neutral or decides alone.
    fn beside_number(&self, op: TermOp, a: u32, b: u32) -> Option<Folded>
        requires first { a < length self.now.terms }
        requires second { b < length self.now.terms }
        ensures value { option_map (folded_term self.now.terms) result
            ≡ or_else (beside_neutral op (term_at self.now.terms a) (term_at self.now.terms b)) (beside_decided op (term_at self.now.terms b)) }
        ensures over { IfSome result (IsOver (length self.now.terms)) }
    {
        let n = self.number(b)?;
        if is_neutral(op, n) {
            return Some(Folded::Known(a));
        }
        let decided = decided(op, n)?;
        Some(Folded::New(Node::Num(decided)))
    }

    fn on_one_twice(&self, op: TermOp, a: u32, b: u32) -> Option<Folded>
        requires first { a < length self.now.terms }
        requires second { b < length self.now.terms }
        ensures value { option_map (folded_term self.now.terms) result ≡ on_one_twice_of op (term_at self.now.terms a) (term_at self.now.terms b) }
        ensures over { IfSome result (IsOver (length self.now.terms)) }
    {
        if self.same(a, b) {
            self.twice(op, a)
        } else {
            None
        }
    }

    fn on_truths(&self, op: TermOp, a: u32, b: u32) -> Option<Folded>
        requires first { a < length self.now.terms }
        requires second { b < length self.now.terms }
        ensures value { option_map (folded_term self.now.terms) result ≡ on_truths_of negation op (term_at self.now.terms a) (term_at self.now.terms b) }
        ensures over { IfSome result (IsOver (length self.now.terms)) }
    {
        match op {
            TermOp::And => {
                if self.is_truth(a) && self.is_number(1, b) {
                    Some(Folded::Known(a))
                } else if self.are_opposite(a, b) {
                    Some(Folded::New(Node::Num(0)))
                } else {
                    None
                }
            }
            TermOp::Or => {
                if (self.is_truth(a) && self.is_number(1, b)) || self.are_opposite(a, b) {
                    Some(Folded::New(Node::Num(1)))
                } else {
                    None
                }
            }
            _ => None,
        }
    }

    fn beside_zero(&self, op: TermOp, a: u32, b: u32) -> Option<Folded>
        requires first { a < length self.now.terms }
        requires second { b < length self.now.terms }
        ensures value { option_map (folded_term self.now.terms) result ≡ beside_zero_of negation op (term_at self.now.terms a) (term_at self.now.terms b) }
        ensures over { IfSome result (IsOver (length self.now.terms)) }
    {
        match op {
            TermOp::Eq => {
                if self.is_comparison(a) && self.is_number(0, b) {
                    Some(self.negate(a))
                } else {
                    None
                }
            }
            TermOp::Ne => {
                if self.is_truth(a) && self.is_number(0, b) {
                    Some(Folded::Known(a))
                } else {
                    None
                }
            }
            _ => None,
        }
    }

    /// Whether one of two terms is truth-shaped and the other is its negation.
    fn are_opposite(&self, a: u32, b: u32) -> bool
        requires first { a < length self.now.terms }
        requires second { b < length self.now.terms }
        ensures { result ≡ are_opposite negation (term_at self.now.terms a) (term_at self.now.terms b) }
    {
        (self.is_truth(a) && self.stands_for(b, self.negate(a)))
            || (self.is_truth(b) && self.stands_for(a, self.negate(b)))
    }

    /// Whether a node stands for the term of an answer.
    fn stands_for(&self, n: u32, answer: Folded) -> bool
        requires node { n < length self.now.terms }
        requires over { IsOver (length self.now.terms) answer }
        ensures { result ≡ same_term (term_at self.now.terms n) (folded_term self.now.terms answer) }
    {
        match answer {
            Folded::Known(k) => self.same(n, k),
            Folded::New(node) => self.is_node(n, node),
            Folded::WithZero(op, k) => self.is_with_zero(n, op, k),
        }
    }

    /// Whether a node is an operator on another and 0.
    fn is_with_zero(&self, n: u32, op: TermOp, k: u32) -> bool
        requires node { n < length self.now.terms }
        requires operand { k < length self.now.terms }
        ensures { result ≡ same_term (term_at self.now.terms n) (Op op (term_at self.now.terms k) (Num (pos 0))) }
    {
        match self.find(Node::Num(0)) {
            Some(zero) => self.is_node(n, Node::Op(op, k, zero)),
            None => false,
        }
    }

    /// An operator on one operand twice.
    fn twice(&self, op: TermOp, a: u32) -> Option<Folded>
        requires { a < length self.now.terms }
        ensures value { option_map (folded_term self.now.terms) result ≡ twice_of op (term_at self.now.terms a) }
        ensures over { IfSome result (IsOver (length self.now.terms)) }
    {
        match op {
            TermOp::Sub | TermOp::Xor | TermOp::Lt | TermOp::Ne => Some(Folded::New(Node::Num(0))),
            TermOp::Eq | TermOp::Le => Some(Folded::New(Node::Num(1))),
            TermOp::And | TermOp::Or => Some(Folded::Known(a)),
            _ => None,
        }
    }
}

/// Whether an operator's operands may be exchanged.
fn exchanges(op: TermOp) -> bool
    ensures { result ≡ exchanges_of op }
{
    matches!(
        op,
        TermOp::Add | TermOp::Mul | TermOp::And | TermOp::Or | TermOp::Xor | TermOp::Eq | TermOp::Ne
    )
}

/// Whether an operator with this number behind gives its first operand.
fn is_neutral(op: TermOp, n: i32) -> bool
    ensures { result ≡ is_neutral_of op n }
{
    match op {
        TermOp::Add | TermOp::Sub | TermOp::Or | TermOp::Xor => n == 0,
        TermOp::Mul | TermOp::Div => n == 1,
        TermOp::Shl | TermOp::Shr => n.cast_unsigned() % 32 == 0,
        TermOp::And => n == -1,
        _ => false,
    }
}

/// The number that an operator with this number behind always gives.
fn decided(op: TermOp, n: i32) -> Option<i32>
    ensures { option_map Num result ≡ decided_of op n }
{
    match op {
        TermOp::Mul | TermOp::And => if n == 0 { Some(0) } else { None },
        TermOp::Rem => if n == 1 { Some(0) } else { None },
        TermOp::Or => if n == -1 { Some(-1) } else { None },
        _ => None,
    }
}
