//! The circuit of a condition, subterm by subterm and literal by literal.
ghost use Rattle.std.specs.Prelude.{◌≡◌, ◌+◌, ◌*◌, ◌<◌, ◌≤◌, ◌^◌, [], pos, false, length, map, IfOk, OnOk};
ghost use Rattle.std.specs.List.{AllByRecursion};
ghost use Rattle.prv_bits.specs.Numbers.{bits_of};
ghost use Rattle.prv_gate.specs.Bits.{constant};
ghost use Rattle.prv_gate.specs.declared.bit.Bit.TheVariants.{Lit as Literal};
ghost use Rattle.prv_gate.specs.Circuits.{blank};
ghost use Rattle.prv_gate.specs.Assertions.{asserted};
ghost use Rattle.prv_arith.specs.Lists.{AllBits};
ghost use Rattle.prv_pool.specs.Tables.{term_at};
ghost use Rattle.prv_blast.specs.Inputs.{param_bits};
ghost use Rattle.prv_blast.specs.Encodings.{term_bits, with_terms, with_literal};
ghost use Rattle.prv_blast.specs.Orders.{operands};
ghost use Rattle.prv_blast.specs.Encoders.{encoding_at, bits_at, node_run, HasWord, CanRun, CanEncode};

use crate::order::Order;
use prv_arith::{Word, word_op, word_pick};
use prv_cnf::{Cnf, Lit};
use prv_gate::{Bit, Builder};
use prv_pool::{Node, Pool};
use std::alloc::{AllocError, Global};

/// The bits of a parameter: the highest bit of parameter 0 is variable 1.
fn param_word(param: u8) -> Word
    ensures { result.bits ≡ param_bits param }
{
    let first = 32 * u32::from(param) + 1;
    let mut bits = [Bit::False; 32];
    for i in 0..32 {
        bits[i] = variable_bit(first + i as u32);
    }
    Word { bits }
}

/// The bit of a variable.
fn variable_bit(variable: u32) -> Bit
    requires { variable < 2 ^ 31 }
    ensures { result ≡ Literal (record { 0 = pos variable }) }
{
    Bit::Lit(Lit(variable as i32))
}

/// The bits of a number.
fn number_word(number: i32) -> Word
    ensures { result.bits ≡ map constant (bits_of number) }
{
    let mut rest = number.cast_unsigned();
    let mut bits = [Bit::False; 32];
    for i in (0..32).rev() {
        let is_set = rest % 2 == 1;
        bits[i] = Bit::from(is_set);
        rest /= 2;
    }
    Word { bits }
}

/// The circuit made so far, and the words of the first subterms in their order.
#[derive(Drop)]
pub(crate) struct Encoder {
    /// The circuit.
    builder: Builder,
    /// The word of each subterm, by its place in the order of first visits.
    words: Vec<Word>,
}

impl Encoder {
    /// The circuit of so many parameters, without terms.
    pub(crate) fn new(alloc: Global, params: u8) -> Encoder
        ensures circuit { result.builder ≡ blank (32 * params) }
        ensures words { result.words.items ≡ [] }
    {
        Encoder {
            builder: Builder::new(alloc, 32 * params as u32),
            words: Vec::new(alloc),
        }
    }

    /// The formula made so far.
    pub(crate) fn into_cnf(self) -> Cnf
        ensures { result ≡ self.builder.formula }
    {
        self.builder.into_cnf()
    }

    /// The word of a subterm.
    fn word(&self, order: &Order, node: u32) -> Word
        requires { HasWord order.now (length self.now.words.items) node }
        ensures { result.bits ≡ bits_at order.now self.now.words.items node }
    {
        let place = order.place(node).unwrap_or(0);
        self.words[place]
    }

    /// The word of a node whose operands have words.
    fn node_word(&mut self, order: &Order, node: Node) -> Result<Word, AllocError>
        requires words { AllByRecursion (HasWord order.now (length self.old.words.items)) (operands node) }
        requires ready { CanRun node (bits_at order.now self.old.words.items) self.old.builder }
        ensures run { IfOk result (λ w. record { out = w.bits; circuit = self.new.builder } ≡ node_run node (bits_at order.now self.old.words.items) self.old.builder) }
        ensures words { OnOk result (self.new.words.items ≡ self.old.words.items) }
    {
        match node {
            Node::Param(k) => Ok(param_word(k)),
            Node::Num(n) => Ok(number_word(n)),
            Node::Op(op, a, b) => {
                let a = self.word(order, a);
                let b = self.word(order, b);
                word_op(&mut self.builder, op, &a, &b)
            }
            Node::Pick(c, a, b) => {
                let c = self.word(order, c);
                let a = self.word(order, a);
                let b = self.word(order, b);
                word_pick(&mut self.builder, &c, &a, &b)
            }
        }
    }

    /// Gives words to a root and to its subterms that have none yet.
    fn encode(&mut self, pool: &Pool, order: &Order, root: u32) -> Result<(), AllocError>
        requires can { CanEncode pool.now order.now root (encoding_at pool.now.terms order.now self.old.words.items self.old.builder) }
        requires fits { length self.old.words.items ≤ length order.now }
        ensures encodes { OnOk result (encoding_at pool.now.terms order.now self.new.words.items self.new.builder ≡ with_terms (encoding_at pool.now.terms order.now self.old.words.items self.old.builder) (term_at pool.now.terms root)) }
        ensures fits { OnOk result (length self.new.words.items ≤ length order.now) }
        ensures has { OnOk result (HasWord order.now (length self.new.words.items) root) }
        ensures bits { OnOk result (bits_at order.now self.new.words.items root ≡ term_bits (encoding_at pool.now.terms order.now self.new.words.items self.new.builder) (term_at pool.now.terms root)) }
        ensures inside { OnOk result (AllBits self.new.builder.formula.vars (bits_at order.now self.new.words.items root)) }
    {
        let first = self.words.len();
        let place = order.place(root).unwrap_or(order.len());
        let end = place + 1;
        for at in first..end {
            let number = order.node(at);
            let node = pool.node(number);
            let word = self.node_word(order, node)?;
            self.words.push(word)?;
        }
        Ok(())
    }

    /// Asserts that a root's word isn't 0.
    fn assert(&mut self, order: &Order, root: u32) -> Result<(), AllocError>
        requires has { HasWord order.now (length self.old.words.items) root }
        requires inside { AllBits self.old.builder.formula.vars (bits_at order.now self.old.words.items root) }
        ensures asserts { OnOk result (self.new.builder ≡ asserted (bits_at order.now self.old.words.items root) self.old.builder) }
        ensures words { OnOk result (self.new.words.items ≡ self.old.words.items) }
    {
        let word = self.word(order, root);
        self.builder.assert_any(&word.bits)
    }

    /// Encodes and asserts a literal, unless the earlier ones contradict each other.
    pub(crate) fn literal(
        &mut self,
        pool: &Pool,
        order: &Order,
        root: u32,
    ) -> Result<(), AllocError>
        requires can { self.old.builder.is_ended ≡ false → CanEncode pool.now order.now root (encoding_at pool.now.terms order.now self.old.words.items self.old.builder) }
        requires fits { length self.old.words.items ≤ length order.now }
        ensures encodes { OnOk result (encoding_at pool.now.terms order.now self.new.words.items self.new.builder ≡ with_literal (encoding_at pool.now.terms order.now self.old.words.items self.old.builder) (term_at pool.now.terms root)) }
        ensures fits { OnOk result (length self.new.words.items ≤ length order.now) }
    {
        if self.builder.is_ended() {
            return Ok(());
        }
        self.encode(pool, order, root)?;
        self.assert(order, root)?;
        Ok(())
    }
}
