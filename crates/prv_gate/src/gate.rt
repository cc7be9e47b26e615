//! Gates as keys of a table. Inputs are kept in one order and with signs moved to the output where the gate
//! allows it, so that equal gates are one key and are made once.
use prv_cnf::Lit;

/// A gate: how the value of its output comes from its inputs.
#[derive(Clone, Copy, Debug, PartialEq, Eq, Hash)]
pub enum Gate {
    /// Both inputs are true.
    And(Lit, Lit),
    /// The inputs differ.
    Xor(Lit, Lit),
    /// The second input where the first is true, else the third.
    Mux(Lit, Lit, Lit),
    /// At least two inputs are true.
    Majority(Lit, Lit, Lit),
    /// An odd number of inputs is true.
    Parity(Lit, Lit, Lit),
}
