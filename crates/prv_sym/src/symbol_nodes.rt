//! The nodes of an expression, and what a variable has while a run is walked.
/// The nodes of an expression's value and of its safety.
#[derive(Clone, Copy, Debug)]
pub struct SymbolNodes {
    pub value: u32,
    pub safe: u32,
}

/// What a variable has: before it is set a parameter's word or 0, and then the term of a node.
#[derive(Clone, Copy, Debug)]
pub enum Slot {
    Param(u8),
    Zero,
    Node(u32),
}
