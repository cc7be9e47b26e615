//! Inputs: one word for each parameter. The type keeps that its numbers are words, so a sample that is shown is
//! always an input that a run can begin with.
ghost use Rattle.std.specs.Prelude.{◌≡◌, ◌↔◌, IsTrue, [], ◌∷◌, ◌++◌, All, IfOk, OnOk, OnErr};
ghost use Rattle.prv_model.specs.Words.{IsWord};

use std::alloc::{AllocError, Global};
use std::marker::Model;

/// An input: one word for each parameter, the first parameter's first.
#[derive(Debug, Drop)]
pub struct Input {
    /// The parameters' words, in the order of the parameters.
    pub words: Vec<i32>,
}

impl Model for Input {
    ghost use Rattle.std.specs.Prelude.{ℤ, List, All};
    ghost use Rattle.prv_model.specs.Words.{IsWord};

    ghost Value = { List ℤ };

    ghost view = { λ i. i.words.items };

    ghost invariant = { λ i. All IsWord i.words.items };
}

impl Input {
    /// An input of no words yet.
    pub fn new(alloc: Global) -> Input
        ensures { result ≡ [] }
    {
        Input {
            words: Vec::new(alloc),
        }
    }

    /// Adds the next parameter's word at the end.
    pub fn push(&mut self, word: i32) -> Result<(), AllocError>
        ensures ok { OnOk result (self.new ≡ self.old ++ word ∷ []) }
        ensures err { OnErr result (self.new ≡ self.old) }
    {
        self.words.push(word)?;
        Ok(())
    }

    /// The words of the input.
    pub fn as_slice(&self) -> &[i32]
        ensures value { result.now ≡ self.now }
        ensures words { All IsWord self.now }
    {
        self.words.as_slice()
    }

    /// The same input once more.
    pub fn copy(&self, alloc: Global) -> Result<Input, AllocError>
        ensures { IfOk result (λ copied. copied ≡ self.now) }
    {
        Ok(Input {
            words: Vec::from_slice(alloc, self.words.as_slice())?,
        })
    }

    /// Whether both are one input.
    pub fn same(&self, other: &Input) -> bool
        ensures { IsTrue result ↔ (self.now ≡ other.now) }
    {
        self.words.as_slice() == other.words.as_slice()
    }
}
