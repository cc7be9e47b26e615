//! From a tree of names to a version. The text is gone over once for its names; only where all are right are
//! limits tested and variables numbered, so the first fault in the text is the one that is told.
ghost use Rattle.std.specs.Prelude.{◌≡◌, ◌⊎◌, ◌≤◌, ◌<◌, ◌^◌, length, fold, None, Some, IfOk, IfErr};
ghost use Rattle.prv_names.specs.Scopes.{start, after, first_fault};
ghost use Rattle.prv_names.specs.Versions.{refusal, too_many, variables, above as above_of, IsVersionOf};

use crate::count::count_all;
use crate::error::{NameError, What};
use crate::marks::marks;
use crate::names::Names;
use crate::number::number_all;
use crate::said::Said;
use crate::say::say;
use crate::scopes::Scopes;
use crate::version::Version;
use prv_model::{MAX_PARAMS, MAX_STMTS, MAX_VARS, Program};
use prv_parse::Tree;
use std::alloc::Global;

/// The version of a program that a tree is, with each name replaced by the number of its variable.
///
/// Variables are numbered from 0 by their declarations in the order of the text, the parameters first.
///
/// # Errors
///
/// The first thing in the text that is wrong with a name, at the place of the name: `Twice` at a
/// declaration of a name that is declared before; `Unknown` at a use or an assignment of a name of which
/// no declaration has ended; `NotInScope` where one has, but its block has ended too.
///
/// Where all names are right, `TooMany` with the count: more than 8 parameters, else more than 64
/// variables with them, else more than 1,000 statements and declarations.
///
/// `Memory` where memory ran out.
pub fn check(alloc: Global, tree: Tree) -> Result<Version, NameError>
    ensures version { IfOk result (λ version. IsVersionOf tree version) }
    ensures refused { IfErr result (λ e. (e ≡ NameError.Memory) ⊎ (refusal tree.params tree.body ≡ Some e)) }
{
    let said = say(alloc, tree.params.as_slice(), tree.body.as_slice())?;
    let names = resolve(alloc, said.as_slice())?;
    if let Some(e) = limits(&tree, &names) {
        return Err(e);
    }
    let params = tree.params.len();
    let body = number_all(alloc, tree.body.as_slice(), &names)?;
    let marks = marks(alloc, tree.body.as_slice())?;
    Ok(Version {
        program: Program {
            params: params as u8,
            names: names.into_items(),
            body,
        },
        skeleton: tree.skeleton,
        marks,
    })
}

/// The variables of a program, where nothing that it says of names is wrong.
fn resolve(alloc: Global, said: &[Said]) -> Result<Names, NameError>
    ensures right { IfOk result (λ names. first_fault start said.now ≡ None) }
    ensures names { IfOk result (λ names. names ≡ (fold after start said.now).declared) }
    ensures wrong { IfErr result (λ e. (e ≡ NameError.Memory) ⊎ (first_fault start said.now ≡ Some e)) }
{
    let mut scopes = Scopes::new(alloc);
    for next in said {
        if let Some(e) = scopes.fault(next) {
            return Err(e);
        }
        scopes.go_on(alloc, next)?;
    }
    Ok(scopes.declared)
}

/// The first limit that a program passes.
fn limits(tree: &Tree, names: &Names) -> Option<NameError>
    requires { names.now ≡ variables tree.now.params tree.now.body }
    ensures { result ≡ too_many tree.now.params tree.now.body }
{
    above(What::Params, MAX_PARAMS as u32, tree.params.len() as u32)
        .or(above(What::Vars, MAX_VARS as u32, names.len()))
        .or(above(
            What::Stmts,
            MAX_STMTS as u32,
            count_all(tree.body.as_slice()),
        ))
}

/// More of a kind than there may be.
fn above(what: What, most: u32, count: u32) -> Option<NameError>
    ensures { result ≡ above_of what most count }
{
    if count <= most {
        None
    } else {
        Some(NameError::TooMany { what, count })
    }
}
