//! Pairs of versions.
ghost use Rattle.std.specs.Prelude.{◌≡◌, ◌≤◌, IsErrOf};
ghost use Rattle.prv_io.specs.Faults.{Rose};
ghost use Rattle.prv_model.specs.declared.limits.TheConstants.{MAX_TURNS};
ghost use Rattle.prv_cli.specs.Steps.{Told, nothing};
ghost use Rattle.prv_cli.specs.Pairings.{pair_of as pair_is, pair_of_files, pair_of_texts};
ghost use Rattle.prv_cli.specs.Answers.{Follows, UnlessRead};

use crate::read::{load, version_of};
use crate::refusal::{Refusal, Who};
use prv_io::Files;
use prv_marks::pair;
use prv_model::Pair;
use prv_names::Version;
use std::alloc::Global;

/// The pair that two files give. Its turns are 1 to `MAX_TURNS`.
pub fn load_pair<F: Files>(
    alloc: Global,
    files: &mut F,
    before: &str,
    after: &str,
    turns: u32,
) -> Result<Pair, Refusal>
    requires some { 1 ≤ turns }
    requires few { turns ≤ MAX_TURNS }
    ensures read_fault { IsErrOf result Refusal.Read → Rose (F.faults files.old) (F.faults files.new) }
    ensures no_read_fault { UnlessRead result (F.faults files.new ≡ F.faults files.old) }
    ensures done { Follows F.reads (F.known files.old) files.old files.new (pair_of_files turns before.now after.now) result }
{
    let old = load(alloc, files, before, Who::Old)?;
    let new = load(alloc, files, after, Who::New)?;
    pair_of(old, new, turns)
}

/// The pair that two texts give. Its turns are 1 to `MAX_TURNS`.
pub fn pair_of_bytes(
    alloc: Global,
    before: &[u8],
    after: &[u8],
    turns: u32,
) -> Result<Pair, Refusal>
    requires some { 1 ≤ turns }
    requires few { turns ≤ MAX_TURNS }
    ensures done { (told : Told) → pair_of_texts turns before.now after.now told nothing result }
    ensures no_read { IsErrOf result Refusal.Read → ⊥ }
    ensures no_write { IsErrOf result Refusal.Write → ⊥ }
{
    let old = version_of(alloc, before, Who::Old)?;
    let new = version_of(alloc, after, Who::New)?;
    pair_of(old, new, turns)
}

/// The pair of two versions. Its turns are 1 to `MAX_TURNS`.
fn pair_of(before: Version, after: Version, turns: u32) -> Result<Pair, Refusal>
    requires some { 1 ≤ turns }
    requires few { turns ≤ MAX_TURNS }
    ensures paired { (told : Told) → pair_is turns before after told nothing result }
    ensures no_read { IsErrOf result Refusal.Read → ⊥ }
    ensures no_write { IsErrOf result Refusal.Write → ⊥ }
{
    match pair(before, after, turns) {
        Ok(pair) => Ok(pair),
        Err(why) => Err(Refusal::Pair(why)),
    }
}
