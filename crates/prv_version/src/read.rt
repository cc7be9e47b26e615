//! From the bytes of a file to a version of a program.
ghost use Rattle.std.specs.Prelude.{◌≡◌, MatchResult};
ghost use Rattle.prv_version.specs.Versions.{GivesVersion, GivesNone};

use crate::error::VersionError;
use prv_lex::{places_rise, tokens};
use prv_names::{Version, check};
use prv_parse::parse;
use std::alloc::Global;

/// The version of a program that the bytes of a file give.
///
/// # Errors
///
/// The first reason why they give none: what is no token comes before what is no program, and that before what
/// is wrong with a name. Or memory ran out, which `is_memory` tells.
pub fn read_version(alloc: Global, file: &[u8]) -> Result<Version, VersionError>
    ensures { MatchResult result (λ version. GivesVersion file.now version) (λ error. GivesNone file.now error) }
{
    let tokens = tokens(alloc, file)?;
    // By this law a file has no more tokens than bytes, so they are few.
    places_rise();
    let tree = parse(alloc, tokens.as_slice(), file.len() as u32)?;
    let version = check(alloc, tree)?;
    Ok(version)
}
