//! Files and their versions.
ghost use Rattle.std.specs.Prelude.{◌≡◌, false, IsErrOf};
ghost use Rattle.prv_io.specs.Faults.{Rose};
ghost use Rattle.prv_version.specs.Versions.{is_memory};
ghost use Rattle.prv_version.specs.declared.error.VersionError.{VersionError};
ghost use Rattle.prv_cli.specs.declared.refusal.Who.{Who};
ghost use Rattle.prv_cli.specs.Steps.{Told, nothing};
ghost use Rattle.prv_cli.specs.Readings.{version, version_of as version_is, fits};
ghost use Rattle.prv_cli.specs.Answers.{Follows, UnlessRead};

use crate::refusal::{Refusal, Who};
use prv_io::{FileError, Files};
use prv_lex::{LexError, LexWhy};
use prv_model::{Input, MAX_FILE};
use prv_names::Version;
use prv_version::{VersionError, read_version};
use std::alloc::Global;

/// The greatest length of a file, in bytes.
const FILE_BYTES: u32 = MAX_FILE as u32;

/// The version of a program that a file gives; `who` names the file in a refusal. The file is read once. Want of
/// memory is a refusal of its own, and never one of the file.
pub fn load<F: Files>(
    alloc: Global,
    files: &mut F,
    name: &str,
    who: Who,
) -> Result<Version, Refusal>
    ensures same { F.known files.new ≡ F.known files.old }
    ensures read_fault { IsErrOf result Refusal.Read → Rose (F.faults files.old) (F.faults files.new) }
    ensures no_read_fault { UnlessRead result (F.faults files.new ≡ F.faults files.old) }
    ensures memory { (w : Who) (why : VersionError) → IsErrOf result (Refusal.File w why) → is_memory why ≡ false }
    ensures loaded { Follows F.reads (F.known files.old) files.old files.new (version who name.now) result }
{
    let mut bytes = Vec::new(alloc);
    match files.read(name, FILE_BYTES, &mut bytes) {
        Ok(()) => version_of(alloc, bytes.as_slice(), who),
        Err(FileError::TooLong) => Err(Refusal::File {
            who,
            why: VersionError::Lex(LexError::Refused {
                place: FILE_BYTES,
                why: LexWhy::Long,
            }),
        }),
        Err(FileError::Failed) => Err(Refusal::Read),
        Err(FileError::Memory) => Err(Refusal::Memory),
    }
}

/// The version that the bytes of a file give. Want of memory is a refusal of its own, and never one of the file.
pub fn version_of(alloc: Global, bytes: &[u8], who: Who) -> Result<Version, Refusal>
    ensures memory { (w : Who) (why : VersionError) → IsErrOf result (Refusal.File w why) → is_memory why ≡ false }
    ensures given { (told : Told) → version_is who bytes.now told nothing result }
    ensures no_read { IsErrOf result Refusal.Read → ⊥ }
    ensures no_write { IsErrOf result Refusal.Write → ⊥ }
{
    match read_version(alloc, bytes) {
        Ok(version) => Ok(version),
        Err(why) if why.is_memory() => Err(Refusal::Memory),
        Err(why) => Err(Refusal::File { who, why }),
    }
}

/// Tests that an input has a word for each parameter.
pub fn fit(input: &Input, wanted: u8) -> Result<(), Refusal>
    ensures fits { (told : Told) → fits input.now wanted told nothing result }
    ensures no_read { IsErrOf result Refusal.Read → ⊥ }
{
    let given = input.as_slice().len();
    if given == usize::from(wanted) {
        Ok(())
    } else {
        Err(Refusal::Inputs { given, wanted })
    }
}
