//! Files in memory, for runs of a program against files that are told whole: what a read answers is a function of the
//! files and of the numbers of the reads that are to fail.
ghost use Rattle.std.specs.Prelude.{◌≡◌, ◌↔◌, ◌<◌, ◌≤◌, [], length, false, IsTrue, IsSomeAnd, OnOk, OnErr, IsErrOf};
ghost use Rattle.std.specs.Option.{option_copied};
ghost use Rattle.prv_io.specs.FaultPlan.{fresh};
ghost use Rattle.prv_io.specs.MemFiles.{bytes_named, known_of, read_fails, after_read};
ghost use Rattle.prv_io.specs.Files.{MayHold};

use crate::{FaultPlan, FileError, Files};
use std::marker::Model;

/// A file in memory: its name and its bytes.
#[derive(Debug, Drop)]
pub struct MemFile {
    /// The name that a read asks for, in bytes.
    pub name: Vec<u8>,
    /// What a read gives.
    pub bytes: Vec<u8>,
}

impl Model for MemFile {
    ghost use Rattle.prv_io.specs.MemFiles.{NamedBytes};

    ghost Value = { NamedBytes };

    ghost view = { λ f. record { name = f.name.items; bytes = f.bytes.items } };
}

/// Files in memory, which tell all that they have. Of several files of one name the first counts.
#[derive(Debug, Drop)]
pub struct MemFiles {
    // First to last. Of one name the first counts.
    files: Vec<MemFile>,
    // The reads so far, and which of them are to fail.
    plan: FaultPlan,
}

impl Model for MemFiles {
    ghost use Rattle.prv_io.specs.MemFiles.{FilesInMemory};

    ghost Value = { FilesInMemory };

    ghost view = { λ m. record { files = m.files.items; plan = m.plan } };
}

impl MemFiles {
    /// These files. `fail` holds the numbers, from 1, of the reads that are to fail; so does each read of a
    /// name that no file has.
    pub fn new(files: Vec<MemFile>, fail: Vec<u32>) -> MemFiles
        ensures { result ≡ record { files = files.items; plan = fresh fail.items } }
    {
        MemFiles {
            files,
            plan: FaultPlan::new(fail),
        }
    }

    /// How many reads have failed.
    pub fn faults(&self) -> u64
        ensures { result ≡ self.now.plan.faults }
    {
        self.plan.faults()
    }
}

// The bytes of the first file of this name.
fn bytes_named<'a>(files: &'a [MemFile], name: &[u8]) -> Option<&'a [u8]>
    ensures { option_copied result ≡ bytes_named files.now name.now }
{
    let file = files.iter().find(|file| file.name.as_slice() == name)?;
    Some(&file.bytes)
}

// Puts the bytes into `into`, which is empty.
fn copy_bytes(bytes: &[u8], limit: u32, into: &mut Vec<u8>) -> Result<(), FileError>
    requires { into.old.items ≡ [] }
    ensures ok { OnOk result ((into.new.items ≡ bytes.now) × (length bytes.now ≤ limit)) }
    ensures err { OnErr result (into.new.items ≡ []) }
    ensures too_long { IsErrOf result FileError.TooLong ↔ (limit < length bytes.now) }
    ensures no_fault { IsErrOf result FileError.Failed → ⊥ }
{
    if bytes.len() > limit as usize {
        return Err(FileError::TooLong);
    }
    into.extend_from_slice(bytes)?;
    Ok(())
}

impl Files for MemFiles {
    ghost faults = { λ m. m.plan.faults };

    ghost known = { λ m name. known_of (bytes_named m.files name) };

    ghost reads = { λ before name after. after ≡ after_read before name };

    fn read(&mut self, name: &str, limit: u32, into: &mut Vec<u8>) -> Result<(), FileError>
        ensures fails { IsErrOf result FileError.Failed ↔ IsTrue (read_fails self.old name.now) }
        ensures after { self.new ≡ after_read self.old name.now }
        ensures longer { IsErrOf result FileError.TooLong ↔ ((read_fails self.old name.now ≡ false) × IsSomeAnd (bytes_named self.old.files name.now) (λ told. limit < length told)) }

        ensures never_falls { self.old.plan.faults ≤ self.new.plan.faults }
        ensures bytes { OnOk result (MayHold (known_of (bytes_named self.old.files name.now)) into.new.items) }
        ensures within { OnOk result (length into.new.items ≤ limit) }
        ensures emptied { OnErr result (into.new.items ≡ []) }
    {
        into.clear();
        let found = bytes_named(&self.files, name.as_bytes());
        let fails = self.plan.is_to_fail() || found.is_none();
        self.plan.count_call(fails);
        let Some(bytes) = found else {
            return Err(FileError::Failed);
        };
        if fails {
            return Err(FileError::Failed);
        }
        copy_bytes(bytes, limit, into)
    }
}
