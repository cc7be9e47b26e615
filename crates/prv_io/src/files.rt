//! Files that are read whole, by name, as the program sees them: a trait, since what a real file has can't be told. A
//! fault is answered exactly where the object counted one, so that whoever reports a fault can be held to it.
ghost use Rattle.std.specs.Prelude.{◌≡◌, ℕ, ◌≤◌, List, [], length, ⊤, OnOk, OnErr, IsErrOf};
ghost use Rattle.prv_io.specs.declared.files.FileError.TheVariants.{Memory};
ghost use Rattle.prv_io.specs.Faults.{Rose};
ghost use Rattle.prv_io.specs.Files.{Known, Absent, Unknown, MayHold, MayBeLonger, UnlessFailed};

use std::alloc::AllocError;
use thiserror::Error;

/// Why a file was not read.
#[derive(Clone, Copy, Debug, PartialEq, Eq, Error)]
pub enum FileError {
    /// The file isn't there or couldn't be read, and the object counted a fault.
    #[error("the file could not be read")]
    Failed,
    /// The file has more bytes than the limit.
    #[error("the file is longer than the limit")]
    TooLong,
    /// Out of memory.
    #[error("out of memory")]
    Memory,
}

impl From<AllocError> for FileError {
    ghost from_gives = { λ _ e. e ≡ Memory };

    fn from(_: AllocError) -> Self {
        FileError::Memory
    }
}

/// Files that can be read whole, by name. An object may tell what its files have, and counts its faults.
pub trait Files {
    /// How many reads have failed, up to where the count stands still.
    ghost faults: { Self → ℕ };

    /// What the object tells of the file of a name: that there is none, its bytes, or nothing.
    ghost known: { Self → List ℕ → Known } = { λ _ _. Unknown };

    /// What one read of the file of a name may make of the object.
    ghost reads: { Self → List ℕ → Self → Type 0 } = { λ _ _ _. ⊤ };

    /// Puts the bytes of the file `name` in the place of what `into` holds. `Failed` comes where there is no such
    /// file or it can't be read, `TooLong` where it has more than `limit` bytes, and `Memory` out of memory. After
    /// each of them `into` is empty.
    fn read(&mut self, name: &str, limit: u32, into: &mut Vec<u8>) -> Result<(), FileError>
        // Each call is one read of this name.
        ensures once { reads self.old name.now self.new }

        // A fault is answered only where one was counted, and counted only where it is answered.
        ensures never_falls { faults self.old ≤ faults self.new }
        ensures failed { IsErrOf result FileError.Failed → Rose (faults self.old) (faults self.new) }
        ensures kept { UnlessFailed result (faults self.new ≡ faults self.old) }

        // The bytes are those of the file, where they are told, and never more than the limit: so a longer one is no Ok.
        ensures bytes { OnOk result (MayHold (known self.old name.now) into.new.items) }
        ensures within { OnOk result (length into.new.items ≤ limit) }
        ensures emptied { OnErr result (into.new.items ≡ []) }

        // What is told of a file decides these answers.
        ensures too_long { IsErrOf result FileError.TooLong → MayBeLonger limit (known self.old name.now) }
        ensures absent { known self.old name.now ≡ Absent → IsErrOf result FileError.Failed }

        // A read changes no file.
        ensures same { known self.new ≡ known self.old };
}
