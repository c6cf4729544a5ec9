// Files by name, as a run sees them.
ghost use Rattle.std.specs.Prelude.{◌≡◌, IfOk, IsErrOf};
ghost use Rattle.cyc_port.specs.declared.shelf.ShelfFault.TheVariants.{Memory};
ghost use Rattle.std.specs.IoError.{error_kind};
ghost use Rattle.cyc_port.specs.Counts.{Rose};
ghost use Rattle.cyc_port.specs.Faults.{fault_of};
ghost use Rattle.cyc_port.specs.Files.{IsFile, IsLongFile};
ghost use Rattle.cyc_port.specs.Seen.{Seen, Later};

use cyc_text::Text;
use std::alloc::{AllocError, Global};
use std::io::{Error, ErrorKind};

/// The most bytes of a file, 16 MiB.
pub const FILE_LIMIT: usize = 16_777_216;

/// Why a file was not read.
#[derive(Clone, Copy, Debug, PartialEq, Eq)]
pub enum ShelfFault {
    /// It could not be opened, or a read of it failed.
    Failed,
    /// It has more than 16,777,216 bytes.
    TooLong,
    /// Want of memory.
    Memory,
}

impl From<AllocError> for ShelfFault {
    ghost from_gives = { λ _ e. e ≡ Memory };

    fn from(_: AllocError) -> Self {
        ShelfFault::Memory
    }
}

// An error of the kind "out of memory" is want of memory, each other error a failure.
impl From<Error> for ShelfFault {
    ghost from_gives = { λ error fault. fault ≡ fault_of (error_kind error) };

    fn from(error: Error) -> Self {
        match error.kind() {
            ErrorKind::OutOfMemory => ShelfFault::Memory,
            _ => ShelfFault::Failed,
        }
    }
}

/// Files by name. Where it tells its files, they never change. No count ever falls.
pub trait Shelf {
    // The files by name, where they are told, and the counts of each name.
    ghost seen: { Self → Seen };

    /// The whole file of that name, of at most 16,777,216 bytes.
    ///
    /// # Errors
    /// `Failed` comes only where the name's count of faults rose in this call, `TooLong` only where its count of long reads rose; over
    /// told files `TooLong` means that the file is there and has more than 16,777,216 bytes. `Memory` is want of memory.
    fn read_all(&mut self, alloc: Global, name: &str) -> Result<Text, ShelfFault>
        ensures later { Later (seen self.old) (seen self.new) }

        ensures text { IfOk result (IsFile (seen self.old).files name.now) }
        ensures failed { IsErrOf result ShelfFault.Failed →
            Rose ((seen self.old).faults name.now) ((seen self.new).faults name.now) }
        ensures too_long { IsErrOf result ShelfFault.TooLong →
            Rose ((seen self.old).long_reads name.now) ((seen self.new).long_reads name.now) }
        ensures is_long { IsErrOf result ShelfFault.TooLong → IsLongFile (seen self.old).files name.now };
}
