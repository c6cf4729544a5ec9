// A shelf over the system's files, which tells no bytes.
ghost use Rattle.std.specs.Prelude.{◌≡◌, ◌+◌, ◌<◌, ◌≤◌, ℕ, List, None, Err, IfOk, IfErr, IfSome, IsErrOf, length, take};
ghost use Rattle.std.specs.IoError.{error_kind};
ghost use Rattle.cyc_port.specs.Faults.{fault_of, answer_of_bytes, faults_after, long_after};
ghost use Rattle.cyc_port.specs.Files.{file_limit};
ghost use Rattle.cyc_port.specs.MemoryShelf.{Answers};

use crate::shelf::FILE_LIMIT;
use crate::{Shelf, ShelfFault};
use cyc_text::Text;
use std::alloc::Global;
use std::io::Read;
use std::rt::Files;
use std::{fs, io};

/// How far a file is read: one byte past the limit shows that it is too long.
const READ_LIMIT: u64 = 16_777_217;

/// The system's files by their paths. It tells no files; its two counts are those of every name.
#[derive(Drop)]
pub struct FileShelf<R: Files> {
    rt: R,
    faults: u64,
    long: u64,
}

impl<R: Files> FileShelf<R> {
    /// A shelf over the files that `rt` opens, with both counts at 0.
    pub fn new(rt: R) -> Self
        ensures faults { (name : List ℕ) → (⟦<FileShelf<R> as Shelf>⟧.seen result).faults name ≡ 0 }
        ensures long_reads { (name : List ℕ) → (⟦<FileShelf<R> as Shelf>⟧.seen result).long_reads name ≡ 0 }
    {
        FileShelf {
            rt,
            faults: 0,
            long: 0,
        }
    }

    // Counts a fault of the answer, and hands the answer on.
    fn counted(&mut self, answer: Result<Text, ShelfFault>) -> Result<Text, ShelfFault>
        ensures same { result ≡ answer }
        ensures faults { self.new.faults ≡ faults_after answer self.old.faults }
        ensures long { self.new.long ≡ long_after answer self.old.long }
    {
        match answer {
            Err(ShelfFault::Failed) => self.faults = self.faults.saturating_add(1),
            Err(ShelfFault::TooLong) => self.long = self.long.saturating_add(1),
            Ok(_) | Err(ShelfFault::Memory) => {}
        }
        answer
    }
}

// The reader's bytes, no further than one past the limit. Interrupted reads are tried again.
fn read_front<F: Read + Drop>(opened: io::Result<F>, alloc: Global) -> io::Result<Vec<u8>>
    ensures unopened { IfErr opened (λ error. result ≡ Err error) }
    ensures front { IfOk opened (λ reader. IfOk result (λ bytes. IfSome (F.remaining reader) (λ rest. bytes.items ≡ take (file_limit + 1) rest))) }
{
    let mut bytes = Vec::new(alloc);
    opened?.take(READ_LIMIT).read_to_end(&mut bytes)?;
    Ok(bytes)
}

// What was read as a text, or the error as a fault.
fn answer_of(read: io::Result<Vec<u8>>, alloc: Global) -> Result<Text, ShelfFault>
    ensures bytes { IfOk read (λ bytes. Answers (answer_of_bytes bytes.items) result) }
    ensures error { IfErr read (λ error. result ≡ Err (fault_of (error_kind error))) }
{
    let bytes = read?;
    if bytes.len() > FILE_LIMIT {
        return Err(ShelfFault::TooLong);
    }
    Ok(Text::of(alloc, &bytes)?)
}

// The text of what was opened, or the fault.
pub(crate) fn text_of<F: Read + Drop>(
    opened: io::Result<F>,
    alloc: Global,
) -> Result<Text, ShelfFault>
    ensures short { IfOk result (λ text. length text ≤ file_limit) }
    ensures unopened { IfErr opened (λ error. result ≡ Err (fault_of (error_kind error))) }
    ensures whole { IfOk opened (λ reader. IfSome (F.remaining reader) (λ rest. IfOk result (λ text. text ≡ rest))) }
    ensures too_long { IfOk opened (λ reader. IfSome (F.remaining reader) (λ rest. IsErrOf result ShelfFault.TooLong → file_limit < length rest)) }
{
    answer_of(read_front(opened, alloc), alloc)
}

impl<R: Files> Shelf for FileShelf<R> {
    ghost seen = { λ s. record { files = None; faults = λ _. s.faults; long_reads = λ _. s.long } };

    fn read_all(&mut self, alloc: Global, name: &str) -> Result<Text, ShelfFault> {
        let answer = text_of(fs::open(&self.rt, name), alloc);
        self.counted(answer)
    }
}
