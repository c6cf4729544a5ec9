// A shelf in memory, which fails at chosen calls.
ghost use Rattle.std.specs.Prelude.{◌≡◌, IfOk, IsErrOf, position, is_some};
ghost use Rattle.cyc_port.specs.Counts.{Rose};
ghost use Rattle.cyc_port.specs.Files.{IsFile, IsLongFile};
ghost use Rattle.cyc_port.specs.Rows.{file_of, has_name, with_fault, with_long, change_first};
ghost use Rattle.cyc_port.specs.MemoryShelf.{new_shelf, answer_of, Answers, seen_of, shelf_after};
ghost use Rattle.cyc_port.specs.Seen.{Later};

use crate::shelf::FILE_LIMIT;
use crate::{Shelf, ShelfFault};
use cyc_text::Text;
use std::alloc::Global;
use std::marker::Model;

/// A file with the two counts of its name.
#[derive(Drop)]
pub struct NamedFile {
    /// The name by which it is read.
    pub name: Text,
    /// What stands in it.
    pub bytes: Text,
    /// How often a read of the name has failed.
    pub faults: u64,
    /// How often the file was too long.
    pub long: u64,
}

/// A shelf in memory, which tells its files. The first file of a name counts.
///
/// Contracts see its files with their counts, the numbers of the calls that fail, the faults of all names without a file, and the
/// number of calls so far.
#[derive(Drop)]
pub struct MemShelf {
    files: Vec<NamedFile>,
    fail: Vec<u64>,
    other: u64,
    calls: u64,
}

impl Model for MemShelf {
    ghost use Rattle.cyc_port.specs.MemoryShelf.{ShelfState};

    ghost Value = { ShelfState };

    ghost view = { λ s. record { files = s.files.items; fail = s.fail.items; other = s.other; calls = s.calls } };
}

impl MemShelf {
    /// A shelf of these files, with the counts that they bring. Call number n, from 0, fails where n is in `fail`.
    pub fn new(files: Vec<NamedFile>, fail: Vec<u64>) -> MemShelf
        ensures state { result ≡ new_shelf files.items fail.items }
        ensures seen { ⟦<MemShelf as Shelf>⟧.seen result ≡ seen_of (new_shelf files.items fail.items) }
    {
        MemShelf {
            files,
            fail,
            other: 0,
            calls: 0,
        }
    }

    // A read of the name, by its bytes.
    fn read(&mut self, alloc: Global, name: &[u8]) -> Result<Text, ShelfFault>
        ensures answers { Answers (answer_of self.old name.now) result }
        ensures after { self.new ≡ shelf_after result self.old name.now }
    {
        let answer = self.answer(alloc, name);
        self.calls = self.calls.saturating_add(1);
        match answer {
            Err(ShelfFault::Failed) => {
                if !raise_faults(&mut self.files, name) {
                    self.other = self.other.saturating_add(1);
                }
            }
            Err(ShelfFault::TooLong) => raise_long(&mut self.files, name),
            Ok(_) | Err(ShelfFault::Memory) => {}
        }
        answer
    }

    // What a read of the name answers.
    fn answer(&self, alloc: Global, name: &[u8]) -> Result<Text, ShelfFault>
        ensures { Answers (answer_of self.now name.now) result }
    {
        if self.fail.contains(&self.calls) {
            return Err(ShelfFault::Failed);
        }
        let Some(at) = find(&self.files, name) else {
            return Err(ShelfFault::Failed);
        };
        let bytes = self.files[at].bytes.bytes();
        if bytes.len() > FILE_LIMIT {
            return Err(ShelfFault::TooLong);
        }
        Ok(Text::of(alloc, bytes)?)
    }
}

// The place of the first file of the name. Linear in the files.
fn find(files: &[NamedFile], name: &[u8]) -> Option<usize>
    ensures { result ≡ position (has_name name.now) files.now }
{
    files.iter().position(|file| name == file.name.bytes())
}

// Counts a fault at the first file of the name, and says whether there is one.
fn raise_faults(files: &mut [NamedFile], name: &[u8]) -> bool
    ensures files { files.new ≡ change_first with_fault files.old name.now }
    ensures found { result ≡ is_some (file_of files.old name.now) }
{
    let Some(at) = find(files, name) else {
        return false;
    };
    let file = &mut files[at];
    file.faults = file.faults.saturating_add(1);
    true
}

// Counts a long read at the first file of the name.
fn raise_long(files: &mut [NamedFile], name: &[u8])
    ensures { files.new ≡ change_first with_long files.old name.now }
{
    if let Some(at) = find(files, name) {
        let file = &mut files[at];
        file.long = file.long.saturating_add(1);
    }
}

impl Shelf for MemShelf {
    ghost seen = { seen_of };

    fn read_all(&mut self, alloc: Global, name: &str) -> Result<Text, ShelfFault>
        // When the call fails, and what it leaves.
        ensures answers { Answers (answer_of self.old name.now) result }
        ensures after { self.new ≡ shelf_after result self.old name.now }

        // What each shelf promises.
        ensures later { Later (seen_of self.old) (seen_of self.new) }
        ensures text { IfOk result (IsFile (seen_of self.old).files name.now) }
        ensures failed { IsErrOf result ShelfFault.Failed →
            Rose ((seen_of self.old).faults name.now) ((seen_of self.new).faults name.now) }
        ensures too_long { IsErrOf result ShelfFault.TooLong →
            Rose ((seen_of self.old).long_reads name.now) ((seen_of self.new).long_reads name.now) }
        ensures is_long { IsErrOf result ShelfFault.TooLong → IsLongFile (seen_of self.old).files name.now }
    {
        self.read(alloc, name.as_bytes())
    }
}
