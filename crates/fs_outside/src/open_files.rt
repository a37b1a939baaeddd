//! The files that one port has open: so few that a store of many files needs no more descriptors than its ports have.
//! Where all places are taken, the file that was not used for longest is closed. Depends on `file_directory`.
ghost use Rattle.std.specs.Prelude.{◌≡◌, ◌≤◌, IfOk, IfSome, length, nat_eq, not};
ghost use Rattle.fs_outside.specs.OpenFiles.{without_number};

use crate::file_directory::NumberedFile;
use std::alloc::{AllocError, Global};

// A port has at most this many files open.
const MAX_OPEN: usize = 16;

/// At most 16 open files, the one that was used last behind the others.
#[derive(Drop)]
pub struct OpenFiles<F> {
    files: Vec<F>,
    ghost few: { length files.items ≤ 16 },
}

fn has_other_number<F: NumberedFile>(file: &F, number: u64) -> bool
    ensures { result ≡ not (nat_eq (F.number file.now) number) }
{
    file.number() != number
}

impl<F: NumberedFile> OpenFiles<F> {
    /// None, with room for all, so that nothing later takes memory.
    pub fn new(alloc: Global) -> Result<Self, AllocError> {
        Ok(OpenFiles {
            files: Vec::with_capacity(alloc, MAX_OPEN)?,
        })
    }

    /// Takes the file with this number out, where it is open.
    pub fn take(&mut self, number: u64) -> Option<F>
        ensures { IfSome result (λ file. F.number file ≡ number) }
    {
        let at = self.files.iter().position(|file| file.number() == number)?;
        Some(self.files.remove(at))
    }

    /// Closes what is open of the file with this number.
    pub fn close(&mut self, number: u64)
        ensures { self.new.files.items ≡ without_number F.number number self.old.files.items }
    {
        self.files.retain(|file| has_other_number(file, number));
    }

    /// Keeps a file open, as the one that was used last.
    pub fn put(&mut self, file: F) {
        if self.files.len() >= MAX_OPEN {
            drop(self.files.remove(0));
        }
        let _ = self.files.push(file);
    }
}
