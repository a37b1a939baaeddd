//! The file of one slot, by the four calls that a journal makes on it. A file may tell what it holds and what a stop
//! may leave of it; the journal is proved over files that tell. A file of the system tells nothing.
ghost use Rattle.std.specs.Prelude.{◌≡◌, List, ℕ, length, Some, IfOk, OnOk};
ghost use Rattle.tsdb_outside.specs.Causes.{HasCause};
ghost use Rattle.fs_outside.specs.FileState.{FileState, HasLength, HasBytes, KeepsFile, OverwritesFile, MayWriteFile};
ghost use Rattle.fs_outside.specs.FileState.{IsFileDurable, silent_file};

use std::fs::File;
use std::io;
use std::os::unix::fs::FileExt;

/// The calls on the file of one slot. They keep the rules of a slot of `tsdb_outside::Disk`.
pub trait SlotFile {
    /// What it means.
    ghost state: { Self → FileState };

    /// How many bytes it has.
    fn length(&mut self) -> io::Result<u64>
        ensures length { IfOk result (λ n. HasLength n (state self.old)) }
        ensures keeps { KeepsFile (state self.old) (state self.new) }
        ensures cause { HasCause (state self.old).faults (state self.new).faults result };

    /// Fills `into` with the bytes from `at` on.
    fn read_at(&mut self, at: u64, into: &mut [u8]) -> io::Result<()>
        ensures bytes { OnOk result (HasBytes at into.new (state self.old)) }
        ensures keeps { KeepsFile (state self.old) (state self.new) }
        ensures cause { HasCause (state self.old).faults (state self.new).faults result };

    /// Writes over what is there, and past the end.
    fn write_at(&mut self, at: u64, bytes: &[u8]) -> io::Result<()>
        ensures bytes { OnOk result (OverwritesFile at bytes.now (state self.old) (state self.new)) }
        ensures writes { MayWriteFile at (length bytes.now) (state self.old) (state self.new) }
        ensures cause { HasCause (state self.old).faults (state self.new).faults result };

    /// Makes it durable: after it a stop leaves what a read gives.
    fn sync(&mut self) -> io::Result<()>
        ensures durable { OnOk result (IsFileDurable (state self.old) (state self.new)) }
        ensures keeps { KeepsFile (state self.old) (state self.new) }
        ensures cause { HasCause (state self.old).faults (state self.new).faults result };

    /// A stop may leave what reads give.
    ghost seen_may_stay: { (file : Self) (bytes : List ℕ) → (state file).seen ≡ Some bytes
        → (state file).may_leave bytes };
}

impl SlotFile for File {
    ghost state = { λ _. silent_file };

    fn length(&mut self) -> io::Result<u64> {
        Ok(self.metadata()?.len())
    }

    fn read_at(&mut self, at: u64, into: &mut [u8]) -> io::Result<()> {
        self.read_exact_at(into, at)
    }

    fn write_at(&mut self, at: u64, bytes: &[u8]) -> io::Result<()> {
        self.write_all_at(bytes, at)
    }

    fn sync(&mut self) -> io::Result<()> {
        self.sync_data()
    }

    ghost seen_may_stay = { λ _ _ _. tt };
}
