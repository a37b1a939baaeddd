//! What the records on files do to memory: a flush ends a frozen pair, and marks that cover nothing any more go. Depends
//! on the store's fields, and on `purging`.
ghost use Rattle.std.specs.Prelude.{◌≡◌, ◌<◌, ℕ, drop, length};
ghost use Rattle.tsdb_memory.specs.Changes.{KeepsSeries};
ghost use Rattle.tsdb_memory.specs.Least.{IsLeastOf};
ghost use Rattle.tsdb_memory.specs.StateOfMemory.{IsMemoryOf, file_borns};
ghost use Rattle.tsdb_state.specs.Records.{Replacement, flushed, replaced};
ghost use Rattle.tsdb_state.specs.State.{StoreState};

use crate::purging::least_born;
use crate::store::MemoryStore;
use tsdb_base::Stamp;

impl MemoryStore {
    /// The oldest frozen pair is in files now, and leaves. Then the marks that cover nothing go; `listed` is the least
    /// stamp at which a file was frozen that is listed now. It takes no memory.
    pub fn finish_flushed(&mut self, listed: Option<Stamp>)
        requires some { 0 < length self.old.frozen }
        ensures frozen { self.new.frozen ≡ drop 1 self.old.frozen }
        ensures working { self.new.working ≡ self.old.working }
        ensures kept { KeepsSeries self.old self.new }
        ensures effect { (state : StoreState) (sequence unsequence : ℕ) → IsMemoryOf self.old state
            → IsLeastOf listed (file_borns (flushed sequence unsequence state))
            → IsMemoryOf self.new (flushed sequence unsequence state) }
    {
        let _ = self.frozen.remove(0);
        self.marks.purge(least_born(listed, self.frozen.as_slice()));
    }

    /// Files were replaced: the marks that cover nothing go; `listed` is the least stamp at which a file was frozen that
    /// is listed now. It takes no memory.
    pub fn finish_replaced(&mut self, listed: Option<Stamp>)
        ensures frozen { self.new.frozen ≡ self.old.frozen }
        ensures working { self.new.working ≡ self.old.working }
        ensures kept { KeepsSeries self.old self.new }
        ensures effect { (state : StoreState) (item : Replacement) → IsMemoryOf self.old state
            → IsLeastOf listed (file_borns (replaced item state))
            → IsMemoryOf self.new (replaced item state) }
    {
        self.marks.purge(least_born(listed, self.frozen.as_slice()));
    }
}
