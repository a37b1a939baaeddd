//! The laws of blame. No body uses them. Depends on the definitions alone.
ghost use Rattle.std.specs.Prelude.{◌≡◌, ℕ, ◌<◌, ◌^◌, List, length};
ghost use Rattle.tsfile_reader.specs.Blame.{IsBlamed, IsNoFile};

/// A file is blamed at one place at most.
pub fn one_blame()
    ensures { (bytes : List ℕ) (x y : ℕ) → length bytes < 2 ^ 64 → IsBlamed bytes x → IsBlamed bytes y → x ≡ y }
{}

/// The file of a tree is blamed nowhere.
pub fn a_whole_file_is_not_blamed()
    ensures { (bytes : List ℕ) (at : ℕ) → length bytes < 2 ^ 64 → IsBlamed bytes at → IsNoFile bytes }
{}
