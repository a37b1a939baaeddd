//! One listed file, fetched and read whole. Depends on `fault`, tsdb_outside and tsfile_reader.
ghost use Rattle.std.specs.Prelude.{◌≡◌, ◌≤◌, ℕ, IfOk, IfSome, IsErrOf, OnErr};
ghost use Rattle.tsdb_base.specs.Causes.{Rose};
ghost use Rattle.tsdb_outside.specs.Disk.{WhereTold};
ghost use Rattle.tsdb_outside.specs.Files.{PutsBack, TakesOut};
ghost use Rattle.tsdb_pages.specs.File.{IsFile};
ghost use Rattle.tsdb_pages.specs.Trees.{IsMade, IsTree};
ghost use Rattle.tsdb_pages.specs.declared.tree.Tree.{Tree};
ghost use Rattle.tsdb_recover.specs.Files.{AreAtRestAgain, HasFilesCause, IsDamagedAmong, of_read};
ghost use Rattle.tsdb_recover.specs.declared.fault.Part as store_part;
ghost use Rattle.tsdb_recover.specs.declared.fault.Part.TheVariants as parts;
ghost use Rattle.tsfile_reader.specs.Answers.{Answers, HasReadCause, IfDamaged, IsNotDamaged};
ghost use Rattle.tsfile_reader.specs.Blame.{IsBlamed, IsMetaOfTree, IsNoFile};
ghost use Rattle.tsfile_reader.specs.Meta.{IsMetaOf};

use crate::fault::{OpenFault, Part};
use std::alloc::Global;
use tsdb_base::FileNumber;
use tsdb_index::FileMeta;
use tsdb_outside::{Files, Port, StoreFault};
use tsfile_reader::{ReadFault, check_file};

/// Fetches a file and reads it whole: its token, and what the file says of itself. A file that is not there is damaged
/// at 0. Where it cannot be read, its token is back with the files.
pub fn fetch_whole<F: Files>(
    alloc: Global,
    files: &mut F,
    port: &mut F::Port,
    number: FileNumber,
) -> Result<(F::Sealed, FileMeta), OpenFault>
    requires { F.Port.store port.old ≡ F.store files.old }
    ensures number { IfOk result (λ r. (F.Sealed.file r.0).number ≡ number.0) }
    ensures no_rights { IfOk result (λ r. F.Sealed.rights r.0 ≡ 0) }
    ensures store { IfOk result (λ r. (F.Sealed.file r.0).store ≡ F.store files.old) }
    ensures taken { IfOk result (λ r. WhereTold (TakesOut (F.Sealed.file r.0)) (F.at_rest files.old)
        (F.at_rest files.new)) }
    ensures whole { IfOk result (λ r. IfSome (F.Sealed.file r.0).bytes (λ bytes. IsMetaOfTree bytes r.1)) }
    ensures tree { IfOk result (λ r. IfSome (F.Sealed.file r.0).bytes (λ bytes. (tree : Tree) → IsTree tree
        → IsMade tree → IsFile tree bytes → IsMetaOf tree bytes r.1)) }
    ensures damaged { (part : store_part.Part) (at : ℕ) → IsErrOf result (OpenFault.Damaged part at)
        → (part ≡ parts.File number) × IfSome (F.at_rest files.old) (λ stored. IsDamagedAmong stored number.0 at) }
    ensures put_back { OnErr result (WhereTold AreAtRestAgain (F.at_rest files.old) (F.at_rest files.new)) }
    ensures same_store { F.store files.new ≡ F.store files.old }
    ensures same_port { F.Port.store port.new ≡ F.Port.store port.old }
    ensures cause { HasFilesCause (F.faults files.old) (F.faults files.new) (F.Port.faults port.old)
        (F.Port.faults port.new) result }
{
    match files.fetch(number) {
        Ok(Some(sealed)) => read_whole(alloc, files, port, number, sealed),
        Ok(None) => Err(OpenFault::Damaged {
            part: Part::File(number),
            at: 0,
        }),
        Err(StoreFault::Failed) => Err(OpenFault::Failed),
        Err(StoreFault::Memory) => Err(OpenFault::Memory),
    }
}

/// Reads the file of a token whole, which goes back to the files where that fails.
fn read_whole<F: Files>(
    alloc: Global,
    files: &mut F,
    port: &mut F::Port,
    number: FileNumber,
    sealed: F::Sealed,
) -> Result<(F::Sealed, FileMeta), OpenFault>
    requires store { (F.Sealed.file sealed).store ≡ F.store files.old }
    requires port { F.Port.store port.old ≡ F.store files.old }
    requires no_rights { F.Sealed.rights sealed ≡ 0 }
    ensures token { IfOk result (λ r. F.Sealed.file r.0 ≡ F.Sealed.file sealed) }
    ensures no_rights { IfOk result (λ r. F.Sealed.rights r.0 ≡ 0) }
    ensures same { IfOk result (λ r. F.at_rest files.new ≡ F.at_rest files.old) }
    ensures whole { IfOk result (λ r. IfSome (F.Sealed.file sealed).bytes (λ bytes. IsMetaOfTree bytes r.1)) }
    ensures tree { IfOk result (λ r. IfSome (F.Sealed.file sealed).bytes (λ bytes. (tree : Tree) → IsTree tree
        → IsMade tree → IsFile tree bytes → IsMetaOf tree bytes r.1)) }
    ensures damaged { (part : store_part.Part) (at : ℕ) → IsErrOf result (OpenFault.Damaged part at)
        → (part ≡ parts.File number) × IfSome (F.Sealed.file sealed).bytes IsNoFile
        × IfSome (F.Sealed.file sealed).bytes (λ bytes. IsBlamed bytes at) }
    ensures back { OnErr result (WhereTold (PutsBack (F.Sealed.file sealed)) (F.at_rest files.old)
        (F.at_rest files.new)) }
    ensures same_store { F.store files.new ≡ F.store files.old }
    ensures same_port { F.Port.store port.new ≡ F.Port.store port.old }
    ensures faults { F.faults files.new ≡ F.faults files.old }
    ensures later { F.Port.faults port.old ≤ F.Port.faults port.new }
    ensures failed { IsErrOf result OpenFault.Failed → Rose (F.Port.faults port.old) (F.Port.faults port.new) }
{
    let mut sealed = sealed;
    match check_sealed(alloc, port, &mut sealed) {
        Ok(meta) => Ok((sealed, meta)),
        Err(fault) => {
            files.keep(sealed);
            Err(file_fault(number, fault))
        }
    }
}

/// The fault of a file that could not be read.
fn file_fault(number: FileNumber, fault: ReadFault) -> OpenFault
    ensures { result ≡ of_read number fault }
{
    match fault {
        ReadFault::Failed => OpenFault::Failed,
        ReadFault::Damaged { at } => OpenFault::Damaged {
            part: Part::File(number),
            at,
        },
        ReadFault::Memory => OpenFault::Memory,
    }
}

/// Reads the file of a token whole, of which no right is out: what the file says of itself, or where it is damaged.
fn check_sealed<P: Port>(
    alloc: Global,
    port: &mut P,
    sealed: &mut P::Sealed,
) -> Result<FileMeta, ReadFault>
    requires store { (P.Sealed.file sealed.old).store ≡ P.store port.old }
    requires no_rights { P.Sealed.rights sealed.old ≡ 0 }
    ensures answers { Answers IsMetaOfTree IsBlamed (P.Sealed.file sealed.old).bytes result }
    ensures bad { IfDamaged result (λ at. IfSome (P.Sealed.file sealed.old).bytes IsNoFile) }
    ensures tree { IfSome (P.Sealed.file sealed.old).bytes (λ bytes. (tree : Tree) → IsTree tree → IsMade tree
        → IsFile tree bytes → IsNotDamaged result × IfOk result (IsMetaOf tree bytes)) }
    ensures file { P.Sealed.file sealed.new ≡ P.Sealed.file sealed.old }
    ensures no_rights { P.Sealed.rights sealed.new ≡ 0 }
    ensures same_store { P.store port.new ≡ P.store port.old }
    ensures cause { HasReadCause (P.faults port.old) (P.faults port.new) result }
{
    match P::share(sealed) {
        Ok(right) => {
            let outcome = check_file(alloc, port, &right);
            P::give_back(sealed, right);
            outcome
        }
        Err(_) => Err(ReadFault::Memory),
    }
}
