//! How the store of a directory is opened, and how a new one is made so that a stop at any moment leaves a directory
//! that is opened as a new store.
//!
//! - The slots are the files `slot0` and `slot1`, and the files of the store end in `.tsfile`. Other names are left
//!   alone.
//! - An exclusive advisory lock on the directory is taken first, and held as long as the store is open. Nothing in a
//!   directory that another program holds is touched. `slot0` is locked too, before anything is written to it, so two
//!   directories that share it by a link are not open at once. The two slots are two files.
//! - From then on all is reached through the open directory, and not by its name.
//! - Without a `slot0` the store is not finished. It is made where the directory has no file of a store, and no
//!   `slot1` but one of a single byte 0. Otherwise a log was lost, and that is a fault.
//! - A new slot is written under another name, synced and renamed, and then the directory is synced: first `slot1`,
//!   then `slot0`. The parent of the directory is synced before, so that its name is on the disk; not where the
//!   directory was there and its parent may not be read.
//! - Every opening syncs both slots and the directory: what a killed program left may be in the system's memory alone,
//!   and the entries may be those of an opening that was stopped.
//!
//! Depends on `slot_directory`.
ghost use Rattle.std.specs.Prelude.{◌≡◌, ◌≢◌, ◌⊎◌, ◌↔◌, ◌≤◌, [], ◌∷◌, None, true, IfOk, IfSome, IsTrue, OnErr, OnOk};
ghost use Rattle.tsdb_base.specs.Causes.{Rose};
ghost use Rattle.tsdb_outside.specs.Causes.{HasCause};
ghost use Rattle.tsdb_outside.specs.declared.disk.Slot.TheVariants.{A, B};
ghost use Rattle.fs_outside.specs.Directory.{Becomes};
ghost use Rattle.fs_outside.specs.SlotDirectory.{AreNamesDurable, ElapsesBy, HasSlots, IsUnfinished};
ghost use Rattle.fs_outside.specs.SlotDirectory.{KeepsDirectory, StaysDurable, with_unfinished};
ghost use Rattle.fs_outside.specs.Opening.{HasLostSlot, HasNewSlot, HasOwnName, IsDurableAs, IsMadeNew, KeepsStore};
ghost use Rattle.fs_outside.specs.Opening.{AreSlotsLocked, MakesStore, OpensStore, with_new_slot};

use crate::locked_directory::{LockedDirectory, lock_directory};
use crate::slot_directory::{SlotDirectory, SlotsOnDisk};
use std::fs::File;
use std::io::{self, ErrorKind};
use std::rt::Files;
use tsdb_outside::Slot;

// Writes the file of a new slot, one byte 0, under its other name.
fn write_slot<D: SlotDirectory>(directory: &mut D, slot: Slot) -> io::Result<()>
    ensures written { OnOk result (Becomes (with_unfinished (0 ∷ []) true)
        (D.state directory.old).seen (D.state directory.new).seen) }
    ensures stays { StaysDurable (D.state directory.old) (D.state directory.new) }
    ensures cause { HasCause (D.state directory.old).faults (D.state directory.new).faults result }
{
    directory.create_unfinished(slot)?;
    directory.write_unfinished(&[0])?;
    directory.sync_unfinished()
}

// Makes a slot of one byte 0, whose bytes and name are durable.
fn make_slot<D: SlotDirectory>(directory: &mut D, slot: Slot) -> io::Result<()>
    ensures made { OnOk result (Becomes (with_new_slot slot)
        (D.state directory.old).seen (D.state directory.new).seen) }
    ensures durable { OnOk result (AreNamesDurable (D.state directory.new)) }
    ensures moments { IfSome (D.state directory.old).seen (λ _.
        ElapsesBy (HasNewSlot slot (D.state directory.old).may_leave) (D.state directory.old) (D.state directory.new)) }
    ensures cause { HasCause (D.state directory.old).faults (D.state directory.new).faults result }
{
    write_slot(directory, slot)?;
    directory.rename(slot)?;
    directory.sync_names()
}

// Makes a new store, `slot0` last: while it is missing the store is not finished, and is made again.
fn make_store<D: SlotDirectory>(directory: &mut D) -> io::Result<()>
    ensures made { OnOk result (IfSome (D.state directory.old).seen (λ view. IsUnfinished view.image
        → IsMadeNew (D.state directory.new))) }
    ensures moments { MakesStore (D.state directory.old) (D.state directory.new) }
    ensures cause { HasCause (D.state directory.old).faults (D.state directory.new).faults result }
{
    directory.sync_parent()?;
    make_slot(directory, Slot::B)?;
    make_slot(directory, Slot::A)
}

// Whether a directory without the first slot has a store that is not finished.
fn is_unfinished<D: SlotDirectory>(directory: &mut D) -> io::Result<bool>
    ensures exact { IfOk result (λ is. IfSome (D.state directory.old).seen (λ view. view.image.a ≡ None
        → (IsTrue is ↔ IsUnfinished view.image))) }
    ensures keeps { KeepsDirectory (D.state directory.old) (D.state directory.new) }
    ensures cause { HasCause (D.state directory.old).faults (D.state directory.new).faults result }
{
    if directory.has_files()? {
        return Ok(false);
    }
    if !directory.has_slot(Slot::B)? {
        return Ok(true);
    }
    directory.is_one_zero(Slot::B)
}

// Makes a new store where the store is not finished.
fn finish_store<D: SlotDirectory>(directory: &mut D) -> io::Result<()>
    ensures finished { OnOk result (IfSome (D.state directory.old).seen (λ view.
        IsUnfinished view.image × IsMadeNew (D.state directory.new)
        ⊎ view.image.a ≢ None × (D.state directory.new).seen ≡ (D.state directory.old).seen)) }
    ensures moments { MakesStore (D.state directory.old) (D.state directory.new) }
    ensures kept { KeepsStore (D.state directory.old) (D.state directory.new) }
    ensures reason { OnErr result (Rose (D.state directory.old).faults (D.state directory.new).faults
        ⊎ HasLostSlot (D.state directory.old)) }
    ensures later { (D.state directory.old).faults ≤ (D.state directory.new).faults }
{
    if directory.has_slot(Slot::A)? {
        return Ok(());
    }
    if !is_unfinished(directory)? {
        return Err(io::Error::from(ErrorKind::NotFound));
    }
    make_store(directory)
}

// Makes the bytes of both slots durable, and their names.
fn sync_slots<D: SlotDirectory>(directory: &mut D, a: &D::File, b: &D::File) -> io::Result<()>
    ensures durable { OnOk result (D.File.slot a.now ≡ A → D.File.slot b.now ≡ B
        → IfSome (D.state directory.old).seen (λ view. IsDurableAs view.image (D.state directory.new))) }
    ensures named { OnOk result (HasOwnName (D.state directory.old) → HasOwnName (D.state directory.new)) }
    ensures locked { OnOk result (AreSlotsLocked (D.state directory.old) → AreSlotsLocked (D.state directory.new)) }
    ensures stays { StaysDurable (D.state directory.old) (D.state directory.new) }
    ensures cause { HasCause (D.state directory.old).faults (D.state directory.new).faults result }
{
    directory.sync_slot(a)?;
    directory.sync_slot(b)?;
    directory.sync_names()
}

// Takes the lock of the slots, and makes both durable.
fn hold_slots<D: SlotDirectory>(directory: &mut D, a: &D::File, b: &D::File) -> io::Result<()>
    ensures durable { OnOk result (D.File.slot a.now ≡ A → D.File.slot b.now ≡ B
        → IfSome (D.state directory.old).seen (λ view. IsDurableAs view.image (D.state directory.new))) }
    ensures named { OnOk result (HasOwnName (D.state directory.old) → HasOwnName (D.state directory.new)) }
    ensures locked { OnOk result (D.File.slot a.now ≡ A → D.File.slot b.now ≡ B
        → IfSome (D.state directory.old).seen (λ _. AreSlotsLocked (D.state directory.new))) }
    ensures stays { StaysDurable (D.state directory.old) (D.state directory.new) }
    ensures cause { HasCause (D.state directory.old).faults (D.state directory.new).faults result }
{
    directory.lock_slots(a, b)?;
    sync_slots(directory, a, b)
}

// Opens both slots.
fn open_both<D: SlotDirectory>(directory: &mut D) -> io::Result<(D::File, D::File)>
    ensures slots { IfOk result (λ files. D.File.slot files.0 ≡ A × D.File.slot files.1 ≡ B) }
    ensures there { OnOk result (IfSome (D.state directory.old).seen (λ view. HasSlots view.image)) }
    ensures keeps { KeepsDirectory (D.state directory.old) (D.state directory.new) }
    ensures reason { OnErr result (Rose (D.state directory.old).faults (D.state directory.new).faults
        ⊎ IfSome (D.state directory.old).seen (λ view. ¬ HasSlots view.image)) }
    ensures later { (D.state directory.old).faults ≤ (D.state directory.new).faults }
{
    let a = directory.open(Slot::A)?;
    let b = directory.open(Slot::B)?;
    Ok((a, b))
}

/// Opens the store of a directory, which is made where it is not finished. The slots are as durable as they are seen.
pub fn open_slots<D: SlotDirectory>(directory: &mut D) -> io::Result<(D::File, D::File)>
    ensures slots { IfOk result (λ files. D.File.slot files.0 ≡ A × D.File.slot files.1 ≡ B) }
    ensures opened { OnOk result (OpensStore (D.state directory.old) (D.state directory.new)) }
    ensures locked { OnOk result (IfSome (D.state directory.old).seen (λ _. AreSlotsLocked (D.state directory.new))) }

    // At each moment a stop leaves what is opened as a new store, or as the store that was there.
    ensures made { MakesStore (D.state directory.old) (D.state directory.new) }
    ensures kept { KeepsStore (D.state directory.old) (D.state directory.new) }
    ensures reason { OnErr result (Rose (D.state directory.old).faults (D.state directory.new).faults
        ⊎ HasLostSlot (D.state directory.old)) }
    ensures later { (D.state directory.old).faults ≤ (D.state directory.new).faults }
{
    finish_store(directory)?;
    let (a, b) = open_both(directory)?;
    hold_slots(directory, &a, &b)?;
    Ok((a, b))
}

/// The slots of a store, and its directory with the lock.
#[derive(Drop)]
pub struct OpenStore {
    pub a: File,
    pub b: File,
    pub directory: LockedDirectory,
}

/// Opens the store of the directory, which is made where there is none.
pub fn open_store<R: Files<File = File> + AllocGlobal + Clone + Drop>(
    rt: &R,
    dir: &str,
) -> io::Result<OpenStore> {
    let mut slots = SlotsOnDisk::new(rt, dir, lock_directory(rt, dir)?);
    let (a, b) = open_slots(&mut slots)?;
    Ok(OpenStore {
        a: a.file,
        b: b.file,
        directory: slots.directory,
    })
}
