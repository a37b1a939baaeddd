//! A file that a run left and that is cut then, and what the next run says of it.
ghost use Rattle.std.specs.Prelude.{◌≡◌};

use super::places::{NEW, place_of};
use super::runs::{Run, is_right};
use std::alloc::Global;
use tsdb_base::FileNumber;
use tsdb_outside::{Files, Place, Port, StoreFault};

/// All bytes of a file.
fn read_whole<P: Port>(alloc: Global, port: &mut P, right: &P::Right) -> Result<Vec<u8>, StoreFault>
    requires store { (P.Right.file right.now).store ≡ P.store port.old }
    ensures same_store { P.store port.new ≡ P.store port.old }
{
    let size = port.size(right)?;
    let mut bytes = vec![in alloc; 0; size as usize]?;
    port.read(right, 0, &mut bytes)?;
    Ok(bytes)
}

/// The bytes of the file of a token, of which no right is out.
fn bytes_of<P: Port>(
    alloc: Global,
    port: &mut P,
    sealed: &mut P::Sealed,
) -> Result<Vec<u8>, StoreFault>
    requires store { (P.Sealed.file sealed.old).store ≡ P.store port.old }
    requires no_rights { P.Sealed.rights sealed.old ≡ 0 }
    ensures file { P.Sealed.file sealed.new ≡ P.Sealed.file sealed.old }
    ensures no_rights { P.Sealed.rights sealed.new ≡ 0 }
    ensures same_store { P.store port.new ≡ P.store port.old }
{
    let right = P::share(sealed)?;
    let bytes = read_whole(alloc, port, &right);
    P::give_back(sealed, right);
    bytes
}

/// Takes bytes off the end of file 1, whose token this is, so that 265 are left. How many it had.
fn cut_sealed<F: Files>(
    alloc: Global,
    files: &mut F,
    port: &mut F::Port,
    sealed: F::Sealed,
) -> Result<usize, StoreFault>
    requires store { (F.Sealed.file sealed).store ≡ F.store files.old }
    requires port { F.Port.store port.old ≡ F.store files.old }
    requires no_rights { F.Sealed.rights sealed ≡ 0 }
    ensures same_store { F.store files.new ≡ F.store files.old }
    ensures same_port { F.Port.store port.new ≡ F.Port.store port.old }
{
    let mut sealed = sealed;
    let bytes = bytes_of(alloc, port, &mut sealed);
    port.remove(sealed)?;
    let bytes = bytes?;
    let cut = bytes.get(..265).unwrap_or(&[]);
    let sealed = port.put(FileNumber(1), cut)?;
    files.keep(sealed);
    Ok(bytes.len())
}

/// The same in the files of a store.
fn cut_file<F: Files>(alloc: Global, files: &mut F) -> Option<usize> {
    let Ok(mut port) = files.port() else {
        return None;
    };
    let had = match files.fetch(FileNumber(1)) {
        Ok(Some(sealed)) => cut_sealed(alloc, files, &mut port, sealed).ok(),
        _ => None,
    };
    files.end_port(port);
    had
}

/// The same in the store of a place.
fn cut_in<P: Place>(alloc: Global, place: &mut P) -> Option<usize> {
    let Ok((journal, mut files)) = place.take_up(b"d") else {
        return None;
    };
    let had = cut_file(alloc, &mut files);
    place.put_down(journal, files);
    had
}

/// The run that makes the store, and the one behind the cut.
const FLUSHED: Run = Run::RepliesTo(
    &["run", "d", "--workers", "0"],
    "C; I 1 5; flush",
    "ok / ok / ok",
);

const DAMAGED: Run = Run::Ends("S", 7, "damaged file 1 at 251\n");

/// Whether the first run leaves what it should, how many bytes the file had that it left, and whether the second run
/// leaves what it should.
fn cut_between<P: Place>(alloc: Global, place: &mut P) -> (bool, Option<usize>, bool) {
    let first = is_right(alloc, place, &FLUSHED);
    let had = cut_in(alloc, place);
    (first, had, is_right(alloc, place, &DAMAGED))
}

fn cut_in_new_store(alloc: Global) -> (bool, Option<usize>, bool) {
    match place_of(alloc, &NEW) {
        Ok(mut place) => cut_between(alloc, &mut place),
        Err(_) => (false, None, false),
    }
}

#[test]
fn file_without_its_last_byte_is_damaged_at_its_tail(rt: HostRuntime) {
    assert_eq!(rt; cut_in_new_store(rt.alloc()), (true, Some(266), true));
}
