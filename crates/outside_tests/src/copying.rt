//! A small file copied from one store into another, as a backup does. What goes through a port, and what is kept, is of
//! the port's store. Depends on `tsdb_outside`.
ghost use Rattle.std.specs.Prelude.{◌≡◌};

use tsdb_base::FileNumber;
use tsdb_outside::{Failed, Files, Port, StoreFault};

/// The first four bytes of a file from a place on, or as many as there are, and how many bytes the file has.
pub type FileBytes = ([u8; 4], u64);

/// Reads a file from a place on, or from its end where it ends before, through a right that it takes back.
pub fn read_shared<P: Port>(
    port: &mut P,
    sealed: &mut P::Sealed,
    at: u64,
) -> Result<FileBytes, StoreFault>
    requires rights { P.Sealed.rights sealed.old ≡ 0 }
    requires store { (P.Sealed.file sealed.old).store ≡ P.store port.old }
    ensures rights { P.Sealed.rights sealed.new ≡ 0 }
    ensures file { P.Sealed.file sealed.new ≡ P.Sealed.file sealed.old }
    ensures port { P.store port.new ≡ P.store port.old }
{
    let right = P::share(sealed)?;
    let mut bytes = [0; 4];
    let read = match port.size(&right) {
        Ok(size) => {
            let at = at.min(size);
            let count = (size - at).min(4) as usize;
            match port.read(&right, at, &mut bytes[..count]) {
                Ok(()) => Ok((bytes, size)),
                Err(Failed) => Err(StoreFault::Failed),
            }
        }
        Err(Failed) => Err(StoreFault::Failed),
    };
    P::give_back(sealed, right);
    read
}

/// The bytes of a file from a place on, or none where it is not there.
pub fn fetch_and_read<F: Files>(
    files: &mut F,
    number: u64,
    at: u64,
) -> Result<Option<FileBytes>, StoreFault>
    ensures { F.store files.new ≡ F.store files.old }
{
    let mut port = files.port()?;
    let read = match files.fetch(FileNumber(number)) {
        Ok(Some(mut sealed)) => {
            let read = read_shared(&mut port, &mut sealed, at);
            files.keep(sealed);
            match read {
                Ok(read) => Ok(Some(read)),
                Err(fault) => Err(fault),
            }
        }
        Ok(None) => Ok(None),
        Err(fault) => Err(fault),
    };
    files.end_port(port);
    read
}

/// Copies a file of at most four bytes into another store. Whether it was there.
pub fn copy_file<F: Files>(from: &mut F, to: &mut F, number: u64) -> Result<bool, StoreFault>
    ensures from { F.store from.new ≡ F.store from.old }
    ensures to { F.store to.new ≡ F.store to.old }
{
    let Some(read) = fetch_and_read(from, number, 0)? else {
        return Ok(false);
    };
    let length = read.1.min(4) as usize;
    let mut port = to.port()?;
    let sealed = port.put(FileNumber(number), &read.0[..length]);
    to.end_port(port);
    to.keep(sealed?);
    Ok(true)
}
