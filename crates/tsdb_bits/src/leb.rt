//! LEB128: numbers as groups of seven bits. It depends on this crate's faults.

ghost use Rattle.std.specs.Prelude.{◌≡◌, ℕ, ◌+◌, ◌-◌, ◌*◌, ◌^◌, ◌<◌, ◌≤◌, List, ◌++◌, length, take, drop, vec_len};
ghost use Rattle.std.specs.Prelude.{IfOk, IfErr, OnOk, OnErr};
ghost use Rattle.tsdb_base.specs.Plain.{BeginsWithNone};
ghost use Rattle.tsdb_bits.specs.Leb.{leb, IsCutShort};
ghost use Rattle.tsdb_bits.specs.Faults.{ExplainsLeb, ExplainsGroups};

use crate::fault::BitFault;
use tsdb_base::Memory;

/// The most bytes of a LEB128 number of 64 bits.
const MAX_GROUPS: usize = 10;

/// Appends the LEB128 bytes of `value`. After `Memory` the list is as it was.
pub fn put_leb(value: u64, into: &mut Vec<u8>) -> Result<(), Memory>
    ensures ok { OnOk result (into.new.items ≡ into.old.items ++ leb value) }
    ensures memory { OnErr result (into.new.items ≡ into.old.items) }
{
    if value < 128 {
        into.push(value as u8)?;
        return Ok(());
    }
    let mut groups = [0; MAX_GROUPS];
    let len = write_groups(value, &mut groups);
    into.extend_from_slice(&groups[..len])?;
    Ok(())
}

/// Writes the groups to the first places of the room, and returns how many there are.
fn write_groups(value: u64, room: &mut [u8; MAX_GROUPS]) -> usize
    ensures few { result ≤ 10 }
    ensures groups { take result room.new ≡ leb value }
{
    let mut rest = value;
    for i in 0..MAX_GROUPS - 1 {
        if rest < 128 {
            room[i] = rest as u8;
            return i + 1;
        }
        room[i] = (rest % 128) as u8 + 128;
        rest /= 128;
    }
    room[MAX_GROUPS - 1] = rest as u8;
    MAX_GROUPS
}

/// The number whose LEB128 bytes begin at `at`, and the place behind it.
///
/// It is `Short` where the bytes end after fewer than ten that all have the top bit, and `Overlong`
/// where they are not the shortest of the number or it passes 64 bits.
pub fn get_leb(bytes: &[u8], at: u64) -> Result<(u64, u64), BitFault>
    requires { at ≤ length bytes.now }
    ensures read { IfOk result (λ r. drop at bytes.now ≡ leb r.0 ++ drop r.1 bytes.now) }
    ensures behind { IfOk result (λ r. (at < r.1) × (r.1 ≤ length bytes.now)) }
    ensures short { IsCutShort (drop at bytes.now) → result ≡ Err (BitFault.Short (length bytes.now)) }
    ensures fault { IfErr result (ExplainsLeb bytes.now at) }
    // Where there is a fault, no number of 64 bits is spelled there.
    ensures none { OnErr result (BeginsWithNone leb (λ value. value < 2 ^ 64) (drop at bytes.now)) }
{
    match leb_in(&bytes[at as usize..]) {
        Ok((value, len)) => Ok((value, at + len)),
        Err(GroupFault::Cut) => Err(BitFault::Short {
            at: bytes.len() as u64,
        }),
        Err(GroupFault::Overlong) => Err(BitFault::Overlong { at }),
    }
}

/// Why bytes begin with no number.
#[derive(Clone, Copy)]
enum GroupFault {
    Cut,
    Overlong,
}

/// The number that the bytes begin with, and how many bytes it takes.
fn leb_in(bytes: &[u8]) -> Result<(u64, u64), GroupFault>
    ensures read { IfOk result (λ r. bytes.now ≡ leb r.0 ++ drop r.1 bytes.now) }
    ensures behind { IfOk result (λ r. (0 < r.1) × (r.1 ≤ length bytes.now)) }
    ensures whole { IfOk result (λ _. ¬ IsCutShort bytes.now) }
    ensures fault { IfErr result (ExplainsGroups bytes.now) }
    ensures none { OnErr result (BeginsWithNone leb (λ value. value < 2 ^ 64) bytes.now) }
{
    let mut low: u64 = 0;
    for i in 0..9 {
        let Some(&byte) = bytes.get(i) else {
            return Err(GroupFault::Cut);
        };
        let shift = 7 * i as u32;
        if byte < 128 {
            if byte == 0 && i > 0 {
                return Err(GroupFault::Overlong);
            }
            return Ok((low + (u64::from(byte) << shift), i as u64 + 1));
        }
        low += u64::from(byte - 128) << shift;
    }
    match bytes.get(9) {
        None => Err(GroupFault::Cut),
        Some(1) => Ok((low + (1 << 63), 10)),
        Some(_) => Err(GroupFault::Overlong),
    }
}
