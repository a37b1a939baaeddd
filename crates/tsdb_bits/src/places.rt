//! Packed numbers, where a list has them at its end. It depends on `fault` and `packing`.
ghost use Rattle.std.specs.Prelude.{◌≤◌, IfOk, IsErrOf};
ghost use Rattle.tsdb_base.specs.Limits.{max_values};
ghost use Rattle.tsdb_bits.specs.Faults.{IsPacking};
ghost use Rattle.tsdb_bits.specs.Lists.{HasNone};

use crate::fault::UnpackFault;
use crate::packing::unpack;
use std::alloc::Global;
use tsdb_base::DecodeFault;

/// The `count` numbers of which the bytes are the packing at the width. It is `Bad` exactly where
/// there are none.
pub fn take_packed(
    alloc: Global,
    bytes: &[u8],
    count: u64,
    width: u8,
) -> Result<Vec<u64>, DecodeFault>
    requires width_fits { width ≤ 64 }
    requires few { count ≤ max_values }
    ensures found { IfOk result (λ numbers. IsPacking width count bytes.now numbers.items) }
    ensures bad { IsErrOf result DecodeFault.Bad → HasNone (IsPacking width count bytes.now) }
{
    match unpack(alloc, bytes, count, width) {
        Ok(numbers) => Ok(numbers),
        Err(UnpackFault::Memory) => Err(DecodeFault::Memory),
        Err(UnpackFault::Short { .. }) => Err(DecodeFault::Bad),
        Err(UnpackFault::Overlong { .. }) => Err(DecodeFault::Bad),
    }
}
