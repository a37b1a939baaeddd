//! Reading many fields of one kind, one behind another. Depends on `rest` and `fault`.
ghost use Rattle.std.specs.Prelude.{ℕ, List};
ghost use Rattle.std.specs.List.{flat_map};
ghost use Rattle.tsdb_base.specs.Plain.{AreValues};
ghost use Rattle.tsdb_fields.specs.Reading.{IsBadBehind, ReadsOr};

use crate::fault::FieldFault;
use crate::rest::Rest;
use std::alloc::Global;

/// Reads fields of one kind. It has what is known of them from elsewhere.
pub trait FieldReader {
    /// What is read.
    type Field: Drop;

    /// The bytes of a field.
    ghost spelling: { Self.Field → List ℕ };

    /// What it reads.
    ghost is_field: { Self → Self.Field → Type 0 };

    /// What the place of its fault says of where the field would begin, and of the bytes from there on.
    ghost is_bad: { Self → ℕ → List ℕ → ℕ → Type 0 };

    /// The field that the bytes begin with, and what stands behind it.
    fn read<'a>(&self, alloc: Global, rest: Rest<'a>) -> Result<(Self::Field, Rest<'a>), FieldFault>
        ensures exact { ReadsOr spelling (is_field self.now) (is_bad self.now) rest.entry (λ field. field) result };
}

/// Reads so many fields. It takes room for those alone that are there. A fault is that of the first field that could
/// not be read.
pub fn read_fields<'a, R: FieldReader>(
    reader: &R,
    alloc: Global,
    count: u64,
    rest: Rest<'a>,
) -> Result<(Vec<R::Field>, Rest<'a>), FieldFault>
    ensures exact { ReadsOr (flat_map R.spelling) (AreValues (R.is_field reader.now) count)
        (IsBadBehind R.spelling (R.is_field reader.now) (R.is_bad reader.now) count) rest.entry
        (λ fields. fields.items) result }
{
    let mut fields = Vec::new(alloc);
    let mut left = rest;
    for _ in 0..count {
        let (field, behind) = reader.read(alloc, left)?;
        fields.push(field)?;
        left = behind;
    }
    Ok((fields, left))
}
