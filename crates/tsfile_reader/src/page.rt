//! One part between the head and the leaves by itself: the head of a group, the head of a chunk, a page. Depends on
//! tsdb_fields and tsdb_pages.
ghost use Rattle.std.specs.Prelude.{◌≡◌, ℕ, ◌↔◌, ◌∷◌, [], ◌++◌, IsTrue, List, true, MatchOption};
ghost use Rattle.tsdb_base.specs.Values.{is_suitable};
ghost use Rattle.tsdb_fields.specs.Reading.{ReadsParts, TakesBytes};
ghost use Rattle.tsdb_path.specs.Nodes.{IsPath};
ghost use Rattle.tsdb_pages.specs.File.{page_bytes};
ghost use Rattle.tsfile_reader.specs.Page.{AreGood};
ghost use Rattle.tsfile_reader.specs.Parts.{FilePart, part_field};
ghost use Rattle.tsfile_reader.specs.Steps.{BeginsWithMark, IsBodySize, IsChunkHead, body_bytes, chunk_part};

use std::alloc::Global;
use tsdb_base::{DataType, Encoding, Point, suits};
use tsdb_fields::{FieldFault, Rest, read_field, read_name, read_path};
use tsdb_index::marks::{CHUNK, GROUP, PAGE};
use tsdb_pages::PageFault;
use tsdb_path::{Name, Path};

/// What stands in a chunk before its pages.
#[derive(Drop)]
pub struct ChunkHead {
    pub measurement: Name,
    pub data_type: DataType,
    pub encoding: Encoding,
}

/// Whether the bytes that are left begin with the mark.
pub fn begins_with_mark(mark: u8, rest: Rest<'_>) -> bool
    ensures { IsTrue result ↔ BeginsWithMark mark rest.entry.bytes.now }
{
    match rest.bytes {
        [] => false,
        [first, ..] => *first == mark,
    }
}

/// What is left behind the mark, if it stands first.
fn behind_mark(mark: u8, rest: Rest<'_>) -> Option<Rest<'_>>
    ensures { MatchOption result ((fields : List ℕ) → rest.entry.bytes.now ≡ mark ∷ fields → ⊥)
        (λ behind. TakesBytes rest.entry (mark ∷ []) behind) }
{
    let [first, fields @ ..] = rest.bytes else {
        return None;
    };
    if *first != mark {
        return None;
    }
    Some(Rest {
        at: rest.at + 1,
        bytes: fields,
    })
}

/// Reads what stands in a group before its chunks.
pub fn read_group_head<'a>(alloc: Global, rest: Rest<'a>) -> Result<(Path, Rest<'a>), FieldFault>
    ensures parts { ReadsParts (λ device. part_field (FilePart.Group device)) IsPath rest.entry (λ device. device) result }
{
    let Some(fields) = behind_mark(GROUP, rest) else {
        return Err(FieldFault::Bad { at: rest.at });
    };
    read_path(alloc, fields)
}

/// Reads what stands in a chunk before its pages.
pub fn read_chunk_head<'a>(
    alloc: Global,
    rest: Rest<'a>,
) -> Result<(ChunkHead, Rest<'a>), FieldFault>
    ensures parts { ReadsParts (λ head. part_field (chunk_part head)) IsChunkHead rest.entry (λ head. head) result }
{
    let bad = FieldFault::Bad { at: rest.at };
    let Some(fields) = behind_mark(CHUNK, rest) else {
        return Err(bad);
    };
    let (measurement, behind) = read_name(alloc, fields)?;
    let ((data_type, encoding), behind) = read_field(alloc, behind)?;
    if !suits(data_type, encoding) {
        return Err(bad);
    }
    let head = ChunkHead {
        measurement,
        data_type,
        encoding,
    };
    Ok((head, behind))
}

/// Reads the bytes of a body behind their number.
fn read_body<'a>(alloc: Global, rest: Rest<'a>) -> Result<(&'a [u8], Rest<'a>), FieldFault>
    ensures parts { ReadsParts body_bytes IsBodySize rest.entry (λ body. body.now) result }
{
    let (count, behind) = read_field::<u32>(alloc, rest)?;
    let count = count as usize;
    if behind.bytes.len() < count {
        return Err(FieldFault::Bad { at: rest.at });
    }
    let (body, others) = behind.bytes.split_at(count);
    let at = behind.at + count as u64;
    Ok((body, Rest { at, bytes: others }))
}

/// Reads a page of this type and encoding.
pub fn read_marked_page<'a>(
    alloc: Global,
    data_type: DataType,
    encoding: Encoding,
    rest: Rest<'a>,
) -> Result<(Vec<Point>, Rest<'a>), FieldFault>
    requires suits { is_suitable data_type encoding ≡ true }
    ensures parts { ReadsParts (page_bytes encoding) (AreGood data_type) rest.entry
        (λ points. points.items) result }
{
    let bad = FieldFault::Bad { at: rest.at };
    let Some(fields) = behind_mark(PAGE, rest) else {
        return Err(bad);
    };
    let (body, behind) = read_body(alloc, fields)?;
    match tsdb_pages::read_page(alloc, body, data_type, encoding) {
        Ok(points) => Ok((points, behind)),
        Err(PageFault::Bad) => Err(bad),
        Err(PageFault::Memory) => Err(FieldFault::Memory),
    }
}
