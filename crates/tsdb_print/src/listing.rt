//! Appends the listing of a store. Depends on `append`.
ghost use Rattle.std.specs.Prelude.{◌≡◌, [], ◌∷◌, ◌++◌, OnOk, codes};
ghost use Rattle.std.specs.Fmt.{decimal};
ghost use Rattle.tsdb_print.specs.Text.{file_text, files_text, line, listing_text, space_name, span_text};
ghost use Rattle.tsdb_print.specs.Text.{working_text};

use crate::append::{append_signed, append_unsigned};
use std::alloc::AllocError;
use tsdb_base::Space;
use tsdb_model::{FileLine, Listing};

/// Appends the lines of a listing.
pub fn append_listing(listing: &Listing, into: &mut Vec<u8>) -> Result<(), AllocError>
    ensures { OnOk result (into.new.items ≡ into.old.items ++ listing_text listing.now) }
{
    append_files(Space::Sequence, listing.files.items(), into)?;
    append_files(Space::Unsequence, listing.files.items(), into)?;
    append_count(b"frozen ", listing.frozen, into)?;
    append_working(&listing.working, into)?;
    append_count(b"marks ", listing.marks, into)
}

/// Appends the line of the working pair.
fn append_working(points: &[u64; 2], into: &mut Vec<u8>) -> Result<(), AllocError>
    ensures { OnOk result (into.new.items ≡ into.old.items ++ line (working_text points.now)) }
{
    append_after(b"working ", points[0], into)?;
    append_count(b" ", points[1], into)
}

/// Appends words and a number, and ends the line.
fn append_count(words: &[u8], number: u64, into: &mut Vec<u8>) -> Result<(), AllocError>
    ensures { OnOk result (into.new.items ≡ into.old.items ++ line (words.now ++ decimal number)) }
{
    append_after(words, number, into)?;
    into.push(b'\n')?;
    Ok(())
}

/// Appends the lines of the files of a space, in their order.
fn append_files(space: Space, files: &[FileLine], into: &mut Vec<u8>) -> Result<(), AllocError>
    ensures { OnOk result (into.new.items ≡ into.old.items ++ files_text space files.now) }
{
    for file in files {
        append_file_of(space, file, into)?;
    }
    Ok(())
}

/// Appends the line of a file, if it is in the space.
fn append_file_of(space: Space, file: &FileLine, into: &mut Vec<u8>) -> Result<(), AllocError>
    ensures { OnOk result (into.new.items ≡ into.old.items ++ files_text space (file.now ∷ [])) }
{
    match (space, file.space) {
        (Space::Sequence, Space::Sequence) | (Space::Unsequence, Space::Unsequence) => {
            append_file(file, into)
        }
        _ => Ok(()),
    }
}

/// Appends the line of a file.
fn append_file(file: &FileLine, into: &mut Vec<u8>) -> Result<(), AllocError>
    ensures { OnOk result (into.new.items ≡ into.old.items ++ line (file_text file.now)) }
{
    into.extend_from_slice(name_of(file.space))?;
    append_after(b" ", file.number.0, into)?;
    append_after(b" born ", file.born.0, into)?;
    append_after(b" points ", file.points, into)?;
    append_span(file, into)?;
    into.push(b'\n')?;
    Ok(())
}

fn name_of(space: Space) -> &'static [u8]
    ensures { result.now ≡ space_name space }
{
    match space {
        Space::Sequence => b"sequence",
        Space::Unsequence => b"unsequence",
    }
}

/// Appends words and a number.
fn append_after(words: &[u8], number: u64, into: &mut Vec<u8>) -> Result<(), AllocError>
    ensures { OnOk result (into.new.items ≡ into.old.items ++ words.now ++ decimal number) }
{
    into.extend_from_slice(words)?;
    append_unsigned(number, into)
}

/// Appends the least and the greatest time of a file.
fn append_span(file: &FileLine, into: &mut Vec<u8>) -> Result<(), AllocError>
    ensures { OnOk result (into.new.items ≡ into.old.items ++ span_text file.now.from file.now.to) }
{
    into.extend_from_slice(b" from ")?;
    append_signed(file.from, into)?;
    into.extend_from_slice(b" to ")?;
    append_signed(file.to, into)
}
