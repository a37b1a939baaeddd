//! The calls that read a file. Depends on `port`, `parts`, `page`, `same` and `fault`.
ghost use Rattle.std.specs.Prelude.{◌≡◌, ◌+◌, ◌<◌, ◌≤◌, ◌↔◌, ◌∷◌, ◌++◌, IsTrue, List, true, length, IfOk, IfSome};
ghost use Rattle.tsdb_base.specs.Values.{is_suitable};
ghost use Rattle.tsdb_index.specs.declared.index.PageEntry.{PageEntry as Said};
ghost use Rattle.tsdb_index.specs.declared.pointer.Pointer.{Pointer as Pointed};
ghost use Rattle.tsdb_pages.specs.declared.tree.Tree.{Tree as TreeIn};
ghost use Rattle.tsdb_pages.specs.File.{IsFile};
ghost use Rattle.tsdb_base.specs.Points.{IsRising};
ghost use Rattle.tsdb_pages.specs.Trees.{IsMade, IsTree};
ghost use Rattle.tsfile_reader.specs.Answers.{Answers, HasReadCause, IfDamaged, IsNotDamaged};
ghost use Rattle.tsfile_reader.specs.Blame.{AreAlike, IsBlamed, IsMetaOfTree, IsNoFile};
ghost use Rattle.tsfile_reader.specs.Meta.{IsMetaIn, IsMetaOf};
ghost use Rattle.tsfile_reader.specs.Outline.{IsBadOutline};
ghost use Rattle.tsfile_reader.specs.Page.{AreGood, ArePagePoints, HasNoPage, HasPage, IsEntryOf, LieIn, SaysOfPage};
ghost use Rattle.tsfile_reader.specs.Steps.{HasPageBytes, IsFirstWrong, SaysSize};

use crate::ends::Outline;
use crate::fault::ReadFault;
use crate::outline::HEAD_BYTES;
use crate::page::read_marked_page;
use crate::parts::read_groups;
use crate::port::{read_outline, read_part};
use crate::same::is_same_entry;
use std::alloc::Global;
use tsdb_base::{Point, Stats, suits};
use tsdb_fields::Rest;
use tsdb_index::{FileMeta, IndexEntry, PageEntry};
use tsdb_outside::Port;

/// How many entries a leaf has, but for the last one.
const LEAF_ENTRIES: usize = 256;

/// How many bytes a page has before its body.
const PAGE_HEAD_BYTES: u64 = 5;

/// The most bytes that are read at first of the last page of a chunk, whose end the index does not say.
const LAST_PAGE_BYTES: u64 = 32_768;

/// How many of them are read for each point that the index says of the page, and how many beside. A page of numbers
/// has fewer.
const POINT_BYTES: u64 = 24;

const OTHER_BYTES: u64 = 64;

/// Reads the length, the version and the index of a file, by its tail, head, root and leaves alone.
pub fn read_meta<P: Port>(
    alloc: Global,
    port: &mut P,
    right: &P::Right,
) -> Result<FileMeta, ReadFault>
    requires { (P.Right.file right.now).store ≡ P.store port.old }
    ensures answers { Answers IsMetaIn IsBadOutline (P.Right.file right.now).bytes result }
    ensures tree { IfSome (P.Right.file right.now).bytes (λ bytes. (tree : TreeIn) → IsTree tree → IsMade tree
        → IsFile tree bytes → IsNotDamaged result × IfOk result (IsMetaOf tree bytes)) }
    ensures same_store { P.store port.new ≡ P.store port.old }
    ensures cause { HasReadCause (P.faults port.old) (P.faults port.new) result }
{
    let outline = read_outline(alloc, port, right)?;
    Ok(FileMeta {
        size: outline.ends.size,
        version: outline.ends.version,
        index: outline.index,
    })
}

/// How many bytes to read of a page at first, where its file has so many from its place on.
fn first_size(entry: &IndexEntry, page: usize, left: u64) -> u64
    requires { page < length entry.now.pages }
    ensures left { result ≤ left }
    ensures head { result < 5 → result ≡ left }
{
    let pages = entry.pages.items();
    let size = if page + 1 < pages.len() {
        pages[page + 1].place.saturating_sub(pages[page].place)
    } else {
        let points = pages[page].stats.count.saturating_mul(POINT_BYTES);
        points.saturating_add(OTHER_BYTES).min(LAST_PAGE_BYTES)
    };
    size.max(PAGE_HEAD_BYTES).min(left)
}

/// How many bytes the page has that begins here, as its first five bytes say.
fn page_size(bytes: &[u8]) -> u64
    ensures { SaysSize bytes.now result }
{
    if bytes.len() < PAGE_HEAD_BYTES as usize {
        return PAGE_HEAD_BYTES;
    }
    let (head, _behind) = bytes.split_at(PAGE_HEAD_BYTES as usize);
    let count = u32::from_be_bytes([head[1], head[2], head[3], head[4]]);
    PAGE_HEAD_BYTES + u64::from(count)
}

/// Reads the bytes from a page on, of which so many are left in the file, and so many are read first. They are read
/// once more where the page says that it has more.
fn read_page_bytes<P: Port>(
    alloc: Global,
    port: &mut P,
    right: &P::Right,
    place: u64,
    first: u64,
    left: u64,
) -> Result<Vec<u8>, ReadFault>
    requires left { IfSome (P.Right.file right.now).bytes (λ bytes. place + left ≡ length bytes) }
    requires first { first ≤ left }
    requires head { first < 5 → first ≡ left }
    requires store { (P.Right.file right.now).store ≡ P.store port.old }
    ensures bytes { IfOk result (λ part. IfSome (P.Right.file right.now).bytes (λ bytes.
        HasPageBytes bytes place part.items)) }
    ensures no_damage { IsNotDamaged result }
    ensures same_store { P.store port.new ≡ P.store port.old }
    ensures cause { HasReadCause (P.faults port.old) (P.faults port.new) result }
{
    let bytes = read_part(alloc, port, right, place, first)?;
    let size = page_size(&bytes);
    if size <= first || left < size {
        return Ok(bytes);
    }
    read_part(alloc, port, right, place, size)
}

/// Whether points in order of time lie between the first and the last time of the statistics.
fn lie_in(points: &[Point], stats: &Stats) -> bool
    requires some { 0 < length points.now }
    requires rising { IsRising points.now }
    ensures { IsTrue result ↔ LieIn stats.now points.now }
{
    stats.start <= points[0].time && points[points.len() - 1].time <= stats.end
}

/// Reads the points of the page of which the entry says this, where its file has so many bytes from the page on.
fn read_points_at<P: Port>(
    alloc: Global,
    port: &mut P,
    right: &P::Right,
    entry: &IndexEntry,
    page: &PageEntry,
    sizes: (u64, u64),
) -> Result<Vec<Point>, ReadFault>
    requires left { IfSome (P.Right.file right.now).bytes (λ bytes. page.now.place + sizes.1 ≡ length bytes) }
    requires first { sizes.0 ≤ sizes.1 }
    requires head { sizes.0 < 5 → sizes.0 ≡ sizes.1 }
    requires suits { is_suitable entry.now.data_type entry.now.encoding ≡ true }
    requires store { (P.Right.file right.now).store ≡ P.store port.old }
    ensures answers { Answers (λ bytes points. HasPage bytes entry.now page.now points.items)
        (λ bytes at. (at ≡ page.now.place) × HasNoPage bytes entry.now page.now) (P.Right.file right.now).bytes result }
    ensures place { IfDamaged result (λ at. at ≡ page.now.place) }
    ensures points { IfOk result (λ points. AreGood entry.now.data_type points.items) }
    ensures within { IfOk result (λ points. LieIn page.now.stats points.items) }
    ensures same_store { P.store port.new ≡ P.store port.old }
    ensures cause { HasReadCause (P.faults port.old) (P.faults port.new) result }
{
    let (first, left) = sizes;
    let bytes = read_page_bytes(alloc, port, right, page.place, first, left)?;
    let rest = Rest {
        at: 0,
        bytes: &bytes,
    };
    match read_marked_page(alloc, entry.data_type, entry.encoding, rest) {
        Ok((points, _behind)) => {
            if !lie_in(&points, &page.stats) {
                return Err(ReadFault::Damaged { at: page.place });
            }
            Ok(points)
        }
        Err(fault) => Err(ReadFault::of_part(fault, page.place)),
    }
}

/// Reads the points of a page. It is `Damaged` at the page's place where no page of the entry's type and encoding
/// stands there, of which each point lies in the range of times that the entry says of it.
pub fn read_points<P: Port>(
    alloc: Global,
    port: &mut P,
    right: &P::Right,
    entry: &IndexEntry,
    page: usize,
) -> Result<Vec<Point>, ReadFault>
    requires page { page < length entry.now.pages }
    requires store { (P.Right.file right.now).store ≡ P.store port.old }
    ensures found { IfOk result (λ points. IfSome (P.Right.file right.now).bytes (λ bytes.
        (said : Said) → SaysOfPage entry.now page said → HasPage bytes entry.now said points.items)) }
    ensures points { IfOk result (λ points. AreGood entry.now.data_type points.items) }
    ensures within { IfOk result (λ points. (said : Said) → SaysOfPage entry.now page said
        → LieIn said.stats points.items) }
    ensures damaged { IfDamaged result (λ at. (said : Said) → SaysOfPage entry.now page said → at ≡ said.place) }
    ensures bad { IfDamaged result (λ at. IfSome (P.Right.file right.now).bytes (λ bytes.
        (said : Said) → SaysOfPage entry.now page said → HasNoPage bytes entry.now said)) }
    ensures tree { IfSome (P.Right.file right.now).bytes (λ bytes. (tree : TreeIn) → IsTree tree → IsMade tree
        → IsFile tree bytes → IsEntryOf tree entry.now
        → IsNotDamaged result × IfOk result (λ points. ArePagePoints tree entry.now page points.items)) }
    ensures same_store { P.store port.new ≡ P.store port.old }
    ensures cause { HasReadCause (P.faults port.old) (P.faults port.new) result }
{
    let said = &entry.pages.items()[page];
    let size = port.size(right)?;
    if size < said.place || !suits(entry.data_type, entry.encoding) {
        return Err(ReadFault::Damaged { at: said.place });
    }
    let left = size - said.place;
    let first = first_size(entry, page, left);
    read_points_at(alloc, port, right, entry, said, (first, left))
}

/// How many entries are the same in both, from the first on.
fn count_same(entries: &[IndexEntry], said: &[IndexEntry]) -> usize
    ensures { AreAlike entries.now said.now result }
{
    let most = entries.len().min(said.len());
    for i in 0..most {
        if !is_same_entry(&entries[i], &said[i]) {
            return i;
        }
    }
    most
}

/// The number of the leaf that is wrong, if the entries are not what the groups say.
fn wrong_leaf(entries: &[IndexEntry], said: &[IndexEntry]) -> Option<usize>
    ensures { IsFirstWrong entries.now said.now result }
{
    let same = count_same(entries, said);
    if same == entries.len() && same == said.len() {
        None
    } else {
        Some(same.min(entries.len().saturating_sub(1)) / LEAF_ENTRIES)
    }
}

/// Where the leaf with this number stands, as its pointer says. A root without such a pointer has the first leaf alone.
fn leaf_place(outline: &Outline, leaf: usize) -> u64
    ensures { (before behind : List Pointed) (pointer : Pointed)
        → outline.now.pointers.items ≡ before ++ pointer ∷ behind → length before ≡ leaf → result ≡ pointer.place }
{
    match outline.pointers.get(leaf) {
        Some(pointer) => pointer.place,
        None => outline.place,
    }
}

/// Reads a file whole. It is `Damaged` exactly where no tree has its bytes, at the first part that is not as defined.
pub fn check_file<P: Port>(
    alloc: Global,
    port: &mut P,
    right: &P::Right,
) -> Result<FileMeta, ReadFault>
    requires { (P.Right.file right.now).store ≡ P.store port.old }
    ensures answers { Answers IsMetaOfTree IsBlamed (P.Right.file right.now).bytes result }
    ensures bad { IfDamaged result (λ at. IfSome (P.Right.file right.now).bytes IsNoFile) }
    ensures tree { IfSome (P.Right.file right.now).bytes (λ bytes. (tree : TreeIn) → IsTree tree → IsMade tree
        → IsFile tree bytes → IsNotDamaged result × IfOk result (IsMetaOf tree bytes)) }
    ensures same_store { P.store port.new ≡ P.store port.old }
    ensures cause { HasReadCause (P.faults port.old) (P.faults port.new) result }
{
    let outline = read_outline(alloc, port, right)?;
    let data = read_part(alloc, port, right, HEAD_BYTES, outline.place - HEAD_BYTES)?;
    let rest = Rest {
        at: HEAD_BYTES,
        bytes: &data,
    };
    let said = read_groups(alloc, outline.ends.version, rest)?;
    if let Some(leaf) = wrong_leaf(outline.index.entries.items(), &said) {
        let at = leaf_place(&outline, leaf);
        return Err(ReadFault::Damaged { at });
    }
    Ok(FileMeta {
        size: outline.ends.size,
        version: outline.ends.version,
        index: outline.index,
    })
}
