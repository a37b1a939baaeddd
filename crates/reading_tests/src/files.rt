//! Files of the series `root.g.d.s`, its marks, and ports in memory.
use mem_outside::{Fails, MemPlace, MemPort};
use std::alloc::Global;
use std::test::Fail;
use tsdb_base::{DataType, Encoding, List, Point, Stamp, Time, Value};
use tsdb_marks::{Mark, Marks};
use tsdb_outside::{Files, Place};
use tsdb_pages::{Chunk, Group, Page, Tree, is_tree};
use tsdb_path::{Name, Path};
use tsfile_writer::write_tree;

/// A time and a value.
pub type Pair = (Time, i64);

/// A deletion of the times from the first to the second, with its version.
pub type Deletion = (Time, Time, u64);

/// A port of which this call fails.
pub fn port_failing(alloc: Global, number: u64) -> Result<MemPort, Fail> {
    let slots = [vec![in alloc; 0]?, vec![in alloc; 0]?];
    let fails = Fails {
        journal: Vec::new(alloc),
        files: vec![in alloc; number]?,
    };
    let mut place = MemPlace::new(alloc, slots, Vec::new(alloc), fails)?;
    let (_journal, mut files) = place.take_up(b"store")?;
    Ok(files.port()?)
}

pub fn points_of(alloc: Global, pairs: &[Pair]) -> Result<Vec<Point>, Fail> {
    let mut points = Vec::new(alloc);
    for pair in pairs {
        points.push(Point {
            time: pair.0,
            value: Value::I64(pair.1),
        })?;
    }
    Ok(points)
}

pub fn page_of(alloc: Global, pairs: &[Pair]) -> Result<Page, Fail> {
    Ok(Page {
        points: List::of(points_of(alloc, pairs)?),
    })
}

/// The bytes of the file with these pages.
pub fn file_of(alloc: Global, pages: Vec<Page>) -> Result<Vec<u8>, Fail> {
    let chunk = Chunk {
        measurement: Name::read(alloc, b"s")?,
        data_type: DataType::Int64,
        encoding: Encoding::Plain,
        pages: List::of(pages),
    };
    let group = Group {
        device: Path::read(alloc, b"root.g.d")?,
        chunks: List::of(vec![in alloc; chunk]?),
    };
    let tree = Tree {
        groups: List::of(vec![in alloc; group]?),
    };
    if !is_tree(&tree) {
        return Err("no tree".into());
    }
    Ok(write_tree(alloc, &tree)?)
}

/// Makes a place and adds the mark, where it is newer than all.
fn add(marks: &mut Marks, mark: Mark) -> Result<(), Fail> {
    marks.reserve()?;
    let version = mark.version.0;
    if marks.marks().iter().all(|kept| kept.version.0 < version) {
        marks.add(mark);
    }
    Ok(())
}

pub fn marks_of(alloc: Global, deletions: &[Deletion]) -> Result<Marks, Fail> {
    let mut marks = Marks::new(alloc);
    for deletion in deletions {
        let mark = Mark {
            path: Path::read(alloc, b"root.g.d.s")?,
            from: deletion.0,
            to: deletion.1,
            version: Stamp(deletion.2),
        };
        add(&mut marks, mark)?;
    }
    Ok(marks)
}
