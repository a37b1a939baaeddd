//! Reading the file: the index has the place of each page of a series. Depends on tsfile_reader.
ghost use Rattle.std.specs.Prelude.{◌≡◌, ◌≤◌};
ghost use Rattle.tsdb_path.specs.Nodes.{node_count};

use std::alloc::Global;
use tsdb_base::{List, Point};
use tsdb_index::IndexEntry;
use tsdb_outside::Port;
use tsdb_path::Path;
use tsfile_reader::{ReadFault, find_entry, read_points};

/// The points of a chunk, page by page.
fn read_pages<P: Port>(
    alloc: Global,
    port: &mut P,
    right: &P::Right,
    entry: &IndexEntry,
) -> Result<Vec<Point>, ReadFault>
    requires { (P.Right.file right.now).store ≡ P.store port.old }
    ensures { P.store port.new ≡ P.store port.old }
{
    let mut points = Vec::new(alloc);
    for page in 0..entry.pages.items().len() {
        let mut more = read_points(alloc, port, right, entry, page)?;
        points.append(&mut more)?;
    }
    Ok(points)
}

/// The points of a series in the file: none where it does not have the series.
pub fn read_series<P: Port>(
    alloc: Global,
    port: &mut P,
    right: &P::Right,
    path: &Path,
) -> Result<Vec<Point>, ReadFault>
    requires nodes { 2 ≤ node_count path.now }
    requires store { (P.Right.file right.now).store ≡ P.store port.old }
    ensures { P.store port.new ≡ P.store port.old }
{
    let device = path.device()?;
    let measurement = path.measurement_name()?;
    match find_entry(alloc, port, right, &device, &measurement)? {
        Some(entry) => read_pages(alloc, port, right, &entry),
        None => Ok(Vec::new(alloc)),
    }
}
