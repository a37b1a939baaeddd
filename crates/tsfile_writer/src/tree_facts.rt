//! The law of what the types of a tree's parts say by themselves. It reads each part, since what stands behind a
//! reference is known to be in range once it is read: so no other call makes this walk. Depends on tsdb_base,
//! tsdb_path and tsdb_pages.
ghost use Rattle.std.specs.Prelude.{All};
ghost use Rattle.tsdb_pages.specs.Pages.{IsInRange};
ghost use Rattle.tsdb_pages.specs.Trees.{HasParts, IsMade};
ghost use Rattle.tsdb_path.specs.Nodes.{IsPath};

use tsdb_base::{Point, Value};
use tsdb_pages::{Chunk, Group, Tree};

/// The point is in the ranges of its types.
fn tell_point(point: &Point)
    ensures { IsInRange point.now }
{
    let _time = point.time;
    match &point.value {
        Value::Bool(_) => (),
        Value::I32(number) => {
            let _number = *number;
        }
        Value::I64(number) => {
            let _number = *number;
        }
        Value::Text(text) => {
            let _bytes = text.bytes();
        }
    }
}

/// Each point is.
fn tell_points(points: &[Point])
    ensures { All IsInRange points.now }
{
    for point in points {
        tell_point(point);
    }
}

/// A chunk has a name, and its points are in range.
fn tell_chunk(chunk: &Chunk)
    ensures { HasParts chunk.now }
{
    chunk.measurement.sound();
    for page in chunk.pages.items() {
        tell_points(page.points.items());
    }
}

/// The device of a group is a path, and each chunk has such parts.
fn tell_group(group: &Group)
    ensures device { IsPath group.now.device }
    ensures chunks { All HasParts group.now.chunks }
{
    group.device.sound();
    for chunk in group.chunks.items() {
        tell_chunk(chunk);
    }
}

/// Each tree is made of such groups.
pub fn trees_are_made(tree: &Tree)
    ensures { IsMade tree.now }
{
    for group in tree.groups.items() {
        tell_group(group);
    }
}
