//! The order of the series of a tree: by device, and then by measurement. It depends on `path` and `name`.
ghost use Rattle.std.specs.Prelude.{◌≡◌, ◌≤◌};
ghost use Rattle.tsdb_path.specs.Nodes.{device_of, measurement_of, node_count};
ghost use Rattle.tsdb_path.specs.Order.{joined_names, names_cmp, tree_cmp, tree_names};

use crate::{Name, Path};
use std::cmp::Ordering;

/// The names of a series: the bytes of its device, and its measurement.
pub fn series_names(path: &Path) -> (&[u8], &[u8])
    requires { 2 ≤ node_count path.now }
    ensures device { result.0.now ≡ device_of path.now }
    ensures measurement { result.1.now ≡ measurement_of path.now }
{
    let measurement = path.measurement();
    let bytes = path.bytes();
    // (a dot stands between them)
    (&bytes[..bytes.len() - measurement.len() - 1], measurement)
}

#[tactic(auto, using(crate::proofs::Order::joined_is))]
/// The names by which a tree is ordered: the bytes of the device, and the measurement. A path of one node, which no
/// series has, is a device by itself.
pub fn names_in_tree(path: &Path) -> (&[u8], &[u8])
    ensures device { result.0.now ≡ (tree_names path.now).0 }
    ensures measurement { result.1.now ≡ (tree_names path.now).1 }
    ensures device_of_series { 2 ≤ node_count path.now → result.0.now ≡ device_of path.now }
    ensures measurement_of_series { 2 ≤ node_count path.now → result.1.now ≡ measurement_of path.now }
    ensures joined { joined_names result.0.now result.1.now ≡ path.now }
{
    let bytes = path.bytes();
    if path.nodes() < 2 {
        return (bytes, &bytes[..0]);
    }
    let measurement = path.measurement();
    // (a dot stands between them)
    (&bytes[..bytes.len() - measurement.len() - 1], measurement)
}

/// How the path stands to the other in the order of a tree.
pub fn compare_in_tree(path: &Path, other: &Path) -> Ordering
    ensures { result ≡ tree_cmp path.now other.now }
{
    names_in_tree(path).cmp(&names_in_tree(other))
}

/// How names stand to other names, the devices first.
pub fn compare_names(
    device: &Path,
    measurement: &Name,
    other_device: &Path,
    other: &Name,
) -> Ordering
    ensures { result ≡ names_cmp (device.now, measurement.now) (other_device.now, other.now) }
{
    match device.cmp(other_device) {
        Ordering::Equal => measurement.cmp(other),
        unequal => unequal,
    }
}
