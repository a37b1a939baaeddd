//! The path of a series or a device. It depends on `scan` and `name`.
ghost use Rattle.std.specs.Prelude.{◌≡◌, ◌+◌, ◌≤◌, ◌↔◌, ◌++◌, ◌∷◌, List, ℕ, length, All, IsTrue, IfOk, IfErr};
ghost use Rattle.tsdb_path.specs.Nodes.{is_path_byte, IsName, IsPath, IsPathOf, node_count, device_of, measurement_of};
ghost use Rattle.tsdb_path.specs.Nodes.{child_of};
ghost use Rattle.tsdb_path.specs.Refusals.{RefusesPath, RefusesChild, AnswersEach, AnswersMemoryAlone};

use crate::scan::{DOT, check_child, check_path, count_nodes, last_dot};
use crate::{Name, PathFault};
use std::alloc::{AllocError, Global};
use std::marker::Model;
use tsdb_base::Memory;

/// The path of a series or a device: 1 to 16 nodes joined by dots, the first of them `root`, in at most 255 bytes.
/// The last node of a series is its measurement, and the nodes before it are its device.
#[derive(Drop)]
pub struct Path {
    bytes: Vec<u8>,
}

impl Model for Path {
    ghost use Rattle.std.specs.Prelude.{ℕ, List};

    ghost Value = { List ℕ };

    ghost use Rattle.tsdb_path.specs.Nodes.{IsPath};

    ghost view = { λ path. path.bytes.items };

    ghost invariant = { λ path. IsPath path.bytes.items };
}

/// Both, with a dot between.
fn join(alloc: Global, path: &[u8], name: &[u8]) -> Result<Vec<u8>, AllocError>
    requires { length path.now + length name.now ≤ 255 }
    ensures { IfOk result (λ bytes. bytes.items ≡ child_of path.now name.now) }
{
    let mut bytes = Vec::with_capacity(alloc, path.len() + 1 + name.len())?;
    bytes.extend_from_slice(path)?;
    bytes.push(DOT)?;
    bytes.extend_from_slice(name)?;
    Ok(bytes)
}

impl Path {
    /// Reads a path.
    ///
    /// Refuses no bytes as `Empty`, more than 255 as `TooLong` at 255, a first node that isn't `root` as `NotRoot`,
    /// and then from the left the first part that is no node as `BadNode` or a 17th node as `TooLong`, at its first
    /// byte.
    pub fn read(alloc: Global, bytes: &[u8]) -> Result<Path, PathFault>
        ensures ok { IfOk result (λ path. IsPath bytes.now × (path ≡ bytes.now)) }
        ensures err { IfErr result (RefusesPath bytes.now) }
        ensures good { IsPath bytes.now → AnswersMemoryAlone result }
        ensures refused { AnswersEach (RefusesPath bytes.now) result }
    {
        check_path(bytes)?;
        let bytes = Vec::from_slice(alloc, bytes)?;
        Ok(Path { bytes })
    }

    /// The bytes of the path.
    pub fn bytes(&self) -> &[u8]
        ensures value { result.now ≡ self.now }
        ensures path { IsPath self.now }
        ensures bytes { All (λ b. IsTrue (is_path_byte b)) self.now }
    {
        self.bytes.as_slice()
    }

    /// It does nothing, and tells what always holds of a path.
    pub fn sound(&self)
        ensures { IsPath self.now }
    {
        // (a type's invariant is at hand where a field is used)
        let _ = &self.bytes;
    }

    /// How many nodes the path has.
    pub fn nodes(&self) -> u64
        ensures value { result ≡ node_count self.now }
        ensures of_each_list { (nodes : List (List ℕ)) → IsPathOf nodes self.now → result ≡ length nodes }
        ensures some { 1 ≤ result }
        ensures few { result ≤ 16 }
    {
        count_nodes(self.bytes.as_slice())
    }

    /// All nodes but the last, which is the device of a series.
    pub fn device(&self) -> Result<Path, Memory>
        requires { 2 ≤ node_count self.now }
        ensures value { IfOk result (λ device. device ≡ device_of self.now) }
        ensures nodes { IfOk result (λ device. node_count device + 1 ≡ node_count self.now) }
        ensures again { IfOk result (λ device. child_of device (measurement_of self.now) ≡ self.now) }
    {
        let end = last_dot(self.bytes.as_slice());
        let bytes = Vec::from_slice(*self.bytes.allocator(), &self.bytes[..end])?;
        Ok(Path { bytes })
    }

    /// The last node.
    pub fn measurement(&self) -> &[u8]
        requires { 2 ≤ node_count self.now }
        ensures value { result.now ≡ measurement_of self.now }
        ensures name { IsName result.now }
        ensures again { child_of (device_of self.now) result.now ≡ self.now }
    {
        let end = last_dot(self.bytes.as_slice());
        &self.bytes[end + 1..]
    }

    /// The measurement of a series, as a name of its own.
    pub fn measurement_name(&self) -> Result<Name, Memory>
        requires { 2 ≤ node_count self.now }
        ensures value { IfOk result (λ name. name ≡ measurement_of self.now) }
        ensures again { IfOk result (λ name. child_of (device_of self.now) name ≡ self.now) }
    {
        let Ok(name) = Name::read(*self.bytes.allocator(), self.measurement()) else {
            return Err(Memory);
        };
        Ok(name)
    }

    /// The path with one node more.
    ///
    /// Refuses, as `read` of the joined bytes does, more than 255 bytes as `TooLong` at 255, and a 17th node as
    /// `TooLong` at its first byte.
    pub fn child(&self, name: &Name) -> Result<Path, PathFault>
        ensures ok { IfOk result (λ child. child ≡ child_of self.now name.now) }
        ensures nodes { IfOk result (λ child. node_count child ≡ node_count self.now + 1) }
        ensures err { IfErr result (RefusesChild self.now name.now) }
        ensures as_read { IfErr result (RefusesPath (child_of self.now name.now)) }
        ensures good { IsPath (child_of self.now name.now) → AnswersMemoryAlone result }
        ensures refused { AnswersEach (RefusesChild self.now name.now) result }
    {
        check_child(self.bytes.as_slice(), name.bytes())?;
        let alloc = *self.bytes.allocator();
        let bytes = join(alloc, self.bytes.as_slice(), name.bytes())?;
        Ok(Path { bytes })
    }

    /// The same path once more.
    pub fn copy(&self) -> Result<Path, Memory>
        ensures { IfOk result (λ copy. copy ≡ self.now) }
    {
        let bytes = Vec::from_slice(*self.bytes.allocator(), self.bytes.as_slice())?;
        Ok(Path { bytes })
    }

    /// Whether the other path is this one.
    pub fn covers(&self, other: &Path) -> bool
        ensures { IsTrue result ↔ (self.now ≡ other.now) }
    {
        self.bytes.as_slice() == other.bytes.as_slice()
    }
}
