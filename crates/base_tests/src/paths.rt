//! What no clause says of paths and names: the worked examples, that each call answers with ample memory, the printed
//! texts, and the bounds that maps and threads ask for. It depends on `tsdb_path`, `keys` and `rows`.
use crate::keys::{is_first, is_found};
use crate::rows::{Row, expect_none, first_wrong};
use std::alloc::Global;
use std::test::Fail;
use tsdb_base::Memory;
use tsdb_path::{Name, Path, PathFault};

fn path(alloc: Global, bytes: &[u8]) -> Option<Path> {
    Path::read(alloc, bytes).ok()
}

fn name(alloc: Global, bytes: &[u8]) -> Option<Name> {
    Name::read(alloc, bytes).ok()
}

fn fault_of(alloc: Global, bytes: &[u8]) -> Option<PathFault> {
    Path::read(alloc, bytes).err()
}

/// A text, and why it is no path.
impl Row for (&'static str, Option<PathFault>) {
    fn is_right(&self, alloc: Global) -> bool {
        fault_of(alloc, self.0.as_bytes()) == self.1
    }
}

const PATHS: &[(&str, Option<PathFault>)] = &[
    ("root.g.d.s", None),
    ("root", None),
    ("root.1a._.Z9", None),
    ("", Some(PathFault::Empty)),
    ("a.b", Some(PathFault::NotRoot)),
    ("roots.a", Some(PathFault::NotRoot)),
    ("root..d", Some(PathFault::BadNode { at: 5 })),
    ("root.1", Some(PathFault::BadNode { at: 5 })),
    ("root.a.b-c.1", Some(PathFault::BadNode { at: 7 })),
    // A bad node comes before a 17th.
    (
        "root.a.a.a.a.a.a.a.a.a.a.a.a.a.a.a.1",
        Some(PathFault::BadNode { at: 35 }),
    ),
];

#[test]
fn bytes_are_read_exactly_where_a_path_stands(rt: HostRuntime) -> Result<(), Fail> {
    expect_none(first_wrong(rt.alloc(), PATHS))
}

/// A text, and a tail so many times behind it.
#[derive(Clone, Copy)]
struct Tailed(&'static str, &'static str, usize);

fn bytes_of(alloc: Global, Tailed(text, tail, count): Tailed) -> Option<Vec<u8>> {
    let mut bytes = Vec::new(alloc);
    let mut is_whole = bytes.extend_from_slice(text.as_bytes()).is_ok();
    for _ in 0..count {
        is_whole &= bytes.extend_from_slice(tail.as_bytes()).is_ok();
    }
    is_whole.then_some(bytes)
}

/// Bytes, and why they are no path.
impl Row for (Tailed, Option<PathFault>) {
    fn is_right(&self, alloc: Global) -> bool {
        match bytes_of(alloc, self.0) {
            Some(bytes) => fault_of(alloc, &bytes) == self.1,
            None => false,
        }
    }
}

const LIMITS: &[(Tailed, Option<PathFault>)] = &[
    (Tailed("root.", "a", 250), None),
    (
        Tailed("root.", "a", 251),
        Some(PathFault::TooLong { at: 255 }),
    ),
    (Tailed("root", ".a", 15), None),
    (
        Tailed("root", ".a", 16),
        Some(PathFault::TooLong { at: 35 }),
    ),
];

#[test]
fn limits_of_bytes_and_nodes_are_kept(rt: HostRuntime) -> Result<(), Fail> {
    expect_none(first_wrong(rt.alloc(), LIMITS))
}

/// Whether this is `root.g.d.s` with its four nodes, and does not cover its device, nor that it.
fn is_apart(path: &Path) -> bool {
    path.bytes() == b"root.g.d.s".as_slice()
        && path.nodes() == 4
        && path.measurement() == b"s".as_slice()
        && match path.device() {
            Ok(device) => {
                device.bytes() == b"root.g.d".as_slice()
                    && !path.covers(&device)
                    && !device.covers(path)
            }
            Err(_) => false,
        }
}

fn covers_its_copy(path: &Path) -> bool {
    match path.copy() {
        Ok(copy) => path.covers(&copy),
        Err(_) => false,
    }
}

fn is_taken_apart(alloc: Global, bytes: &[u8]) -> bool {
    match Path::read(alloc, bytes) {
        Ok(path) => is_apart(&path) && covers_its_copy(&path),
        Err(_) => false,
    }
}

#[test]
fn a_path_is_taken_apart(rt: HostRuntime) {
    assert!(rt; is_taken_apart(rt.alloc(), b"root.g.d.s"));
}

/// A path with so many nodes, a name, and the child that they make or why they make none.
#[derive(Clone, Copy)]
struct Child(Tailed, u64, &'static [u8], Result<&'static [u8], PathFault>);

impl Child {
    /// Whether this is the child, or why there is none.
    fn is_child(self, child: Result<Path, PathFault>) -> bool {
        match (child, self.3) {
            (Ok(child), Ok(bytes)) => child.bytes() == bytes,
            (Err(fault), Err(wanted)) => fault == wanted,
            _ => false,
        }
    }

    /// Whether the path has so many nodes, and the child is as it has to be.
    fn is_parent(self, path: Option<Path>, name: Option<Name>) -> bool {
        match (path, name) {
            (Some(path), Some(name)) => path.nodes() == self.1 && self.is_child(path.child(&name)),
            _ => false,
        }
    }
}

impl Row for Child {
    fn is_right(&self, alloc: Global) -> bool {
        match bytes_of(alloc, self.0) {
            Some(bytes) => self.is_parent(path(alloc, &bytes), name(alloc, self.2)),
            None => false,
        }
    }
}

const JOINED: &[Child] = &[
    Child(Tailed("root.g.d", "", 0), 3, b"s", Ok(b"root.g.d.s")),
    Child(
        Tailed("root", ".a", 15),
        16,
        b"a",
        Err(PathFault::TooLong { at: 35 }),
    ),
    Child(
        Tailed("root.", "a", 249),
        2,
        b"a",
        Err(PathFault::TooLong { at: 255 }),
    ),
];

#[test]
fn a_path_is_joined_unless_it_is_full(rt: HostRuntime) -> Result<(), Fail> {
    expect_none(first_wrong(rt.alloc(), JOINED))
}

/// Bytes, and why they are no name.
#[derive(Clone, Copy)]
struct Named(&'static [u8], Option<PathFault>);

impl Row for Named {
    fn is_right(&self, alloc: Global) -> bool {
        match Name::read(alloc, self.0) {
            Ok(name) => self.1.is_none() && name.bytes() == self.0,
            Err(fault) => self.1 == Some(fault),
        }
    }
}

const NAMES: &[Named] = &[
    Named(b"1_a", None),
    Named(b"", Some(PathFault::Empty)),
    Named(b"12", Some(PathFault::BadNode { at: 0 })),
    Named(b"a.b", Some(PathFault::BadNode { at: 0 })),
    // 256 digits.
    Named(&[b'1'; 256], Some(PathFault::TooLong { at: 255 })),
];

#[test]
fn names_are_read_exactly_where_a_node_stands(rt: HostRuntime) -> Result<(), Fail> {
    expect_none(first_wrong(rt.alloc(), NAMES))
}

/// Whether maps find a path and a name, and give paths and names in their order.
fn are_keys(alloc: Global) -> bool {
    is_found(alloc, path(alloc, b"root.a"), path(alloc, b"root.a"))
        && is_first(alloc, path(alloc, b"root.B"), path(alloc, b"root.a"))
        && is_found(alloc, name(alloc, b"a"), name(alloc, b"a"))
        && is_first(alloc, name(alloc, b"B"), name(alloc, b"a"))
}

#[test]
fn paths_and_names_are_keys_and_cross_threads(rt: HostRuntime) {
    assert!(rt; are_keys(rt.alloc()));
}

/// A fault and its text.
impl Row for (PathFault, &'static str) {
    fn is_right(&self, alloc: Global) -> bool {
        let (fault, wanted) = *self;
        match format!(in alloc; "{fault}") {
            Ok(text) => text.as_str() == wanted,
            Err(_) => false,
        }
    }
}

const PRINTED: &[(PathFault, &str)] = &[
    (PathFault::Empty, "there are no bytes"),
    (PathFault::NotRoot, "the first node is not `root`"),
    (PathFault::BadNode { at: 5 }, "there is no node at 5"),
    (
        PathFault::TooLong { at: 255 },
        "the path is too long at 255",
    ),
    (PathFault::Memory, "memory"),
];

fn memory_is_printed(alloc: Global) -> bool {
    match format!(in alloc; "{Memory}") {
        Ok(text) => text.as_str() == "memory" && PathFault::from(Memory) == PathFault::Memory,
        Err(_) => false,
    }
}

#[test]
fn faults_say_where(rt: HostRuntime) -> Result<(), Fail> {
    assert!(rt; memory_is_printed(rt.alloc()));
    expect_none(first_wrong(rt.alloc(), PRINTED))
}
