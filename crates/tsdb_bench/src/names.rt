//! Paths and names of texts. It depends on `bench` and `tsdb_path`.

use crate::bench::Bench;
use std::alloc::AllocError;
use tsdb_path::{Name, Path};

/// The path that is written so.
pub fn path(bench: &mut Bench, text: Result<String, AllocError>) -> Option<Path> {
    let text = bench.ok(text)?;
    let path = Path::read(bench.alloc(), text.as_bytes());
    bench.ok(path)
}

/// The name that is written so.
pub fn name(bench: &mut Bench, text: Result<String, AllocError>) -> Option<Name> {
    let text = bench.ok(text)?;
    let name = Name::read(bench.alloc(), text.as_bytes());
    bench.ok(name)
}
