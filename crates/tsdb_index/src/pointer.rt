//! Where a leaf stands, as the root says. Depends on tsdb_path.

use tsdb_fields::{Name, Path};

/// Where a leaf stands, and the names of its first entry.
#[derive(Drop)]
pub struct Pointer {
    pub device: Path,
    pub measurement: Name,
    pub place: u64,
}
