//! The numbers that name series, moments and files, and the two spaces of the store.

/// The number of a series, in the order in which series were created.
#[derive(Clone, Copy, Debug, PartialEq, Eq, PartialOrd, Ord, Hash)]
pub struct SeriesId(pub u64);

/// A moment of the store: how many commands have changed it.
#[derive(Clone, Copy, Debug, PartialEq, Eq, PartialOrd, Ord, Hash)]
pub struct Stamp(pub u64);

/// The number of a file, which is in its name.
#[derive(Clone, Copy, Debug, PartialEq, Eq, PartialOrd, Ord, Hash)]
pub struct FileNumber(pub u64);

/// Where a point stands: with those above its device's watermark as they came, or with the late
/// ones.
#[derive(Clone, Copy, Debug, PartialEq, Eq)]
pub enum Space {
    Sequence,
    Unsequence,
}
