//! The points of one series over several sources. Depends on `lane`, `survival` and tsdb_merge.
ghost use Rattle.std.specs.Prelude.{◌<◌, ◌^◌, length};
ghost use Rattle.tsdb_merge.specs.Steps.{IsRootNode};
ghost use Rattle.tsdb_streams.specs.Props.{root_prop};

use crate::lane::Lane;
use crate::survival::Kept;
use std::alloc::Global;
use tsdb_merge::Node;
use tsdb_outside::StoreFault;

/// The points of one series in a range that no mark deletes, in order of time, and at each time that of the last source
/// which has one. At most 1,000 points of each source are held.
#[derive(Drop)]
pub struct Stream<'a, R> {
    pub(crate) root: Option<Node>,
    pub(crate) lanes: Vec<Lane<'a, R>>,
    pub(crate) kept: Kept<'a>,
    pub(crate) fault: Option<StoreFault>,
    pub(crate) alloc: Global,
    ghost tree: { IsRootNode (length lanes.items) root } by { root_prop (length lanes.items) root },
    ghost few: { length lanes.items < 2 ^ 32 },
}
