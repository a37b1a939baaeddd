//! Taking points of a stream. Depends on `stream` and `walking`.
ghost use Rattle.std.specs.Prelude.{◌≡◌, ◌≤◌, ◌*◌, IfErr, IfOk, OnOk, Err, None, Some, length};
ghost use Rattle.tsdb_merge.specs.Winners.{TakesTold};
ghost use Rattle.tsdb_outside.specs.declared.faults.StoreFault.{StoreFault as Fault};
ghost use Rattle.tsdb_streams.specs.Files.{FilePages, HasReason};
ghost use Rattle.tsdb_streams.specs.Streams.{IsStreamOfStore, IsToldStream, IsTrueStream, stream_due, stream_held, stream_left};

use crate::stream::Stream;
use crate::walking::pull_from;
use tsdb_base::Point;
use tsdb_merge::count_held;
use tsdb_outside::{Port, StoreFault};

/// Takes the first point that a stream has left, or answers none where no source has one left. The first fault is the
/// answer of this call and of each later one.
pub fn pull<P: Port>(
    stream: &mut Stream<'_, P::Right>,
    port: &mut P,
) -> Result<Option<Point>, StoreFault>
    requires of_store { IsStreamOfStore P.Right.file (P.store port.old) stream.old }
    ensures next { (pages : FilePages) → IsTrueStream P.Right.file pages stream.old
        → IfOk result (λ point. TakesTold (stream_left P.Right.file pages stream.old) point
        (stream_left P.Right.file pages stream.new)) }
    ensures of_store { IsStreamOfStore P.Right.file (P.store port.new) stream.new }
    ensures truth { (pages : FilePages) → IsTrueStream P.Right.file pages stream.old
        → IsTrueStream P.Right.file pages stream.new }
    ensures told { (pages : FilePages) → IsToldStream P.Right.file pages stream.old
        → IsToldStream P.Right.file pages stream.new }
    ensures due { stream_due stream.new ≡ stream_due stream.old }
    ensures works { OnOk result (stream.new.fault ≡ None) }
    ensures failed { IfErr result (λ fault. stream.new.fault ≡ Some fault) }
    ensures again { (fault : Fault) → stream.old.fault ≡ Some fault →
        (result ≡ Err fault) × (stream.new ≡ stream.old) × (port.new ≡ port.old) }
    ensures reason { (pages : FilePages) → IsTrueStream P.Right.file pages stream.old → stream.old.fault ≡ None
        → HasReason (IsToldStream P.Right.file pages stream.old) (P.faults port.old) (P.faults port.new) result }
    ensures later { P.faults port.old ≤ P.faults port.new }
    ensures same_store { P.store port.new ≡ P.store port.old }
{
    if let Some(fault) = stream.fault {
        return Err(fault);
    }
    match pull_from(
        stream.alloc,
        &stream.kept,
        &mut stream.lanes,
        &mut stream.root,
        port,
    ) {
        Ok(point) => Ok(point),
        Err(fault) => {
            stream.fault = Some(fault);
            Err(fault)
        }
    }
}

impl<R> Stream<'_, R> {
    /// How many points are held: at most 1,000 of each source.
    pub fn held(&self) -> u64
        ensures held { result ≡ stream_held self.now }
        ensures most { result ≤ 1000 * length self.now.lanes.items }
    {
        match &self.root {
            Some(root) => count_held(root),
            None => 0,
        }
    }
}
