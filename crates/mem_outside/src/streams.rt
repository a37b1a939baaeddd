//! Sources and sinks in memory. Depends on `calls`.
ghost use Rattle.std.specs.Prelude.{◌≡◌, ◌≢◌, ◌↔◌, ◌≤◌, ◌<◌, ◌++◌, [], min, length, take, Some, IsErr, IfOk, OnOk};
ghost use Rattle.std.specs.Prelude.{OnErr, refl, vec_len};
ghost use Rattle.std.specs.Io.{ReadsAtMost, WritesAtMost};
ghost use Rattle.std.specs.Io.KnownBytes.{ReadConsumes, WriteAppends};
ghost use Rattle.tsdb_outside.specs.Causes.{HasCause, HasStoreCause, RisesOnlyByFailed};
ghost use Rattle.mem_outside.specs.Calls.{NextFails, with_call, with_fault};

use crate::calls::Calls;
use std::alloc::{AllocError, Global};
use tsdb_outside::{Counted, Failed, Sink, Source, Steady, StoreFault};

// Bytes of which some have been taken.
#[derive(Drop)]
struct Unread {
    bytes: Vec<u8>,
    taken: usize,
    ghost within: { taken ≤ vec_len bytes },
}

impl Unread {
    ghost use Rattle.mem_outside.specs.Streams.{unread};

    // Moves as many bytes as there is room for.
    fn take(&mut self, into: &mut [u8]) -> usize
        ensures count { result ≡ min (length into.new) (length (unread self.old)) }
        ensures bytes { unread self.old ≡ take result into.new ++ unread self.new }
    {
        let left = &self.bytes[self.taken..];
        let count = into.len().min(left.len());
        into[..count].copy_from_slice(&left[..count]);
        self.taken += count;
        count
    }
}

/// A source in memory some of whose calls fail.
#[derive(Drop)]
pub struct MemSource {
    unread: Unread,
    calls: Calls,
}

impl MemSource {
    ghost use Rattle.mem_outside.specs.Streams.{mem_left, mem_source_calls};

    /// A source of these bytes. Its calls whose numbers, from 1, are in `fails` fail.
    pub fn new(bytes: Vec<u8>, fails: Vec<u64>) -> Self
        ensures left { mem_left result ≡ bytes.items }
        ensures calls { mem_source_calls result ≡ record { fails = fails; made = 0; faults = 0 } }
    {
        MemSource {
            unread: Unread { bytes, taken: 0 },
            calls: Calls::new(fails),
        }
    }
}

impl Counted for MemSource {
    ghost faults = { λ s. s.calls.faults };
}

impl Source for MemSource {
    ghost use Rattle.mem_outside.specs.Streams.{mem_left, mem_source_calls};

    ghost left = { λ s. Some (mem_left s) };

    fn take(&mut self, into: &mut [u8]) -> Result<usize, Failed>
        ensures bound { ReadsAtMost result into.new }
        ensures bytes { ReadConsumes (Some (mem_left self.old)) (Some (mem_left self.new)) result into.new }
        ensures no_fault { OnOk result (self.new.calls.faults ≡ self.old.calls.faults) }
        ensures cause { HasCause self.old.calls.faults self.new.calls.faults result }

        // It fails at the calls with these numbers, and at no others.
        ensures fails { IsErr result ↔ NextFails (mem_source_calls self.old) }

        // Each call uses up a number.
        ensures ok { OnOk result (mem_source_calls self.new ≡ with_call (mem_source_calls self.old)) }
        ensures err { OnErr result (mem_source_calls self.new ≡ with_fault (with_call (mem_source_calls self.old))) }
    {
        self.calls.make()?;
        Ok(self.unread.take(into))
    }
}

/// A source in memory that never fails.
#[derive(Drop)]
pub struct SteadySource {
    unread: Unread,
}

impl SteadySource {
    ghost use Rattle.mem_outside.specs.Streams.{steady_left};

    /// A source of these bytes.
    pub fn new(bytes: Vec<u8>) -> Self
        ensures { steady_left result ≡ bytes.items }
    {
        SteadySource {
            unread: Unread { bytes, taken: 0 },
        }
    }
}

impl Counted for SteadySource {
    ghost faults = { λ _. 0 };
}

impl Steady for SteadySource {
    ghost never_fails = { λ _. refl };
}

impl Source for SteadySource {
    ghost use Rattle.mem_outside.specs.Streams.{steady_left};

    ghost left = { λ s. Some (steady_left s) };

    fn take(&mut self, into: &mut [u8]) -> Result<usize, Failed> {
        Ok(self.unread.take(into))
    }
}

// Puts the whole piece behind what is held.
fn append(held: &mut Vec<u8>, bytes: &[u8]) -> Result<usize, AllocError>
    ensures count { IfOk result (λ count. count ≡ length bytes.now) }
    ensures ok { OnOk result (held.new.items ≡ held.old.items ++ bytes.now) }
    ensures err { OnErr result (held.new.items ≡ held.old.items) }
{
    held.extend_from_slice(bytes)?;
    Ok(bytes.len())
}

/// A sink in memory some of whose calls fail. It takes the whole piece that it is given.
#[derive(Drop)]
pub struct MemSink {
    bytes: Vec<u8>,
    calls: Calls,
}

impl MemSink {
    ghost use Rattle.mem_outside.specs.Streams.{mem_held, mem_sink_calls};

    /// An empty sink. Its calls whose numbers, from 1, are in `fails` fail.
    pub fn new(alloc: Global, fails: Vec<u64>) -> Self
        ensures held { mem_held result ≡ [] }
        ensures calls { mem_sink_calls result ≡ record { fails = fails; made = 0; faults = 0 } }
    {
        MemSink {
            bytes: Vec::new(alloc),
            calls: Calls::new(fails),
        }
    }

    /// What it has taken.
    pub fn bytes(&self) -> &[u8]
        ensures { result.now ≡ mem_held self.now }
    {
        &self.bytes
    }
}

impl Counted for MemSink {
    ghost faults = { λ s. s.calls.faults };
}

impl Sink for MemSink {
    ghost use Rattle.mem_outside.specs.Streams.{mem_held, mem_sink_calls};

    ghost held = { λ s. Some (mem_held s) };

    fn put(&mut self, bytes: &[u8]) -> Result<usize, StoreFault>
        ensures bound { WritesAtMost result bytes.now }
        ensures moves { IfOk result (λ count. 0 < length bytes.now → 0 < count) }
        ensures bytes { WriteAppends (Some (mem_held self.old)) (Some (mem_held self.new)) result bytes.now }
        ensures no_fault { RisesOnlyByFailed self.old.calls.faults self.new.calls.faults result }
        ensures cause { HasStoreCause self.old.calls.faults self.new.calls.faults result }

        // It takes the whole piece.
        ensures whole { IfOk result (λ count. count ≡ length bytes.now) }

        // It fails at the calls with these numbers, and at no others.
        ensures fails { (result ≡ Err StoreFault.Failed) ↔ NextFails (mem_sink_calls self.old) }

        // Each call uses up a number.
        ensures ok { result ≢ Err StoreFault.Failed → mem_sink_calls self.new ≡ with_call (mem_sink_calls self.old) }
        ensures err { result ≡ Err StoreFault.Failed
            → mem_sink_calls self.new ≡ with_fault (with_call (mem_sink_calls self.old)) }
    {
        self.calls.make()?;
        Ok(append(&mut self.bytes, bytes)?)
    }
}

/// A sink in memory that never fails. It takes the whole piece that it is given.
#[derive(Drop)]
pub struct SteadySink {
    bytes: Vec<u8>,
}

impl SteadySink {
    ghost use Rattle.mem_outside.specs.Streams.{steady_held};

    /// An empty sink.
    pub fn new(alloc: Global) -> Self
        ensures { steady_held result ≡ [] }
    {
        SteadySink {
            bytes: Vec::new(alloc),
        }
    }

    /// What it has taken.
    pub fn bytes(&self) -> &[u8]
        ensures { result.now ≡ steady_held self.now }
    {
        &self.bytes
    }
}

impl Counted for SteadySink {
    ghost faults = { λ _. 0 };
}

impl Steady for SteadySink {
    ghost never_fails = { λ _. refl };
}

impl Sink for SteadySink {
    ghost use Rattle.mem_outside.specs.Streams.{steady_held};

    ghost held = { λ s. Some (steady_held s) };

    fn put(&mut self, bytes: &[u8]) -> Result<usize, StoreFault>
        ensures bound { WritesAtMost result bytes.now }
        ensures moves { IfOk result (λ count. 0 < length bytes.now → 0 < count) }
        ensures bytes { WriteAppends (Some (steady_held self.old)) (Some (steady_held self.new)) result bytes.now }
        ensures no_fault { RisesOnlyByFailed 0 0 result }
        ensures cause { HasStoreCause 0 0 result }

        // It takes the whole piece.
        ensures whole { IfOk result (λ count. count ≡ length bytes.now) }
    {
        Ok(append(&mut self.bytes, bytes)?)
    }
}
