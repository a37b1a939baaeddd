//! Sources and sinks as their callers meet them, in memory and over readers and writers.
ghost use Rattle.std.specs.Prelude.{IsOk};

use fs_outside::{StdSink, StdSource};
use mem_outside::{MemSink, MemSource, SteadySink, SteadySource};
use std::alloc::{AllocError, Global};
use std::io::{self, ErrorKind, Read, Write};
use tsdb_outside::{Failed, Sink, Source, Steady, StoreFault};

// What a call of a source returns and moves, with room for four bytes.
type Taken = (Result<usize, Failed>, [u8; 4]);

// What a sink is given, and what it returns.
type Put = (&'static [u8], Result<usize, StoreFault>);

fn take_four<S: Source>(source: &mut S) -> Taken {
    let mut into = [0; 4];
    let answer = source.take(&mut into);
    (answer, into)
}

// The first call that returns or moves something else.
fn wrong_take<S: Source>(source: &mut S, wanted: &[Taken]) -> Option<usize> {
    for (index, taken) in wanted.iter().enumerate() {
        if take_four(source) != *taken {
            return Some(index);
        }
    }
    None
}

// The first call that returns something else.
fn wrong_put<K: Sink>(sink: &mut K, wanted: &[Put]) -> Option<usize> {
    for (index, (bytes, answer)) in wanted.iter().enumerate() {
        if sink.put(bytes) != *answer {
            return Some(index);
        }
    }
    None
}

// A steady source never fails.
fn take_surely<S: Source + Steady>(source: &mut S, into: &mut [u8]) -> Result<usize, Failed>
    ensures { IsOk result }
{
    source.take(into)
}

static WITH_FAILING_CALLS: [Taken; 5] = [
    (Err(Failed), [0, 0, 0, 0]),
    (Ok(4), [1, 2, 3, 4]),
    (Err(Failed), [0, 0, 0, 0]),
    (Ok(1), [5, 0, 0, 0]),
    (Ok(0), [0, 0, 0, 0]),
];

// Whether a source of five bytes, whose first and third call fail, gives these.
fn fails_and_loses_nothing(alloc: Global) -> Result<bool, AllocError> {
    let bytes = vec![in alloc; 1, 2, 3, 4, 5]?;
    let mut source = MemSource::new(bytes, vec![in alloc; 1, 3]?);
    Ok(wrong_take(&mut source, &WITH_FAILING_CALLS).is_none())
}

// Whether a steady source gives its one byte.
fn gives_one_byte(alloc: Global) -> Result<bool, AllocError> {
    let mut source = SteadySource::new(vec![in alloc; 7]?);
    let mut into = [0; 4];
    let taken = take_surely(&mut source, &mut into);
    Ok(taken == Ok(1) && into == [7, 0, 0, 0])
}

#[test]
fn source_fails_at_its_numbers_and_loses_nothing(rt: HostRuntime) {
    let steady = gives_one_byte(rt.alloc());
    assert!(rt; steady == Ok(true) && fails_and_loses_nothing(rt.alloc()) == Ok(true));
}

static WITH_FAILING_PUT: [Put; 3] = [
    (b"ab", Ok(2)),
    (b"cd", Err(StoreFault::Failed)),
    (b"ef", Ok(2)),
];

static STEADY_PUT: [Put; 1] = [(b"gh", Ok(2))];

// Whether a sink whose second call fails takes whole pieces.
fn takes_whole_pieces(alloc: Global) -> Result<bool, AllocError> {
    let mut sink = MemSink::new(alloc, vec![in alloc; 2]?);
    let wrong = wrong_put(&mut sink, &WITH_FAILING_PUT);
    Ok(wrong.is_none() && sink.bytes() == b"abef".as_slice())
}

// The same of a steady one.
fn steady_sink_takes_whole_pieces(alloc: Global) -> bool {
    let mut sink = SteadySink::new(alloc);
    wrong_put(&mut sink, &STEADY_PUT).is_none() && sink.bytes() == b"gh".as_slice()
}

#[test]
fn sink_fails_at_its_numbers_and_takes_whole_pieces(rt: HostRuntime) {
    let steady = steady_sink_takes_whole_pieces(rt.alloc());
    assert!(rt; steady && takes_whole_pieces(rt.alloc()) == Ok(true));
}

static HELLO: [Taken; 3] = [
    (Ok(4), *b"hell"),
    (Ok(1), [b'o', 0, 0, 0]),
    (Ok(0), [0, 0, 0, 0]),
];

fn reads_hello() -> bool {
    let mut source = StdSource::new(b"hello".as_slice());
    wrong_take(&mut source, &HELLO).is_none()
}

fn reads_input(rt: &HostRuntime) -> bool {
    let mut source = StdSource::new(rt.stdin());
    take_four(&mut source).0.is_ok()
}

#[test]
fn source_reads_what_its_reader_has(rt: HostRuntime) {
    assert!(rt; reads_hello() && reads_input(&rt));
}

static INTO_THREE_BYTES: [Put; 3] = [
    (b"hello", Ok(3)),
    (b"lo", Err(StoreFault::Failed)),
    (b"", Ok(0)),
];

fn fills_three_bytes() -> bool {
    let mut room = [0; 3];
    let mut sink = StdSink::new(room.as_mut_slice());
    wrong_put(&mut sink, &INTO_THREE_BYTES).is_none()
}

fn writes_output(rt: &HostRuntime) -> bool {
    let mut sink = StdSink::new(io::writer(rt));
    sink.put(b"x") == Ok(1)
}

#[test]
fn sink_writes_and_fails_where_its_writer_takes_nothing(rt: HostRuntime) {
    assert!(rt; fills_three_bytes() && writes_output(&rt));
}

// A stream whose first calls a signal interrupts; then it gives one byte, or takes all.
#[derive(Drop)]
struct Interrupted {
    left: u32,
}

impl Interrupted {
    fn call(&mut self) -> io::Result<()> {
        if self.left == 0 {
            return Ok(());
        }
        self.left -= 1;
        Err(io::Error::from(ErrorKind::Interrupted))
    }
}

impl Read for Interrupted {
    fn read(&mut self, buf: &mut [u8]) -> io::Result<usize> {
        self.call()?;
        if buf.is_empty() {
            return Ok(0);
        }
        buf[0] = 7;
        Ok(1)
    }
}

impl Write for Interrupted {
    fn write(&mut self, buf: &[u8]) -> io::Result<usize> {
        self.call()?;
        Ok(buf.len())
    }

    fn flush(&mut self) -> io::Result<()> {
        Ok(())
    }
}

static BEHIND_SIGNALS: [Put; 1] = [(b"ab", Ok(2))];

#[test]
fn interrupted_calls_of_streams_are_made_again(rt: HostRuntime) {
    let mut source = StdSource::new(Interrupted { left: 3 });
    let mut sink = StdSink::new(Interrupted { left: 3 });
    assert_eq!(rt; take_four(&mut source), (Ok(1), [7, 0, 0, 0]));
    assert_eq!(rt; wrong_put(&mut sink, &BEHIND_SIGNALS), None);
}
