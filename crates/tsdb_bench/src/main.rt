//! The program `tsdb_bench` measures the speed of the engine's parts and prints one table. The word
//! `quick` runs every group for one round and prints nothing; the name of a group measures that one;
//! no word measures all. It depends on the crates that it measures.
#![tactic(auto)]

mod bench;
mod encodings;
mod fault;
mod files;
mod indexes;
mod marks;
mod memtable;
mod names;
mod numbers;
mod pages;
mod points;
mod stored;
mod stores;
mod turns;

use bench::Bench;
use fault::Fault;
use std::env;
use std::sync::Wait;
use std::thread::Threads;
use std::time::Clock;

/// What a row of the table can be of.
#[derive(Clone, Copy)]
enum Group {
    Encodings,
    Memtable,
    Marks,
    Turns,
    Pages,
    Indexes,
    Files,
    Stored,
}

/// A group and its name.
#[derive(Clone, Copy)]
struct Named {
    name: &'static str,
    group: Group,
}

/// The groups in the order in which they are measured.
const GROUPS: &[Named] = &[
    Named {
        name: "encodings",
        group: Group::Encodings,
    },
    Named {
        name: "memtable",
        group: Group::Memtable,
    },
    Named {
        name: "marks",
        group: Group::Marks,
    },
    Named {
        name: "turns",
        group: Group::Turns,
    },
    Named {
        name: "pages",
        group: Group::Pages,
    },
    Named {
        name: "indexes",
        group: Group::Indexes,
    },
    Named {
        name: "files",
        group: Group::Files,
    },
    Named {
        name: "stored",
        group: Group::Stored,
    },
];

/// Measures one group. `handle` is the runtime again, as the right to start threads and to wait.
fn measure_group<R: Threads + Wait + Clock + Sync>(bench: &mut Bench, handle: &R, group: Group) {
    match group {
        Group::Encodings => encodings::encodings(bench),
        Group::Memtable => memtable::memtable(bench),
        Group::Marks => marks::marks(bench),
        Group::Turns => turns::turns(bench, handle),
        Group::Pages => pages::pages(bench),
        Group::Indexes => indexes::indexes(bench),
        Group::Files => stores::files(bench),
        Group::Stored => stores::stored(bench),
    }
}

/// Measures the groups that the word asks for, or all where it is empty.
fn run<R: Threads + Wait + Clock + Sync>(
    rt: &HostRuntime,
    handle: &R,
    word: &str,
) -> Result<(), Fault> {
    let is_quick = word == "quick";
    let mut bench = Bench::new(rt, is_quick);
    let mut is_found = false;
    for named in GROUPS {
        let is_wanted = is_quick || word.is_empty() || word == named.name;
        if is_wanted && !bench.has_failed() {
            measure_group(&mut bench, handle, named.group);
            is_found = true;
        }
    }
    if !is_found {
        bench.fail(Fault::NoGroup);
    }
    bench.end()
}

fn main(rt: HostRuntime) -> Result<(), Fault> {
    let mut words = env::args(&rt)?;
    let _program = words.next();
    let word = words.next().unwrap_or(String::new(rt.alloc()));
    run(&rt, &rt, word.as_str())
}
