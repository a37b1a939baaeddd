//! The program `tsdb`: it hands the words of the command line, standard input, standard output and the file system to
//! the top call, says on standard error how the run ended, and ends with its exit code. Depends on tsdb_run and
//! fs_outside.
#![tactic(auto)]

use fs_outside::{FsPlace, StdSink, StdSource};
use std::alloc::Global;
use std::io::ErrorKind;
use std::process::ExitCode;
use std::rt::Env;
use std::{env, io};
use tsdb_run::{Status, Word, run};

/// The words behind the program's name. Words that are no text are a faulty command line.
fn words<R: Env + Alloc<A = Global>>(rt: &R) -> Result<Vec<Word>, Status> {
    let arguments = match env::args(rt) {
        Ok(arguments) => arguments,
        Err(error) if error.kind() == ErrorKind::OutOfMemory => return Err(Status::Memory),
        Err(_) => return Err(Status::Words),
    };
    let mut words = Vec::new(rt.alloc());
    for argument in arguments.skip(1) {
        let Ok(word) = Word::new(rt.alloc(), argument.as_bytes()) else {
            return Err(Status::Memory);
        };
        if words.push(word).is_err() {
            return Err(Status::Memory);
        }
    }
    Ok(words)
}

/// The whole run.
fn start(rt: &HostRuntime) -> Status {
    match words(rt) {
        Ok(words) => {
            let mut script = StdSource::new(rt.reader());
            let mut out = StdSink::new(io::writer(rt));
            let Ok(files) = rt.clone() else {
                return Status::Memory;
            };
            let mut place = FsPlace::new(files);
            run(rt.alloc(), &words, &mut script, &mut out, &mut place).status
        }
        Err(status) => status,
    }
}

fn main(rt: HostRuntime) -> ExitCode {
    let status = start(&rt);
    ExitCode::from(status.report(rt.alloc(), &mut rt.stderr()))
}
