//! What no clause says: that scripts are read with ample memory, and which kind of fault a line has.
mod byte_sink;
mod commands;
mod limits;
mod lines;
mod scripts;

use std::alloc::Global;
use tsdb_script::{ScriptFault, read_script};

/// The number of a script's commands, or its fault.
fn read(alloc: Global, script: &[u8]) -> Result<usize, ScriptFault> {
    match read_script(alloc, script) {
        Ok(script) => Ok(script.len()),
        Err(fault) => Err(fault),
    }
}
