//! Tests of flushes: their jobs, taken from memory, and their runs over files in memory. Depends on tsdb_base,
//! tsdb_path, tsdb_model, tsdb_outside, mem_outside, tsdb_log, tsdb_memtable, tsdb_memory and tsdb_flush.
#![tactic(auto)]

#[cfg(test)]
mod flushes;
#[cfg(test)]
mod schemas;
#[cfg(test)]
mod taking;
