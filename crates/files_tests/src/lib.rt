//! Tests of statistics, fields, the index and whole TsFiles: as they are written, read, checked and looked up, in
//! memory and on a disk. The library itself is empty. Depends on these crates, tsdb_base, tsdb_path, tsdb_outside,
//! mem_outside and fs_outside.
#![tactic(auto)]

#[cfg(test)]
mod built;
#[cfg(test)]
mod disk;
#[cfg(test)]
mod fields;
#[cfg(test)]
mod finding;
#[cfg(test)]
mod index;
#[cfg(test)]
mod pages;
#[cfg(test)]
mod reader;
#[cfg(test)]
mod reading;
#[cfg(test)]
mod samples;
#[cfg(test)]
mod stats;
