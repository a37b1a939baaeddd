//! Tests of sources, sinks and places, those in memory and those of the system: streams that end or fail, odd
//! directories, locks and full disks. `copying` copies a small file from one store into another. Depends on
//! `mem_outside`, `fs_outside`, `tsdb_outside` and `tsdb_base`.
#![tactic(auto)]

pub mod copying;
#[cfg(test)]
mod directories;
#[cfg(test)]
mod failing;
#[cfg(test)]
mod folders;
#[cfg(test)]
mod looks;
#[cfg(test)]
mod many;
#[cfg(test)]
mod memory;
#[cfg(test)]
mod slot_files;
#[cfg(test)]
mod steps;
#[cfg(test)]
mod stops;
#[cfg(test)]
mod streams;
