//! Tests of the gated log and of the records that it holds, through public items. Depends on `tsdb_frames`, `tsdb_log`,
//! `mem_outside`, `tsdb_outside`, `tsdb_path` and `tsdb_base`.
#![tactic(auto)]

#[cfg(test)]
mod courses;
#[cfg(test)]
mod frames;
#[cfg(test)]
mod growing;
#[cfg(test)]
mod records;
#[cfg(test)]
mod slots;
#[cfg(test)]
mod turning;
