//! Tests of marks, memtables, plans and merges: worked examples, their limits, and sources that fail. Depends on
//! `tsdb_marks`, `tsdb_memtable`, `tsdb_plan`, `tsdb_merge`, `tsdb_path` and `tsdb_base`.
#![tactic(auto)]

#[cfg(test)]
mod lazy;
#[cfg(test)]
mod marks;
#[cfg(test)]
mod memtable;
#[cfg(test)]
mod merge;
#[cfg(test)]
mod plan;
