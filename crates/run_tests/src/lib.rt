//! Tests of the top call, by its public items alone: worked examples, stops at each moment, calls that fail, and a file
//! that is cut; and of the words of the command line: tables of lists of words. Depends on `tsdb_run`, and on
//! `tsdb_base`, `tsdb_outside` and `mem_outside` for places in memory.
#![tactic(auto)]

#[cfg(test)]
mod tests;
#[cfg(test)]
mod words;
