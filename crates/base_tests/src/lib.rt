//! The tests of the values that the crates share, of paths, and of the plain map, over public items. Depends on
//! tsdb_base, tsdb_path, tsdb_model, tsdb_map and tests_support.
#![tactic(auto)]

#[cfg(test)]
mod keys;
#[cfg(test)]
mod map;
#[cfg(test)]
mod paths;
#[cfg(test)]
mod plain;
#[cfg(test)]
mod rows;
#[cfg(test)]
mod texts;
#[cfg(test)]
mod values;
