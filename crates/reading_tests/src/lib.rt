//! Tests of reading a series: streams over two files and a part in memory, pins that are asked for rows, aggregates and
//! streams, how many bytes are read for these, and calls of a port that fail; a file on a real disk whose pages are
//! spoiled; and which pages an aggregate over pages loads. Depends on tsdb_base, tsdb_path, tsdb_model, tsdb_outside,
//! mem_outside, fs_outside, tsdb_stats, tsdb_pages, tsfile_writer, tsdb_marks, tsdb_merge, tsdb_aggregate,
//! tsdb_streams, tsdb_pin and tsdb_pins.
#![tactic(auto)]

#[cfg(test)]
mod asking;
#[cfg(test)]
mod columns;
#[cfg(test)]
mod files;
#[cfg(test)]
mod loads;
#[cfg(test)]
mod pins;
#[cfg(test)]
mod queries;
#[cfg(test)]
mod spoiled;
#[cfg(test)]
mod streams;
