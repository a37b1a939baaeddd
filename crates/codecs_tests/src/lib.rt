//! The tests of the codecs: the worked examples and the refused bytes of docs/FORMATS.md, the limit of a list and one
//! value past it. Each list is written and read by its own encoding, and the values of points by `tsdb_pages`. It has
//! no code of its own. It depends on the crates that it tests.
#![tactic(auto)]

#[cfg(test)]
mod bits;
#[cfg(test)]
mod examples;
#[cfg(test)]
mod lists;
#[cfg(test)]
mod values;
