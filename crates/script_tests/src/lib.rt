//! Tests of scripts that are read and replies that are printed. Of scripts: a table of lines for each kind of fault,
//! whole scripts, what commands say, and the limits; of the text of replies: texts worked out by hand. It has no code
//! of its own. Depends on `tsdb_script` and `tsdb_print`, and on `tsdb_base`, `tsdb_path` and `tsdb_model` for what
//! commands and replies say.
#![tactic(auto)]

#[cfg(test)]
mod print;
#[cfg(test)]
mod tests;
