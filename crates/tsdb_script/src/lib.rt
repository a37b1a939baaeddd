//! Scripts: reads the bytes of a script as commands of sessions, or finds the first bad line and the kind of its fault.
//! Depends on tsdb_base, tsdb_path and tsdb_model.
#![tactic(auto)]

mod before;
mod conditions;
mod fault;
mod form;
mod kept;
mod laws;
mod lexer;
mod line;
mod lines;
mod meaning;
mod numbered;
mod parser;
mod script;
mod syntax;
mod token;
mod words;

pub use fault::ScriptFault;
pub use laws::{cut_script, good_script, one_reading, one_script, one_statement};
pub use numbered::Numbered;
pub use script::read_script;
