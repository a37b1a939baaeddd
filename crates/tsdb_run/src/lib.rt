//! The top call of the engine: it takes the words of the command line and a script, executes the script's commands in
//! the order of its lines on a store, and writes the replies. Depends on tsdb_base, tsdb_model, tsdb_outside,
//! tsdb_frames, tsdb_state, tsdb_memory, tsdb_redo, tsdb_recover, tsdb_script, tsdb_history and tsdb_print.
//!
//! The words of the command line say which directory is asked for, and with which options; `read_words` reads them.
#![tactic(auto)]

mod asked;
mod input;
mod laws;
mod number;
mod output;
mod part;
mod put;
mod read;
mod seen;
mod status;
mod store;
mod top_call;
mod word;
mod word_laws;

pub use asked::Asked;
pub use laws::{a_new_place_is_sound, a_run_follows_another, a_stop_leaves_a_sound_store};
pub use read::read_words;
pub use status::{Ended, Status};
pub use top_call::run;
pub use tsdb_history::Told;
pub use tsdb_recover::Part;
pub use word::Word;
pub use word_laws::one_meaning;
