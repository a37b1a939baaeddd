//! The commands of a script, served one behind another from one core, and the core's end. Depends on tsdb_base,
//! tsdb_path, tsdb_model, tsdb_outside, tsdb_frames, tsdb_log, tsdb_plan, tsdb_state, tsdb_memory, tsdb_fileset,
//! tsdb_querying, tsdb_rewriting and tsdb_script.
#![tactic(auto)]

mod closing;
mod executing;
mod laws;
mod room;
mod serving;
mod told;

pub use closing::close;
pub use executing::execute;
pub use laws::{
    a_new_store_is_sound, a_turn_adds_an_entry, a_turn_adds_no_entry, replies_may_change, runs_join,
};
pub use room::ReplyRoom;
pub use serving::serve;
pub use told::Told;
pub use tsdb_querying::{Core, Options, Stream, delete, insert, open_column, pull};
