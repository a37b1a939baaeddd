//! A reply of a history. Depends on tsdb_model.
use tsdb_model::Reply;

/// A reply, with the session of its command and the command's place in that session, counted from 0.
#[derive(Drop)]
pub struct Told {
    pub session: u16,
    pub index: u32,
    pub reply: Reply,
}
