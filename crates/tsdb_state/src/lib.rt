//! The engine state as layers, its steps, its replay, and what a stop leaves of it. Depends on tsdb_base, tsdb_path,
//! tsdb_model, tsdb_marks, tsdb_memtable, tsdb_plan, tsdb_log, tsdb_frames, tsdb_outside and tsdb_pages.
//!
//! Layers of points, in the order of their priority, under deletion marks.
//!
//! The definitions stand in `specs/`: `Places` has places and contents, `Marks` which places a list of marks leaves,
//! `Layers` the value at a place, and `Order` the order of layers in time.
//!
//! The engine state, its steps, and their laws.
//!
//! The definitions stand in `specs/`: `State` is the engine state, `Views` its layers, `Worlds` its values and the
//! world that it stands for, `StoreOrder` when what records give is in order, `Jobs` and `Order` when all of it is,
//! `Records` what each record of the log does, and `Steps` the steps of an engine.
//!
//! Replay: what the records of a log lead to, where a log is damaged, and what a log and the files beside it stand for.
//!
//! It has definitions (`specs/`) and laws. `Replays` is replay over any step, and what a log stands for of which a
//! record is in doubt; `Damage` the first place at which a log has no replay; `Stores` the step of each record, the
//! files that are whole, the world that a store stands for, and sound stores.
//!
//! What a stop leaves of an engine.
//!
//! `specs/StoredEngine.antt` says when an engine is stored: the acknowledged records of its log lead to its store, it
//! is in order, and each of its files is kept. The laws say that each step keeps it stored, and that whatever a stop
//! leaves of a stored engine, at each moment of an append too, stands for its world or for that of the record in doubt.
#![tactic(auto)]

mod image_laws;
mod image_step_laws;
mod laws;
mod layer_laws;
mod order_laws;
mod plan_laws;
mod replay_laws;
mod step_laws;
mod world_laws;

pub use image_laws::{
    a_replay_has_its_numbers_in_order, a_settled_engine_leaves_a_sound_store,
    a_stop_leaves_one_of_two_states, an_append_leaves_the_old_state_or_the_next,
    an_opened_engine_is_stored, files_kept_besides_are_free, what_is_told_of_other_files_is_free,
};
pub use image_step_laws::{
    commands_are_stored, compactions_are_stored, doubts_are_stored, flushes_are_stored,
    pins_and_sweeps_are_stored,
};
pub use laws::{
    an_output_has_its_inputs_value, compaction_keeps_order_and_world, create_follows_the_map,
    create_keeps_order, delete_follows_the_map, delete_keeps_order, flush_keeps_order_and_world,
    freeze_keeps_order_and_world, insert_follows_the_map, insert_keeps_order,
};
pub use layer_laws::{
    a_layer_without_points_may_leave, a_point_is_put, a_range_is_cut, a_run_becomes_one_layer,
    an_output_keeps_the_value, earlier_layers_share_no_place, marks_are_purged,
    neighbours_change_places, same_survivors_have_one_value,
};
pub use order_laws::{
    a_pin_stands_for_its_world, last_write_wins, order_of_jobs, order_of_stamps_and_points,
    order_of_times, other_values_stay, sequence_files_do_not_overlap,
};
pub use plan_laws::{
    a_cross_plan_has_its_gap, an_inner_sequence_plan_stands, an_inner_unsequence_plan_stands,
};
pub use replay_laws::{
    Replayed, StoreRecords, a_new_log_stands_for_no_series,
    a_stop_leaves_the_state_of_a_sound_store, log_is_damaged_at_one_place,
    log_is_replayed_to_one_state, record_in_doubt_leads_on, replay_goes_on,
    store_in_doubt_stands_for_one_of_two_states, store_stands_for_one_state, strays_say_nothing,
};
pub use step_laws::{
    commands_keep_order, commands_may_be_in_doubt, commits_can_follow, compactions_keep_order,
    failed_appends_keep_order, failed_commits_keep_order, flushes_keep_order,
    freeze_keeps_the_engine_in_order, other_steps_leave_the_store, pins_and_sweeps_keep_order,
};
pub use world_laws::{
    a_new_store_is_in_order, a_store_in_order_stands_for_a_world, a_store_stands_for_one_world,
    an_opened_engine_is_in_order, what_is_told_elsewhere_is_free,
};
