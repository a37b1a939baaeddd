//! Rows: an insert, and whether a flush has to come before it. Depends on `engine` and tsdb_memory.
ghost use Rattle.std.specs.Prelude.{◌≡◌, ◌≢◌, ◌↔◌, ◌<◌, ◌≤◌, IfErr, IfOk, IsTrue, OnOk};
ghost use Rattle.tsdb_memory.specs.MapAnswers.{IsInsertAnswer};
ghost use Rattle.tsdb_core.specs.RowSteps.{AreReadCells, IsUnchangedAnswer};
ghost use Rattle.tsdb_base.specs.declared.answers.Answer.{Answer as AnswerOf};
ghost use Rattle.tsdb_frames.specs.Frames.{faults_of};
ghost use Rattle.tsdb_memory.specs.Answers.{IsFreezeAnswer};
ghost use Rattle.tsdb_model.specs.Commands.{IsRow};
ghost use Rattle.tsdb_model.specs.Apply.{after_reply};
ghost use Rattle.tsdb_model.specs.World.{World};
ghost use Rattle.tsdb_model.specs.declared.command.Command.{Command};
ghost use Rattle.tsdb_model.specs.declared.reply.Reply.{Reply};
ghost use Rattle.tsdb_base.specs.Causes.{Rose};
ghost use Rattle.tsdb_base.specs.Limits.{end_of_numbers, max_pair_points};

use crate::engine::Core;
use tsdb_base::limits::{END_OF_NUMBERS, MAX_FROZEN};
use tsdb_base::{Answer, List};
use tsdb_log::CellRecord;
use tsdb_memory::{cells_of, fits_pair};
use tsdb_model::Row;
use tsdb_outside::{Files, Journal};
use tsdb_path::Path;

/// The last stamp.
const LAST_STAMP: u64 = END_OF_NUMBERS;

impl<J: Journal, F: Files> Core<J, F> {
    ghost use Rattle.tsdb_core.specs.Commands.{KeepsFiles};
    ghost use Rattle.tsdb_core.specs.Core.{HasStateCounts, limit_of, logged_of};
    ghost use Rattle.tsdb_core.specs.Rows.{CountsRow, FitsCore, HasRowPlace, IsFrozenFor, IsRowCommand, LeavesRow};
    ghost use Rattle.tsdb_core.specs.Rows.{NeedsFlush};
    ghost use Rattle.tsdb_core.specs.RowSteps.{CanFreezeFor};
    ghost use Rattle.tsdb_core.specs.Worlds.{CoreFollowsMap, IsWorldOf};
    ghost use Rattle.tsdb_memory.specs.LogState.{log_of, memory_of};

    /// Whether the row does not fit the working pair, and two pairs are frozen: then a flush has to come first.
    pub fn needs_flush(&self, row: &Row) -> bool
        requires { IsRow row.now }
        ensures { IsTrue result ↔ NeedsFlush row.now self.now }
    {
        let memory = self.logged.memory();
        !fits_pair(memory, row, self.limit.points()) && memory.frozen().len() == MAX_FROZEN
    }

    /// Writes a row. One that does not fit the working pair is put into a new one, and the other is frozen.
    ///
    /// Where memory ends or the device fails, a freeze may have come before it.
    pub fn insert(&mut self, device: &Path, row: &Row) -> Answer
        requires row { IsRow row.now }
        requires place { ¬ NeedsFlush row.now self.old }
        ensures answer { IsInsertAnswer (memory_of (logged_of self.old)) device.now row.now.cells result }
        ensures row { IsRowCommand device.now row.now self.old self.new result }
        ensures memory { CountsRow self.old self.new result }
        ensures map { CoreFollowsMap self.old self.new (Command.Insert device.now row.now) result }
        ensures moments { LeavesRow device.now row.now self.old self.new }
        ensures kept { KeepsFiles self.old self.new }
        ensures cause { result ≡ AnswerOf.Device
            → Rose (faults_of (log_of (logged_of self.old))) (faults_of (log_of (logged_of self.new))) }
        ensures later { faults_of (log_of (logged_of self.old)) ≤ faults_of (log_of (logged_of self.new)) }
    {
        match self.read_row(device, row) {
            Ok(cells) => self.put_row(device, row, cells),
            Err(answer) => answer,
        }
    }

    /// The cells of a row that is accepted, or else the answer to it, after which nothing has changed.
    fn read_row(&self, device: &Path, row: &Row) -> Result<List<CellRecord>, Answer>
        requires { IsRow row.now }
        ensures cells { IfOk result (AreReadCells (memory_of (logged_of self.now)).series device.now row.now.cells) }
        ensures answer { IfErr result (IsInsertAnswer (memory_of (logged_of self.now)) device.now row.now.cells) }
        ensures untouched { IfErr result IsUnchangedAnswer }
        ensures stamp { OnOk result ((memory_of (logged_of self.now)).stamp < end_of_numbers) }
    {
        let memory = self.logged.memory();
        let counter = memory.stamp();
        match cells_of(self.alloc, memory, device, row) {
            Ok(Ok(_)) if counter == LAST_STAMP => Err(Answer::Full { counter }),
            Ok(read) => read,
            Err(_memory) => Err(Answer::Memory),
        }
    }

    /// Writes the cells of a row that is accepted.
    fn put_row(&mut self, device: &Path, row: &Row, cells: List<CellRecord>) -> Answer
        requires row { IsRow row.now }
        requires place { ¬ NeedsFlush row.now self.old }
        requires cells { AreReadCells (memory_of (logged_of self.old)).series device.now row.now.cells cells }
        requires stamp { (memory_of (logged_of self.old)).stamp < end_of_numbers }
        ensures row { IsRowCommand device.now row.now self.old self.new result }
        ensures tried { IsFreezeAnswer result }
        ensures moments { LeavesRow device.now row.now self.old self.new }
        ensures world { (world : World) → IsWorldOf self.old world
            → IsWorldOf self.new (after_reply world (Command.Insert device.now row.now) (Reply.Plain result)) }
    {
        match self.make_place(row) {
            Answer::Done => self.logged.insert(device, row.time, cells),
            failed => failed,
        }
    }

    /// Freezes the working pair, where the row does not fit it. Then the row fits.
    fn make_place(&mut self, row: &Row) -> Answer
        requires row { IsRow row.now }
        requires place { ¬ NeedsFlush row.now self.old }
        ensures answer { IsFreezeAnswer result }
        ensures done { result ≡ AnswerOf.Done → HasRowPlace row.now self.old self.new }
        ensures failed { result ≢ AnswerOf.Done → IsFrozenFor row.now self.old self.new result }
        ensures fits { result ≡ AnswerOf.Done → FitsCore row.now self.new }
        ensures counts { HasStateCounts self.new }
        ensures series { (memory_of (logged_of self.new)).series ≡ (memory_of (logged_of self.old)).series }
        ensures stamp { (memory_of (logged_of self.new)).stamp ≡ (memory_of (logged_of self.old)).stamp }
        ensures can { CanFreezeFor row.now self.old }
        ensures limit { limit_of self.new ≤ max_pair_points }
    {
        let memory = self.logged.memory();
        memory.sound();
        if fits_pair(memory, row, self.limit.points()) {
            return Answer::Done;
        }
        let answer = self.logged.freeze();
        self.tell_counts();
        answer
    }
}
