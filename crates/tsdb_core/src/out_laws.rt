//! The laws of what is out of a core, as one record: which calls hand it on, what joins it, what leaves it, and that what
//! is in it can be ended. The functions do nothing; their contracts are the laws. Depends on `engine`.
ghost use Rattle.std.specs.Prelude.{◌≡◌, [], ℕ, Option, Result};
ghost use Rattle.tsdb_core.specs.Beginnings.{IsBegun, IsNotBegun};
ghost use Rattle.tsdb_core.specs.Commands.{KeepsFiles};
ghost use Rattle.tsdb_core.specs.Compactions.{IsHandedOut, IsJobOut};
ghost use Rattle.tsdb_core.specs.Core.{KeepsJobs, files_of, store_of};
ghost use Rattle.tsdb_core.specs.Flushes.{HasEndedFlush, IsNotTaken, IsOut, IsFlushTaken, TakesMemory};
ghost use Rattle.tsdb_core.specs.Loans.{IsNothingClaimed};
ghost use Rattle.tsdb_core.specs.Out.{HandsOn, IsWithJob, KeepsOut, Loans, nothing_out, with_flush, with_job, with_pin};
ghost use Rattle.tsdb_core.specs.Pins.{IsNotPinned, IsPinned, IsUnpinned};
ghost use Rattle.tsdb_core.specs.Replacements.{HasEndedJob};
ghost use Rattle.tsdb_core.specs.Sweeps.{IsSwept};
ghost use Rattle.tsdb_core.specs.declared.commit.Commit.{Commit};
ghost use Rattle.tsdb_base.specs.declared.ids.Space.{Space};
ghost use Rattle.tsdb_fileset.specs.Places.{AreUnread};
ghost use Rattle.tsdb_outside.specs.Files.{Store};
ghost use Rattle.tsdb_outside.specs.declared.faults.Failed.{Failed};
ghost use Rattle.tsdb_tasks.specs.Files.{NewFile, NewFiles};
ghost use Rattle.tsdb_tasks.specs.Pins.{AreColumnsHeld};
ghost use Rattle.tsdb_tasks.specs.declared.finishing.InputRuns.{InputRuns};

use crate::engine::Core;
use tsdb_fileset::FlushJob;
use tsdb_outside::{Files, Journal};
use tsdb_tasks::{Job, Pin};

/// Of a core that keeps and has claimed nothing for anybody nothing is out; and where nothing is out, no right is.
pub fn nothing_is_out<J: Journal, F: Files>(_core: &Core<J, F>)
    ensures none { (store : Store) → KeepsJobs _core.now [] [] → AreUnread (files_of _core.now).places
        → IsNothingClaimed _core.now → store ≡ store_of _core.now
        → KeepsOut store nothing_out _core.now }
    ensures unread { (store : Store) → KeepsOut store nothing_out _core.now → AreUnread (files_of _core.now).places }
{}

/// Commands, freezes and sweeps hand on what is out, and so does what begins nothing.
pub fn what_is_out_is_handed_on<J: Journal, F: Files>(_old: &Core<J, F>, _new: &Core<J, F>)
    ensures command { KeepsFiles _old.now _new.now → HandsOn _old.now _new.now }
    ensures sweep { (outcome : Result ℕ Failed) → IsSwept _old.now _new.now outcome → HandsOn _old.now _new.now }
    ensures no_flush { TakesMemory _old.now _new.now → IsNotTaken _old.now _new.now → HandsOn _old.now _new.now }
    ensures no_job { IsNotBegun _old.now _new.now → HandsOn _old.now _new.now }
    ensures no_pin { IsNotPinned _old.now _new.now → HandsOn _old.now _new.now }
{}

/// A flush that is taken joins what is out.
pub fn a_taken_flush_is_out<J: Journal, F: Files>(
    _old: &Core<J, F>,
    _new: &Core<J, F>,
    _job: &FlushJob,
)
    ensures { TakesMemory _old.now _new.now → IsFlushTaken _old.now _new.now _job.now → (store : Store) (out : Loans)
        → KeepsOut store out _old.now → KeepsOut store (with_flush _job.now out) _new.now }
{}

/// A flush that is out can be ended.
pub fn a_flush_that_is_out_can_end<J: Journal, F: Files>(_core: &Core<J, F>, _job: &FlushJob)
    ensures { (store : Store) (out : Loans) → KeepsOut store (with_flush _job.now out) _core.now
        → IsOut _core.now _job.now }
{}

/// And then it is out no longer.
pub fn an_ended_flush_is_out_no_longer<J: Journal, F: Files>(
    _old: &Core<J, F>,
    _new: &Core<J, F>,
    _job: &FlushJob,
)
    ensures { (files : NewFiles) (commit : Commit) → HasEndedFlush _old.now _new.now _job.now files commit
        → (store : Store) (out : Loans) → KeepsOut store (with_flush _job.now out) _old.now
        → KeepsOut store out _new.now }
{}

/// A compaction that has begun joins what is out.
pub fn a_begun_job_is_out<J: Journal, F: Files>(_old: &Core<J, F>, _new: &Core<J, F>, _job: &Job<F>)
    ensures { (space : Space) (runs : InputRuns) → IsBegun F.Right.file space runs _old.now _new.now _job.now
        → (store : Store) (out : Loans) → KeepsOut store out _old.now
        → IsHandedOut _job.now × KeepsOut store (with_job F.Right.file _job.now out) _new.now }
{}

/// A compaction that is out, whichever began before it and behind it, can be ended.
pub fn a_job_that_is_out_can_end<J: Journal, F: Files>(_core: &Core<J, F>, _job: &Job<F>)
    ensures { (store : Store) (others all : Loans) → IsHandedOut _job.now
        → IsWithJob F.Right.file _job.now others all → KeepsOut store all _core.now
        → IsJobOut F.Right.file _core.now _job.now }
{}

/// And then it is out no longer.
pub fn an_ended_job_is_out_no_longer<J: Journal, F: Files>(
    _old: &Core<J, F>,
    _new: &Core<J, F>,
    _job: &Job<F>,
)
    ensures { (file : Option NewFile) → HasEndedJob _old.now _new.now _job.now file
        → (store : Store) (others all : Loans) → IsHandedOut _job.now → IsWithJob F.Right.file _job.now others all
        → KeepsOut store all _old.now → KeepsOut store others _new.now }
{}

/// A pin that is taken joins what is out.
pub fn a_taken_pin_is_out<J: Journal, F: Files>(_old: &Core<J, F>, _new: &Core<J, F>, _pin: &Pin<F>)
    ensures { IsPinned F.Right.file _old.now _new.now _pin.now → (store : Store) (out : Loans)
        → KeepsOut store out _old.now → KeepsOut store (with_pin F.Right.file _pin.now out) _new.now }
{}

/// A pin that is out can be given back.
pub fn a_pin_that_is_out_is_held<J: Journal, F: Files>(_core: &Core<J, F>, _pin: &Pin<F>)
    ensures { (store : Store) (out : Loans) → KeepsOut store (with_pin F.Right.file _pin.now out) _core.now
        → AreColumnsHeld F.Right.file (files_of _core.now) _pin.now.columns }
{}

/// And then it is out no longer.
pub fn a_pin_given_back_is_out_no_longer<J: Journal, F: Files>(
    _old: &Core<J, F>,
    _new: &Core<J, F>,
    _pin: &Pin<F>,
)
    ensures { IsUnpinned _old.now _new.now _pin.now → (store : Store) (out : Loans)
        → KeepsOut store (with_pin F.Right.file _pin.now out) _old.now → KeepsOut store out _new.now }
{}
