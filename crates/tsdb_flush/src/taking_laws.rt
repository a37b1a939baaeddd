//! The law. The function does nothing; its contract says it.
ghost use Rattle.std.specs.Prelude.{◌≡◌, ◌+◌, ◌≤◌};
ghost use Rattle.tsdb_flush.specs.Flushes.{IsFlushOf};
ghost use Rattle.tsdb_flush.specs.Taking.{IsJobTaken, job_numbers};
ghost use Rattle.tsdb_flush.specs.Jobs.{IsJob};
ghost use Rattle.tsdb_flush.specs.declared.job.FlushJob.{FlushJob as JobOf};
ghost use Rattle.tsdb_memory.specs.StateOfMemory.{IsMemoryOf};
ghost use Rattle.tsdb_memory.specs.Store.{MemoryState};
ghost use Rattle.tsdb_memory.specs.Jobs.{drawn_by};
ghost use Rattle.tsdb_base.specs.Limits.{end_of_numbers};
ghost use Rattle.tsdb_memory.specs.State.{EngineState, FlushState};
ghost use Rattle.tsdb_memory.specs.Steps.{TakesFlush};

/// A job that was taken from memory is a flush that the engine takes, with the numbers that the job has drawn.
pub fn a_taken_job_is_a_flush_of_the_state()
    ensures { (store : MemoryState) (job : JobOf) (state : EngineState) → IsMemoryOf store state.store
        → IsJobTaken store state.next_file job → IsJob job → state.next_file + 2 ≤ end_of_numbers
        → (flush : FlushState) × IsFlushOf job flush × TakesFlush flush state × (drawn_by flush ≡ job_numbers job) }
{}
