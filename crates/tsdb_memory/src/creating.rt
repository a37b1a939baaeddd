//! The effect of a creation. Depends on the store's fields.
ghost use Rattle.std.specs.Prelude.{◌≡◌, ◌<◌, None, OnOk};
ghost use Rattle.tsdb_model.specs.Commands.{IsSchema};
ghost use Rattle.tsdb_memory.specs.Changes.{HasCreated};
ghost use Rattle.tsdb_memory.specs.Rows.{ChangesRoom};
ghost use Rattle.tsdb_memory.specs.StateOfMemory.{IsMemoryOf, number_of};
ghost use Rattle.tsdb_base.specs.Limits.{end_of_numbers};
ghost use Rattle.tsdb_state.specs.Records.{created};
ghost use Rattle.tsdb_state.specs.State.{StoreState};

use crate::store::MemoryStore;
use tsdb_base::Memory;
use tsdb_model::Schema;

impl MemoryStore {
    /// Takes the memory of a creation, where there is no room for one.
    pub fn prepare_create(&mut self) -> Result<(), Memory>
        ensures kept { ChangesRoom self.old self.new }
        ensures same { (state : StoreState) → IsMemoryOf self.old state → IsMemoryOf self.new state }
        ensures place { OnOk result (0 < self.new.places.series) }
    {
        self.series.reserve(1)?;
        Ok(())
    }

    /// A series that is not there joins with the next number. It takes no memory.
    pub fn finish_create(&mut self, schema: Schema)
        requires place { 0 < self.old.places.series }
        requires formed { IsSchema schema }
        requires free { number_of self.old.series schema.path ≡ None }
        requires stamp { self.old.stamp < end_of_numbers }
        ensures effect { (state : StoreState) → IsMemoryOf self.old state → IsMemoryOf self.new (created schema state) }
        ensures made { HasCreated schema self.old self.new }
    {
        schema.path.sound();
        let _ = self
            .series
            .insert(schema.path, (schema.data_type, schema.encoding));
        self.stamp += 1;
    }
}
