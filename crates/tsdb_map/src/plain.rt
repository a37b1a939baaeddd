//! The plain map in executable form. Depends on `catalog`, `pending`, `row` and `select`.
ghost use Rattle.std.specs.Prelude.{◌≡◌, ℕ, List, None, IfOk, OnOk, OnErr};
ghost use Rattle.std.specs.FinMap as map;
ghost use Rattle.tsdb_model.specs.Commands.{IsSchema, IsWellFormed, IsSeries};
ghost use Rattle.tsdb_model.specs.Apply.{accepted, reply_of, world_after};
ghost use Rattle.tsdb_map.specs.Pending.{IsPending, HasPrepared};
ghost use Rattle.tsdb_model.specs.World.{World, new_series};
ghost use Rattle.tsdb_path.specs.Nodes.{child_of};
ghost use Rattle.tsdb_model.specs.declared.command.Command.{Command};

use crate::catalog::Catalog;
use crate::pending::{Pending, Prepared};
use crate::row::{insert_answer, put_cells, take_back_cells};
use crate::select::select_items;
use std::alloc::Global;
use std::marker::Model;
use tsdb_base::{Answer, List, Memory, Range};
use tsdb_model::{Command, Item, Reply, Row, Schema};
use tsdb_path::{Name, Path};

/// The plain map: for each series its type, and a value at each time that has one. A contract sees the world.
#[derive(Drop)]
pub struct Plain {
    alloc: Global,
    catalog: Catalog,
}

impl Model for Plain {
    ghost use Rattle.tsdb_model.specs.World.{World};
    ghost use Rattle.tsdb_map.specs.contracts.catalog.Catalog as kept;

    ghost Value = { World };

    ghost coded = { kept.the_row.coded };

    ghost view = { λ plain. plain.catalog };
}

impl Plain {
    /// A map without series.
    pub fn new(alloc: Global) -> Plain
        ensures { result ≡ map.empty }
    {
        Plain {
            alloc,
            catalog: Catalog::new(alloc),
        }
    }

    /// Executes a command. Out of memory changes nothing.
    pub fn apply(&mut self, command: &Command) -> Result<Reply, Memory>
        requires { IsWellFormed command.now }
        ensures reply { IfOk result (λ reply. reply ≡ reply_of self.old command.now) }
        ensures after { OnOk result (self.new ≡ world_after self.old command.now) }
        ensures memory { OnErr result (self.new ≡ self.old) }
    {
        match self.prepare(command)? {
            Prepared::Reply(reply) => Ok(reply),
            Prepared::Change(pending) => {
                self.finish(command, pending);
                Ok(Reply::Plain(Answer::Done))
            }
        }
    }

    /// Writes a row, as an insert does, with any number of cells: a row that is read from a log has its own limit.
    pub fn insert(&mut self, device: &Path, row: &Row) -> Result<Reply, Memory>
        ensures reply { IfOk result (λ reply. reply ≡ reply_of self.old (Command.Insert device.now row.now)) }
        ensures after { OnOk result (self.new ≡ world_after self.old (Command.Insert device.now row.now)) }
        ensures memory { OnErr result (self.new ≡ self.old) }
    {
        match self.prepare_insert(device, row)? {
            Prepared::Reply(reply) => Ok(reply),
            // The values are written already.
            Prepared::Change(_) => Ok(Reply::Plain(Answer::Done)),
        }
    }

    /// Begins a command: it takes all the memory that the command needs. A change that it accepts is to be finished or
    /// cancelled before another command. Out of memory changes nothing.
    pub fn prepare(&mut self, command: &Command) -> Result<Prepared, Memory>
        requires { IsWellFormed command.now }
        ensures prepared { IfOk result (λ prepared. HasPrepared self.old self.new command.now prepared) }
        ensures memory { OnErr result (self.new ≡ self.old) }
    {
        match command {
            Command::Create(schema) => self.prepare_create(schema),
            Command::Insert { device, row } => self.prepare_insert(device, row),
            Command::Delete { series, range } => self.prepare_delete(series, range),
            Command::Select {
                device,
                items,
                range,
            } => self.prepare_select(device, items, range),
            Command::Flush
            | Command::CompactInner(_)
            | Command::CompactCross
            | Command::ShowFiles => Ok(Prepared::Reply(Reply::Plain(Answer::Done))),
        }
    }

    /// The change takes effect. It takes no memory: a create and an insert are in the map already.
    pub fn finish(&mut self, command: &Command, pending: Pending)
        ensures { (before : World) → IsPending before self.old command.now pending
            → self.new ≡ accepted before command.now }
    {
        if let Command::Delete { range, .. } = command {
            self.cut(&pending, range);
        }
    }

    /// The map is as it was before the change was prepared. It takes no memory.
    pub fn cancel(&mut self, command: &Command, pending: Pending)
        ensures { (before : World) → IsPending before self.old command.now pending → self.new ≡ before }
    {
        match pending {
            Pending::Create { device, name } => self.catalog.remove(&device, &name),
            Pending::Insert(mut olds) => {
                if let Command::Insert { device, row } = command {
                    let cells = row.cells.items();
                    take_back_cells(&mut self.catalog, device, row.time, cells, &mut olds);
                }
            }
            Pending::Delete { .. } => {}
        }
    }

    /// Begins a series without points, where it is not there.
    fn prepare_create(&mut self, schema: &Schema) -> Result<Prepared, Memory>
        requires { IsSchema schema.now }
        ensures prepared { IfOk result (λ prepared. HasPrepared self.old self.new (Command.Create schema.now) prepared) }
        ensures memory { OnErr result (self.new ≡ self.old) }
    {
        let (device, name) = split(&schema.path)?;
        if self.catalog.get(&device, &name).is_some() {
            return Ok(Prepared::Reply(Reply::Plain(Answer::Exists)));
        }
        self.create(schema)?;
        Ok(Prepared::Change(Pending::Create { device, name }))
    }

    /// Adds a series without points, which is not there.
    fn create(&mut self, schema: &Schema) -> Result<(), Memory>
        requires series { IsSeries schema.now.path }
        requires new { map.get self.old schema.now.path ≡ None }
        ensures created { OnOk result (self.new
            ≡ map.insert self.old schema.now.path (new_series schema.now.data_type)) }
        ensures memory { OnErr result (self.new ≡ self.old) }
    {
        let (device, name) = split(&schema.path)?;
        self.catalog
            .create(self.alloc, device, name, schema.data_type)
    }

    /// Writes the values of a row, where all of its series are there and each literal fits.
    fn prepare_insert(&mut self, device: &Path, row: &Row) -> Result<Prepared, Memory>
        ensures prepared { IfOk result (λ prepared. HasPrepared self.old self.new (Command.Insert device.now row.now)
            prepared) }
        ensures memory { OnErr result (self.new ≡ self.old) }
    {
        let cells = row.cells.items();
        match insert_answer(&self.catalog, device, cells) {
            Answer::Done => {
                let mut olds = Vec::with_capacity(self.alloc, cells.len())?;
                put_cells(&mut self.catalog, device, row.time, cells, &mut olds)?;
                Ok(Prepared::Change(Pending::Insert(olds)))
            }
            answer => Ok(Prepared::Reply(Reply::Plain(answer))),
        }
    }

    /// Looks for the series. Its points stay.
    fn prepare_delete(&mut self, series: &Path, range: &Range) -> Result<Prepared, Memory>
        requires { IsSeries series.now }
        ensures prepared { IfOk result (λ prepared. HasPrepared self.old self.new (Command.Delete series.now range.now)
            prepared) }
        ensures memory { self.new ≡ self.old }
    {
        let (device, name) = split(series)?;
        if self.catalog.get(&device, &name).is_none() {
            return Ok(Prepared::Reply(Reply::Plain(Answer::NoPath)));
        }
        Ok(Prepared::Change(Pending::Delete { device, name }))
    }

    /// Removes the points of a pending delete.
    fn cut(&mut self, pending: &Pending, range: &Range)
        ensures { (before : World) (series : List ℕ)
            → IsPending before self.old (Command.Delete series range.now) pending.now
            → self.new ≡ accepted before (Command.Delete series range.now) }
    {
        if let Pending::Delete { device, name } = pending
            && self.catalog.get(device, name).is_some()
        {
            self.catalog.cut(device, name, range);
        }
    }

    /// What a select returns. It changes nothing.
    fn prepare_select(
        &self,
        device: &Path,
        items: &List<Item>,
        range: &Range,
    ) -> Result<Prepared, Memory>
        ensures { IfOk result (HasPrepared self.now self.now (Command.Select device.now items.now range.now)) }
    {
        let reply = select_items(self.alloc, &self.catalog, device, items.items(), range)?;
        Ok(Prepared::Reply(reply))
    }
}

/// The device and the measurement of a series.
fn split(series: &Path) -> Result<(Path, Name), Memory>
    requires { IsSeries series.now }
    ensures { IfOk result (λ parts. child_of parts.0 parts.1 ≡ series.now) }
{
    Ok((series.device()?, series.measurement_name()?))
}
