//! Running a compaction. Depends on `copying` and `inputs`.
ghost use Rattle.std.specs.List.{AllByRecursion as Each, AllZip};
ghost use Rattle.std.specs.Prelude.{◌≡◌, ◌↔◌, ◌≤◌, ◌<◌, IfOk, IfSome, IsTrue, List, OnOk, length};
ghost use Rattle.tsdb_compactions.specs.Jobs.{IsJobFormed};
ghost use Rattle.tsdb_compactions.specs.Outputs.{HasWinners, IsBuiltFor, IsOutputOf, TellsTruth};
ghost use Rattle.tsdb_flush.specs.Making.{IsPartInMaking, MayAdd};
ghost use Rattle.tsdb_inner.specs.Inputs.{IsInputOf, IsOpenedAs};
ghost use Rattle.tsdb_inner.specs.Winners.{AreSeries, CopiesSeries};
ghost use Rattle.tsdb_flush.specs.Parts.{Filled};
ghost use Rattle.tsdb_base.specs.Lists.{Among};
ghost use Rattle.tsdb_outside.specs.Causes.{HasStoreCause};
ghost use Rattle.tsdb_state.specs.State.{ToldContents};

use crate::copying::copy_series;
use crate::inputs::{count_damage, open_inputs};
use std::alloc::Global;
use tsdb_compactions::Job;
use tsdb_flush::{Built, PartBuilder, Whole};
use tsdb_model::Schema;
use tsdb_outside::{Files, Port, StoreFault};
use tsdb_streams::IndexedFile;

/// Adds a series of the job with its surviving winners. The files are its inputs.
fn copy_one<F: Files>(
    alloc: Global,
    job: &Job<F>,
    files: &[IndexedFile<'_, F::Right>],
    schema: &Schema,
    part: &mut PartBuilder,
    port: &mut F::Port,
) -> Result<(), StoreFault>
    requires formed { IsJobFormed job.now }
    requires opened { AllZip (IsOpenedAs F.Right.file) job.now.inputs files.now }
    requires among { Among schema.now job.now.schemas }
    requires of_store { Each (IsInputOf F.Right.file (F.Port.store port.old)) job.now.inputs }
    requires follows { MayAdd part.old schema.now }
    ensures copied { OnOk result (CopiesSeries F.Right.file job.now schema.now part.old part.new) }
    ensures cause { (told : ToldContents) → TellsTruth F.Right.file told job.now
        → HasStoreCause (F.Port.faults port.old) (F.Port.faults port.new) result }
    ensures later { F.Port.faults port.old ≤ F.Port.faults port.new }
    ensures same_store { F.Port.store port.new ≡ F.Port.store port.old }
{
    if copy_series(alloc, schema, &job.marks, files, part, port)? {
        return Ok(());
    }
    count_damage(job.inputs.items(), port);
    Err(StoreFault::Failed)
}

/// The surviving winners of the job's inputs, which are these files, one series behind another.
fn copy_all<F: Files>(
    alloc: Global,
    job: &Job<F>,
    files: &[IndexedFile<'_, F::Right>],
    port: &mut F::Port,
) -> Result<PartBuilder, StoreFault>
    requires formed { IsJobFormed job.now }
    requires opened { AllZip (IsOpenedAs F.Right.file) job.now.inputs files.now }
    requires of_store { Each (IsInputOf F.Right.file (F.Port.store port.old)) job.now.inputs }
    ensures copied { IfOk result (λ part. (filled : List Filled) × IsPartInMaking filled part × AreSeries filled
        × HasWinners F.Right.file job.now filled) }
    ensures cause { (told : ToldContents) → TellsTruth F.Right.file told job.now
        → HasStoreCause (F.Port.faults port.old) (F.Port.faults port.new) result }
    ensures later { F.Port.faults port.old ≤ F.Port.faults port.new }
    ensures same_store { F.Port.store port.new ≡ F.Port.store port.old }
{
    let mut part = PartBuilder::new(alloc);
    for schema in job.schemas.items() {
        copy_one(alloc, job, files, schema, &mut part, port)?;
    }
    Ok(part)
}

/// The surviving winners of the job's inputs. The index of each is read once, and held meanwhile.
fn copy_inputs<F: Files>(
    alloc: Global,
    job: &Job<F>,
    port: &mut F::Port,
) -> Result<PartBuilder, StoreFault>
    requires formed { IsJobFormed job.now }
    requires of_store { Each (IsInputOf F.Right.file (F.Port.store port.old)) job.now.inputs }
    ensures copied { IfOk result (λ part. (filled : List Filled) × IsPartInMaking filled part × AreSeries filled
        × HasWinners F.Right.file job.now filled) }
    ensures cause { (told : ToldContents) → TellsTruth F.Right.file told job.now
        → HasStoreCause (F.Port.faults port.old) (F.Port.faults port.new) result }
    ensures later { F.Port.faults port.old ≤ F.Port.faults port.new }
    ensures same_store { F.Port.store port.new ≡ F.Port.store port.old }
{
    let files = open_inputs(alloc, job.inputs.items(), port)?;
    copy_all(alloc, job, &files, port)
}

/// Whether a part has a series: a file of none is never put.
fn has_series(part: &PartBuilder) -> bool
    ensures { (filled : List Filled) → IsPartInMaking filled part.now → IsTrue result ↔ (0 < length filled) }
{
    !part.is_empty()
}

/// Puts the file of a part that has a series.
fn put_part<F: Files>(
    job: &Job<F>,
    part: PartBuilder,
    port: &mut F::Port,
) -> Result<Built<F>, StoreFault>
    requires copied { (filled : List Filled) × IsPartInMaking filled part × (0 < length filled) × AreSeries filled
        × HasWinners F.Right.file job.now filled }
    ensures built { IfOk result (IsBuiltFor F.Right.file F.Sealed.file F.Sealed.rights job.now) }
    ensures of_store { IfOk result (λ built. (F.Sealed.file built.sealed).store ≡ F.Port.store port.old) }
    ensures cause { HasStoreCause (F.Port.faults port.old) (F.Port.faults port.new) result }
    ensures same_store { F.Port.store port.new ≡ F.Port.store port.old }
{
    let Whole {
        bytes,
        entry,
        series,
    } = part.finish(job.output, job.born)?;
    let sealed = port.put(job.output, &bytes)?;
    Ok(Built {
        sealed,
        entry,
        series,
    })
}

/// Writes the output of a job.
fn run<F: Files>(
    alloc: Global,
    job: &Job<F>,
    port: &mut F::Port,
) -> Result<Option<Built<F>>, StoreFault>
    requires formed { IsJobFormed job.now }
    requires of_store { Each (IsInputOf F.Right.file (F.Port.store port.old)) job.now.inputs }
    ensures output { IfOk result (IsOutputOf F.Right.file F.Sealed.file F.Sealed.rights job.now) }
    ensures of_store { IfOk result (λ output. IfSome output (λ built.
        (F.Sealed.file built.sealed).store ≡ F.Port.store port.old)) }
    ensures cause { (told : ToldContents) → TellsTruth F.Right.file told job.now
        → HasStoreCause (F.Port.faults port.old) (F.Port.faults port.new) result }
    ensures later { F.Port.faults port.old ≤ F.Port.faults port.new }
    ensures same_store { F.Port.store port.new ≡ F.Port.store port.old }
{
    let part = copy_inputs(alloc, job, port)?;
    if !has_series(&part) {
        return Ok(None);
    }
    Ok(Some(put_part(job, part, port)?))
}

/// Writes the output of a job of one list: at each place the value of the last input with a point there that survives
/// the job's marks. Answers none exactly where no point is left. It fails only where the port's count of faults rises.
pub fn run_inner<F: Files>(
    alloc: Global,
    job: &Job<F>,
    port: &mut F::Port,
) -> Result<Option<Built<F>>, StoreFault>
    requires formed { IsJobFormed job.now }
    requires of_store { Each (IsInputOf F.Right.file (F.Port.store port.old)) job.now.inputs }
    ensures output { IfOk result (IsOutputOf F.Right.file F.Sealed.file F.Sealed.rights job.now) }
    ensures of_store { IfOk result (λ output. IfSome output (λ built.
        (F.Sealed.file built.sealed).store ≡ F.Port.store port.old)) }
    ensures cause { (told : ToldContents) → TellsTruth F.Right.file told job.now
        → HasStoreCause (F.Port.faults port.old) (F.Port.faults port.new) result }
    ensures later { F.Port.faults port.old ≤ F.Port.faults port.new }
    ensures same_store { F.Port.store port.new ≡ F.Port.store port.old }
{
    run(alloc, job, port)
}

/// Writes the output of a job of both lists, as `run_inner` does of one: a late input wins over a sequence input.
pub fn run_cross<F: Files>(
    alloc: Global,
    job: &Job<F>,
    port: &mut F::Port,
) -> Result<Option<Built<F>>, StoreFault>
    requires formed { IsJobFormed job.now }
    requires of_store { Each (IsInputOf F.Right.file (F.Port.store port.old)) job.now.inputs }
    ensures output { IfOk result (IsOutputOf F.Right.file F.Sealed.file F.Sealed.rights job.now) }
    ensures of_store { IfOk result (λ output. IfSome output (λ built.
        (F.Sealed.file built.sealed).store ≡ F.Port.store port.old)) }
    ensures cause { (told : ToldContents) → TellsTruth F.Right.file told job.now
        → HasStoreCause (F.Port.faults port.old) (F.Port.faults port.new) result }
    ensures later { F.Port.faults port.old ≤ F.Port.faults port.new }
    ensures same_store { F.Port.store port.new ≡ F.Port.store port.old }
{
    run(alloc, job, port)
}
