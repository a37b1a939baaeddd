//! The marks and the schemas of a job, from the series of its inputs. Depends on `finishing`, tsdb_fileset, tsdb_marks
//! and tsdb_memory.
ghost use Rattle.std.specs.Prelude.{◌≡◌, ◌++◌, IfOk, OnOk, map};
ghost use Rattle.std.specs.List.{AllByRecursion as Each, flat_map};
ghost use Rattle.tsdb_tasks.specs.Series.{AreSeriesOfJob, AreOfPaths, HavePaths, HasPathNames, input_names};
ghost use Rattle.tsdb_tasks.specs.Series.{input_path, run_paths, schemas_at, series_in};
ghost use Rattle.tsdb_fileset.specs.Replacing.{IsWithin};
ghost use Rattle.tsdb_base.specs.Lists.{if_some};
ghost use Rattle.tsdb_path.specs.Order.{AreInNameOrder};

use crate::finishing::InputRuns;
use std::alloc::Global;
use tsdb_base::{List, Memory, Space};
use tsdb_fileset::KeptFiles;
use tsdb_marks::Marks;
use tsdb_memory::MemoryStore;
use tsdb_model::Schema;
use tsdb_outside::Files;
use tsdb_path::{Path, names_in_tree};
use tsdb_plan::FileEntry;

/// A series of an input: its path, and its names, by which a tree is ordered (the bytes of the device, and the
/// measurement).
#[derive(Clone, Copy)]
struct InputSeries<'a> {
    path: &'a Path,
    names: (&'a [u8], &'a [u8]),
}

/// Adds the series with these paths.
fn add_paths<'a>(all: &mut Vec<InputSeries<'a>>, paths: &'a [Path]) -> Result<(), Memory>
    requires { Each HasPathNames all.old.items }
    ensures { OnOk result (AreOfPaths (map input_path all.old.items ++ paths.now) all.new.items) }
{
    for path in paths {
        all.push(InputSeries {
            path,
            names: names_in_tree(path),
        })?;
    }
    Ok(())
}

/// Adds the series of these files. Those of several files are there several times.
fn add_files<'a, F: Files>(
    all: &mut Vec<InputSeries<'a>>,
    files: &'a KeptFiles<F>,
    entries: &[FileEntry],
) -> Result<(), Memory>
    requires { Each HasPathNames all.old.items }
    ensures { OnOk result (AreOfPaths (map input_path all.old.items
        ++ flat_map (λ entry. series_in files.now entry.number.0) entries.now) all.new.items) }
{
    for entry in entries {
        if let Some(paths) = files.series(entry.number) {
            add_paths(all, paths)?;
        }
    }
    Ok(())
}

/// The series of the files of the runs, each once, in the order of a tree.
fn series_in_order<'a, F: Files>(
    alloc: Global,
    files: &'a KeptFiles<F>,
    runs: InputRuns,
) -> Result<Vec<InputSeries<'a>>, Memory>
    requires sequence { IsWithin runs.sequence files.now.sequence }
    requires unsequence { IsWithin runs.unsequence files.now.unsequence }
    ensures all { IfOk result (λ all. HavePaths (run_paths runs files.now) all.items) }
    ensures order { IfOk result (λ all. AreInNameOrder input_names all.items) }
{
    let mut all = Vec::new(alloc);
    let sequence = files.entries(Space::Sequence);
    add_files(
        &mut all,
        files,
        &sequence[runs.sequence.first..runs.sequence.end],
    )?;
    let unsequence = files.entries(Space::Unsequence);
    add_files(
        &mut all,
        files,
        &unsequence[runs.unsequence.first..runs.unsequence.end],
    )?;
    all.sort_unstable_by_key(|series| series.names);
    all.dedup_by_key(|series| series.names);
    Ok(all)
}

/// The paths of the series.
fn paths_of(alloc: Global, series: &[InputSeries<'_>]) -> Result<Vec<Path>, Memory>
    ensures { IfOk result (λ paths. paths.items ≡ map input_path series.now) }
{
    let mut paths = Vec::with_capacity(alloc, series.len())?;
    for one in series {
        paths.push(one.path.copy()?)?;
    }
    Ok(paths)
}

/// The schema of the series with the path, where memory has it.
fn schema_of(memory: &MemoryStore, path: &Path) -> Result<Option<Schema>, Memory>
    ensures { IfOk result (λ schema. if_some schema ≡ schemas_at memory.now.series path.now) }
{
    let Some(series) = memory.series(path) else {
        return Ok(None);
    };
    Ok(Some(Schema {
        path: path.copy()?,
        data_type: series.data_type,
        encoding: series.encoding,
    }))
}

/// The schemas of those of the series that memory has.
fn schemas_of(
    alloc: Global,
    memory: &MemoryStore,
    series: &[InputSeries<'_>],
) -> Result<List<Schema>, Memory>
    ensures { IfOk result (λ schemas. schemas
        ≡ flat_map (λ one. schemas_at memory.now.series (input_path one)) series.now) }
{
    let mut schemas = Vec::new(alloc);
    for one in series {
        if let Some(schema) = schema_of(memory, one.path)? {
            schemas.push(schema)?;
        }
    }
    Ok(List::of(schemas))
}

/// What a job has of memory: the marks of the series of its inputs, and the schemas of those that memory has, in the
/// order of a tree.
#[derive(Drop)]
pub struct JobSeries {
    pub marks: Marks,
    pub schemas: List<Schema>,
}

/// The marks and the schemas of a job with the files of the runs as its inputs. It sorts the series of all inputs once,
/// and looks at no mark of another series but for the few that the marks have outside their index.
pub fn job_series<F: Files>(
    alloc: Global,
    files: &KeptFiles<F>,
    memory: &MemoryStore,
    runs: InputRuns,
) -> Result<JobSeries, Memory>
    requires sequence { IsWithin runs.sequence files.now.sequence }
    requires unsequence { IsWithin runs.unsequence files.now.unsequence }
    ensures { IfOk result (AreSeriesOfJob (run_paths runs files.now) memory.now) }
{
    // (a call that tells what always holds of memory)
    memory.sound();
    let series = series_in_order(alloc, files, runs)?;
    let paths = paths_of(alloc, series.as_slice())?;
    Ok(JobSeries {
        marks: memory.marks().only(paths.as_slice())?,
        schemas: schemas_of(alloc, memory, series.as_slice())?,
    })
}
