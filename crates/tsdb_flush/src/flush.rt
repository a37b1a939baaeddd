//! Running a flush. Depends on `part`.
ghost use Rattle.std.specs.Prelude.{◌≡◌, ◌≢◌, ◌≤◌, ◌⊎◌, [], None, IfOk, IfErr};
ghost use Rattle.tsdb_base.specs.declared.ids.Space.TheVariants.{Sequence, Unsequence};
ghost use Rattle.tsdb_flush.specs.Making.{IsPartInMaking};
ghost use Rattle.tsdb_flush.specs.BuiltFile.{IsBuiltOf, IsPartDone, IsFileEntryOf, IsFileOf, paths_of};
ghost use Rattle.tsdb_flush.specs.Jobs.{IsJob, job_part};
ghost use Rattle.tsdb_flush.specs.Parts.{IsNumberDrawnFor};
ghost use Rattle.tsdb_base.specs.Causes.{Rose};
ghost use Rattle.tsdb_outside.specs.Causes.{HasStoreCause};
ghost use Rattle.tsdb_outside.specs.declared.faults.StoreFault.TheVariants.{Failed};

use crate::job::{Built, FlushJob, Flushed};
use crate::part::{PartBuilder, Whole};
use std::alloc::Global;
use tsdb_base::{FileNumber, Memory, Space};
use tsdb_outside::{Files, Port, StoreFault};

/// Why a flush stopped, with the files that it had put by then.
pub struct FlushRefused<F: Files> {
    pub files: Flushed<F>,
    pub fault: StoreFault,
}

/// The series of the job that have points in the space, with their points.
fn gather(alloc: Global, job: &FlushJob, space: Space) -> Result<PartBuilder, Memory>
    requires { IsJob job.now }
    ensures { IfOk result (IsPartInMaking (job_part space job.now)) }
{
    let mut part = PartBuilder::new(alloc);
    let numbers = job.series.items();
    for (place, schema) in job.schemas.items().iter().enumerate() {
        let points = job.pair.points_of(space, numbers[place]);
        if !points.is_empty() {
            part.add(schema, points)?;
        }
    }
    Ok(part)
}

/// The bytes of the file of a part that has a point, and what is kept of it.
fn write_part(
    alloc: Global,
    job: &FlushJob,
    space: Space,
    number: FileNumber,
) -> Result<Whole, Memory>
    requires job { IsJob job.now }
    requires some { job_part space job.now ≢ [] }
    ensures bytes { IfOk result (λ whole.
        IsFileOf (job_part space job.now) whole.bytes.items) }
    ensures entry { IfOk result (λ whole. IsFileEntryOf number.0 job.now.born.0 whole.bytes.items
        (job_part space job.now) whole.entry) }
    ensures series { IfOk result (λ whole.
        whole.series ≡ paths_of (job_part space job.now)) }
{
    gather(alloc, job, space)?.finish(number, job.born)
}

/// Writes the file of a part, where a number is drawn for it.
fn put_part<F: Files>(
    alloc: Global,
    job: &FlushJob,
    space: Space,
    number: FileNumber,
    port: &mut F::Port,
) -> Result<Built<F>, StoreFault>
    requires job { IsJob job.now }
    requires some { job_part space job.now ≢ [] }
    ensures built { IfOk result (λ built. IsBuiltOf (F.Port.store port.old) number.0 job.now.born.0
        (job_part space job.now)
        (F.Sealed.file built.sealed) (F.Sealed.rights built.sealed) built.entry built.series) }
    ensures same_store { F.Port.store port.new ≡ F.Port.store port.old }
    ensures cause { HasStoreCause (F.Port.faults port.old) (F.Port.faults port.new) result }
{
    let Whole {
        bytes,
        entry,
        series,
    } = write_part(alloc, job, space, number)?;
    let sealed = port.put(number, &bytes)?;
    Ok(Built {
        sealed,
        entry,
        series,
    })
}

/// Writes the file of a part exactly where a number is drawn for it.
fn put_drawn<F: Files>(
    alloc: Global,
    job: &FlushJob,
    space: Space,
    drawn: Option<FileNumber>,
    port: &mut F::Port,
) -> Result<Option<Built<F>>, StoreFault>
    requires job { IsJob job.now }
    requires drawn { IsNumberDrawnFor drawn (job_part space job.now) }
    ensures done { IfOk result (IsPartDone F.Sealed.file F.Sealed.rights (F.Port.store port.old) job.now.born.0
        (job_part space job.now) drawn) }
    ensures same_store { F.Port.store port.new ≡ F.Port.store port.old }
    ensures cause { HasStoreCause (F.Port.faults port.old) (F.Port.faults port.new) result }
{
    match drawn {
        Some(number) => Ok(Some(put_part::<F>(alloc, job, space, number, port)?)),
        None => Ok(None),
    }
}

/// A flush that stopped, with the file of the sequence part, if it was put.
fn refusal<F: Files>(sequence: Option<Built<F>>, fault: StoreFault) -> FlushRefused<F>
    ensures sequence { result.files.sequence ≡ sequence }
    ensures unsequence { result.files.unsequence ≡ None }
    ensures fault { result.fault ≡ fault }
{
    FlushRefused {
        files: Flushed {
            sequence,
            unsequence: None,
        },
        fault,
    }
}

/// Writes the file of each part of the job's pair that has a point, straight from the points. Its memory is the bytes of
/// one file, and a page.
///
/// It stops at the first file that it could not write or put, and hands back the file that it had put by then.
pub fn run_flush<F: Files>(
    alloc: Global,
    job: &FlushJob,
    port: &mut F::Port,
) -> Result<Flushed<F>, FlushRefused<F>>
    requires { IsJob job.now }
    ensures sequence { IfOk result (λ files. IsPartDone F.Sealed.file F.Sealed.rights (F.Port.store port.old) job.now.born.0
        (job_part Sequence job.now) job.now.sequence files.sequence) }
    ensures unsequence { IfOk result (λ files. IsPartDone F.Sealed.file F.Sealed.rights (F.Port.store port.old) job.now.born.0
        (job_part Unsequence job.now) job.now.unsequence files.unsequence) }
    ensures put { IfErr result (λ refused. (refused.files.sequence ≡ None) ⊎ IsPartDone F.Sealed.file F.Sealed.rights
        (F.Port.store port.old) job.now.born.0 (job_part Sequence job.now) job.now.sequence refused.files.sequence) }
    ensures not_put { IfErr result (λ refused. refused.files.unsequence ≡ None) }
    ensures same_store { F.Port.store port.new ≡ F.Port.store port.old }
    ensures failed { IfErr result (λ refused. refused.fault ≡ Failed
        → Rose (F.Port.faults port.old) (F.Port.faults port.new)) }
    ensures later { F.Port.faults port.old ≤ F.Port.faults port.new }
{
    let sequence = match put_drawn::<F>(alloc, job, Space::Sequence, job.sequence, port) {
        Ok(built) => built,
        Err(fault) => return Err(refusal(None, fault)),
    };
    let unsequence = match put_drawn::<F>(alloc, job, Space::Unsequence, job.unsequence, port) {
        Ok(built) => built,
        Err(fault) => return Err(refusal(sequence, fault)),
    };
    Ok(Flushed {
        sequence,
        unsequence,
    })
}
