//! Places promised to jobs that are out. Depends on tsdb_base and tsdb_plan.
ghost use Rattle.std.specs.Prelude.{◌≡◌, ◌<◌, IfOk, OnOk, vec_capacity, vec_len};
ghost use Rattle.tsdb_fileset.specs.Growth.{AppendsTo, HasOneMore, HasPlaceIn, HasRoomLeft, IsRoomier};
ghost use Rattle.tsdb_fileset.specs.Room.{HasRoom, flush_room as flush_room_of, less_room as less_room_of, more_room};

use crate::files::Outgoing;
use tsdb_base::{FileNumber, Memory, Space};
use tsdb_plan::FileEntry;

/// For how many files of jobs that are out there is a place in each list, and among the outgoing files.
#[derive(Clone, Copy, Debug, PartialEq, Eq)]
pub struct Spare {
    pub sequence: usize,
    pub unsequence: usize,
    pub outgoing: usize,
}

/// Both together.
pub(crate) fn sum_of(spare: &Spare, room: &Spare) -> Result<Spare, Memory>
    ensures { IfOk result (λ sum. sum ≡ more_room spare.now room.now) }
{
    let Some(sequence) = spare.sequence.checked_add(room.sequence) else {
        return Err(Memory);
    };
    let Some(unsequence) = spare.unsequence.checked_add(room.unsequence) else {
        return Err(Memory);
    };
    let Some(outgoing) = spare.outgoing.checked_add(room.outgoing) else {
        return Err(Memory);
    };
    Ok(Spare {
        sequence,
        unsequence,
        outgoing,
    })
}

/// What the files of a flush need.
pub(crate) fn flush_room(sequence: Option<FileNumber>, unsequence: Option<FileNumber>) -> Spare
    ensures { result ≡ flush_room_of sequence unsequence }
{
    let sequence = usize::from(sequence.is_some());
    let unsequence = usize::from(unsequence.is_some());
    Spare {
        sequence,
        unsequence,
        outgoing: sequence + unsequence,
    }
}

/// Without the places of one job's file of the space.
pub(crate) fn less_room(spare: &Spare, space: Space) -> Spare
    requires { HasRoom space spare.now }
    ensures { result ≡ less_room_of space spare.now }
{
    match space {
        Space::Sequence => Spare {
            sequence: spare.sequence - 1,
            unsequence: spare.unsequence,
            outgoing: spare.outgoing - 1,
        },
        Space::Unsequence => Spare {
            sequence: spare.sequence,
            unsequence: spare.unsequence - 1,
            outgoing: spare.outgoing - 1,
        },
    }
}

/// Makes room for so many more in each list, and among the outgoing files.
pub(crate) fn make_room(
    sequence: &mut Vec<FileEntry>,
    unsequence: &mut Vec<FileEntry>,
    outgoing: &mut Vec<Outgoing>,
    spare: &Spare,
) -> Result<(), Memory>
    ensures sequence { IsRoomier sequence.old sequence.new }
    ensures unsequence { IsRoomier unsequence.old unsequence.new }
    ensures outgoing { IsRoomier outgoing.old outgoing.new }
    ensures ok { OnOk result (HasRoomLeft spare.now sequence.new unsequence.new outgoing.new) }
{
    sequence.reserve(spare.sequence)?;
    unsequence.reserve(spare.unsequence)?;
    outgoing.reserve(spare.outgoing)?;
    Ok(())
}

/// Puts one more at the end, where there is room.
pub(crate) fn push<T>(list: &mut Vec<T>, last: T)
    requires { vec_len list.old < vec_capacity list.old }
    ensures { HasOneMore last list.old list.new }
{
    match list.push(last) {
        Ok(()) => (),
        Err(_full) => unreachable!(),
    }
}

/// Puts the entry at the end of the list of the space.
pub(crate) fn push_entry(
    sequence: &mut Vec<FileEntry>,
    unsequence: &mut Vec<FileEntry>,
    space: Space,
    entry: FileEntry,
)
    requires { HasPlaceIn space sequence.old unsequence.old }
    ensures { AppendsTo space entry sequence.old sequence.new unsequence.old unsequence.new }
{
    match space {
        Space::Sequence => push(sequence, entry),
        Space::Unsequence => push(unsequence, entry),
    }
}
