//! The stores and files of real directories.
use crate::folders::{Item, are_made, are_private, has_text};
use crate::looks::{Look, has_all};
use crate::steps::{FileStep, SlotStep};
use fs_outside::FsPlace;
use tsdb_base::FileNumber;
use tsdb_outside::{Slot, StoreFault};

// The slots of a new store.
static NEW: [SlotStep; 2] = [
    SlotStep::Read(Slot::A, ([0, 0, 0, 0], 1)),
    SlotStep::Read(Slot::B, ([0, 0, 0, 0], 1)),
];

static WRITTEN: [SlotStep; 2] = [
    SlotStep::Write(Slot::B, 0, &[3, 2, 1], Ok(())),
    SlotStep::Sync(Slot::B, Ok(())),
];

static FOUND: [SlotStep; 2] = [
    SlotStep::Read(Slot::A, ([0, 0, 0, 0], 1)),
    SlotStep::Read(Slot::B, ([3, 2, 1, 0], 3)),
];

/// Whether the store of a directory has all of these, in two new places that take turns. This is the one function that
/// makes places, since its proof is dear.
pub fn store_has(rt: &HostRuntime, dir: &[u8], looks: &[Look]) -> Result<bool, StoreFault> {
    let mut place = FsPlace::new(rt.clone()?);
    let mut other = Some(FsPlace::new(rt.clone()?));
    has_all(&mut place, &mut other, dir, looks)
}

/// Whether a directory is opened as a new store.
pub fn opened(rt: &HostRuntime, dir: &[u8]) -> Result<bool, StoreFault> {
    store_has(rt, dir, &[Look::Slots(&NEW)])
}

#[test]
fn store_is_made_new_and_opened_again(rt: HostRuntime) {
    let looks = [
        Look::Slots(&NEW),
        Look::Slots(&WRITTEN),
        Look::Slots(&FOUND),
    ];
    assert!(rt; matches!(store_has(&rt, b"made", &looks), Ok(true)));
}

// The first of these directories whose opening has another answer than this.
fn first_other(
    rt: &HostRuntime,
    dirs: &[&[u8]],
    answer: Result<bool, StoreFault>,
) -> Option<usize> {
    for (index, dir) in dirs.iter().enumerate() {
        if opened(rt, dir) != answer {
            return Some(index);
        }
    }
    None
}

// Stores as they are left behind some steps of their making.
static UNFINISHED: [Item; 8] = [
    Item::Folder("m0"),
    Item::Folder("m1"),
    Item::File("m1/slot1.new", ""),
    Item::Folder("m2"),
    Item::File("m2/slot1", "\0"),
    Item::Folder("m3"),
    Item::File("m3/slot1", "\0"),
    Item::File("m3/slot0.new", "ab"),
];

static NEW_STORES: [&[u8]; 4] = [b"m0", b"m1", b"m2", b"m3"];

#[test]
fn unfinished_store_is_opened_as_new(rt: HostRuntime) {
    assert!(rt; are_made(&rt, &UNFINISHED));
    assert_eq!(rt; first_other(&rt, &NEW_STORES, Ok(true)), None);
}

// Directories whose log was lost, or whose slots are none.
static WITHOUT_LOG: [Item; 25] = [
    Item::Folder("whole"),
    Item::File("whole/slot0", "0"),
    Item::Folder("folder"),
    Item::Folder("folder/slot0"),
    Item::Folder("files"),
    Item::File("files/7.tsfile", ""),
    Item::Folder("longer"),
    Item::File("longer/slot1", "\0\0"),
    Item::Folder("other"),
    Item::File("other/slot1", "1"),
    Item::Folder("empty"),
    Item::File("empty/slot1", ""),
    Item::Folder("dangling"),
    Item::Link("dangling/slot0", "nowhere"),
    Item::Folder("away"),
    Item::File("away/slot1", "\0"),
    Item::Link("away/slot0", "nowhere"),
    Item::File("plain", ""),
    Item::Link("to_nothing", "nowhere"),
    // One file under the names of both slots.
    Item::Folder("same"),
    Item::File("same/slot0", "\0"),
    Item::Same("same/slot1", "same/slot0"),
    Item::Folder("round"),
    Item::File("round/slot0", "\0"),
    Item::Link("round/slot1", "slot0"),
];

static REFUSED: [&[u8]; 18] = [
    b"whole",
    b"folder",
    b"files",
    b"longer",
    b"other",
    b"empty",
    b"dangling",
    b"away",
    b"\xff",
    b"no/parent",
    b"",
    // What is no directory, and slots that are one file.
    b"plain",
    b"plain/in_it",
    b"to_nothing",
    b"/dev/null",
    b"/dev/zero",
    b"same",
    b"round",
];

#[test]
fn directory_without_its_log_counts_a_fault(rt: HostRuntime) {
    assert!(rt; are_made(&rt, &WITHOUT_LOG));
    assert_eq!(rt; first_other(&rt, &REFUSED, Err(StoreFault::Failed)), None);
}

static LINKED: [Item; 3] = [
    Item::Folder("linked"),
    Item::File("kept", "kept"),
    Item::Link("linked/slot0.new", "../kept"),
];

#[test]
fn unfinished_slot_is_not_followed_through_a_link(rt: HostRuntime) {
    assert!(rt; are_made(&rt, &LINKED) && matches!(opened(&rt, b"linked"), Ok(true)));
    assert!(rt; has_text(&rt, "kept", "kept"));
}

#[test]
fn one_program_has_a_store_at_a_time(rt: HostRuntime) {
    let looks = [Look::Slots(&NEW), Look::Slots(&NEW)];
    assert!(rt; matches!(store_has(&rt, b"twice", &looks), Ok(true)));
}

// A copy of a store by hard links has its first slot, and another one by a symbolic link.
static SHARED: [Item; 6] = [
    Item::Folder("copied"),
    Item::Same("copied/slot0", "first/slot0"),
    Item::File("copied/slot1", "\0"),
    Item::Folder("led"),
    Item::Link("led/slot0", "../first/slot0"),
    Item::File("led/slot1", "\0"),
];

static SHARED_WITH: [Look; 2] = [Look::SharedWith(b"copied"), Look::SharedWith(b"led")];

#[test]
fn stores_that_share_a_slot_are_not_open_at_once(rt: HostRuntime) {
    assert!(rt; matches!(opened(&rt, b"first"), Ok(true)) && are_made(&rt, &SHARED));
    assert!(rt; matches!(store_has(&rt, b"first", &SHARED_WITH), Ok(true)));
    assert_eq!(rt; first_other(&rt, &[b"copied", b"led"], Ok(true)), None);
}

static ONE_FILE: [FileStep; 1] = [FileStep::Put(1, b"abcd", Ok(()))];

static PRIVATE: [&str; 4] = [
    "private",
    "private/slot0",
    "private/slot1",
    "private/1.tsfile",
];

#[test]
fn what_a_store_makes_is_private(rt: HostRuntime) {
    assert!(rt;
        matches!(
            store_has(&rt, b"private", &[Look::Files(&ONE_FILE)]),
            Ok(true)
        )
    );
    assert!(rt; are_private(&rt, &PRIVATE));
}

// A file, and a folder, a link and others that are no stored files, in the folder of a store.
static STORED: [Item; 10] = [
    Item::Folder("store/7.tsfile"),
    Item::Link("store/8.tsfile", "nowhere"),
    Item::File("store/12.tsfile", "xyz"),
    Item::File("store/0.tsfile", "other"),
    Item::File("store/01.tsfile", "other"),
    Item::File("store/+1.tsfile", "other"),
    Item::File("store/9223372036854775808.tsfile", "other"),
    Item::File("store/1.tsfile.new", "other"),
    Item::File("store/.tsfile", "other"),
    Item::File("store/one", "other"),
];

// Files are stored, found again and removed. What has the number 0, 7 or 8 is none; no new file can have the number 7
// or 8, so these are listed.
static SERVED: [FileStep; 14] = [
    FileStep::List(&[FileNumber(7), FileNumber(8), FileNumber(12)]),
    FileStep::Put(7, b"", Err(StoreFault::Failed)),
    FileStep::Put(3, b"abcd", Ok(())),
    FileStep::Put(12, b"", Err(StoreFault::Failed)),
    FileStep::Read(12, 0, Ok(Some((*b"xyz\0", 3)))),
    FileStep::Read(3, 1, Ok(Some((*b"bcd\0", 4)))),
    FileStep::Read(3, 4, Ok(Some(([0; 4], 4)))),
    FileStep::Read(2, 0, Ok(None)),
    FileStep::Remove(12, Ok(true)),
    FileStep::List(&[FileNumber(3), FileNumber(7), FileNumber(8)]),
    FileStep::Remove(0, Ok(false)),
    FileStep::Remove(7, Ok(false)),
    FileStep::Remove(8, Ok(false)),
    FileStep::Remove(12, Ok(false)),
];

// Whether what is no stored file is left alone.
fn has_others(rt: &HostRuntime) -> bool {
    has_text(rt, "store/0.tsfile", "other") && has_text(rt, "store/01.tsfile", "other")
}

#[test]
fn folder_serves_files_and_leaves_others_alone(rt: HostRuntime) {
    assert!(rt; matches!(opened(&rt, b"store"), Ok(true)) && are_made(&rt, &STORED));
    assert!(rt; matches!(store_has(&rt, b"store", &[Look::Files(&SERVED)]), Ok(true)));
    assert!(rt; has_text(&rt, "store/3.tsfile", "abcd") && has_others(&rt));
}

// The directory of a store is renamed, and another store stands where it was.
static MOVED_AWAY: [Item; 4] = [
    Item::Renamed("moved", "gone"),
    Item::Folder("gone"),
    Item::File("gone/1.tsfile", "other"),
    Item::File("gone/2.tsfile", "other"),
];

// The files are those of the store, wherever it is.
static MOVED_FILES: [FileStep; 5] = [
    FileStep::List(&[]),
    FileStep::Put(1, b"abcd", Ok(())),
    FileStep::Read(1, 0, Ok(Some((*b"abcd", 4)))),
    FileStep::Put(3, b"efgh", Ok(())),
    FileStep::Remove(1, Ok(true)),
];

static OTHER_FILES: [&str; 2] = ["gone/1.tsfile", "gone/2.tsfile"];

#[test]
fn store_that_is_renamed_touches_no_other(rt: HostRuntime) {
    let look = Look::Moved(&rt, &MOVED_AWAY, &MOVED_FILES);
    assert!(rt; matches!(store_has(&rt, b"gone", &[look]), Ok(true)));
    assert!(rt; has_text(&rt, "moved/3.tsfile", "efgh") && has_text(&rt, OTHER_FILES[0], "other"));
    assert!(rt; has_text(&rt, OTHER_FILES[1], "other") && !has_text(&rt, "gone/3.tsfile", "efgh"));
}
