//! Folders, files and links of the system that tests make.
use std::os::unix::fs::{MetadataExt, symlink};
use std::rt::Files;
use std::{fs, io};

/// What is made, by its name first.
#[derive(Clone, Copy)]
pub enum Item {
    Folder(&'static str),
    File(&'static str, &'static str),
    /// A link to another name.
    Link(&'static str, &'static str),
    /// A second name of a file.
    Same(&'static str, &'static str),
    /// Something that had another name.
    Renamed(&'static str, &'static str),
}

fn make(files: &impl Files, item: Item) -> io::Result<()> {
    match item {
        Item::Folder(name) => fs::create_dir(files, name),
        Item::File(name, bytes) => fs::write(files, name, bytes),
        Item::Link(name, to) => symlink(files, to, name),
        Item::Same(name, file) => fs::hard_link(files, file, name),
        Item::Renamed(name, from) => fs::rename(files, from, name),
    }
}

/// Whether all of these are made, one behind another.
pub fn are_made(rt: &HostRuntime, items: &[Item]) -> bool {
    let mut made = true;
    for item in items {
        made = made && make(rt, *item).is_ok();
    }
    made
}

/// Whether a file has this text.
pub fn has_text(rt: &HostRuntime, name: &str, text: &str) -> bool {
    match fs::read_to_string(rt, name) {
        Ok(found) => found.as_str() == text,
        Err(_) => false,
    }
}

/// Whether all of these are private to their owner, a folder by 0700 and a file by 0600.
pub fn are_private(rt: &HostRuntime, names: &[&str]) -> bool {
    let mut private = true;
    for name in names {
        private = private && is_private(rt, name);
    }
    private
}

fn is_private(rt: &HostRuntime, name: &str) -> bool {
    match fs::metadata(rt, name) {
        Ok(found) => {
            let mode = if found.is_dir() { 0o700 } else { 0o600 };
            found.mode() & 0o777 == mode
        }
        Err(_) => false,
    }
}
