//! The first bytes of the records.

pub const CREATE_KIND: u8 = 1;

pub const INSERT_KIND: u8 = 2;

pub const DELETE_KIND: u8 = 3;

pub const FREEZE_KIND: u8 = 4;

pub const FLUSHED_KIND: u8 = 5;

pub const REPLACED_KIND: u8 = 6;

pub const SNAPSHOT_KIND: u8 = 7;
