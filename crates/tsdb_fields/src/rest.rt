//! The bytes of a format from a place on.
ghost use Rattle.std.specs.Prelude.{◌+◌, ◌^◌, ◌<◌, length};

/// What is left to read: bytes, and the place of the first of them in the format. The place behind the last is below
/// 2^64.
#[derive(Clone, Copy)]
pub struct Rest<'a> {
    pub at: u64,
    pub bytes: &'a [u8],
    pub ghost fits: { at + length bytes.now < 2 ^ 64 },
}
