//! Texts: at most 65,535 bytes of any value. It depends on std alone.
ghost use Rattle.std.specs.Prelude.{◌≡◌, ◌↔◌, ◌<◌, ◌≤◌, length, IfOk, Err, nat_eq, refl};
ghost use Rattle.std.specs.Ordering.{nat_cmp, on, as_partial_cmp};
ghost use Rattle.std.specs.Hash as fed;
ghost use Rattle.std.specs.Cmp.Lexicographic.{pointwise, slice_cmp};
ghost use Rattle.std.specs.Cmp.{partial_order_from_own_ties};
ghost use Rattle.std.specs.Cmp.Rules.{comparing, hashing};
ghost use Rattle.std.proofs.Common.{rules};
ghost use Rattle.tsdb_base.specs.Limits.{max_text_bytes};

use crate::limits::MAX_TEXT_BYTES;
use std::alloc::{AllocError, Global};
use std::cmp::Ordering;
use std::error::Error;
use std::fmt;
use std::hash::{Hash, Hasher};
use std::marker::Model;

/// The most bytes of a text that is kept without memory of its own.
const MAX_SHORT: usize = 22;

/// How the bytes of a text are kept.
#[derive(Drop)]
enum Bytes {
    /// The first so many bytes of the room.
    Short(u8, [u8; MAX_SHORT]),
    Long(Vec<u8>),
}

/// At most 65,535 bytes of any value. A contract sees it as the list of its bytes.
#[derive(Drop)]
pub struct Text {
    bytes: Bytes,
}

impl Model for Text {
    ghost use Rattle.std.specs.Prelude.{List, ℕ};
    ghost use Rattle.tsdb_base.specs.Texts.{bytes_kept, IsKeptText};

    ghost Value = { List ℕ };

    ghost view = { λ t. bytes_kept t.bytes };

    ghost invariant = { λ t. IsKeptText t.bytes };
}

/// Why a text could not be made.
#[derive(Clone, Copy, Debug, PartialEq, Eq)]
pub enum TextFault {
    /// There are more than 65,535 bytes.
    TooLong,
    /// Out of memory.
    Memory,
}

impl Text {
    /// The text of these bytes. It is `TooLong` exactly where there are more than 65,535.
    pub fn new(alloc: Global, bytes: &[u8]) -> Result<Text, TextFault>
        ensures same { IfOk result (λ text. text ≡ bytes.now) }
        ensures too_long { (result ≡ Err TextFault.TooLong) ↔ (max_text_bytes < length bytes.now) }
    {
        if bytes.len() > MAX_TEXT_BYTES {
            return Err(TextFault::TooLong);
        }
        if bytes.len() <= MAX_SHORT {
            let mut room = [0; MAX_SHORT];
            room[..bytes.len()].copy_from_slice(bytes);
            return Ok(Text {
                bytes: Bytes::Short(bytes.len() as u8, room),
            });
        }
        Ok(Text {
            bytes: Bytes::Long(Vec::from_slice(alloc, bytes)?),
        })
    }

    /// The bytes, in their order.
    pub fn bytes(&self) -> &[u8]
        ensures same { result.now ≡ self.now }
        ensures short { length result.now ≤ max_text_bytes }
    {
        match &self.bytes {
            Bytes::Short(len, room) => &room[..*len as usize],
            Bytes::Long(bytes) => bytes.as_slice(),
        }
    }
}

impl From<AllocError> for TextFault {
    ghost use Rattle.std.specs.Prelude.{◌≡◌};
    ghost use Rattle.tsdb_base.specs.declared.text.TextFault.TheVariants.{Memory};

    ghost from_gives = { λ _ e. e ≡ Memory };

    fn from(_error: AllocError) -> TextFault {
        TextFault::Memory
    }
}

impl Clone for Text {
    ghost is_clone = { λ text copy. copy ≡ text };

    fn clone(&self) -> Result<Text, AllocError> {
        let bytes = match &self.bytes {
            Bytes::Short(len, room) => Bytes::Short(*len, *room),
            Bytes::Long(bytes) => Bytes::Long(bytes.clone()?),
        };
        Ok(Text { bytes })
    }
}

impl PartialEq for Text {
    ghost eq = { pointwise nat_eq };

    ghost laws = { Prim.search (comparing, rules) };

    fn eq(&self, other: &Text) -> bool {
        self.bytes() == other.bytes()
    }
}

impl Eq for Text {
    ghost laws = { Prim.search (comparing, rules) };
}

impl PartialOrd for Text {
    ghost partial_cmp = { as_partial_cmp (slice_cmp nat_cmp) };

    ghost laws = { partial_order_from_own_ties (Prim.search (comparing, rules)) (Prim.search (comparing, rules)) };

    fn partial_cmp(&self, other: &Text) -> Option<Ordering> {
        Some(self.cmp(other))
    }
}

impl Ord for Text {
    ghost cmp = { slice_cmp nat_cmp };

    ghost total = { Prim.search (comparing, rules) };

    ghost matches_partial_cmp = { λ x y. refl };

    ghost matches_eq = { Prim.search (comparing, rules) };

    fn cmp(&self, other: &Text) -> Ordering {
        self.bytes().cmp(other.bytes())
    }
}

impl Hash for Text {
    ghost hash_input = { fed.slice fed.u8 };

    ghost respects_eq = { Prim.search (hashing, rules) };

    fn hash<H: Hasher>(&self, state: &mut H) {
        self.bytes().hash(state);
    }
}

/// A text is shown as its bytes, those that are no visible ASCII as `\x` and two digits.
impl fmt::Debug for Text {
    fn fmt<W: fmt::Write>(&self, f: &mut fmt::Formatter<W>) -> fmt::Result {
        f.write_str("\"")?;
        for b in self.bytes() {
            if b.is_ascii_graphic() || *b == b' ' {
                f.write_char(char::from(*b))?;
            } else {
                write!(f, "\\x{b:02x}")?;
            }
        }
        f.write_str("\"")
    }
}

impl fmt::Display for TextFault {
    fn fmt<W: fmt::Write>(&self, f: &mut fmt::Formatter<W>) -> fmt::Result {
        match self {
            TextFault::TooLong => f.write_str("a text of more than 65,535 bytes"),
            TextFault::Memory => f.write_str("memory"),
        }
    }
}

impl Error for TextFault {}
