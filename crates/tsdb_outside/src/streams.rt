//! Where the script comes from, and where the output goes. Depends on `faults`.
ghost use Rattle.std.specs.Prelude.{ℕ, List, ◌≡◌, ◌<◌, length, IfOk, OnOk};
ghost use Rattle.std.specs.declared.option.Option.{Option};
ghost use Rattle.std.specs.Io.{ReadsAtMost, WritesAtMost};
ghost use Rattle.std.specs.Io.KnownBytes.{ReadConsumes, WriteAppends};
ghost use Rattle.tsdb_outside.specs.Causes.{HasCause, HasStoreCause, RisesOnlyByFailed};

use crate::{Counted, Failed, StoreFault};

/// Where bytes come from.
pub trait Source: Counted {
    /// The bytes that are left, or none where it does not tell.
    ghost left: { Self → Option (List ℕ) };

    /// Moves a prefix of what is left to the beginning of `into`, and returns its length: at least one byte, or 0
    /// where `into` is empty or nothing is left. After `Failed` the same is left as before. The rest of `into`, and
    /// all of it after `Failed`, may hold any bytes. Where it returns `Ok` its count of faults is as before.
    fn take(&mut self, into: &mut [u8]) -> Result<usize, Failed>
        ensures bound { ReadsAtMost result into.new }
        ensures bytes { ReadConsumes (left self.old) (left self.new) result into.new }
        ensures no_fault { OnOk result (Self.faults self.new ≡ Self.faults self.old) }
        ensures cause { HasCause (Self.faults self.old) (Self.faults self.new) result };
}

/// Where bytes go to.
pub trait Sink: Counted {
    /// The bytes that it holds, or none where it does not tell.
    ghost held: { Self → Option (List ℕ) };

    /// Appends a prefix of `bytes`, and returns its length: at least one byte where `bytes` is not empty. After an
    /// error it holds what it held before. Its count of faults rises only where it returns `Failed`.
    fn put(&mut self, bytes: &[u8]) -> Result<usize, StoreFault>
        ensures bound { WritesAtMost result bytes.now }
        ensures moves { IfOk result (λ count. 0 < length bytes.now → 0 < count) }
        ensures bytes { WriteAppends (held self.old) (held self.new) result bytes.now }
        ensures no_fault { RisesOnlyByFailed (Self.faults self.old) (Self.faults self.new) result }
        ensures cause { HasStoreCause (Self.faults self.old) (Self.faults self.new) result };
}
