//! The name of one node. It depends on `scan`.
ghost use Rattle.std.specs.Prelude.{◌≡◌, IfOk, IfErr};
ghost use Rattle.tsdb_path.specs.Nodes.{IsName};
ghost use Rattle.tsdb_path.specs.Refusals.{RefusesName, AnswersEach, AnswersMemoryAlone};

use crate::PathFault;
use crate::scan::check_name;
use std::alloc::Global;
use std::marker::Model;
use tsdb_base::Memory;

/// The name of a node: 1 to 255 ASCII letters, digits and `_`, not all of them digits.
#[derive(Drop)]
pub struct Name {
    bytes: Vec<u8>,
}

impl Model for Name {
    ghost use Rattle.std.specs.Prelude.{ℕ, List};

    ghost Value = { List ℕ };

    ghost use Rattle.tsdb_path.specs.Nodes.{IsName};

    ghost view = { λ name. name.bytes.items };

    ghost invariant = { λ name. IsName name.bytes.items };
}

impl Name {
    /// Reads one node.
    ///
    /// Refuses no bytes as `Empty`, more than 255 as `TooLong` at 255, and else what is no node as `BadNode` at 0.
    pub fn read(alloc: Global, bytes: &[u8]) -> Result<Name, PathFault>
        ensures ok { IfOk result (λ name. IsName bytes.now × (name ≡ bytes.now)) }
        ensures err { IfErr result (RefusesName bytes.now) }
        ensures good { IsName bytes.now → AnswersMemoryAlone result }
        ensures refused { AnswersEach (RefusesName bytes.now) result }
    {
        check_name(bytes)?;
        let bytes = Vec::from_slice(alloc, bytes)?;
        Ok(Name { bytes })
    }

    /// The same name once more.
    pub fn copy(&self) -> Result<Name, Memory>
        ensures { IfOk result (λ copy. copy ≡ self.now) }
    {
        let bytes = Vec::from_slice(*self.bytes.allocator(), self.bytes.as_slice())?;
        Ok(Name { bytes })
    }

    /// The bytes of the name.
    pub fn bytes(&self) -> &[u8]
        ensures value { result.now ≡ self.now }
        ensures name { IsName self.now }
    {
        self.bytes.as_slice()
    }

    /// It does nothing, and tells what always holds of a name.
    pub fn sound(&self)
        ensures { IsName self.now }
    {
        // (a type's invariant is at hand where a field is used)
        let _ = &self.bytes;
    }
}
