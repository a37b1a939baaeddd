//! What the insert before a line has, since that of the line often has the same. Depends on `numbered`.
ghost use Rattle.std.specs.Prelude.{◌≡◌, All, IsTrue, map};
ghost use Rattle.tsdb_model.specs.Commands.{AreDifferent, IsWellFormed};

use crate::numbered::Numbered;
use tsdb_model::{Cell, Command};
use tsdb_path::{Name, Path};

/// The device and the cells of an insert.
#[derive(Clone, Copy)]
pub struct Before<'a> {
    pub device: Option<&'a Path>,
    pub cells: &'a [Cell],
}

/// What the last command has, where it is an insert.
pub fn last_insert(script: &[Numbered]) -> Before<'_>
    requires { All (λ numbered. IsWellFormed numbered.command) script.now }
    ensures { AreDifferent (map (λ cell. cell.measurement) result.cells.now) }
{
    match script.last() {
        Some(
            Numbered {
                command: Command::Insert { device, row },
                ..
            },
        ) => Before {
            device: Some(device),
            cells: row.cells.items(),
        },
        _ => Before {
            device: None,
            cells: &[],
        },
    }
}

/// Whether the cells have these names, in their order.
pub fn are_named(cells: &[Cell], names: &[Name]) -> bool
    ensures { IsTrue result → names.now ≡ map (λ cell. cell.measurement) cells.now }
{
    if names.len() != cells.len() {
        return false;
    }
    for (at, name) in names.iter().enumerate() {
        if name.bytes() != cells[at].measurement.bytes() {
            return false;
        }
    }
    true
}
