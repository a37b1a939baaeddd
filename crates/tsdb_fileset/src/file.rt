//! A stored file whose token is kept. Depends on `series`, tsdb_base, tsdb_path and tsdb_outside.
ghost use Rattle.std.specs.Prelude.{◌≡◌, IfOk, OnErr, OnOk};
ghost use Rattle.std.specs.List.{list_any};
ghost use Rattle.tsdb_fileset.specs.Rights.{one_less, one_more};
ghost use Rattle.tsdb_flush.specs.Places.{is_path};

use crate::series::SeriesPaths;
use std::marker::Model;
use tsdb_base::{List, Memory};
use tsdb_outside::{Files, Port};
use tsdb_path::Path;

/// The token of a stored file, the paths of its series, and how many rights to read it are out.
pub(crate) struct KeptFile<F: Files> {
    sealed: F::Sealed,
    series: SeriesPaths,
    rights: u64,
}

impl<F: Files> Model for KeptFile<F> {
    ghost use Rattle.std.specs.Prelude.{◌≡◌};
    ghost use Rattle.tsdb_fileset.specs.Places.{KeptFile};

    ghost Value = { KeptFile };

    ghost view = { λ kept. record { name = F.Sealed.file kept.sealed; series = kept.series; rights = kept.rights } };

    ghost invariant = { λ kept. F.Sealed.rights kept.sealed ≡ kept.rights };
}

impl<F: Files> KeptFile<F> {
    /// The file of a token of which no right is out.
    pub(crate) fn new(sealed: F::Sealed, series: List<Path>) -> KeptFile<F>
        requires { F.Sealed.rights sealed ≡ 0 }
        ensures { result ≡ record { name = F.Sealed.file sealed; series = series; rights = 0 } }
    {
        KeptFile {
            sealed,
            series: SeriesPaths::new(series),
            rights: 0,
        }
    }

    /// How many rights to read the file are out.
    pub(crate) fn rights(&self) -> u64
        ensures { result ≡ self.now.rights }
    {
        self.rights
    }

    /// The paths of its series.
    pub(crate) fn series(&self) -> &[Path]
        ensures { result.now ≡ self.now.series }
    {
        self.series.items()
    }

    /// Whether the path is that of one of its series.
    pub(crate) fn has(&self, path: &Path) -> bool
        ensures { result ≡ list_any (is_path path.now) self.now.series }
    {
        self.series.has(path)
    }

    /// Gives out a right to read the file. Rights take memory, so they end before their count does.
    pub(crate) fn share(&mut self) -> Result<F::Right, Memory>
        ensures right { IfOk result (λ right. F.Right.file right ≡ self.old.name) }
        ensures ok { OnOk result (self.new ≡ one_more self.old) }
        ensures memory { OnErr result (self.new ≡ self.old) }
    {
        let Some(rights) = self.rights.checked_add(1) else {
            return Err(Memory);
        };
        let right = <F::Port as Port>::share(&mut self.sealed)?;
        self.rights = rights;
        Ok(right)
    }

    /// Takes a right to read the file back.
    pub(crate) fn give_back(&mut self, right: F::Right)
        requires { F.Right.file right ≡ self.old.name }
        ensures { self.new ≡ one_less self.old }
    {
        <F::Port as Port>::give_back(&mut self.sealed, right);
        self.rights = self.rights.saturating_sub(1);
    }

    /// The token.
    pub(crate) fn into_sealed(self) -> F::Sealed
        ensures name { F.Sealed.file result ≡ self.name }
        ensures rights { F.Sealed.rights result ≡ self.rights }
    {
        let KeptFile {
            sealed,
            series: _,
            rights: _,
        } = self;
        sealed
    }
}
