//! Schemas that a test names.
ghost use Rattle.std.specs.Prelude.{IfOk};
ghost use Rattle.tsdb_model.specs.Commands.{IsSchema};

use std::alloc::Global;
use std::test::Fail;
use tsdb_base::{DataType, Encoding, suits};
use tsdb_model::Schema;
use tsdb_path::Path;

/// The schema of a series, where there may be one.
pub fn schema_at(
    alloc: Global,
    path: &[u8],
    data_type: DataType,
    encoding: Encoding,
) -> Result<Schema, Fail>
    ensures { IfOk result IsSchema }
{
    let path = Path::read(alloc, path)?;
    if path.nodes() < 3 || !suits(data_type, encoding) {
        return Err("no series".into());
    }
    Ok(Schema {
        path,
        data_type,
        encoding,
    })
}
