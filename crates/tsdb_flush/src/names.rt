//! The devices of series. Depends on tsdb_path and tsdb_base.
ghost use Rattle.std.specs.Prelude.{◌≡◌, ◌≤◌, IfOk, OnOk};
ghost use Rattle.tsdb_path.specs.Nodes.{IsName, IsPath, device_of as device_in, measurement_of as measurement_in};
ghost use Rattle.tsdb_path.specs.Nodes.{node_count};

use tsdb_base::Memory;
use tsdb_path::Path;

/// The device of a series, which is a path; its measurement is a name.
pub(crate) fn device_of(path: &Path) -> Result<Path, Memory>
    requires { 2 ≤ node_count path.now }
    ensures value { IfOk result (λ device. device ≡ device_in path.now) }
    ensures device { OnOk result (IsPath (device_in path.now)) }
    ensures measurement { OnOk result (IsName (measurement_in path.now)) }
{
    path.sound();
    path.device()
}
