//! What a list of values is encoded from: values themselves, or points. It depends on `tsdb_base`.
ghost use Rattle.std.specs.Prelude.{◌≡◌};
ghost use Rattle.tsdb_base.specs.declared.value.Value.{Value};

use tsdb_base::{Point, Value};

/// Something that has a value.
pub trait HasValue {
    /// The value of an item.
    ghost value_of: { Self → Value };

    /// The value of the item.
    fn value(&self) -> &Value
        ensures { result.now ≡ value_of self.now };
}

impl HasValue for Value {
    ghost value_of = { λ v. v };

    fn value(&self) -> &Value {
        self
    }
}

impl HasValue for Point {
    ghost value_of = { λ point. point.value };

    fn value(&self) -> &Value {
        &self.value
    }
}
