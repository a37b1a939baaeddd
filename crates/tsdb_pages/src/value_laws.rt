//! The laws of the spelling. No body uses them. It depends on the definitions alone.
ghost use Rattle.std.specs.Prelude.{◌≡◌, true};
ghost use Rattle.tsdb_base.specs.declared.value.DataType.{DataType};
ghost use Rattle.tsdb_base.specs.declared.value.Encoding.{Encoding};
ghost use Rattle.tsdb_base.specs.Values.{is_suitable, IsValueOf};
ghost use Rattle.tsdb_bits.specs.Lists.{HasOneSpelling, IsShort};
ghost use Rattle.tsdb_pages.specs.ListSpelling.{spelling};

/// Two lists of values of one type with the same bytes are equal.
pub fn one_spelling()
    ensures { (data_type : DataType) (encoding : Encoding) → is_suitable data_type encoding ≡ true →
        HasOneSpelling (spelling encoding) (IsValueOf data_type) }
{}

/// A list has fewer than 2^30 bytes.
pub fn spelling_is_short()
    ensures { (data_type : DataType) (encoding : Encoding) → is_suitable data_type encoding ≡ true →
        IsShort (spelling encoding) (IsValueOf data_type) }
{}
