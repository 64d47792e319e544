//! The law of writing values that are checked first, as a clause that is proved.

ghost use Rattle.sval_whole.specs.WholeLaws.{OneWriteAnswer};
ghost use Rattle.sval_whole.specs.StructJson.{RecordsAreObjects, StructsAreObjects, UnitStructsAreTheirName, NewtypesAreTheirValue, TupleStructsAreArrays, UnitVariantsAreTheirName, ValueVariantsAreNamed, TupleVariantsAreNamed, StructVariantsAreNamed};

/// What holds of all values in each style of variants: the answers that may be due exclude each other, and one of
/// them is due. So [`write_json`](crate::write_json) answers `Ok` for each value whose calls are one whole value
/// that has a JSON, and for no other, unless the sink declined or memory was wanting.
pub fn whole_laws()
    ensures one_write_answer { OneWriteAnswer }
{}

/// Which JSON structs and enums of a user's own have, in either style of variants.
pub fn struct_json_laws()
    ensures records { RecordsAreObjects }
    ensures structs { StructsAreObjects }
    ensures unit_structs { UnitStructsAreTheirName }
    ensures newtypes { NewtypesAreTheirValue }
    ensures tuple_structs { TupleStructsAreArrays }
    ensures unit_variants { UnitVariantsAreTheirName }
    ensures value_variants { ValueVariantsAreNamed }
    ensures tuple_variants { TupleVariantsAreNamed }
    ensures struct_variants { StructVariantsAreNamed }
{}
