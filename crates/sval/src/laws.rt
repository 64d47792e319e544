//! The laws of this crate's values, each as a clause that is proved.

ghost use Rattle.sval.specs.StructTrees.{RecordsTell, StructsTell, UnitStructsTell, NewtypesTell, TupleStructsTell, UnitVariantsTell, ValueVariantsTell, TupleVariantsTell, StructVariantsTell};
ghost use Rattle.sval.specs.Laws.{BinarySlicesTell, BinaryArraysTell, DisplaysTell, ShownTextsTell, ShownNumbersTell};

/// Which trees the values of this crate spell, and the texts that it prints.
pub fn tree_laws<V>()
    ensures binary_slices_tell { BinarySlicesTell }
    ensures binary_arrays_tell { BinaryArraysTell }
    ensures displays_tell { DisplaysTell V }
    ensures shown_texts_tell { ShownTextsTell }
    ensures shown_numbers_tell { ShownNumbersTell }
{}

/// Which trees structs and enums of a user's own spell.
pub fn struct_laws()
    ensures records_tell { RecordsTell }
    ensures structs_tell { StructsTell }
    ensures unit_structs_tell { UnitStructsTell }
    ensures newtypes_tell { NewtypesTell }
    ensures tuple_structs_tell { TupleStructsTell }
    ensures unit_variants_tell { UnitVariantsTell }
    ensures value_variants_tell { ValueVariantsTell }
    ensures tuple_variants_tell { TupleVariantsTell }
    ensures struct_variants_tell { StructVariantsTell }
{}
