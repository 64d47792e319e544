//! The laws of values that are built of others, each as a clause that is proved.

ghost use Rattle.sval_core.specs.ValueLaws.{EmissionsAssociate, SilentIsUnit, PartsJoin, PlainValuesTell, TaggedTells, EnumsTell, NoPartTells, PartTells, ContainerTells, SequencesTell, OptionsTell, MapsTell, TuplesTell};

/// What holds of emissions that join, for parts of any type.
pub fn joining_laws<T>()
    ensures associate { EmissionsAssociate }
    ensures silent_is_unit { SilentIsUnit }
    ensures parts_join { PartsJoin T }
{}

/// Which trees values tell whose parts tell trees, for parts of any types.
pub fn tree_laws<T, U>()
    ensures plain_values_tell { PlainValuesTell }
    ensures tagged_tells { TaggedTells }
    ensures enums_tell { EnumsTell }
    ensures no_part_tells { NoPartTells }
    ensures part_tells { PartTells }
    ensures container_tells { ContainerTells }
    ensures sequences_tell { SequencesTell T }
    ensures options_tell { OptionsTell T }
    ensures maps_tell { MapsTell T U }
    ensures tuples_tell { TuplesTell }
{}
