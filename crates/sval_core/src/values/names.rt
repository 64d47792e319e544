//! The names that values of the standard library give.

ghost use Rattle.std.specs.Prelude.{◌≡◌, codes};
ghost use Rattle.sval_label.specs.SeenTags.{seen_ref_tag};
ghost use Rattle.sval_label.specs.SeenIndex.{seen_index};
ghost use Rattle.sval_core.specs.Names.{unit_tag, constant_size_tag, option_some_tag, option_none_tag, ident, offset};

use sval_label::{Index, Label, Tag, tags};

/// The tag of a type that has one value.
pub(crate) fn unit() -> &'static Tag
    ensures { seen_ref_tag result ≡ unit_tag }
{
    &tags::RUST_UNIT
}

/// The tag of what has a size that its type fixes.
pub(crate) fn constant_size() -> &'static Tag
    ensures { seen_ref_tag result ≡ constant_size_tag }
{
    &tags::CONSTANT_SIZE
}

/// The tag of an optional value that is there.
pub(crate) fn option_some() -> &'static Tag
    ensures { seen_ref_tag result ≡ option_some_tag }
{
    &tags::RUST_OPTION_SOME
}

/// The tag of an optional value that isn't there.
pub(crate) fn option_none() -> &'static Tag
    ensures { seen_ref_tag result ≡ option_none_tag }
{
    &tags::RUST_OPTION_NONE
}

/// The label of an optional value that is there.
pub(crate) fn some_label() -> Label<'static>
    ensures { result ≡ ident (codes "Some") }
{
    Label::new("Some").with_tag(&tags::VALUE_IDENT)
}

/// The label of an optional value that isn't there.
pub(crate) fn none_label() -> Label<'static>
    ensures { result ≡ ident (codes "None") }
{
    Label::new("None").with_tag(&tags::VALUE_IDENT)
}

/// The index of a part in its order.
pub(crate) fn place(number: usize) -> Index
    ensures { seen_index result ≡ offset number }
{
    Index::new(number).with_tag(&tags::VALUE_OFFSET)
}
