//! The laws of tags, labels and indexes, each as a clause that is proved.

ghost use Rattle.std.specs.Prelude.{◌≡◌};
ghost use Rattle.std.specs.Prelude.{fold};
ghost use Rattle.sval_label.specs.Equalities.{TagsByTexts, LabelsByTexts, IndexesByNumbers};
ghost use Rattle.sval_label.specs.Equalities.{same_tag, same_index, index_cmp, index_writes};
ghost use Rattle.sval_label.specs.SeenIndex.{seen_index};
ghost use Rattle.sval_label.specs.SeenTags.{seen_tag};

use crate::index::Index;
use crate::tag::Tag;
use std::cmp::Ordering;
use std::hash::{Hash, Hasher};

/// What equalities, orders and hashes look at.
pub fn equality_laws()
    ensures tags_by_texts { TagsByTexts }
    ensures labels_by_texts { LabelsByTexts }
    ensures indexes_by_numbers { IndexesByNumbers }
{}

/// What `==` answers of two tags: whether their texts are equal.
pub fn tags_are_equal(a: &Tag, b: &Tag) -> bool
    ensures { result ≡ same_tag (seen_tag a.now) (seen_tag b.now) }
{
    a == b
}

/// What `==` answers of two indexes: whether their numbers are equal, whatever their tags.
pub fn indexes_are_equal(a: &Index, b: &Index) -> bool
    ensures { result ≡ same_index (seen_index a.now) (seen_index b.now) }
{
    a == b
}

/// How two indexes are ordered: as their numbers, whatever their tags.
pub fn indexes_are_ordered(a: &Index, b: &Index) -> Ordering
    ensures { result ≡ index_cmp (seen_index a.now) (seen_index b.now) }
{
    a.cmp(b)
}

/// What an index feeds a hasher: its number alone, whatever its tag.
pub fn index_is_hashed<H: Hasher>(index: &Index, state: &mut H)
    ensures { state.new ≡ fold H.write state.old (index_writes (seen_index index.now)) }
{
    index.hash(state);
}
