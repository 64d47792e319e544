//! Names as numbers.

use crate::tag::Tag;
use std::fmt;

/// A name as a number: the place of a field or of a variant, from -2^63 to 2^64 - 1.
///
/// It is seen as its number and its tag. Indexes are compared, ordered and hashed by their numbers alone.
///
/// ```
/// let index = Index::new(7).with_tag(&tags::VALUE_OFFSET);
/// assert_eq!(rt; index.to_u32(), Some(7));
/// assert!(rt; index == Index::new_i32(7));
/// ```
#[derive(Clone, Copy, Debug)]
#[derive_where(PartialEq, Eq, PartialOrd, Ord, Hash)]
pub struct Index {
    number: i128,
    #[derive_where(skip(EqHashOrd))]
    tag: Option<Tag>,
    ghost in_range: { is_index number ≡ true },
}

ghost use Rattle.std.specs.Prelude.{◌≡◌, true};
ghost use Rattle.sval_label.specs.Ranges.{is_index};

impl Index {
    ghost use Rattle.std.specs.Prelude.{ℤ, pos, Some, option_map};
    ghost use Rattle.sval_label.specs.SeenTags.{seen_tag, seen_ref_tag};
    ghost use Rattle.sval_label.specs.SeenIndex.{seen_index, untagged, in_unsigned, in_signed};

    /// The index with this number, without a tag.
    pub fn new(index: usize) -> Self
        ensures { seen_index result ≡ untagged (pos index) }
    {
        Self::new_u64(index as u64)
    }

    /// The index with this number, without a tag.
    pub fn new_u32(index: u32) -> Self
        ensures { seen_index result ≡ untagged (pos index) }
    {
        Self::new_u64(u64::from(index))
    }

    /// The index with this number, without a tag.
    pub fn new_u64(index: u64) -> Self
        ensures { seen_index result ≡ untagged (pos index) }
    {
        Index {
            number: i128::from(index),
            tag: None,
        }
    }

    /// The index with this number, without a tag.
    pub fn new_isize(index: isize) -> Self
        ensures { seen_index result ≡ untagged index }
    {
        Self::new_i64(index as i64)
    }

    /// The index with this number, without a tag.
    pub fn new_i32(index: i32) -> Self
        ensures { seen_index result ≡ untagged index }
    {
        Self::new_i64(i64::from(index))
    }

    /// The index with this number, without a tag.
    pub fn new_i64(index: i64) -> Self
        ensures { seen_index result ≡ untagged index }
    {
        Index {
            number: i128::from(index),
            tag: None,
        }
    }

    /// The number, exactly where it is in the range of a `usize`.
    pub fn to_usize(&self) -> Option<usize>
        ensures { result ≡ in_unsigned 64 (seen_index self.now).number }
    {
        usize::try_from(self.number).ok()
    }

    /// The number, exactly where it is in the range of a `u32`.
    pub fn to_u32(&self) -> Option<u32>
        ensures { result ≡ in_unsigned 32 (seen_index self.now).number }
    {
        u32::try_from(self.number).ok()
    }

    /// The number, exactly where it is in the range of a `u64`.
    pub fn to_u64(&self) -> Option<u64>
        ensures { result ≡ in_unsigned 64 (seen_index self.now).number }
    {
        u64::try_from(self.number).ok()
    }

    /// The number, exactly where it is in the range of an `isize`.
    pub fn to_isize(&self) -> Option<isize>
        ensures { result ≡ in_signed 63 (seen_index self.now).number }
    {
        isize::try_from(self.number).ok()
    }

    /// The number, exactly where it is in the range of an `i32`.
    pub fn to_i32(&self) -> Option<i32>
        ensures { result ≡ in_signed 31 (seen_index self.now).number }
    {
        i32::try_from(self.number).ok()
    }

    /// The number, exactly where it is in the range of an `i64`.
    pub fn to_i64(&self) -> Option<i64>
        ensures { result ≡ in_signed 63 (seen_index self.now).number }
    {
        i64::try_from(self.number).ok()
    }

    /// This index with this tag, in place of its own if it had one.
    pub fn with_tag(self, tag: &Tag) -> Self
        ensures { seen_index result ≡ record (seen_index self) { tag = Some (seen_tag tag.now) } }
    {
        Index {
            number: self.number,
            tag: Some(*tag),
        }
    }

    /// The tag, if it has one.
    pub fn tag(&self) -> Option<&Tag>
        ensures { option_map seen_ref_tag result ≡ (seen_index self.now).tag }
    {
        self.tag.as_ref()
    }
}

impl From<usize> for Index {
    ghost use Rattle.std.specs.Prelude.{◌≡◌, pos};
    ghost use Rattle.sval_label.specs.SeenIndex.{seen_index, untagged};

    ghost from_gives = { λ value index. seen_index index ≡ untagged (pos value) };

    fn from(value: usize) -> Index {
        Index::new(value)
    }
}

impl From<u32> for Index {
    ghost use Rattle.std.specs.Prelude.{◌≡◌, pos};
    ghost use Rattle.sval_label.specs.SeenIndex.{seen_index, untagged};

    ghost from_gives = { λ value index. seen_index index ≡ untagged (pos value) };

    fn from(value: u32) -> Index {
        Index::new_u32(value)
    }
}

impl From<u64> for Index {
    ghost use Rattle.std.specs.Prelude.{◌≡◌, pos};
    ghost use Rattle.sval_label.specs.SeenIndex.{seen_index, untagged};

    ghost from_gives = { λ value index. seen_index index ≡ untagged (pos value) };

    fn from(value: u64) -> Index {
        Index::new_u64(value)
    }
}

impl From<isize> for Index {
    ghost use Rattle.std.specs.Prelude.{◌≡◌, pos};
    ghost use Rattle.sval_label.specs.SeenIndex.{seen_index, untagged};

    ghost from_gives = { λ value index. seen_index index ≡ untagged value };

    fn from(value: isize) -> Index {
        Index::new_isize(value)
    }
}

impl From<i32> for Index {
    ghost use Rattle.std.specs.Prelude.{◌≡◌, pos};
    ghost use Rattle.sval_label.specs.SeenIndex.{seen_index, untagged};

    ghost from_gives = { λ value index. seen_index index ≡ untagged value };

    fn from(value: i32) -> Index {
        Index::new_i32(value)
    }
}

impl From<i64> for Index {
    ghost use Rattle.std.specs.Prelude.{◌≡◌, pos};
    ghost use Rattle.sval_label.specs.SeenIndex.{seen_index, untagged};

    ghost from_gives = { λ value index. seen_index index ≡ untagged value };

    fn from(value: i64) -> Index {
        Index::new_i64(value)
    }
}

impl fmt::Display for Index {
    ghost use Rattle.std.specs.Prelude.{Some};
    ghost use Rattle.std.specs.Fmt.{signed_decimal};
    ghost use Rattle.sval_label.specs.SeenIndex.{seen_index};

    ghost output = { λ index. Some (signed_decimal (seen_index index).number) };

    fn fmt<W: fmt::Write>(&self, f: &mut fmt::Formatter<W>) -> fmt::Result {
        write!(f, "{}", self.number)
    }
}
