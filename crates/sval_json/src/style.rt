//! How a variant of an enum comes with its name.

/// Where the value of an enum's variant is written, if the variant has a name.
///
/// A variant's name is its label, or else its index in decimal where that fits `i64`.
#[derive(Clone, Copy, Debug, PartialEq, Eq)]
pub enum Variants {
    /// Inside an object, under its name as the key: `{"Name":1}`.
    Inside,
    /// In an object beside its name: `{"variant":"Name","value":1}`.
    Beside,
}
