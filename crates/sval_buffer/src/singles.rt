//! Single calls that are captured.

ghost use Rattle.std.specs.Prelude.{true};
ghost use Rattle.sval_label.specs.Calls as calls;
ghost use Rattle.sval_label.specs.Grouped.{int_call};
ghost use Rattle.sval_label.specs.SeenName.{seen_name};
ghost use Rattle.sval_buffer.specs.Forest as forest;
ghost use Rattle.sval_buffer.specs.Forest.{Becomes, add};
ghost use Rattle.sval_buffer.specs.Capture.{CapturesBy};

use crate::error::ErrorKind;
use crate::named::{CallStore, NamedKind};
use crate::part::Single;
use crate::parts::Parts;
use crate::wide::Wide;
use sval_core::{Int, Name};

impl<'sval, N: CallStore> Parts<'sval, N> {
    /// Adds the call of no value.
    pub(crate) fn null(&mut self) -> Result<(), ErrorKind>
        ensures { let node = forest.Single calls.Null in
            CapturesBy (λ _. true) (λ f. Becomes (add node f)) self.old result self.new }
    {
        self.single(Single::Null)
    }

    /// Adds a truth value.
    pub(crate) fn truth(&mut self, value: bool) -> Result<(), ErrorKind>
        ensures { let node = forest.Single (calls.Truth value) in
            CapturesBy (λ _. true) (λ f. Becomes (add node f)) self.old result self.new }
    {
        self.single(Single::Bool(value))
    }

    /// Adds a whole number.
    pub(crate) fn int(&mut self, value: Int) -> Result<(), ErrorKind>
        ensures { let node = forest.Single (int_call value) in
            CapturesBy (λ _. true) (λ f. Becomes (add node f)) self.old result self.new }
    {
        match value {
            Int::U8(number) => self.single(Single::U8(number)),
            Int::U16(number) => self.single(Single::U16(number)),
            Int::U32(number) => self.single(Single::U32(number)),
            Int::U64(number) => self.single(Single::U64(number)),
            Int::U128(number) => self.wide(false, Wide::new(number)),
            Int::I8(number) => self.single(Single::I8(number)),
            Int::I16(number) => self.single(Single::I16(number)),
            Int::I32(number) => self.single(Single::I32(number)),
            Int::I64(number) => self.single(Single::I64(number)),
            Int::I128(number) => self.wide(true, Wide::new(number.cast_unsigned())),
        }
    }

    /// Adds a tag.
    pub(crate) fn tag(&mut self, name: Name<'_>) -> Result<(), ErrorKind>
        ensures { let node = forest.Single (calls.Standalone (seen_name name.entry)) in
            CapturesBy (λ _. true) (λ f. Becomes (add node f)) self.old result self.new }
    {
        self.single_named(NamedKind::Tag, name)
    }
}
