//! Where the trees of a list end.

ghost use Rattle.std.specs.Prelude.{◌≡◌, ◌==◌, [], ◌∷◌, ◌++◌, length, is_ok, if◌then◌else◌};
ghost use Rattle.std.specs.List.{slice_get};

use std::alloc::Global;
use std::fmt;
use std::marker::Model;
use sval_core::NoMemory;

/// Where the trees of a list end, as [`check_all`](crate::check_all) gives it, seen as a list of numbers.
///
/// Entry `i` is the number of calls up to the last call of tree `i` that is no hint. A number past the greatest `u64`
/// is given as that.
///
/// ```
/// let ends = check_all(alloc, &value)?;
/// assert_eq!(rt; ends.len(), 2);
/// assert_eq!(rt; ends.get(0), Some(1));
/// assert_eq!(rt; ends.as_slice(), [1, 4].as_slice());
/// ```
#[derive(Drop)]
pub struct Ends {
    numbers: Vec<u64>,
}

impl Model for Ends {
    ghost use Rattle.std.specs.Prelude.{ℕ, List};

    ghost Value = { List ℕ };

    ghost view = { λ ends. ends.numbers.items };
}

impl Ends {
    /// No ends, which take no memory yet.
    pub(crate) fn new(alloc: Global) -> Self
        ensures { result ≡ [] }
    {
        Ends {
            numbers: Vec::new(alloc),
        }
    }

    /// Puts one more after the others, unless memory is wanting.
    pub(crate) fn push(&mut self, number: u64) -> Result<(), NoMemory>
        ensures { self.new ≡ (if is_ok result then self.old ++ (number ∷ []) else self.old) }
    {
        self.numbers.push(number)?;
        Ok(())
    }

    /// The number of the trees.
    pub fn len(&self) -> usize
        ensures { result ≡ length self.now }
    {
        self.numbers.len()
    }

    /// Whether there is no tree.
    pub fn is_empty(&self) -> bool
        ensures { result ≡ (length self.now == 0) }
    {
        self.numbers.is_empty()
    }

    /// The number of calls up to the end of tree `index`, counted from 0, if there is one.
    pub fn get(&self, index: usize) -> Option<u64>
        ensures { result ≡ slice_get self.now index }
    {
        self.numbers.get(index).copied()
    }

    /// All the numbers, in the order of the trees.
    pub fn as_slice(&self) -> &[u64]
        ensures { result.now ≡ self.now }
    {
        self.numbers.as_slice()
    }
}

impl fmt::Debug for Ends {
    fn fmt<W: fmt::Write>(&self, f: &mut fmt::Formatter<W>) -> fmt::Result {
        fmt::Debug::fmt(&self.as_slice(), f)
    }
}
