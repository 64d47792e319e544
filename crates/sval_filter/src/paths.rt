//! Paths of labels.

ghost use Rattle.std.specs.Prelude.{◌≡◌, [], ◌∷◌, ◌++◌, if◌then◌else◌, is_ok, IfOk};
ghost use Rattle.sval_filter.specs.Paths.{labels_of, is_bad_word};
ghost use Rattle.sval_filter.specs.SeenPaths.{labels_in, paths_in};
ghost use Rattle.sval_filter.specs.PathErrors.{AddsPath, AddsLabel, AddsWord};

use std::alloc::Global;
use std::error::Error;
use std::fmt;
use std::marker::Model;
use sval_core::NoMemory;

/// What becomes of the fields and entries that paths name.
#[derive(Clone, Copy, Debug, PartialEq, Eq)]
pub enum Rule {
    /// They are left out, and all else stays.
    Drop,
    /// They stay with all that is in them, and of the other fields and entries those alone that are on the way to them.
    Keep,
}

/// Why a path can't be made.
#[derive(Clone, Copy, Debug, PartialEq, Eq)]
pub enum PathError {
    /// There is no path that a label could be added to.
    NoPath,
    /// A piece of the word between dots is empty.
    BadWord,
    /// Memory was wanting.
    NoMemory,
}

impl fmt::Display for PathError {
    ghost use Rattle.std.specs.Prelude.{Some};
    ghost use Rattle.sval_filter.specs.ErrorTexts.{path_error_text};

    ghost output = { λ error. Some (path_error_text error) };

    fn fmt<W: fmt::Write>(&self, f: &mut fmt::Formatter<W>) -> fmt::Result {
        f.write_str(match self {
            PathError::NoPath => "there is no path for a label",
            PathError::BadWord => "a label between dots is empty",
            PathError::NoMemory => "cannot allocate for a path",
        })
    }
}

impl Error for PathError {}

impl From<NoMemory> for PathError {
    ghost use Rattle.sval_filter.specs.declared.paths.PathError.TheVariants.{NoMemory};

    ghost from_gives = { λ _ error. error ≡ NoMemory };

    fn from(_cause: NoMemory) -> PathError {
        PathError::NoMemory
    }
}

/// Paths of labels, each of at least one, seen as a list of paths. A label is its text.
///
/// A path names the field of its first label in a record, or the entry whose key is that text in a map, in that one the
/// field or entry of its second label, and so on.
/// It goes through the items of sequences and the fields of tuples, and through enums and tagged values, which take no
/// label of it.
///
/// ```
/// let mut paths = Paths::new(alloc);
/// paths.new_path("user")?;
/// paths.extend_path("e-mail")?;
/// paths.push_word("user.password")?;
/// ```
#[derive(Drop)]
pub struct Paths {
    paths: Vec<Vec<String>>,
    alloc: Global,
}

impl Model for Paths {
    ghost use Rattle.std.specs.Prelude.{List};
    ghost use Rattle.sval_filter.specs.Paths.{Path};
    ghost use Rattle.sval_filter.specs.SeenPaths.{paths_in};

    ghost Value = { List Path };

    ghost view = { λ paths. paths_in paths.paths.items };
}

impl Paths {
    /// No path, which takes no memory yet.
    pub fn new(alloc: Global) -> Self
        ensures { result ≡ [] }
    {
        Paths {
            paths: Vec::new(alloc),
            alloc,
        }
    }

    /// Adds a path of one label.
    ///
    /// # Errors
    ///
    /// [`PathError::NoMemory`] where memory was wanting. The paths are then as before.
    pub fn new_path(&mut self, label: &str) -> Result<(), PathError>
        ensures { AddsPath self.old (label.now ∷ []) result self.new }
    {
        let mut path = Vec::new(self.alloc);
        push_label(self.alloc, &mut path, label)?;
        self.push(path)?;
        Ok(())
    }

    /// Adds a label to the last path.
    ///
    /// # Errors
    ///
    /// [`PathError::NoPath`] exactly where there is no path. [`PathError::NoMemory`] where there is one and memory was
    /// wanting. The paths are then as before.
    pub fn extend_path(&mut self, label: &str) -> Result<(), PathError>
        ensures { AddsLabel self.old label.now result self.new }
    {
        let Some(path) = self.paths.last_mut() else {
            return Err(PathError::NoPath);
        };
        match push_label(self.alloc, path, label) {
            Ok(()) => Ok(()),
            Err(cause) => Err(PathError::from(cause)),
        }
    }

    /// Adds the path of the labels between the dots of a word.
    ///
    /// ```
    /// assert_eq!(rt; paths.push_word("a..b"), Err(PathError::BadWord));
    /// ```
    ///
    /// # Errors
    ///
    /// [`PathError::BadWord`] exactly where there is nothing between two dots, before the first one or after the last
    /// one; so it is for the word without a letter. [`PathError::NoMemory`] where each label has a letter and memory
    /// was wanting. The paths are then as before.
    pub fn push_word(&mut self, word: &str) -> Result<(), PathError>
        ensures { AddsWord self.old word.now result self.new }
    {
        if is_bad_word(word) {
            return Err(PathError::BadWord);
        }
        self.push_labels(word)?;
        Ok(())
    }

    /// Adds the path of the labels between the dots of a word. No label in `word` is empty.
    pub(crate) fn push_labels(&mut self, word: &str) -> Result<(), NoMemory>
        ensures { self.new ≡ (if is_ok result then self.old ++ (labels_of word.now ∷ []) else self.old) }
    {
        let path = labels_of(self.alloc, word)?;
        self.push(path)
    }

    /// The paths in the order in which they were begun, each as its labels.
    pub fn as_slice(&self) -> &[Vec<String>]
        ensures { paths_in result.now ≡ self.now }
    {
        self.paths.as_slice()
    }

    /// Adds a path.
    fn push(&mut self, path: Vec<String>) -> Result<(), NoMemory>
        ensures { self.new ≡ (if is_ok result then self.old ++ (labels_in path.items ∷ []) else self.old) }
    {
        self.paths.push(path)?;
        Ok(())
    }
}

/// Some piece of the word between dots is empty.
pub(crate) fn is_bad_word(word: &str) -> bool
    ensures { result ≡ is_bad_word word.now }
{
    word.split('.').any(|piece| piece.is_empty())
}

/// The pieces of a word between dots.
fn labels_of(alloc: Global, word: &str) -> Result<Vec<String>, NoMemory>
    ensures { IfOk result (λ path. labels_in path.items ≡ labels_of word.now) }
{
    let mut path = Vec::new(alloc);
    for piece in word.split('.') {
        push_label(alloc, &mut path, piece)?;
    }
    Ok(path)
}

/// Adds a label to a path.
fn push_label(alloc: Global, path: &mut Vec<String>, label: &str) -> Result<(), NoMemory>
    ensures { let old = labels_in path.old.items in
        labels_in path.new.items ≡ (if is_ok result then old ++ (label.now ∷ []) else old) }
{
    let label = String::from_str(alloc, label)?;
    path.push(label)?;
    Ok(())
}
