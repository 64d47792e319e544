//! What is left of paths behind the labels on the way to a place.

ghost use Rattle.std.specs.Prelude.{◌≡◌, length, slice_get, IfOk, Some, option_map};
ghost use Rattle.std.specs.Option.{option_and_then, option_to_list};
ghost use Rattle.sval_filter.specs.Paths.{tail_of, tails, has_end, fate_of};
ghost use Rattle.sval_filter.specs.SeenPaths.{labels_in, rests_in};
ghost use Rattle.sval_filter.specs.SeenLayers.{seen_tails, seen_fate};

use crate::layer::Fate;
use crate::paths::Rule;
use std::alloc::Global;
use std::rc::Rc;
use sval_core::{Label, NoMemory};

/// Rests of paths.
#[derive(Drop)]
pub(crate) enum Tails<'p> {
    /// These paths, whole.
    Whole(&'p [Vec<String>]),
    /// These rests of paths.
    Rests(Rc<Vec<&'p [String]>>),
    /// None.
    Nothing,
}

/// The rest of a path behind a label that it begins with.
fn tail_of<'p>(path: &'p [String], label: &str) -> Option<&'p [String]>
    ensures { option_map (λ rest. labels_in rest.now) result ≡ tail_of label.now (labels_in path.now) }
{
    match path.split_first() {
        Some((first, rest)) if first.as_str() == label => Some(rest),
        _ => None,
    }
}

impl<'p> Tails<'p> {
    /// These rests.
    fn of(alloc: Global, rests: Vec<&'p [String]>) -> Result<Self, NoMemory>
        ensures { IfOk result (λ made. seen_tails made ≡ rests_in rests.entry.items) }
    {
        if rests.is_empty() {
            return Ok(Tails::Nothing);
        }
        Ok(Tails::Rests(Rc::new(alloc, rests)?))
    }

    /// These rests once more. It copies none of them.
    pub(crate) fn share(&self) -> Result<Self, NoMemory>
        ensures { IfOk result (λ shared. seen_tails shared ≡ seen_tails self.now) }
    {
        match self {
            Tails::Whole(paths) => Ok(Tails::Whole(*paths)),
            Tails::Rests(rests) => Ok(Tails::Rests(rests.clone()?)),
            Tails::Nothing => Ok(Tails::Nothing),
        }
    }

    /// How many they are.
    fn len(&self) -> usize
        ensures { result ≡ length (seen_tails self.now) }
    {
        match self {
            Tails::Whole(paths) => paths.len(),
            Tails::Rests(rests) => rests.len(),
            Tails::Nothing => 0,
        }
    }

    /// The rest at `index`, if there is one.
    fn get(&self, index: usize) -> Option<&'p [String]>
        ensures { option_map (λ path. labels_in path.now) result ≡ slice_get (seen_tails self.now) index }
    {
        match self {
            Tails::Whole(paths) => match paths.get(index) {
                Some(path) => Some(path.as_slice()),
                None => None,
            },
            Tails::Rests(rests) => rests.get(index).copied(),
            Tails::Nothing => None,
        }
    }

    /// What is behind a label of one of them, if it begins with it.
    fn rest(&self, index: usize, label: &str) -> Option<&'p [String]>
        ensures { let path = slice_get (seen_tails self.now) index in
            option_map (λ rest. labels_in rest.now) result ≡ option_and_then (tail_of label.now) path }
    {
        match self.get(index) {
            Some(path) => tail_of(path, label),
            None => None,
        }
    }

    /// Whether the rest at `index`, if there is one, is this label and nothing behind it.
    fn is_end(&self, index: usize, label: &str) -> bool
        ensures { let path = slice_get (seen_tails self.now) index in
            result ≡ has_end (option_to_list (option_and_then (tail_of label.now) path)) }
    {
        match self.rest(index, label) {
            Some(rest) => rest.is_empty(),
            None => false,
        }
    }

    /// One of them is this label and nothing behind it.
    fn has_end(&self, label: &str) -> bool
        ensures { result ≡ has_end (tails label.now (seen_tails self.now)) }
    {
        for index in 0..self.len() {
            if self.is_end(index, label) {
                return true;
            }
        }
        false
    }

    /// What is behind a label of those that begin with it.
    fn rests(&self, alloc: Global, label: &str) -> Result<Vec<&'p [String]>, NoMemory>
        ensures { IfOk result (λ rests. rests_in rests.items ≡ tails label.now (seen_tails self.now)) }
    {
        let mut rests = Vec::new(alloc);
        for index in 0..self.len() {
            match self.rest(index, label) {
                Some(rest) => rests.push(rest)?,
                None => {}
            }
        }
        Ok(rests)
    }

    /// What becomes of a field or an entry of this label.
    pub(crate) fn fate_of(
        &self,
        alloc: Global,
        rule: Rule,
        label: &str,
    ) -> Result<Fate<'p>, NoMemory>
        ensures { IfOk result (λ fate. seen_fate fate ≡ fate_of rule (seen_tails self.now) (Some label.now)) }
    {
        if self.has_end(label) {
            return match rule {
                Rule::Drop => Ok(Fate::LeftOut),
                Rule::Keep => Ok(Fate::Stays),
            };
        }
        let rests = self.rests(alloc, label)?;
        match rule {
            Rule::Keep if rests.is_empty() => Ok(Fate::LeftOut),
            _ => Ok(Fate::Within(Tails::of(alloc, rests)?)),
        }
    }

    /// What becomes of a field of this label.
    pub(crate) fn fate_of_field(
        &self,
        alloc: Global,
        rule: Rule,
        label: &Label<'_>,
    ) -> Result<Fate<'p>, NoMemory>
        ensures { IfOk result (λ fate. seen_fate fate ≡ fate_of rule (seen_tails self.now) (Some label.now.text)) }
    {
        self.fate_of(alloc, rule, label.as_str())
    }
}
