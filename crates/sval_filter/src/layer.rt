//! How calls are treated by what they are in.

ghost use Rattle.std.specs.Prelude.{◌≡◌, ◌&&◌, true, not, is_some, IfOk, OnErr, option_map};
ghost use Rattle.sval_label.specs.Grouped.{seen_slot};
ghost use Rattle.sval_filter.specs.Layers.{fate_in, mode_of_part};
ghost use Rattle.sval_filter.specs.SeenLayers.{seen_fate, seen_mode, is_left_out, is_holding, passes, entry_by};

use crate::paths::Rule;
use crate::tails::Tails;
use std::alloc::Global;
use sval_core::{NoMemory, Slot};

/// What becomes of a part.
#[derive(Drop)]
pub(crate) enum Fate<'p> {
    /// It is left out.
    LeftOut,
    /// It stays whole.
    Stays,
    /// What is in it is pruned with these rests of paths.
    Within(Tails<'p>),
}

/// How calls are treated.
#[derive(Drop)]
pub(crate) enum Mode<'p> {
    /// They are in a key, and held.
    Holding,
    /// By what becomes of the part that they are in.
    By(Fate<'p>),
}

/// What has begun and has no end yet.
#[derive(Drop)]
pub(crate) struct Layer<'p> {
    /// How calls in it are treated.
    pub(crate) mode: Mode<'p>,
    /// What becomes of the entry whose key was the last part in it.
    pub(crate) entry: Fate<'p>,
}

impl<'p> Fate<'p> {
    /// A copy. It copies no rest of a path.
    pub(crate) fn share(&self) -> Result<Self, NoMemory>
        ensures { IfOk result (λ shared. seen_fate shared ≡ seen_fate self.now) }
    {
        match self {
            Fate::LeftOut => Ok(Fate::LeftOut),
            Fate::Stays => Ok(Fate::Stays),
            Fate::Within(tails) => Ok(Fate::Within(tails.share()?)),
        }
    }

    /// The part is left out.
    pub(crate) fn is_left_out(&self) -> bool
        ensures { result ≡ is_left_out (seen_fate self.now) }
    {
        match self {
            Fate::LeftOut => true,
            Fate::Stays | Fate::Within(_) => false,
        }
    }
}

impl<'p> Mode<'p> {
    /// A copy. It copies no rest of a path.
    pub(crate) fn share(&self) -> Result<Self, NoMemory>
        ensures { IfOk result (λ shared. seen_mode shared ≡ seen_mode self.now) }
    {
        match self {
            Mode::Holding => Ok(Mode::Holding),
            Mode::By(fate) => Ok(Mode::By(fate.share()?)),
        }
    }

    /// Calls are held.
    pub(crate) fn is_holding(&self) -> bool
        ensures { result ≡ is_holding (seen_mode self.now) }
    {
        match self {
            Mode::Holding => true,
            Mode::By(_) => false,
        }
    }

    /// Calls are passed on.
    pub(crate) fn passes(&self) -> bool
        ensures { result ≡ passes (seen_mode self.now) }
    {
        match self {
            Mode::Holding | Mode::By(Fate::LeftOut) => false,
            Mode::By(Fate::Stays | Fate::Within(_)) => true,
        }
    }
}

impl<'p> Fate<'p> {
    /// What becomes of the pair of a map whose key has this label, where `self` is what becomes of the map. It takes
    /// memory only for a label.
    pub(crate) fn of_entry(
        &self,
        alloc: Global,
        rule: Rule,
        label: Option<&str>,
    ) -> Result<Self, NoMemory>
        ensures fate { let label = option_map (λ text. text.now) label.entry in
            IfOk result (λ fate. seen_fate fate ≡ fate_in rule (seen_fate self.now) label) }
        ensures want { OnErr result (is_some label.entry ≡ true) }
    {
        match (self, label, rule) {
            (Fate::LeftOut, _, _) => Ok(Fate::LeftOut),
            (Fate::Stays, _, _) => Ok(Fate::Stays),
            (Fate::Within(tails), Some(label), _) => tails.fate_of(alloc, rule, label),
            (Fate::Within(_), None, Rule::Drop) => Ok(Fate::Stays),
            (Fate::Within(_), None, Rule::Keep) => Ok(Fate::LeftOut),
        }
    }
}

impl<'p> Mode<'p> {
    /// What becomes of the pair of a map whose key has this label, where `self` says how the map's calls are treated.
    /// It takes memory only for a label.
    pub(crate) fn entry(
        &self,
        alloc: Global,
        rule: Rule,
        label: Option<&str>,
    ) -> Result<Fate<'p>, NoMemory>
        ensures fate { let label = option_map (λ text. text.now) label.entry in
            IfOk result (λ fate. seen_fate fate ≡ entry_by rule (seen_mode self.now) label) }
        ensures want { OnErr result (is_some label.entry ≡ true) }
    {
        match self {
            Mode::Holding => Ok(Fate::Stays),
            Mode::By(fate) => fate.of_entry(alloc, rule, label),
        }
    }
}

impl<'p> Layer<'p> {
    /// Hints are passed on here. They aren't between the key and the value of an entry that is left out.
    pub(crate) fn passes_hint(&self) -> bool
        ensures { result ≡ (passes (seen_mode self.now.mode) && not (is_left_out (seen_fate self.now.entry))) }
    {
        self.mode.passes() && !self.entry.is_left_out()
    }

    /// How calls are treated in a part that begins in this layer.
    pub(crate) fn mode_of_part(
        &self,
        alloc: Global,
        rule: Rule,
        slot: Slot<'_>,
    ) -> Result<Mode<'p>, NoMemory>
        ensures { let part = seen_slot slot.entry in
            IfOk result (λ mode. seen_mode mode ≡ mode_of_part rule (seen_mode self.now.mode)
            (seen_fate self.now.entry) part) }
    {
        match (&self.mode, slot) {
            (Mode::Holding, _) => Ok(Mode::Holding),
            (Mode::By(Fate::LeftOut), _) => Ok(Mode::By(Fate::LeftOut)),
            (Mode::By(Fate::Stays | Fate::Within(_)), Slot::Key) => Ok(Mode::Holding),
            (Mode::By(Fate::Stays), _) => Ok(Mode::By(Fate::Stays)),
            (Mode::By(Fate::Within(_)), Slot::Value) => Ok(Mode::By(self.entry.share()?)),
            (Mode::By(Fate::Within(tails)), Slot::Field(_, label)) => {
                Ok(Mode::By(tails.fate_of_field(alloc, rule, label)?))
            }
            (Mode::By(Fate::Within(tails)), Slot::FieldPlace(_, label, _)) => {
                Ok(Mode::By(tails.fate_of_field(alloc, rule, label)?))
            }
            (Mode::By(Fate::Within(tails)), Slot::Item | Slot::Place(_, _)) => {
                Ok(Mode::By(Fate::Within(tails.share()?)))
            }
        }
    }
}
