//! All that has begun and has no end yet.

ghost use Rattle.std.specs.Prelude.{◌≡◌, ◌&&◌, not, [], ◌∷◌, is_ok, if◌then◌else◌};
ghost use Rattle.std.specs.Option.{unwrap_or};
ghost use Rattle.sval_core.specs.Stacks.{top_of, below};
ghost use Rattle.sval_filter.specs.Layers.{layer, mode_in, entry_in, with_entry};
ghost use Rattle.sval_filter.specs.SeenPaths.{paths_in};
ghost use Rattle.sval_filter.specs.SeenLayers.{seen_fate, seen_mode, seen_layer, innermost_first, is_holding};

use crate::layer::{Fate, Layer, Mode};
use crate::tails::Tails;
use std::alloc::Global;
use std::marker::Model;
use sval_core::NoMemory;

/// How calls are treated in all that is open, seen with the innermost first.
#[derive(Drop)]
pub(crate) struct Layers<'p> {
    paths: &'p [Vec<String>],
    /// What all else is in.
    outside: Layer<'p>,
    layers: Vec<Layer<'p>>,
}

impl<'p> Model for Layers<'p> {
    ghost use Rattle.std.specs.Prelude.{◌≡◌};
    ghost use Rattle.sval_filter.specs.Paths.{Within};
    ghost use Rattle.sval_filter.specs.Layers.{By, layer};
    ghost use Rattle.sval_filter.specs.SeenPaths.{paths_in};
    ghost use Rattle.sval_filter.specs.SeenLayers.{Layered, seen_layer, innermost_first};

    ghost Value = { Layered };

    ghost view = { λ all. record { paths = paths_in all.paths.now; layers = innermost_first all.layers.items } };

    ghost invariant = { λ all. seen_layer all.outside ≡ layer (By (Within (paths_in all.paths.now))) };
}

/// The innermost layer, or the one that all is in where there is none.
fn innermost<'a, 'p>(layers: &'a [Layer<'p>], outside: &'a Layer<'p>) -> &'a Layer<'p>
    ensures { seen_layer result.now ≡ unwrap_or (top_of (innermost_first layers.now)) (seen_layer outside.now) }
{
    layers.last().unwrap_or(outside)
}

/// The layers around the innermost one.
fn around<'a, 'p>(layers: &'a [Layer<'p>]) -> &'a [Layer<'p>]
    ensures { innermost_first result.now ≡ below (innermost_first layers.now) }
{
    let count = layers.len().saturating_sub(1);
    &layers[..count]
}

impl<'p> Layers<'p> {
    /// Nothing is open, and all is pruned with these paths. It takes no memory yet.
    pub(crate) fn new(alloc: Global, paths: &'p [Vec<String>]) -> Self
        ensures { result ≡ record { paths = paths_in paths.now; layers = [] } }
    {
        Layers {
            paths,
            outside: Layer {
                mode: Mode::By(Fate::Within(Tails::Whole(paths))),
                entry: Fate::Stays,
            },
            layers: Vec::new(alloc),
        }
    }

    /// What calls come in here.
    pub(crate) fn innermost(&self) -> &Layer<'p>
        ensures mode { seen_mode result.now.mode ≡ mode_in self.now.paths self.now.layers }
        ensures entry { seen_fate result.now.entry ≡ entry_in self.now.layers }
    {
        innermost(&self.layers, &self.outside)
    }

    /// How calls are treated around the innermost layer.
    pub(crate) fn around(&self) -> &Mode<'p>
        ensures { seen_mode result.now ≡ mode_in self.now.paths (below self.now.layers) }
    {
        &innermost(around(&self.layers), &self.outside).mode
    }

    /// The innermost layer is that of a key that is in no other key.
    pub(crate) fn is_key(&self) -> bool
        ensures { let inside = is_holding (mode_in self.now.paths self.now.layers) in
            result ≡ (inside && not (is_holding (mode_in self.now.paths (below self.now.layers)))) }
    {
        self.innermost().mode.is_holding() && !self.around().is_holding()
    }

    /// Opens a layer in which calls are treated so.
    pub(crate) fn push(&mut self, mode: Mode<'p>) -> Result<(), NoMemory>
        ensures { let layers = self.old.layers in
            self.new ≡ record self.old {
              layers = (if is_ok result then layer (seen_mode mode.entry) ∷ layers
                  else layers);
            } }
    {
        let layer = Layer {
            mode,
            entry: Fate::Stays,
        };
        Ok(self.layers.push(layer)?)
    }

    /// Closes the innermost layer.
    pub(crate) fn pop(&mut self)
        ensures { self.new ≡ record self.old { layers = below self.old.layers } }
    {
        let _ = self.layers.pop();
    }

    /// Closes the innermost layer, that of a part, and keeps in the one around it what becomes of the entry.
    pub(crate) fn close(&mut self, entry: Fate<'p>)
        ensures { self.new ≡ record self.old { layers = with_entry (seen_fate entry.entry) (below self.old.layers) } }
    {
        self.pop();
        let Some(Layer { mode, entry: _ }) = self.layers.pop() else {
            return;
        };
        self.layers.push_reserved(Layer { mode, entry });
    }
}
