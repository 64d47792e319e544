//! What is open.

ghost use Rattle.std.specs.Prelude.{◌≡◌, [], ◌∷◌, if◌then◌else◌, is_ok, length};
ghost use Rattle.sval_json_read.specs.SeenOpened.{opened_of, TopContainerIs, around_container};

use std::alloc::Global;
use std::marker::Model;
use sval_core::NoMemory;

/// What has begun and not ended.
#[derive(Clone, Copy)]
pub(crate) enum Opened {
    Array,
    Object,
}

/// What is open, seen as a list with the innermost first.
#[derive(Drop)]
pub(crate) struct Stack {
    opened: Vec<Opened>,
}

impl Model for Stack {
    ghost use Rattle.std.specs.Prelude.{List, reverse, map};
    ghost use Rattle.sval_json_read.specs.Reader.{Opened};
    ghost use Rattle.sval_json_read.specs.SeenOpened.{opened_of};

    ghost Value = { List Opened };

    ghost view = { λ stack. reverse (map opened_of stack.opened.items) };
}

impl Stack {
    /// A stack on which nothing is open; it takes no memory yet.
    pub(crate) fn new(alloc: Global) -> Self
        ensures { result ≡ [] }
    {
        Stack {
            opened: Vec::new(alloc),
        }
    }

    /// How many containers are open.
    pub(crate) fn len(&self) -> usize
        ensures { result ≡ length self.now }
    {
        self.opened.len()
    }

    /// The innermost container.
    pub(crate) fn top(&self) -> Option<Opened>
        ensures { TopContainerIs result self.now }
    {
        self.opened.last().copied()
    }

    /// Opens a container in the innermost one.
    pub(crate) fn push(&mut self, container: Opened) -> Result<(), NoMemory>
        ensures { self.new ≡ (if is_ok result then opened_of container ∷ self.old else self.old) }
    {
        Ok(self.opened.push(container)?)
    }

    /// Closes the innermost container, if there is one.
    pub(crate) fn pop(&mut self)
        ensures { self.new ≡ around_container self.old }
    {
        self.opened.pop();
    }
}
