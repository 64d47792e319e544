//! A walk over a value, in place of a filter before a stream.

ghost use Rattle.std.specs.Prelude.{◌≡◌, IfOk, OnOk};
ghost use Rattle.sval_filter.specs.SeenLayers.{seen_fate};
ghost use Rattle.sval_filter.specs.Walks.{reach_by, seen_reach, walk_start, walk_named, walk_begun, walk_ended, stays_by};

use crate::layer::Fate;
use crate::paths::{Paths, Rule};
use crate::tails::Tails;
use std::alloc::Global;
use std::marker::Model;
use std::mem::replace;
use sval_core::NoMemory;

/// What is open in a walk.
#[derive(Drop)]
pub(crate) struct Reach<'p> {
    /// What becomes of it.
    fate: Fate<'p>,
    /// What becomes of the value that comes next in it.
    entry: Fate<'p>,
}

impl<'p> Reach<'p> {
    /// What is treated so, as each value in it is until a name comes.
    fn new(fate: Fate<'p>) -> Result<Self, NoMemory>
        ensures { IfOk result (λ reach. seen_reach reach ≡ reach_by (seen_fate fate.entry)) }
    {
        let entry = fate.share()?;
        Ok(Reach { fate, entry })
    }
}

/// A walk over a value of maps, sequences and other values, which tells of each part whether a rule and paths leave it
/// out.
///
/// It is for one value whose calls are known to be right, such as a document that was read. The code that goes over the
/// value tells each name, value, begin and end in order, and passes on what stays. For the calls of any value there is a
/// [`Filter`](crate::Filter), which checks each.
///
/// ```
/// let mut paths = Paths::new(alloc);
/// paths.push_word("a.b")?;
/// let mut walk = Walk::new(alloc, Rule::Drop, &paths);
/// assert_eq!(rt; walk.begin()?, true);
/// assert_eq!(rt; walk.name("a")?, true);
/// assert_eq!(rt; walk.begin()?, true);
/// assert_eq!(rt; walk.name("b")?, false);
/// assert_eq!(rt; walk.value(), false);
/// assert_eq!(rt; walk.end(), true);
/// ```
#[derive(Drop)]
pub struct Walk<'p> {
    alloc: Global,
    rule: Rule,
    /// What is open innermost, or what all is in.
    innermost: Reach<'p>,
    /// What is around that.
    around: Vec<Reach<'p>>,
}

impl<'p> Model for Walk<'p> {
    ghost use Rattle.sval_filter.specs.Walks.{Walking, seen_reach, reaches_in};

    ghost Value = { Walking };

    ghost view = { λ walk. record {
      rule = walk.rule;
      innermost = seen_reach walk.innermost;
      around = reaches_in walk.around.items;
    } };
}

impl<'p> Walk<'p> {
    /// A walk before its value. It takes no memory yet.
    pub fn new(alloc: Global, rule: Rule, paths: &'p Paths) -> Self
        ensures { result ≡ walk_start rule paths.now }
    {
        let paths = paths.as_slice();
        Walk {
            alloc,
            rule,
            innermost: Reach {
                fate: Fate::Within(Tails::Whole(paths)),
                entry: Fate::Within(Tails::Whole(paths)),
            },
            around: Vec::new(alloc),
        }
    }

    /// Takes the name of a member, whose value comes next. `true` means that both stay.
    ///
    /// # Errors
    ///
    /// [`NoMemory`] where memory was wanting. The walk can't go on then.
    pub fn name(&mut self, label: &str) -> Result<bool, NoMemory>
        ensures walk { OnOk result (self.new ≡ walk_named label.now self.old) }
        ensures stays { IfOk result (λ stays. stays ≡ stays_by (walk_named label.now self.old).innermost.entry) }
    {
        let fate = self
            .innermost
            .fate
            .of_entry(self.alloc, self.rule, Some(label))?;
        let stays = !fate.is_left_out();
        self.innermost.entry = fate;
        Ok(stays)
    }

    /// Takes a value without parts. `true` means that it stays.
    pub fn value(&self) -> bool
        ensures { result ≡ stays_by self.now.innermost.entry }
    {
        !self.innermost.entry.is_left_out()
    }

    /// Takes the begin of a map or a sequence. `true` means that it stays.
    ///
    /// # Errors
    ///
    /// [`NoMemory`] where memory was wanting. The walk can't go on then.
    pub fn begin(&mut self) -> Result<bool, NoMemory>
        ensures walk { OnOk result (self.new ≡ walk_begun self.old) }
        ensures stays { IfOk result (λ stays. stays ≡ stays_by self.old.innermost.entry) }
    {
        let inner = Reach::new(self.innermost.entry.share()?)?;
        let stays = !inner.fate.is_left_out();
        let outer = replace(&mut self.innermost, inner);
        self.around.push(outer)?;
        Ok(stays)
    }

    /// Takes the end of what is open innermost. `true` means that it stays.
    pub fn end(&mut self) -> bool
        ensures walk { self.new ≡ walk_ended self.old }
        ensures stays { result ≡ stays_by self.old.innermost.fate }
    {
        let stays = !self.innermost.fate.is_left_out();
        if let Some(outer) = self.around.pop() {
            self.innermost = outer;
        }
        stays
    }
}
