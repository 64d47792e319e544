//! The containers that are open while their entries are counted.

ghost use Rattle.std.specs.Prelude.{◌≡◌, [], ◌∷◌, length, reverse, IfOk};
ghost use Rattle.sval_cbor.specs.Counting.{one_entry_more};
ghost use Rattle.sval_cbor.specs.SeenRows.{open_rows, InnermostIs, around_row};

use std::alloc::Global;
use std::marker::Model;
use std::mem::replace;
use sval_core::NoMemory;

/// A container that has begun and not ended.
#[derive(Clone, Copy)]
pub(crate) struct OpenRow {
    /// The place of its count.
    pub(crate) at: usize,
    /// How many items or pairs have begun in it. A number past the greatest `u64` is given as that.
    pub(crate) entries: u64,
}

/// What is open, seen as a list with the innermost first.
///
/// The innermost container is kept apart, since each entry changes it.
#[derive(Drop)]
pub(crate) struct OpenRows {
    innermost: Option<OpenRow>,
    /// What is around the innermost container, with the outermost first.
    around: Vec<OpenRow>,
    alloc: Global,
}

/// These containers with another one in them, or none where there is no other one.
fn with_inner(mut around: Vec<OpenRow>, inner: Option<OpenRow>) -> Result<Vec<OpenRow>, NoMemory>
    ensures { IfOk result (λ all. reverse all.items ≡ open_rows inner around.items) }
{
    match inner {
        None => around.clear(),
        Some(row) => around.push(row)?,
    }
    Ok(around)
}

impl Model for OpenRows {
    ghost use Rattle.std.specs.Prelude.{List};
    ghost use Rattle.sval_cbor.specs.declared.open_rows.OpenRow.{OpenRow};
    ghost use Rattle.sval_cbor.specs.SeenRows.{open_rows};

    ghost Value = { List OpenRow };

    ghost view = { λ rows. open_rows rows.innermost rows.around.items };
}

impl OpenRows {
    /// No container is open; this takes no memory yet.
    pub(crate) fn new(alloc: Global) -> Self
        ensures { result ≡ [] }
    {
        OpenRows {
            innermost: None,
            around: Vec::new(alloc),
            alloc,
        }
    }

    /// The innermost container.
    pub(crate) fn innermost(&self) -> Option<OpenRow>
        ensures { InnermostIs result self.now }
    {
        self.innermost
    }

    /// Opens a container in the innermost one.
    pub(crate) fn push(&mut self, row: OpenRow) -> Result<(), NoMemory>
        ensures { IfOk result (λ done. self.new ≡ row ∷ self.old) }
    {
        let around = replace(&mut self.around, Vec::new(self.alloc));
        let _none = replace(&mut self.around, with_inner(around, self.innermost)?);
        self.innermost = Some(row);
        Ok(())
    }

    /// Counts an item or a pair of the innermost container, if there is one.
    pub(crate) fn count_entry(&mut self)
        ensures { self.new ≡ one_entry_more self.old }
    {
        if let Some(row) = self.innermost {
            self.innermost = Some(OpenRow {
                at: row.at,
                entries: row.entries.saturating_add(1),
            });
        }
    }

    /// Closes the innermost container, if there is one.
    pub(crate) fn pop(&mut self)
        ensures { self.new ≡ around_row self.old }
    {
        if self.innermost.is_some() {
            self.innermost = self.around.pop();
        }
    }
}
