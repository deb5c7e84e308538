ghost use Rattle.std.specs.Prelude.{◌≡◌, IfOk, Some};

use crate::place::Place;
use cedr_base::{Field, OutOfMemory, Time};
use std::alloc::Global;

/// A field of a column that lives from a begin on and before an end. Endings compare by their ends, then by their
/// begins, then by their columns, then by their fields, so that the life that ends first is the first one.
#[derive(PartialEq, Eq, PartialOrd, Ord)]
pub(crate) struct Ending {
    pub(crate) end: Time,
    pub(crate) begin: Time,
    pub(crate) column: usize,
    pub(crate) field: Field,
}

impl Drop for Ending {
    fn drop(self) {
        let Ending {
            end: _,
            begin: _,
            column: _,
            field: _,
        } = self;
    }
}

impl Ending {
    /// The place of its column and field, at its begin.
    pub(crate) fn into_place(self) -> Place
        ensures { result ≡ record { column = self.column; level = 0; at = self.begin; field = Some self.field } }
    {
        let Ending {
            end: _,
            begin,
            column,
            field,
        } = self;
        Place {
            column,
            level: 0,
            at: begin,
            field: Some(field),
        }
    }

    pub(crate) fn copy(&self, alloc: Global) -> Result<Ending, OutOfMemory>
        ensures { IfOk result (λ e. e ≡ self.now) }
    {
        let field = self.field.copy(alloc)?;
        Ok(Ending {
            end: self.end,
            begin: self.begin,
            column: self.column,
            field,
        })
    }
}
