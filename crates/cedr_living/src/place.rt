ghost use Rattle.std.specs.Prelude.{◌≡◌, IfOk};

use cedr_base::{Field, OutOfMemory, Time};
use std::alloc::Global;

/// A field of a column in a piece of time, which counts in units of 2 to the power of the level. Places compare by their
/// columns, then by their levels, then by the pieces, then by the fields. No field stands before each field.
#[derive(PartialEq, Eq, PartialOrd, Ord)]
pub(crate) struct Place {
    pub(crate) column: usize,
    pub(crate) level: usize,
    pub(crate) at: Time,
    pub(crate) field: Option<Field>,
}

impl Drop for Place {
    fn drop(self) {
        let Place {
            column: _,
            level: _,
            at: _,
            field: _,
        } = self;
    }
}

/// A copy of a field, if there is one.
fn copy_field(alloc: Global, field: &Option<Field>) -> Result<Option<Field>, OutOfMemory>
    ensures { IfOk result (λ f. f ≡ field.now) }
{
    match field {
        None => Ok(None),
        Some(field) => {
            let copied = field.copy(alloc)?;
            Ok(Some(copied))
        }
    }
}

impl Place {
    pub(crate) fn copy(&self, alloc: Global) -> Result<Place, OutOfMemory>
        ensures { IfOk result (λ p. p ≡ self.now) }
    {
        let field = copy_field(alloc, &self.field)?;
        Ok(Place {
            column: self.column,
            level: self.level,
            at: self.at,
            field,
        })
    }
}
