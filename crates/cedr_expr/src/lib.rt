//! Tests over the columns of payloads, and kept columns.
//!
//! `specs/Tests.antt` says when a pair of payloads passes tests, and `specs/Columns.antt` which fields are
//! kept, both on lists of fields, so that the definitions of other crates can cite them. `specs/Types.antt`
//! says which tests and which kept columns fit the types of their columns, and `types_law` what that promises
//! of payloads. A copy equals its source. `specs/Ties.antt` says which fields of two payloads tests want equal, and
//! `specs/Tags.antt` a number by which rows that may pass together can be found.
#![tactic(auto)]

mod column;
mod fault;
mod keep;
mod law;
mod side;
mod tag;
mod test;
mod test_list;
mod tie;

pub use fault::TypeFault;
pub use keep::Keep;
pub use law::{columns_law, types_law};
pub use side::Side;
pub use tag::field_tag;
pub use test::{Op, Operand, Test};
pub use test_list::Tests;
pub use tie::tied_field;
