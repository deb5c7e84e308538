//! Bags of rows, and what an operator is.
//!
//! `Table` counts the copies of each row in an ordered map. Contracts see the list of its rows, of which
//! only the counts matter. `Operator` is a step of a query with its laws: tables on its ports, and a result that it
//! repairs change by change. `RowWise` makes an operator of what says how one row gives one row or none,
//! `Either` one of two, and `Boxed` one that moves as a pointer.
#![tactic(auto)]

mod applying;
mod boxed;
mod counted;
mod either;
mod fault;
mod marks;
mod operator;
mod row_wise;
mod table;

pub use applying::{apply_all, apply_change};
pub use boxed::Boxed;
pub use either::Either;
pub use fault::TableFault;
pub use marks::{least_mark, no_marks};
pub use operator::Operator;
pub use row_wise::RowWise;
pub use table::Table;
