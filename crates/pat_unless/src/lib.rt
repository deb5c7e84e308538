//! The pattern unless: a row of the first port after its scope, where no row of the second one blocks it.
#![tactic(auto)]

mod terms;
mod unless;

pub use unless::Unless;
