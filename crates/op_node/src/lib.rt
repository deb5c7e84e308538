//! The operators of a plan's nodes, as one operator.
//!
//! `specs/Meanings.antt` says what each kind of node means, and [`node_meanings`] which laws that keeps. [`NodeOperator`] is
//! the operator of any kind, and hands each call to the operator of its own.
#![tactic(auto)]

mod law;
mod operator;
mod output;

pub use law::node_meanings;
pub use operator::{NodeOperator, node_operator};
pub use output::Output;
