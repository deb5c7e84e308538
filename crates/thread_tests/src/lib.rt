//! Tests of plans whose workers run on threads of their own, where a gate holds their turns or what is read depends on when, and
//! of the command that writes as it reads. There is nothing here but tests.
#![tactic(auto)]

#[cfg(test)]
mod runs;
#[cfg(test)]
mod stream;
