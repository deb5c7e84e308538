//! A script that may go on for ever: its lines as their bytes come, and what comes and goes in which order.
//!
//! A `LineCutter` cuts pieces of any size into lines (`specs/Cutting.antt`). Of a line that is too long it keeps nothing.
//! A `Wire` is where a script comes from and where what comes of it goes; a `LoggedWire` keeps what came and went in which
//! order (`specs/Logs.antt`), and `log_laws` says what each step adds to that.
#![tactic(auto)]

mod cutter;
mod law;
mod logged;
mod step;
mod wire;

pub use cutter::{CutStep, LineCutter};
pub use law::log_laws;
pub use logged::LoggedWire;
pub use step::WireStep;
pub use wire::{Wire, send_all};
