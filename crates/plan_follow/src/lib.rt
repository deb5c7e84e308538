//! A script that is followed over a plan for as long as lines come.
//!
//! `follow` judges each line as it comes by what is remembered of its source, feeds it to the plan's network, and writes what the
//! output then gives before it reads on. A line that isn't accepted changes nothing and is told (`specs/Sifted.antt`);
//! `specs/Following.antt` says what is written and told, and when. `cut_scripts` says that a script that is cut, saved at the cut
//! and followed on comes to what the whole comes to.
#![tactic(auto)]

mod fault;
mod follower;
mod following;
mod guards;
mod law;
mod net;
mod player;
mod script;
mod sending;

pub use fault::FollowFault;
pub use following::{follow, follow_from};
pub use law::cut_scripts;
