//! A plan that keeps a key, answered by parts of its keys, each part on a thread of its own where one can be made.
//!
//! A change of a source goes to the part that its key is in, and a guarantee and the end to each part (`specs/Parts.antt`).
//! `part_lists` says that the messages of a part are a source again, whose table is the part of the table. Each part has a
//! network of its own, and reads the messages of all sources where they stand (`feed_whole`); no part waits for another.
//! What the parts answer together is the answer of the plan (`answer_in_parts`), by the law of keyed plans: each key is in
//! one part (`key_shares`), and the rows of accepted sources have the widths of their types (`source_widths`).
#![tactic(auto)]

mod answer;
mod feeding;
mod law;
mod messages;
mod share;

pub use answer::{answer_entries, answer_in_parts};
pub use law::{key_shares, part_lists, source_widths};
pub use messages::{SourceMessages, messages_of_entries};
