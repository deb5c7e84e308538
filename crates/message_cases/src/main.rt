//! Worked cases of ports, nodes, networks and queries, as text: messages come in, and what goes out is written. The file
//! stdin has the cases, and the file stdout says what that must be.
//!
//! A case is some lines up to an empty one. Its first line is a title. The lines after it that begin with a bar and a
//! blank are the text of a plan. Then a line says what is driven:
//!
//! ```text
//! port LEVEL                 a port alone, by its aligner. LEVEL is strong, middle, or block BOUND memory BOUND
//! node NAME                  the plan's node of this name
//! network                    the plan's network on one thread
//! query                      the plan's query from scratch
//! ```
//!
//! The lines behind that one drive it. Where messages are taken, MESSAGE is one of these, and rows have one number:
//!
//! ```text
//! + NUMBER BEGIN END         a row is added
//! - NUMBER BEGIN END TO      such a row is cut to an earlier end
//! = MARK                     nothing comes any more that is seen before the mark
//! end, broken                nothing comes any more, or what came isn't whole
//! ```
//!
//! A time may be inf, as may a BOUND, which then is without limit. A line is written again with what it leads to:
//! a message that may not come there is told, and isn't taken. For a port:
//!
//! ```text
//! MESSAGE                    what became of it (kept, late TIME or orphan TIME: the greatest time before it), what is passed on
//! front, high                the guarantee that is passed on, the greatest time that came
//! ```
//!
//! For a node, whose ports have numbers from 0:
//!
//! ```text
//! PORT MESSAGE               what the node gives for it
//! forgotten PORT             the changes that were forgotten on a port, each with its cause and the greatest time before it
//! ended                      whether each port has ended or broken
//! ```
//!
//! For a network:
//!
//! ```text
//! SOURCE MESSAGE             the source of this name gives the message
//! turn NODE..                the nodes take a message each, one after the other
//! settle                     all that waits is taken
//! rows, changes              the rows of the answer in canonical order, its changes in the order in which they came
//! reach, ended               up to which time the answer is final, whether nothing comes of the output any more
//! forgotten NODE PORT        as for a node
//! ```
//!
//! For a query, whose sources have numbers from 0:
//!
//! ```text
//! row SOURCE BEGIN END FIELD..   a row of a source's table. A field that is no number is a text
//! rows                           the rows of the answer in canonical order
//! reach MARK..                   up to which time the answer is final, at a mark for each source
//! ```
#![tactic(auto)]

mod case;
mod line;
mod network;
mod node;
mod plan;
mod port;
mod query;
mod shown;

use anyhow::Result;
use case::play;
use std::io::{BufRead, BufReader};

fn main(rt: HostRuntime) -> Result<()> {
    let alloc = rt.alloc();
    let mut lines = Vec::new(alloc);
    for line in BufReader::new(alloc, rt.reader())?.lines(alloc) {
        let line = line?;
        if line.as_str().is_empty() {
            play(&rt, alloc, lines.as_slice())?;
            lines = Vec::new(alloc);
        } else {
            lines.push(line)?;
        }
    }
    play(&rt, alloc, lines.as_slice())
}
