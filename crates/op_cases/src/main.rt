//! Worked cases of each operator, read from standard input: what an operator answers to the changes and marks that come on
//! its ports.
//!
//! A case is some lines, and an empty line stands between two cases. Each line is written again, and below it, indented,
//! what it leads to, so standard output is standard input with the answers in it. A line that isn't understood, a change or
//! a mark that may not come, and an answer that may not come in the result so far end the program with status 1.
//!
//! The first line of a case is its title, and the second one says which operator is made:
//!
//! ```text
//! select TYPES where TEST..                             the rows that pass the tests
//! project TYPES keep COLUMNS                            these columns of each row
//! union PORTS                                           the rows of 2 to 4 ports
//! join TYPES TYPES where TEST..                         the pairs of rows that are valid together
//! except TYPES TYPES where TEST..                       the parts of each row in which no row of port 1 is valid
//! window WIDTH                                          each row for at most so long
//! shift BY                                              each row so much later
//! hop EVERY WIDTH                                       each row from a multiple on, so long
//! starts                                                each row from its begin on
//! ends                                                  each row from its end on
//! group TYPES by COLUMNS sums COLUMNS                   the sums of each group
//! group TYPES by COLUMNS count sums COLUMNS             the count and the sums of each group
//! group .. sums COLUMNS least COLUMNS greatest COLUMNS  and the least and the greatest fields of each group
//! sequence PORTS SCOPE TYPES where TEST..               one row of each of 2 to 4 ports, one after the other
//! unless SCOPE HOLD TYPES TYPES where TEST..            each row that none of port 1 follows within the scope
//! atleast PORTS NUMBER SCOPE TYPES where TEST..         one row of each of so many of 2 to 4 ports, in any order
//! ```
//!
//! TYPES are the types of payloads, as `text,int`, and `-` is none. Where tests look at two payloads there are two such
//! words; a sequence has one word for the payloads of all its ports, and an `atleast` for those of as many as it takes.
//! COLUMNS are as `0,2`, and `-` is none. A TEST is a column, a comparison and what is compared with, as `0,=,#2` for
//! column 2, `1,>=,5` for a number, `0,!=,'a` for a text.
//!
//! Each further line is a step:
//!
//! ```text
//! + PORT BEGIN END FIELD..           a row is added on a port
//! - PORT BEGIN END to TIME FIELD..   such a row is cut to an earlier end, or withdrawn where that is its begin
//! mark PORT TIME                     the mark of a port rises, and the operator is trimmed at its marks
//! bound TIME..                       writes the operator's bound at marks, one for each port and none below its own
//! answers                            writes the changes that the operator answered with since the last such line
//! count                              writes how many there are, in place of them
//! rows                               writes the rows that all answers so far lead to, in canonical order
//! ```
//!
//! `rows` counts as such a line too. A TIME, a BEGIN and an END is a number, `inf`, or so much before it, as `inf-7`. A
//! FIELD is a number, or a text behind a `'`.
#![tactic(auto)]

mod answered;
mod case;
mod operators;
mod shown;
mod step;
mod word;

use anyhow::{Result, bail};
use operators::play_operator;
use std::alloc::Global;

fn main(rt: HostRuntime) -> Result<()> {
    let alloc = rt.alloc();
    let mut lines = Vec::new(alloc);
    for line in rt.lines(alloc) {
        let line = line?;
        if line.is_empty() {
            play_case(&rt, alloc, lines.as_slice())?;
            println!(rt;)?;
            lines = Vec::new(alloc);
        } else {
            lines.push(line)?;
        }
    }
    play_case(&rt, alloc, lines.as_slice())
}

/// Plays the case that these lines are: its title, its operator and its steps.
fn play_case(rt: &impl Print, alloc: Global, lines: &[String]) -> Result<()> {
    match lines {
        [] => Ok(()),
        [title, operator, steps @ ..] => {
            println!(rt; "{title}")?;
            println!(rt; "{operator}")?;
            play_operator(rt, alloc, operator.as_str(), steps)
        }
        [title] => bail!("a case without an operator: {title}"),
    }
}
