ghost use Rattle.std.specs.Prelude.{◌∷◌, [], IfOk};
ghost use Rattle.change_laws.specs.Times.{IsWhile};

use crate::case::play;
use crate::word::{read_columns, read_number, read_ports, read_test, read_types, read_while};
use anyhow::{Result, bail};
use cedr_expr::{Keep, Test, Tests};
use cedr_table::Operator;
use op_except::Except;
use op_group::Group;
use op_join::Join;
use op_life::{Ends, Hop, Shift, Starts, Window};
use op_row::{Project, Select, Union};
use pat_atleast::AtLeast;
use pat_seq::Sequence;
use pat_unless::Unless;
use std::alloc::Global;

/// Plays steps on the operator that a line says.
pub(crate) fn play_operator(
    rt: &impl Print,
    alloc: Global,
    line: &str,
    steps: &[String],
) -> Result<()> {
    let words: Vec<&str> = line.split_whitespace().collect(alloc)?;
    match words.as_slice() {
        [kind, words @ ..] => play_kind(rt, alloc, kind, words, steps),
        [] => bail!("no operator"),
    }
}

/// Plays steps on an operator of a kind that is made of these words.
fn play_kind(
    rt: &impl Print,
    alloc: Global,
    kind: &str,
    words: &[&str],
    steps: &[String],
) -> Result<()> {
    match kind {
        "select" => play_select(rt, alloc, words, steps),
        "project" => play_project(rt, alloc, words, steps),
        "union" => play_union(rt, alloc, words, steps),
        "join" => play_join(rt, alloc, words, steps),
        "except" => play_except(rt, alloc, words, steps),
        "group" => play_group(rt, alloc, words, steps),
        "sequence" => play_sequence(rt, alloc, words, steps),
        "unless" => play_unless(rt, alloc, words, steps),
        "atleast" => play_at_least(rt, alloc, words, steps),
        _ => play_lifetime(rt, alloc, kind, words, steps),
    }
}

fn play_lifetime(
    rt: &impl Print,
    alloc: Global,
    kind: &str,
    words: &[&str],
    steps: &[String],
) -> Result<()> {
    match kind {
        "window" => play(rt, alloc, Window::new(one_while(words)?), 1, steps),
        "shift" => play(rt, alloc, Shift::new(one_while(words)?), 1, steps),
        "hop" => play_hop(rt, alloc, words, steps),
        "starts" => play(rt, alloc, Starts::new(), 1, steps),
        "ends" => play(rt, alloc, Ends::new(), 1, steps),
        _ => bail!("no such operator"),
    }
}

fn play_select(rt: &impl Print, alloc: Global, words: &[&str], steps: &[String]) -> Result<()> {
    match words {
        [types, "where", tests @ ..] => {
            let select = Select::new(make_tests(alloc, types, "-", tests)?);
            play(rt, alloc, select, 1, steps)
        }
        _ => bail!("no select"),
    }
}

fn play_project(rt: &impl Print, alloc: Global, words: &[&str], steps: &[String]) -> Result<()> {
    match words {
        [types, "keep", columns] => {
            let project = Project::new(make_keep(alloc, types, columns)?);
            play(rt, alloc, project, 1, steps)
        }
        _ => bail!("no project"),
    }
}

fn play_union(rt: &impl Print, alloc: Global, words: &[&str], steps: &[String]) -> Result<()> {
    match words {
        [ports] => {
            let ports = read_ports(ports)?;
            play(rt, alloc, Union::new(ports), ports, steps)
        }
        _ => bail!("no union"),
    }
}

fn play_join(rt: &impl Print, alloc: Global, words: &[&str], steps: &[String]) -> Result<()> {
    match words {
        [left, right, "where", tests @ ..] => {
            let join = Join::new(alloc, make_tests(alloc, left, right, tests)?);
            play(rt, alloc, join, 2, steps)
        }
        _ => bail!("no join"),
    }
}

fn play_except(rt: &impl Print, alloc: Global, words: &[&str], steps: &[String]) -> Result<()> {
    match words {
        [left, right, "where", tests @ ..] => {
            let except = Except::new(alloc, make_tests(alloc, left, right, tests)?);
            play(rt, alloc, except, 2, steps)
        }
        _ => bail!("no except"),
    }
}

fn play_hop(rt: &impl Print, alloc: Global, words: &[&str], steps: &[String]) -> Result<()> {
    match words {
        [every, width] => {
            let hop = Hop::new(read_while(every)?, read_while(width)?);
            play(rt, alloc, hop, 1, steps)
        }
        _ => bail!("no hop"),
    }
}

fn play_group(rt: &impl Print, alloc: Global, words: &[&str], steps: &[String]) -> Result<()> {
    match words {
        [types, "by", keys, "count", columns @ ..] => play_counted(
            rt, alloc, types, keys, true, columns, steps,
        ),
        [types, "by", keys, columns @ ..] => play_counted(
            rt, alloc, types, keys, false, columns, steps,
        ),
        _ => bail!("no group"),
    }
}

fn play_counted(
    rt: &impl Print,
    alloc: Global,
    types: &str,
    keys: &str,
    count: bool,
    columns: &[&str],
    steps: &[String],
) -> Result<()> {
    match columns {
        ["sums", sums] => {
            let group = make_group(alloc, types, keys, count, sums, "-", "-")?;
            play(rt, alloc, group, 1, steps)
        }
        ["sums", sums, "least", least, "greatest", greatest] => {
            let group = make_group(alloc, types, keys, count, sums, least, greatest)?;
            play(rt, alloc, group, 1, steps)
        }
        _ => bail!("no group"),
    }
}

fn make_group(
    alloc: Global,
    types: &str,
    keys: &str,
    count: bool,
    sums: &str,
    least: &str,
    greatest: &str,
) -> Result<Group>
    ensures { IfOk result (λ op. ⟦<Group as Operator>⟧.stands op ([] ∷ []) (0 ∷ [])) }
{
    let keys = make_keep(alloc, types, keys)?;
    let sums = make_keep(alloc, types, sums)?;
    let least = make_keep(alloc, types, least)?;
    let greatest = make_keep(alloc, types, greatest)?;
    Ok(Group::new(alloc, keys, count, sums, least, greatest))
}

/// A sequence's tests see the payloads of all ports as one.
fn play_sequence(rt: &impl Print, alloc: Global, words: &[&str], steps: &[String]) -> Result<()> {
    match words {
        [ports, scope, types, "where", tests @ ..] => {
            let (ports, scope) = (read_ports(ports)?, read_while(scope)?);
            let tests = make_tests(alloc, types, "-", tests)?;
            play(
                rt,
                alloc,
                Sequence::new(alloc, ports, scope, tests)?,
                ports,
                steps,
            )
        }
        _ => bail!("no sequence"),
    }
}

fn play_unless(rt: &impl Print, alloc: Global, words: &[&str], steps: &[String]) -> Result<()> {
    match words {
        [scope, hold, left, right, "where", tests @ ..] => {
            let (scope, hold) = (read_while(scope)?, read_while(hold)?);
            let tests = make_tests(alloc, left, right, tests)?;
            play(rt, alloc, Unless::new(alloc, scope, hold, tests), 2, steps)
        }
        _ => bail!("no unless"),
    }
}

/// Its tests see the payloads of the chosen ports as one.
fn play_at_least(rt: &impl Print, alloc: Global, words: &[&str], steps: &[String]) -> Result<()> {
    match words {
        [ports, number, scope, types, "where", tests @ ..] => {
            let ports = read_ports(ports)?;
            let number = read_number(number, ports)?;
            let scope = read_while(scope)?;
            let tests = make_tests(alloc, types, "-", tests)?;
            let at_least = AtLeast::new(alloc, ports, number, scope, tests)?;
            play(rt, alloc, at_least, ports, steps)
        }
        _ => bail!("no atleast"),
    }
}

/// The while that is the one word.
fn one_while(words: &[&str]) -> Result<u64>
    ensures { IfOk result IsWhile }
{
    match words {
        [word] => read_while(word),
        _ => bail!("not one while"),
    }
}

/// Tests of payloads of the types of two words.
fn make_tests(alloc: Global, left: &str, right: &str, words: &[&str]) -> Result<Tests> {
    let tests = read_tests(alloc, words)?;
    let (left, right) = (read_types(alloc, left)?, read_types(alloc, right)?);
    Ok(Tests::new(tests, left.as_slice(), right.as_slice())?)
}

fn read_tests(alloc: Global, words: &[&str]) -> Result<Vec<Test>> {
    let mut tests = Vec::new(alloc);
    for word in words {
        tests.push(read_test(alloc, word)?)?;
    }
    Ok(tests)
}

/// The columns that are kept of payloads of the types of a word.
fn make_keep(alloc: Global, types: &str, columns: &str) -> Result<Keep> {
    let types = read_types(alloc, types)?;
    Ok(Keep::new(read_columns(alloc, columns)?, types.as_slice())?)
}
