use crate::line::level;
use crate::plan::plan_of;
use crate::{network, node, port, query};
use anyhow::{Context, Result, bail};
use std::alloc::Global;

/// Plays a case: its title, the lines of its plan, what is driven, and the lines that drive it.
pub(crate) fn play(rt: &impl Print, alloc: Global, lines: &[String]) -> Result<()> {
    let Some((title, lines)) = lines.split_first() else {
        return Ok(());
    };
    println!(rt; "{title}")?;
    let (plan, lines) = split_plan(alloc, lines)?;
    let Some((head, steps)) = lines.split_first() else {
        bail!("nothing is driven: {title}");
    };
    println!(rt; "{head}")?;
    drive(rt, alloc, plan.as_str(), head.as_str(), steps).context(format_args!(
        "in the case {title}"
    ))?;
    println!(rt;)?;
    Ok(())
}

/// The text of a plan, which stands behind the bars of the first lines, and the lines after these.
fn split_plan<'a>(alloc: Global, lines: &'a [String]) -> Result<(String, &'a [String])> {
    let mut text = String::new(alloc);
    for (count, line) in lines.iter().enumerate() {
        let Some(part) = line.as_str().strip_prefix("| ") else {
            return Ok((text, &lines[count..]));
        };
        text.push_str(part)?;
    }
    Ok((text, &[]))
}

/// Drives what the head of a case names.
fn drive(rt: &impl Print, alloc: Global, plan: &str, head: &str, steps: &[String]) -> Result<()> {
    let words: Vec<&str> = head.split_whitespace().collect(alloc)?;
    match words.as_slice() {
        ["port", words @ ..] => port::play(rt, alloc, level(words)?, steps),
        ["node", name] => node::play(rt, alloc, &plan_of(alloc, plan)?, name, steps),
        ["network"] => network::play(rt, alloc, plan_of(alloc, plan)?, steps),
        ["query"] => query::play(rt, alloc, &plan_of(alloc, plan)?, steps),
        _ => bail!("no such case: {head}"),
    }
}
