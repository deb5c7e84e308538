use crate::play::Played;
use anyhow::Result;
use cedr_io::MemFiles;
use cedr_run::Ending;

/// A text of more bytes isn't written, but its length.
const LONG: usize = 1000;

/// Writes how a command ended, and what it left outside.
pub(crate) fn tell(rt: &impl Print, played: &Played) -> Result<()> {
    print!(rt; "  status {}, asked", played.ending.status.code())?;
    tell_asked(rt, &played.files.watched)?;
    let written = played.out.watched.written();
    match &played.longest {
        Some(longest) if longest.as_slice().starts_with(written) => {
            println!(rt; "  out is such a front")?;
        }
        _ => tell_bytes(rt, "out", written)?,
    }
    tell_bytes(rt, "err", played.err.watched.written())?;
    tell_amiss(rt, played)
}

/// Writes what no command may do and this one did, if there is something.
fn tell_amiss(rt: &impl Print, played: &Played) -> Result<()> {
    if let Some(what) = amiss(played) {
        println!(rt; "  {what}")?;
    }
    Ok(())
}

fn amiss(played: &Played) -> Option<&'static str> {
    let files = &played.files;
    if files.found != files.given_back {
        Some("a source was not given back")
    } else if files.late_reads > 0 {
        Some("a read followed the last one of its source")
    } else if played.out.late_writes > 0 || played.err.late_writes > 0 {
        Some("a write followed a refused one")
    } else if played.out.texts > 1 && !played.goes_on {
        Some("a piece was written before the whole text was known")
    } else {
        None
    }
}

/// Writes how many sources a command found, and gave back.
pub(crate) fn tell_found(rt: &impl Print, played: &Played) -> Result<()> {
    println!(rt;
        "  {} found, {} given back",
        played.files.found, played.files.given_back
    )?;
    Ok(())
}

/// Writes the names of the files that were asked for, and ends the line.
fn tell_asked(rt: &impl Print, files: &MemFiles) -> Result<()> {
    for name in files.asked() {
        print!(rt; " {}", name.bytes().escape_ascii())?;
    }
    println!(rt;)?;
    Ok(())
}

fn tell_bytes(rt: &impl Print, name: &str, bytes: &[u8]) -> Result<()> {
    if bytes.len() > LONG {
        println!(rt; "  {name} of {} bytes", bytes.len())?;
    } else {
        println!(rt; "  {name} \"{}\"", bytes.escape_ascii())?;
    }
    Ok(())
}

/// Writes how many edges and workers there were, and whether the workers took and put what the edges carried, where the nodes
/// of the plan are a chain.
pub(crate) fn tell_edges(rt: &impl Print, ending: &Ending) -> Result<()> {
    println!(rt;
        "  {} edges, {} workers, in accord: {}",
        ending.edges.len(),
        ending.ran.len(),
        are_in_accord(ending)
    )?;
    Ok(())
}

/// Whether the worker of each place of a chain took what went over the edge before it, and put what went over the one behind
/// it.
fn are_in_accord(ending: &Ending) -> bool {
    let mut taken = 0;
    for (place, worker) in ending.ran.iter().enumerate() {
        let put = carried(ending, place);
        if worker.number() != place || worker.taken() != taken || worker.put() != put {
            return false;
        }
        taken = put;
    }
    true
}

/// How many messages went over the edge of a place, if there is one.
fn carried(ending: &Ending, place: usize) -> u64 {
    match ending.edges.get(place) {
        Some(edge) => edge.count(),
        None => 0,
    }
}
