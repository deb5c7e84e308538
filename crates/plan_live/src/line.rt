ghost use Rattle.std.specs.Prelude.{◌≡◌, MatchOption, None, Some};
ghost use Rattle.std.specs.List.{position};
ghost use Rattle.cedr_plan.specs.declared.plan.PlanNode.{PlanNode};
ghost use Rattle.plan_live.specs.Scripts.{cut_at_comma, is_question, source_event};
ghost use Rattle.plan_live.specs.Playing.{is_source_named};
ghost use Rattle.plan_live.specs.Said.{SaysLine};

use cedr_plan::{PlanNode, is_source};
use cedr_text::{LINE_LIMIT, LineFault, without_return};
use memchr::memchr;

/// What a line of a script says.
#[derive(Clone, Copy)]
pub enum ScriptLine<'a> {
    /// Nothing, since it is empty.
    Nothing,
    /// It is `?`.
    Question,
    /// It is an event line of the source at a place, which is what stands behind the name and the comma.
    Event(usize, &'a [u8]),
}

/// Whether a line asks for the rows.
pub fn is_question(line: &[u8]) -> bool
    ensures { result ≡ is_question line.now }
{
    line == b"?".as_slice()
}

/// What stands before the first comma of a line, and what stands after it.
fn cut_at_comma(line: &[u8]) -> Option<(&[u8], &[u8])>
    ensures { MatchOption result (cut_at_comma line.now ≡ None) (λ cut. cut_at_comma line.now ≡ Some (cut.0.now, cut.1.now)) }
{
    match memchr(b',', line) {
        Some(at) => Some((&line[..at], &line[at + 1..])),
        None => None,
    }
}

fn is_named(node: &PlanNode, name: &[u8]) -> bool
    ensures { result ≡ is_source_named node.now name.now }
{
    is_source(&node.kind) && node.name.bytes() == name
}

/// The place of the first source of a name.
fn find_source(nodes: &[PlanNode], name: &[u8]) -> Option<usize>
    ensures { result ≡ position (λ (node : PlanNode). is_source_named node name.now) nodes.now }
{
    nodes.iter().position(|node| is_named(node, name))
}

/// The place of the source whose event line this is, and what stands behind its name and comma. There is none where the
/// line has no comma, the plan has no source of that name, or nothing stands behind the comma.
pub fn event_of<'a>(nodes: &[PlanNode], line: &'a [u8]) -> Option<(usize, &'a [u8])>
    ensures { MatchOption result (source_event nodes.now line.now ≡ None) (λ event. source_event nodes.now line.now ≡ Some (event.0, event.1.now)) }
{
    let (name, event) = cut_at_comma(line)?;
    let place = find_source(nodes, name)?;
    if event.is_empty() {
        return None;
    }
    Some((place, event))
}

/// What a line of a script says, without its line feed, or the fault that it has whatever was accepted before it. The event
/// line isn't read yet.
pub fn read_script_line<'a>(nodes: &[PlanNode], line: &'a [u8]) -> Result<ScriptLine<'a>, LineFault>
    ensures { SaysLine result nodes.now line.now }
{
    if line.len() > LINE_LIMIT {
        return Err(LineFault::LineTooLong);
    }
    let line = without_return(line);
    if is_question(line) {
        return Ok(ScriptLine::Question);
    }
    if line.is_empty() {
        return Ok(ScriptLine::Nothing);
    }
    match event_of(nodes, line) {
        Some((place, event)) => Ok(ScriptLine::Event(place, event)),
        None => Err(LineFault::BadForm),
    }
}
