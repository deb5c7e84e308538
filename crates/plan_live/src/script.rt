ghost use Rattle.std.specs.Prelude.{◌≡◌, ◌≤◌, [], Some, length};
ghost use Rattle.cedr_io.specs.Counts.{Counts};
ghost use Rattle.cedr_plan.specs.Rules.{IsPlan};
ghost use Rattle.cedr_base.specs.Bytes.{line_feed};
ghost use Rattle.cedr_text.specs.Parts.{parts_of};
ghost use Rattle.plan_live.specs.Scripts.{Accepted, ShapesHaveTypes};
ghost use Rattle.plan_live.specs.Playing.{PlaysStand, PlaysAs, parts_played};
ghost use Rattle.plan_live.specs.Plays.{Plays, PlaysAfter};
ghost use Rattle.plan_live.specs.Resumed.{lines_from, states_in, AreStates};

use crate::guards::shapes_of;
use crate::player::Player;
use cedr_guard::{FILE_LIMIT, Refusal, SourceState, limit_fault};
use cedr_io::{OutsideFault, Sink};
use cedr_plan::Plan;
use cedr_text::{LineFault, Parts, Shape};
use std::alloc::Global;

/// Plays a script over a plan, and answers the script's fault where it has one: its first line that isn't accepted, and
/// why. Each line is `?`, or the name of a source, a comma and an event line, which is judged after the earlier lines
/// of that source and fed to the plan's network, and the network settles. At each `?` before the first fault the rows
/// of the output so far are written in canonical order, and after them `. ` and the reach, in one `write_all`. No
/// source ends.
///
/// Of a script over `FILE_LIMIT` bytes it looks at the first `FILE_LIMIT` ones, which decide. O(n log n) in the rows at each
/// `?`, besides what the guards and the operators cost.
///
/// `Failed` says that a write was refused. After an error what was written is a front of what the script's `?` show.
pub fn play<K: Sink>(
    alloc: Global,
    plan: &Plan,
    script: &[u8],
    out: &mut K,
) -> Result<Option<Refusal>, OutsideFault>
    requires plan { IsPlan plan.now }
    ensures played { Plays result plan.now.nodes.items script.now (K.written out.old) (K.written out.new) }
    ensures counted { Counts result (K.faults out.old) (K.faults out.new) }
{
    let player = Player::new(alloc, plan)?;
    play_script(alloc, plan, player, script, out)
}

/// Plays a script over a plan as [`play`] does, but from states of its sources, one for each in plan order: each guard is
/// restored, and the network takes the insertions, the retractions and the guarantee of each state and settles before the
/// first line. So it shows what the script shows behind any lines that came to these states.
///
/// Before the first line it takes the time of these messages, which is that of playing as many lines without their reading
/// and judging, and of a settling for each source.
pub fn play_from<K: Sink>(
    alloc: Global,
    plan: &Plan,
    states: &[SourceState],
    script: &[u8],
    out: &mut K,
) -> Result<Option<Refusal>, OutsideFault>
    requires plan { IsPlan plan.now }
    requires states { AreStates plan.now.nodes.items states.now }
    ensures played { PlaysAfter result plan.now.nodes.items (lines_from plan.now.nodes.items (states_in states.now)) script.now (K.written out.old) (K.written out.new) }
    ensures counted { Counts result (K.faults out.old) (K.faults out.new) }
{
    let player = Player::restored(alloc, plan, states)?;
    play_script(alloc, plan, player, script, out)
}

/// Plays a script from where a player stands.
fn play_script<K: Sink>(
    alloc: Global,
    plan: &Plan,
    player: Player,
    script: &[u8],
    out: &mut K,
) -> Result<Option<Refusal>, OutsideFault>
    requires stands { (before : Accepted) × PlaysStand plan.now.nodes.items player before [] }
    ensures played { (before : Accepted) → PlaysStand plan.now.nodes.items player before [] → PlaysAfter result plan.now.nodes.items before script.now (K.written out.old) (K.written out.new) }
    ensures counted { Counts result (K.faults out.old) (K.faults out.new) }
{
    let shapes = shapes_of(alloc, plan.nodes.as_slice())?;
    if script.len() > FILE_LIMIT {
        play_lines(
            alloc,
            plan,
            player,
            shapes.as_slice(),
            &script[..FILE_LIMIT],
            true,
            out,
        )
    } else {
        play_lines(alloc, plan, player, shapes.as_slice(), script, false, out)
    }
}

/// Plays the lines of a script, or those of its first bytes where it is over the limit: the line that they don't finish has
/// no other fault than that.
fn play_lines<K: Sink>(
    alloc: Global,
    plan: &Plan,
    mut player: Player,
    shapes: &[Shape],
    bytes: &[u8],
    over_limit: bool,
    out: &mut K,
) -> Result<Option<Refusal>, OutsideFault>
    requires stands { (before : Accepted) × PlaysStand plan.now.nodes.items player before [] }
    requires types { ShapesHaveTypes plan.now.nodes.items shapes.now }
    requires limit { length bytes.now ≤ FILE_LIMIT }
    ensures played { (before : Accepted) → PlaysStand plan.now.nodes.items player before [] → PlaysAs result plan.now.nodes.items (parts_played over_limit plan.now.nodes.items shapes.now 0 before (parts_of line_feed bytes.now)) (K.written out.old) (K.written out.new) }
    ensures counted { Counts result (K.faults out.old) (K.faults out.new) }
{
    let mut number = 0u64;
    let mut lines = Parts::new(bytes, b'\n');
    while let Some(line) = lines.next() {
        number += 1;
        if over_limit && lines.is_empty() {
            return Ok(refused(number, limit_fault(line)));
        }
        if let Some(fault) = player.take(alloc, plan.nodes.as_slice(), shapes, line, out)? {
            return Ok(refused(number, fault));
        }
    }
    Ok(None)
}

fn refused(line: u64, fault: LineFault) -> Option<Refusal>
    ensures { result ≡ Some (record { line = line; fault = fault }) }
{
    Some(Refusal { line, fault })
}
