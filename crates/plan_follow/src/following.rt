ghost use Rattle.std.specs.Prelude.{◌≡◌, []};
ghost use Rattle.cedr_plan.specs.Rules.{IsPlan};
ghost use Rattle.plan_follow.specs.Following.{CountsReads, CountsWrites, FollowsOn, FollowsBehind};
ghost use Rattle.plan_follow.specs.Sending.{outside_of};
ghost use Rattle.plan_follow.specs.Sifted.{sifted_behind};
ghost use Rattle.plan_live.specs.Scripts.{no_lines};
ghost use Rattle.plan_live.specs.Resumed.{lines_from, states_in, AreStates};

use crate::fault::FollowFault;
use crate::follower::Follower;
use crate::script::follow_lines;
use cedr_guard::SourceState;
use cedr_io::Sink;
use cedr_plan::Plan;
use cedr_script::Wire;
use plan_live::shapes_of;
use std::alloc::Global;

/// Follows a script over a plan for as long as it goes on: each line is judged by what is remembered of its source, fed to the
/// plan's network, and the network settles. What the output then gave is written, one line for each message: `+,..` and `-,..`
/// for changes, and `=,TIME` for a guarantee that no later change has a sync below it. A line that isn't accepted changes
/// nothing, and is told to `err` by `name`. `?` says nothing.
///
/// Before each read all that comes of the lines that have ended was written and told. The script may have any number of bytes;
/// each line has the limit that a line has. Events that are over are forgotten, so what is held follows what is open.
///
/// It answers whether some line isn't accepted. Where telling is refused it goes on.
pub fn follow<W: Wire, E: Sink>(
    alloc: Global,
    plan: &Plan,
    name: &[u8],
    wire: &mut W,
    err: &mut E,
) -> Result<bool, FollowFault>
    requires plan { IsPlan plan.now }
    ensures followed { FollowsOn result plan.now.nodes.items (sifted_behind (no_lines plan.now.nodes.items)) [] name.now (outside_of W.rest W.written W.log E.faults E.written wire.old err.old) (outside_of W.rest W.written W.log E.faults E.written wire.new err.new) }
    ensures reads { CountsReads result (W.refused_reads wire.old) (W.refused_reads wire.new) }
    ensures writes { CountsWrites result (W.refused_writes wire.old) (W.refused_writes wire.new) }
    ensures loans { W.loans wire.new ≡ W.loans wire.old }
{
    let follower = Follower::new(alloc, plan)?;
    let nodes = plan.nodes.as_slice();
    let shapes = shapes_of(alloc, nodes)?;
    follow_lines(alloc, nodes, &shapes, name, follower, wire, err)
}

/// Follows a script over a plan as [`follow`] does, but from states of its sources, one for each in plan order. It writes what
/// the output gives behind what it gave for the lines that came to these states: with the rows that the plan shows there, the
/// changes make the rows that it shows then.
pub fn follow_from<W: Wire, E: Sink>(
    alloc: Global,
    plan: &Plan,
    states: &[SourceState],
    name: &[u8],
    wire: &mut W,
    err: &mut E,
) -> Result<bool, FollowFault>
    requires plan { IsPlan plan.now }
    requires states { AreStates plan.now.nodes.items states.now }
    ensures followed { FollowsBehind result plan.now.nodes.items (sifted_behind (lines_from plan.now.nodes.items (states_in states.now))) name.now (outside_of W.rest W.written W.log E.faults E.written wire.old err.old) (outside_of W.rest W.written W.log E.faults E.written wire.new err.new) }
    ensures reads { CountsReads result (W.refused_reads wire.old) (W.refused_reads wire.new) }
    ensures writes { CountsWrites result (W.refused_writes wire.old) (W.refused_writes wire.new) }
    ensures loans { W.loans wire.new ≡ W.loans wire.old }
{
    let follower = Follower::restored(alloc, plan, states)?;
    let nodes = plan.nodes.as_slice();
    let shapes = shapes_of(alloc, nodes)?;
    follow_lines(alloc, nodes, &shapes, name, follower, wire, err)
}
