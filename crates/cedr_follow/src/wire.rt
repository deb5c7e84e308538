ghost use Rattle.std.specs.Prelude.{◌≡◌, ◌∷◌, [], None};
ghost use Rattle.cedr_commands.specs.Seen.{seen_sink};
ghost use Rattle.cedr_follow.specs.FollowEnds.{script_outside};
ghost use Rattle.cedr_plan.specs.Rules.{IsPlan};
ghost use Rattle.plan_follow.specs.Following.{CountsReads, CountsWrites, FollowsBehind, FollowsOn};
ghost use Rattle.plan_follow.specs.Sifted.{sifted_behind};
ghost use Rattle.plan_live.specs.Resumed.{AreStates, lines_from, states_in};
ghost use Rattle.plan_live.specs.Scripts.{no_lines};

use cedr_guard::SourceState;
use cedr_io::{Failed, OutsideFault, Sink, Source};
use cedr_plan::Plan;
use cedr_script::Wire;
use plan_follow::{FollowFault, follow, follow_from};
use std::alloc::Global;

/// The source of a script and the sink of its answer as a wire. The order in which bytes come and go isn't known.
#[derive(Drop)]
struct FileWire<'a, S: Source, K: Sink> {
    source: &'a mut S,
    out: &'a mut K,
}

impl<'a, S: Source, K: Sink> Wire for FileWire<'a, S, K> {
    ghost use Rattle.std.specs.Prelude.{None, ◌∷◌, []};

    ghost rest = { λ wire. S.rest wire.source.now };

    ghost written = { λ wire. K.written wire.out.now };

    ghost log = { λ wire. None };

    ghost loans = { λ wire. wire.source.ghost_name ∷ wire.out.ghost_name ∷ [] };

    ghost refused_reads = { λ wire. S.faults wire.source.now };

    ghost refused_writes = { λ wire. K.faults wire.out.now };

    fn read(&mut self, buf: &mut [u8]) -> Result<usize, OutsideFault> {
        match self.source.read(buf) {
            Ok(count) => Ok(count),
            Err(Failed) => Err(OutsideFault::Failed),
        }
    }

    fn write(&mut self, piece: &[u8]) -> Result<usize, OutsideFault> {
        self.out.write(piece)
    }
}

/// Follows over a wire, which keeps its references.
fn follow_wire<S: Source, K: Sink, E: Sink>(
    alloc: Global,
    plan: &Plan,
    name: &[u8],
    wire: &mut FileWire<'_, S, K>,
    err: &mut E,
) -> Result<bool, FollowFault>
    requires plan { IsPlan plan.now }
    ensures same_source { wire.new.source.ghost_name ≡ wire.old.source.ghost_name }
    ensures same_sink { wire.new.out.ghost_name ≡ wire.old.out.ghost_name }
    ensures followed { FollowsOn result plan.now.nodes.items (sifted_behind (no_lines plan.now.nodes.items)) [] name.now
        (script_outside (S.rest wire.old.source.now) (seen_sink K.written K.faults wire.old.out.now) (seen_sink E.written E.faults err.old))
        (script_outside (S.rest wire.new.source.now) (seen_sink K.written K.faults wire.new.out.now) (seen_sink E.written E.faults err.new)) }
    ensures reads { CountsReads result (S.faults wire.old.source.now) (S.faults wire.new.source.now) }
    ensures writes { CountsWrites result (K.faults wire.old.out.now) (K.faults wire.new.out.now) }
{
    follow(alloc, plan, name, wire, err)
}

/// Follows the script of a source over a plan, and writes to a sink.
pub(crate) fn follow_file<S: Source, K: Sink, E: Sink>(
    alloc: Global,
    plan: &Plan,
    name: &[u8],
    source: &mut S,
    out: &mut K,
    err: &mut E,
) -> Result<bool, FollowFault>
    requires plan { IsPlan plan.now }
    ensures followed { FollowsOn result plan.now.nodes.items (sifted_behind (no_lines plan.now.nodes.items)) [] name.now
        (script_outside (S.rest source.old) (seen_sink K.written K.faults out.old) (seen_sink E.written E.faults err.old))
        (script_outside (S.rest source.new) (seen_sink K.written K.faults out.new) (seen_sink E.written E.faults err.new)) }
    ensures reads { CountsReads result (S.faults source.old) (S.faults source.new) }
    ensures writes { CountsWrites result (K.faults out.old) (K.faults out.new) }
{
    let mut wire = FileWire { source, out };
    follow_wire(alloc, plan, name, &mut wire, err)
}

/// The same over a wire, from states of the plan's sources.
fn follow_wire_from<S: Source, K: Sink, E: Sink>(
    alloc: Global,
    plan: &Plan,
    states: &[SourceState],
    name: &[u8],
    wire: &mut FileWire<'_, S, K>,
    err: &mut E,
) -> Result<bool, FollowFault>
    requires plan { IsPlan plan.now }
    requires states { AreStates plan.now.nodes.items states.now }
    ensures same_source { wire.new.source.ghost_name ≡ wire.old.source.ghost_name }
    ensures same_sink { wire.new.out.ghost_name ≡ wire.old.out.ghost_name }
    ensures followed { FollowsBehind result plan.now.nodes.items (sifted_behind (lines_from plan.now.nodes.items (states_in states.now))) name.now
        (script_outside (S.rest wire.old.source.now) (seen_sink K.written K.faults wire.old.out.now) (seen_sink E.written E.faults err.old))
        (script_outside (S.rest wire.new.source.now) (seen_sink K.written K.faults wire.new.out.now) (seen_sink E.written E.faults err.new)) }
    ensures reads { CountsReads result (S.faults wire.old.source.now) (S.faults wire.new.source.now) }
    ensures writes { CountsWrites result (K.faults wire.old.out.now) (K.faults wire.new.out.now) }
{
    follow_from(alloc, plan, states, name, wire, err)
}

/// The same from states of the plan's sources.
pub(crate) fn follow_file_from<S: Source, K: Sink, E: Sink>(
    alloc: Global,
    plan: &Plan,
    states: &[SourceState],
    name: &[u8],
    source: &mut S,
    out: &mut K,
    err: &mut E,
) -> Result<bool, FollowFault>
    requires plan { IsPlan plan.now }
    requires states { AreStates plan.now.nodes.items states.now }
    ensures followed { FollowsBehind result plan.now.nodes.items (sifted_behind (lines_from plan.now.nodes.items (states_in states.now))) name.now
        (script_outside (S.rest source.old) (seen_sink K.written K.faults out.old) (seen_sink E.written E.faults err.old))
        (script_outside (S.rest source.new) (seen_sink K.written K.faults out.new) (seen_sink E.written E.faults err.new)) }
    ensures reads { CountsReads result (S.faults source.old) (S.faults source.new) }
    ensures writes { CountsWrites result (K.faults out.old) (K.faults out.new) }
{
    let mut wire = FileWire { source, out };
    follow_wire_from(alloc, plan, states, name, &mut wire, err)
}
