ghost use Rattle.std.specs.Prelude.{ℕ, ◌≡◌, [], List, OnOk};
ghost use Rattle.cedr_script.specs.Cutters.{begun_of};
ghost use Rattle.cedr_script.specs.Cutting.{answers_left};
ghost use Rattle.node_laws.specs.Lists.{Lists};
ghost use Rattle.plan_follow.specs.Followers.{FollowerAt, FollowsLines, FollowsPiece, TakesMore, Gone, IsClear, nothing_gone};
ghost use Rattle.plan_follow.specs.Following.{CountsReads, CountsWrites, FollowsOn, OutsideSeen};
ghost use Rattle.plan_follow.specs.Holding.{FollowsNext, IsUpTo, SendsKept, followed};
ghost use Rattle.plan_follow.specs.Sending.{outside_of};
ghost use Rattle.plan_follow.specs.Sifted.{Sifted};
ghost use Rattle.plan_live.specs.Scripts.{ShapesHaveTypes};

use crate::fault::FollowFault;
use crate::follower::Follower;
use crate::sending::{read_piece, send_both};
use cedr_base::OutOfMemory;
use cedr_io::Sink;
use cedr_plan::PlanNode;
use cedr_script::{LineCutter, Wire};
use cedr_text::Shape;
use std::alloc::Global;

/// Takes the lines that end in a piece, and keeps what comes of them.
fn take_piece(
    alloc: Global,
    nodes: &[PlanNode],
    shapes: &[Shape],
    name: &[u8],
    cutter: &mut LineCutter,
    follower: &mut Follower,
    piece: &[u8],
) -> Result<(), OutOfMemory>
    requires stands { (s : Sifted) × (start : Lists) × (gone : Gone) × FollowerAt nodes.now name.now follower.old s start gone }
    requires types { ShapesHaveTypes nodes.now shapes.now }
    ensures { OnOk result (FollowsPiece nodes.now shapes.now name.now follower.old follower.new (begun_of cutter.old) (begun_of cutter.new) piece.now) }
{
    let mut line = Vec::new(alloc);
    let mut done = 0usize;
    while done < piece.len() {
        let (step, count) = cutter.cut(&piece[done..], &mut line)?;
        follower.take_step(alloc, nodes, shapes, name, step, &line)?;
        done += count;
    }
    Ok(())
}

/// Takes the line that a script ends in, where it ends in one, and keeps what comes of it.
fn take_last(
    alloc: Global,
    nodes: &[PlanNode],
    shapes: &[Shape],
    name: &[u8],
    cutter: &mut LineCutter,
    follower: &mut Follower,
) -> Result<(), OutOfMemory>
    requires stands { (s : Sifted) × (start : Lists) × (gone : Gone) × FollowerAt nodes.now name.now follower.old s start gone }
    requires types { ShapesHaveTypes nodes.now shapes.now }
    ensures { OnOk result (FollowsLines nodes.now shapes.now name.now follower.old follower.new (answers_left (begun_of cutter.old) [])) }
{
    let mut line = Vec::new(alloc);
    let step = cutter.finish(&mut line)?;
    follower.take_step(alloc, nodes, shapes, name, step, &line)
}

/// Takes the lines that end in a piece, and where it is empty, so that the script has ended, the last line.
fn take_more(
    alloc: Global,
    nodes: &[PlanNode],
    shapes: &[Shape],
    name: &[u8],
    cutter: &mut LineCutter,
    follower: &mut Follower,
    piece: &[u8],
) -> Result<(), OutOfMemory>
    requires stands { (s : Sifted) × (start : Lists) × (gone : Gone) × FollowerAt nodes.now name.now follower.old s start gone }
    requires types { ShapesHaveTypes nodes.now shapes.now }
    ensures { OnOk result (TakesMore nodes.now shapes.now name.now follower.old follower.new (begun_of cutter.old) (begun_of cutter.new) piece.now) }
{
    if piece.is_empty() {
        take_last(alloc, nodes, shapes, name, cutter, follower)
    } else {
        take_piece(alloc, nodes, shapes, name, cutter, follower, piece)
    }
}

/// Writes and tells what is kept.
fn send_kept<W: Wire, E: Sink>(
    follower: &mut Follower,
    wire: &mut W,
    err: &mut E,
) -> Result<(), FollowFault>
    ensures sent { SendsKept result follower.old follower.new (outside_of W.rest W.written W.log E.faults E.written wire.old err.old) (outside_of W.rest W.written W.log E.faults E.written wire.new err.new) }
    ensures writes { CountsWrites result (W.refused_writes wire.old) (W.refused_writes wire.new) }
    ensures reads { W.refused_reads wire.new ≡ W.refused_reads wire.old }
    ensures loans { W.loans wire.new ≡ W.loans wire.old }
{
    send_both(wire, err, &follower.text, &follower.said)?;
    follower.text.clear();
    follower.said.clear();
    Ok(())
}

/// Reads once, takes the lines that have ended, and writes and tells what comes of them. Whether the script has ended: then its last
/// line was taken too.
fn follow_next<W: Wire, E: Sink>(
    alloc: Global,
    nodes: &[PlanNode],
    shapes: &[Shape],
    name: &[u8],
    cutter: &mut LineCutter,
    follower: &mut Follower,
    wire: &mut W,
    err: &mut E,
) -> Result<bool, FollowFault>
    requires up_to { (before : Sifted) × (start : Lists) × (first : OutsideSeen) × IsUpTo (followed nodes.now shapes.now name.now before start) (begun_of cutter.old) follower.old first (outside_of W.rest W.written W.log E.faults E.written wire.old err.old) }
    requires types { ShapesHaveTypes nodes.now shapes.now }
    ensures followed { (before : Sifted) (start : Lists) (first : OutsideSeen) → IsUpTo (followed nodes.now shapes.now name.now before start) (begun_of cutter.old) follower.old first (outside_of W.rest W.written W.log E.faults E.written wire.old err.old)
        → FollowsNext result (followed nodes.now shapes.now name.now before start) (begun_of cutter.new) follower.new first (outside_of W.rest W.written W.log E.faults E.written wire.new err.new) }
    ensures reads { CountsReads result (W.refused_reads wire.old) (W.refused_reads wire.new) }
    ensures writes { CountsWrites result (W.refused_writes wire.old) (W.refused_writes wire.new) }
    ensures loans { W.loans wire.new ≡ W.loans wire.old }
{
    let mut block = [0u8; 65536];
    let count = read_piece(wire, &mut block)?;
    take_more(
        alloc,
        nodes,
        shapes,
        name,
        cutter,
        follower,
        &block[..count],
    )?;
    send_kept(follower, wire, err)?;
    Ok(count == 0)
}

/// Follows a script from where a follower stands, and answers whether some line isn't accepted.
pub(crate) fn follow_lines<W: Wire, E: Sink>(
    alloc: Global,
    nodes: &[PlanNode],
    shapes: &[Shape],
    name: &[u8],
    mut follower: Follower,
    wire: &mut W,
    err: &mut E,
) -> Result<bool, FollowFault>
    requires stands { (before : Sifted) × (start : Lists) × FollowerAt nodes.now name.now follower before start nothing_gone }
    requires clear { IsClear follower }
    requires types { ShapesHaveTypes nodes.now shapes.now }
    ensures followed { (before : Sifted) (start : Lists) → FollowerAt nodes.now name.now follower before start nothing_gone
        → FollowsOn result nodes.now before start name.now (outside_of W.rest W.written W.log E.faults E.written wire.old err.old) (outside_of W.rest W.written W.log E.faults E.written wire.new err.new) }
    ensures reads { CountsReads result (W.refused_reads wire.old) (W.refused_reads wire.new) }
    ensures writes { CountsWrites result (W.refused_writes wire.old) (W.refused_writes wire.new) }
    ensures loans { W.loans wire.new ≡ W.loans wire.old }
{
    let mut cutter = LineCutter::new(alloc);
    for _ in 0..u64::MAX {
        if follow_next(
            alloc,
            nodes,
            shapes,
            name,
            &mut cutter,
            &mut follower,
            wire,
            err,
        )? {
            return Ok(follower.faulty);
        }
    }
    Err(FollowFault::OutOfMemory)
}
