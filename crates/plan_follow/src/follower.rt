ghost use Rattle.std.specs.Prelude.{ℕ, ◌≡◌, ◌+◌, ◌++◌, [], List, false, IfOk, OnOk};
ghost use Rattle.cedr_plan.specs.Rules.{IsPlan};
ghost use Rattle.cedr_plan.specs.declared.plan.PlanNode.{PlanNode as Planned};
ghost use Rattle.cedr_script.specs.Cutting.{step_answers};
ghost use Rattle.node_laws.specs.Lists.{Lists};
ghost use Rattle.plan_follow.specs.Followers.{FollowerAt, GoesAhead, FollowsLines, Gone, IsClear, nothing_gone, faulty_with, TakesFresh, CountsLine};
ghost use Rattle.plan_follow.specs.Following.{IsStart};
ghost use Rattle.plan_follow.specs.Sifted.{Sifted, sifted_behind};
ghost use Rattle.plan_live.specs.Resumed.{lines_from, states_in, AreStates};
ghost use Rattle.plan_live.specs.Scripts.{ShapesHaveTypes, no_lines};

use crate::player::OpenPlayer;
use cedr_base::OutOfMemory;
use cedr_guard::{Refusal, SourceState};
use cedr_plan::{Plan, PlanNode};
use cedr_script::CutStep;
use cedr_text::{LineFault, Shape};
use std::alloc::Global;
use stream_text::write_messages;
use told_faults::write_refusal;

/// A player, and what came of the lines since the last read.
#[derive(Drop)]
pub(crate) struct Follower {
    pub(crate) player: OpenPlayer,
    /// How many messages the output gave, all of which were taken.
    pub(crate) taken: u64,
    /// How many lines there were.
    pub(crate) number: u64,
    /// Whether some line isn't accepted.
    pub(crate) faulty: bool,
    /// The text of the messages that aren't written yet.
    pub(crate) text: Vec<u8>,
    /// What is told of the lines that aren't accepted, and wasn't yet.
    pub(crate) said: Vec<u8>,
}

impl Follower {
    /// A player from which so many messages were taken. No line came.
    fn of_player(alloc: Global, player: OpenPlayer, taken: u64) -> Follower
        ensures made { result ≡ record { player = player; taken = taken; number = 0; faulty = false; text = result.text; said = result.said } }
        ensures clear { IsClear result }
    {
        Follower {
            player,
            taken,
            number: 0,
            faulty: false,
            text: Vec::new(alloc),
            said: Vec::new(alloc),
        }
    }

    /// No line was accepted.
    pub(crate) fn new(alloc: Global, plan: &Plan) -> Result<Follower, OutOfMemory>
        requires { IsPlan plan.now }
        ensures stands { IfOk result (λ follower. (name : List ℕ) → FollowerAt plan.now.nodes.items name follower (sifted_behind (no_lines plan.now.nodes.items)) [] nothing_gone) }
        ensures clear { IfOk result IsClear }
    {
        let player = OpenPlayer::new(alloc, plan)?;
        Ok(Follower::of_player(alloc, player, 0))
    }

    /// Each source has come to its state. What the output gives until then isn't written.
    pub(crate) fn restored(
        alloc: Global,
        plan: &Plan,
        states: &[SourceState],
    ) -> Result<Follower, OutOfMemory>
        requires plan { IsPlan plan.now }
        requires states { AreStates plan.now.nodes.items states.now }
        ensures stands { IfOk result (λ follower. (start : Lists) × IsStart plan.now.nodes.items (sifted_behind (lines_from plan.now.nodes.items (states_in states.now))).sent start
            × ((name : List ℕ) → FollowerAt plan.now.nodes.items name follower (sifted_behind (lines_from plan.now.nodes.items (states_in states.now))) start nothing_gone)) }
        ensures clear { IfOk result IsClear }
    {
        let mut player = OpenPlayer::restored(alloc, plan, states)?;
        let Some(messages) = player.take_messages(0) else {
            return Err(OutOfMemory);
        };
        Ok(Follower::of_player(alloc, player, messages.len() as u64))
    }

    /// A line is counted, and told if it has a fault.
    fn note(&mut self, name: &[u8], fault: Option<LineFault>) -> Result<(), OutOfMemory>
        ensures { OnOk result (CountsLine name.now self.old self.new fault) }
    {
        let Some(number) = self.number.checked_add(1) else {
            return Err(OutOfMemory);
        };
        self.number = number;
        if let Some(fault) = fault {
            self.faulty = true;
            let refusal = Refusal {
                line: number,
                fault,
            };
            write_refusal(name, &refusal, &mut self.said)?;
        }
        Ok(())
    }

    /// Takes what the output gave since all was taken last.
    fn gather(&mut self) -> Result<(), OutOfMemory>
        ensures { OnOk result (TakesFresh self.old self.new) }
    {
        let Some(messages) = self.player.take_messages(self.taken) else {
            return Err(OutOfMemory);
        };
        let Some(taken) = self.taken.checked_add(messages.len() as u64) else {
            return Err(OutOfMemory);
        };
        self.taken = taken;
        write_messages(&messages, &mut self.text)?;
        Ok(())
    }

    /// The player went on with a line.
    fn take_up(&mut self, name: &[u8], fault: Option<LineFault>) -> Result<(), OutOfMemory>
        ensures { OnOk result ((nodes : List Planned) (s now : Sifted) (start : Lists) (gone : Gone) → GoesAhead nodes name.now self.old s now start gone fault → FollowerAt nodes name.now self.new now start gone) }
    {
        self.note(name, fault)?;
        self.gather()
    }

    /// Takes what a cutter answered, and keeps what comes of it.
    pub(crate) fn take_step(
        &mut self,
        alloc: Global,
        nodes: &[PlanNode],
        shapes: &[Shape],
        name: &[u8],
        step: CutStep,
        line: &[u8],
    ) -> Result<(), OutOfMemory>
        requires stands { (s : Sifted) × (start : Lists) × (gone : Gone) × FollowerAt nodes.now name.now self.old s start gone }
        requires types { ShapesHaveTypes nodes.now shapes.now }
        ensures { OnOk result (FollowsLines nodes.now shapes.now name.now self.old self.new (step_answers step line.now)) }
    {
        match step {
            CutStep::NotYet => Ok(()),
            CutStep::TooLong => self.take_up(name, Some(LineFault::LineTooLong)),
            CutStep::Line => {
                let fault = self.player.take_line(alloc, nodes, shapes, line)?;
                self.take_up(name, fault)
            }
        }
    }
}
