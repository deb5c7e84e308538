ghost use Rattle.std.specs.Prelude.{ℕ, ◌≡◌, [], List, length, map, replicate};
ghost use Rattle.cedr_plan.specs.declared.plan.PlanNode.{PlanNode};
ghost use Rattle.cedr_net.specs.declared.net.SerialNet.{SerialNet};
ghost use Rattle.cedr_net.specs.Flows.{no_ports};
ghost use Rattle.cedr_net.specs.Networks.{NetStands};
ghost use Rattle.plan_answer.specs.declared.faulty.FaultySource.{FaultySource};
ghost use Rattle.plan_answer.specs.Sources.{AreRead};
ghost use Rattle.plan_serial.specs.Rounds.{ByLine, entries_at, all_messages};
ghost use Rattle.plan_serial.specs.Feeding.{AreSources, StandsAfterRounds, IsSettledAt, IsWholeRun};
ghost use Rattle.plan_serial.specs.Sources.{AreReadByLine};

/// The law of sources that are fed: no round has been where nothing was given yet. Where no line is left and nothing
/// waits, the lists are a run of the plan over the whole sources, which came in rounds.
pub fn fed_sources()
    ensures begins { (nodes : List PlanNode) (net : SerialNet) (whole : ByLine) → NetStands nodes net (map no_ports nodes) (replicate (length nodes) []) → AreSources nodes whole → StandsAfterRounds nodes net whole whole 0 }
    ensures ends { (nodes : List PlanNode) (net : SerialNet) (left whole : ByLine) (rounds : ℕ) → StandsAfterRounds nodes net left whole rounds → IsSettledAt nodes net → ((k : ℕ) → entries_at left k ≡ []) → IsWholeRun nodes net whole }
{}

/// The law of what was read: what was read line by line are the messages of the sources.
pub fn lines_read()
    ensures { (told : List ℕ → List ℕ) (nodes : List PlanNode) (lines : ByLine) (faulty : List FaultySource) → AreReadByLine told nodes lines faulty → AreRead told nodes (all_messages lines) faulty }
{}
