ghost use Rattle.std.specs.Prelude.{◌≡◌, List, [], ◌∷◌, ◌++◌, length, map};
ghost use Rattle.cedr_base.specs.declared.change.Message.{Message};
ghost use Rattle.cedr_edge.specs.Ends.{Carried, InEnd, OutEnd, taken_of};
ghost use Rattle.node_laws.specs.Lists.{Lists};
ghost use Rattle.cedr_plan.specs.declared.plan.PlanNode.{PlanNode};
ghost use Rattle.plan_runs.specs.Runs.{IsNodeRun, IsRun, lists_at};
ghost use Rattle.node_laws.specs.Lists.{list_at};
ghost use Rattle.plan_edges.specs.Wires.{AreClosed, AreSent, AreWired, carried, ports_of};

/// The law of a plan's closed edges. What went over them is, port by port, what was taken in the end. Where each node
/// owes what it gave for what its ports took, and gave it over each edge that comes from it, that is a run of the plan.
pub fn closed_edges()
    ensures ports { (nodes : List PlanNode) (takers : List (List InEnd)) (putters : List (List OutEnd)) (edges : List Carried) → AreWired nodes takers putters → AreClosed nodes takers putters edges → ports_of nodes (carried edges) ≡ map (map taken_of) takers }
    ensures runs { (nodes : List PlanNode) (takers : List (List InEnd)) (putters : List (List OutEnd)) (edges : List Carried) (sources given : Lists) → AreClosed nodes takers putters edges → AreSent given putters
        → ((before after : List PlanNode) (n : PlanNode) → nodes ≡ before ++ n ∷ after → IsNodeRun sources before n (lists_at (ports_of nodes (carried edges)) (length before)) (list_at given (length before)))
        → IsRun nodes sources (ports_of nodes (carried edges)) given }
{}
