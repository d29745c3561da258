// How many steps a small graph takes.
ghost use Rattle.std.specs.Prelude.{◌≡◌, ◌+◌, ◌≤◌};
ghost use Rattle.flow.specs.Graph.{edge_count};

use base::Steps;
use flow::Graph;
use std::sync::ledger::Ledger;

/// A graph of six edges is solved in at most 78 steps, which the proof of this function shows.
pub fn solve_six_edges<L: Ledger>(graph: &mut Graph, steps: &mut Steps<L>)
    requires { edge_count graph.old.program ≡ 6 }
    ensures { steps.new ≤ steps.old + 78 }
{
    graph.solve(steps);
}
