// The search for the needs, backwards along the edges.

ghost use Rattle.std.specs.Prelude.{◌≡◌, ◌+◌, ◌<◌, ◌≤◌, ◌&&◌, ◌||◌, ℕ, [], ◌∷◌, ◌++◌, All, length};
ghost use Rattle.std.specs.List.{Contains, sum_by};
ghost use Rattle.std.specs.Vec.{vec_capacity};
ghost use Rattle.cells.specs.declared.Part.{Part};
ghost use Rattle.cells.specs.Parts.{has, only};
ghost use Rattle.flow.specs.Rounds.{IsRound};
ghost use Rattle.flow.specs.Search.{is_left, IsQueue, IsVisited, IsSpread, credit, visits_left, row};

use crate::sources::Sources;
use base::Steps;
use cells::{Keep, Part};
use std::sync::ledger::Ledger;

/// What is known of a node: the parts that it defines, those that are found needed at it, and whether it waits on the work list.
#[derive(Clone, Copy)]
pub struct Vertex {
    pub defines: Keep,
    pub need: Keep,
    pub waits: bool,
}

// Adds a part if it is in the one set and not in the other.
fn with_left(left: Keep, part: Part, keep: Keep, other: Keep) -> Keep
    ensures { (x : Part) → has result x ≡ (has left x || (has (only part) x && is_left keep other x)) }
{
    if keep.has(part) && !other.has(part) {
        left.with(part)
    } else {
        left
    }
}

/// The parts of a set that are not in another.
pub fn without(keep: Keep, other: Keep) -> Keep
    ensures { (x : Part) → has result x ≡ is_left keep other x }
{
    let mut left = Keep::none();
    for part in Part::ALL {
        left = with_left(left, part, keep, other);
    }
    left
}

// One visit of an edge: what is needed at its end and not defined at its beginning is needed there.
fn visit<L: Ledger>(
    vertices: &mut [Vertex],
    work: &mut Vec<usize>,
    from: usize,
    passed: Keep,
    steps: &mut Steps<L>,
)
    requires within { from < length vertices.old }
    requires queue { IsQueue vertices.old work.old.items (vec_capacity work.old) }
    ensures queue { IsQueue vertices.new work.new.items (vec_capacity work.new) }
    ensures visited { IsVisited vertices.old from passed vertices.new }
    ensures step { steps.new ≡ steps.old + 1 }
{
    steps.tick();
    let vertex = vertices[from];
    let need = vertex.need.join(without(passed, vertex.defines));
    if need == vertex.need {
        return;
    }
    vertices[from] = Vertex {
        need,
        waits: true,
        ..vertex
    };
    if !vertex.waits {
        work.push_reserved(from);
    }
}

// Visits each edge to a node.
fn spread<L: Ledger>(
    sources: &[usize],
    vertices: &mut [Vertex],
    work: &mut Vec<usize>,
    passed: Keep,
    steps: &mut Steps<L>,
)
    requires within { All (λ k. k < length vertices.old) sources.now }
    requires queue { IsQueue vertices.old work.old.items (vec_capacity work.old) }
    ensures queue { IsQueue vertices.new work.new.items (vec_capacity work.new) }
    ensures spread { IsSpread sources.now passed vertices.old vertices.new }
    ensures step { steps.new ≡ steps.old + length sources.now }
{
    for from in sources {
        visit(vertices, work, *from, passed, steps);
    }
}

// Visits the edges to a node that was the last of the work list.
fn take_up<L: Ledger>(
    sources: &Sources,
    vertices: &mut [Vertex],
    work: &mut Vec<usize>,
    at: usize,
    steps: &mut Steps<L>,
)
    requires sized { length sources.now ≡ length vertices.old }
    requires within { (j k : ℕ) → Contains (row sources.now k) j → j < length vertices.old }
    requires queue { IsQueue vertices.old (work.old.items ++ at ∷ []) (vec_capacity work.old) }
    ensures queue { IsQueue vertices.new work.new.items (vec_capacity work.new) }
    ensures round { IsRound sources.now vertices.old vertices.new }
    ensures fewer { sum_by credit vertices.new < sum_by credit vertices.old }
    ensures cost { steps.new + visits_left sources.now vertices.new ≤ steps.old + visits_left sources.now vertices.old }
{
    let vertex = vertices[at];
    vertices[at] = Vertex {
        waits: false,
        ..vertex
    };
    spread(sources.of(at), vertices, work, vertex.need, steps);
}

/// Visits edges until no node waits.
pub fn run<L: Ledger>(
    sources: &Sources,
    vertices: &mut [Vertex],
    work: &mut Vec<usize>,
    steps: &mut Steps<L>,
)
    requires sized { length sources.now ≡ length vertices.old }
    requires within { (j k : ℕ) → Contains (row sources.now k) j → j < length vertices.old }
    requires queue { IsQueue vertices.old work.old.items (vec_capacity work.old) }
    ensures done { work.new.items ≡ [] }
    ensures queue { IsQueue vertices.new work.new.items (vec_capacity work.new) }
    ensures round { IsRound sources.now vertices.old vertices.new }
    ensures cost { steps.new + visits_left sources.now vertices.new ≤ steps.old + visits_left sources.now vertices.old }
{
    while let Some(at) = work.pop() {
        take_up(sources, vertices, work, at, steps);
    }
}
