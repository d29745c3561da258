// The places of a program.
ghost use Rattle.std.specs.Prelude.{◌≡◌, IfOk};
ghost use Rattle.profile_leaving.specs.Leaving.{leaving};

use crate::block::place_of;
use crate::departure::Departure;
use asm80_types::Program80;
use flow::{Graph, blocks_cut_the_program};
use std::alloc::{AllocError, Global};
use sym_run::Work;

/// The places of a program at which a run leaves the profile, ascending. All memory that it takes is for the graph, the work and the list.
pub fn leaving(alloc: Global, program: &Program80) -> Result<Vec<Departure>, AllocError>
    ensures { IfOk result (λ places. places.items ≡ leaving program.now) }
{
    let graph = Graph::of(alloc, program)?;
    leaving_by(alloc, program, &graph)
}

// The same, by the blocks of the program.
fn leaving_by(
    alloc: Global,
    program: &Program80,
    graph: &Graph,
) -> Result<Vec<Departure>, AllocError>
    requires { graph.now.program ≡ program.now }
    ensures { IfOk result (λ places. places.items ≡ leaving program.now) }
{
    let mut work = Work::new(alloc)?;
    leaving_of_blocks(alloc, &mut work, program, graph)
}

// The same, block by block.
fn leaving_of_blocks(
    alloc: Global,
    work: &mut Work,
    program: &Program80,
    graph: &Graph,
) -> Result<Vec<Departure>, AllocError>
    requires { graph.now.program ≡ program.now }
    ensures { IfOk result (λ places. places.items ≡ leaving program.now) }
{
    blocks_cut_the_program();
    let _top = program.top();
    let mut places = Vec::new(alloc);
    for leader in graph.leaders() {
        let count = graph.block(*leader).unwrap_or(0);
        if let Some(place) = place_of(work, program, *leader, count) {
            places.push(place)?;
        }
    }
    Ok(places)
}
