// Where the search begins.

ghost use Rattle.std.specs.Prelude.{◌≡◌, ◌<◌, ◌≤◌, ℕ, length, slice_index, IfOk};
ghost use Rattle.std.specs.Vec.{vec_capacity};
ghost use Rattle.flow.specs.Begin.{first_vertices};

use crate::search::Vertex;
use asm80_types::{Placed, Program80};
use cells::Keep;
use std::alloc::{AllocError, Global};

/// The nodes of a program, by their numbers: each needs what it uses, and waits.
pub fn vertices_of(alloc: Global, program: &Program80) -> Result<Vec<Vertex>, AllocError>
    ensures { IfOk result (λ v. v.items ≡ first_vertices program.now) }
{
    let instrs = program.instrs();
    let mut vertices = Vec::with_capacity(alloc, instrs.len() + 1)?;
    for placed in instrs {
        vertices.push_reserved(Vertex {
            defines: i80::defs(placed.instr),
            need: i80::uses(placed.instr),
            waits: true,
        });
    }
    vertices.push_reserved(Vertex {
        defines: Keep::none(),
        need: Keep::none(),
        waits: true,
    });
    Ok(vertices)
}

/// The work list of so many nodes, with room for all of them.
pub fn numbers(alloc: Global, count: usize) -> Result<Vec<usize>, AllocError>
    ensures count { IfOk result (λ v. length v.items ≡ count) }
    ensures each { IfOk result (λ v. (k : ℕ) → k < count → slice_index v.items k ≡ k) }
    ensures room { IfOk result (λ v. count ≤ vec_capacity v) }
{
    let mut work = Vec::with_capacity(alloc, count)?;
    for number in 0..count {
        work.push_reserved(number);
    }
    Ok(work)
}
