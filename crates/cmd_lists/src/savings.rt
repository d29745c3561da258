// The instructions that may have to save flags, with the flags that each of them has to save.
ghost use Rattle.std.specs.Prelude.{◌≡◌, IfOk, IsTrue, count_by};
ghost use Rattle.cmd_lists.specs.Saves.{sums, AreSavings, saves_any};

use asm80_types::Program80;
use cells::{Keep, Part};
use flow::{Graph, is_word_sum, saves};
use std::alloc::{AllocError, Global};

/// An INX, DCX or DAD: its address, its line in the source, and those of S Z AC P that it has to save.
#[derive(Clone, Copy)]
pub struct Saving {
    pub at: u16,
    pub line: u32,
    pub keep: Keep,
}

/// Those of a program, in ascending order.
pub fn savings_of(alloc: Global, program: &Program80) -> Result<Vec<Saving>, AllocError>
    ensures { IfOk result (λ savings. AreSavings program.now (sums program.now) savings.items) }
{
    let graph = Graph::solved(alloc, program)?;
    savings_by(alloc, program, &graph)
}

// Those that the graph of the program tells.
fn savings_by(alloc: Global, program: &Program80, graph: &Graph) -> Result<Vec<Saving>, AllocError>
    requires solved { IsTrue graph.now.is_solved }
    requires program { graph.now.program ≡ program.now }
    ensures { IfOk result (λ savings. AreSavings program.now (sums program.now) savings.items) }
{
    let mut savings = Vec::new(alloc);
    for placed in program.instrs() {
        // Only for a sum of words is its address looked for.
        if !is_word_sum(placed.instr) {
            continue;
        }
        if let Some(keep) = saves(program, graph, placed.at) {
            savings.push(Saving {
                at: placed.at,
                line: placed.line,
                keep,
            })?;
        }
    }
    Ok(savings)
}

/// How many of them have a flag to save.
pub fn saved_among(savings: &[Saving]) -> usize
    ensures { result ≡ count_by (λ s. saves_any s.keep) savings.now }
{
    let mut count = 0;
    for saving in savings {
        if saves_any(saving.keep) {
            count += 1;
        }
    }
    count
}

/// Whether a flag has to be saved.
pub fn saves_any(keep: Keep) -> bool
    ensures { result ≡ saves_any keep }
{
    keep.has(Part::S) || keep.has(Part::Z) || keep.has(Part::Ac) || keep.has(Part::P)
}
