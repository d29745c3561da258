// The blocks of a program, one after the other.
ghost use Rattle.std.specs.Prelude.{◌≡◌, ◌+◌, ◌*◌, ◌^◌, ◌<◌, ◌≤◌, ◌++◌, length, false, All, IsTrue, OnOk};
ghost use Rattle.flow.specs.Blocks.{cut_from};
ghost use Rattle.flow.specs.Cut.{EndsInMemory};
ghost use Rattle.flow.specs.Solving.{Needs, AreAllNeeds};
ghost use Rattle.templates.specs.Style.{block_from, block_in_style, blocks_of};
ghost use Rattle.templates.specs.Jumps.{style_by};

use crate::Text;
use crate::places::Jumps;
use crate::rules::{is_pair, knows_function};
use crate::written::{Context, put_written};
use asm80_types::{Placed, Program80};
use asm86_line_types::{Label, Stmt86};
use flow::{Graph, blocks_cut_the_program};
use std::alloc::AllocError;

// The instructions of a block: 12 statements each at most.
fn put_instrs(
    text: &mut Text,
    graph: &Graph,
    jumps: &Jumps,
    block: &[Placed],
) -> Result<(), AllocError>
    requires room { length text.old + 12 * length block.now < 2 ^ 20 }
    requires solved { IsTrue graph.now.is_solved }
    requires whole { All EndsInMemory block.now }
    ensures value { (n : Needs) → AreAllNeeds graph.now.program n → OnOk result (text.new ≡ text.old ++ block_from (style_by n jumps.now) false false block.now) }
    ensures most { OnOk result (length text.new ≤ length text.old + 12 * length block.now) }
{
    let mut first = false;
    let mut known = false;
    let mut rest = block;
    while let Some((placed, after)) = rest.split_first() {
        let last = is_pair(graph, placed, after);
        put_written(text, graph, jumps, Context { first, last, known }, placed)?;
        first = last;
        known = knows_function(known, placed.instr);
        rest = after;
    }
    Ok(())
}

// A block, with the label of its first instruction.
fn put_block(
    text: &mut Text,
    graph: &Graph,
    jumps: &Jumps,
    block: &[Placed],
) -> Result<(), AllocError>
    requires room { length text.old + 13 * length block.now < 2 ^ 20 }
    requires solved { IsTrue graph.now.is_solved }
    requires whole { All EndsInMemory block.now }
    ensures value { (n : Needs) → AreAllNeeds graph.now.program n → OnOk result (text.new ≡ text.old ++ block_in_style (style_by n jumps.now) block.now) }
    ensures most { OnOk result (length text.new ≤ length text.old + 13 * length block.now) }
{
    match block.split_first() {
        Some((placed, _)) => {
            text.push(Stmt86::Mark(Label::At(placed.at)))?;
            put_instrs(text, graph, jumps, block)
        }
        None => Ok(()),
    }
}

/// All blocks of a program.
pub fn put_blocks(
    text: &mut Text,
    program: &Program80,
    graph: &Graph,
    jumps: &Jumps,
) -> Result<(), AllocError>
    requires room { length text.old < 2 ^ 16 }
    requires program { graph.now.program ≡ program.now }
    requires solved { IsTrue graph.now.is_solved }
    ensures value { (n : Needs) → AreAllNeeds program.now n → OnOk result (text.new ≡ text.old ++ blocks_of (style_by n jumps.now) (cut_from program.now 0 program.now.instrs)) }
    ensures most { OnOk result (length text.new ≤ length text.old + 13 * 65022) }
{
    blocks_cut_the_program();
    let mut rest = program.instrs();
    for leader in graph.leaders() {
        let count = graph.block(*leader).unwrap_or(0) as usize;
        let (block, after) = rest.split_at(count);
        put_block(text, graph, jumps, block)?;
        rest = after;
    }
    Ok(())
}
