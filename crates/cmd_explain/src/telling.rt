// What is found of a text, and what is said of it before the last line.

ghost use Rattle.std.specs.Prelude.{◌≡◌, ◌<◌, ◌^◌, ◌++◌, ℕ, List, IsTrue, Some, length, IfOk, OnOk};
ghost use Rattle.std.specs.List.Sorted.{IsStrictlyIncreasing};
ghost use Rattle.std.specs.Map.{keys_of};
ghost use Rattle.asm86_line_types.specs.declared.line.Line86.{Line86};
ghost use Rattle.asm86_line_types.specs.Image.{IsImage, image_of, statements};
ghost use Rattle.flow.specs.Blocks.{IsLeader, blocks, block_at};
ghost use Rattle.flow.specs.Solving.{Needs, AreAllNeeds};
ghost use Rattle.sym_block_def.specs.BlockMatch.{block_reason};
ghost use Rattle.simulation_def.specs.Matches.{blocks_reason};
ghost use Rattle.simulation_def.specs.Needed.{needed_by};
ghost use Rattle.xlt_core.specs.Names.{Same, IsFinding, IfShown};
ghost use Rattle.cmd_explain.specs.Explained.{ToldIfAny, BlocksTold, Explained};
ghost use Rattle.cmd_explain.specs.Telling.{Tells, first_of};

use crate::block::{Sides, tell_block};
use crate::frame::tell_frame;
use asm80_types::Program80;
use asm86::Image86;
use asm86_line_types::{Line86, cells_are_sorted};
use block_explain::explain_block;
use cmd_common::LoadedText;
use flow::{Graph, blocks_cut_the_program};
use std::alloc::{AllocError, Global};
use sym_block_def::Reason;
use sym_run::Work;
use text_check::{Finding, Index86, finding_of, lacks, lines_are_coded};
use xlt_core::shown_is_same;

/// What is found of a text, and the lines that say why it is not shown, if it is not.
#[derive(Drop)]
pub struct Explanation {
    pub finding: Finding,
    pub text: Vec<u8>,
}

/// What is found of a loaded text beside a program, and why.
pub fn explain_text(
    alloc: Global,
    program: &Program80,
    text: &LoadedText,
) -> Result<Explanation, AllocError>
    requires image { IsImage text.now.lines.items text.now.image }
    requires few { length text.now.lines.items < 2 ^ 28 }
    ensures finding { IfOk result (λ e. IsFinding program.now text.now.lines.items e.finding) }
    ensures same { IfOk result (λ e. IfShown e.finding (Same program.now (image_of text.now.lines.items))) }
    ensures explained { IfOk result (λ e. Explained program.now text.now.lines.items (image_of text.now.lines.items) e.text.items) }
{
    shown_is_same();
    lines_are_coded(text.lines.as_slice());
    let _top = program.top();
    explain_lines(alloc, program, text.lines.as_slice(), &text.image)
}

// The same of lines with their image.
fn explain_lines(
    alloc: Global,
    program: &Program80,
    lines: &[Line86],
    image: &Image86,
) -> Result<Explanation, AllocError>
    requires made { IsImage lines.now image.now }
    ensures finding { IfOk result (λ e. IsFinding program.now lines.now e.finding) }
    ensures explained { IfOk result (λ e. Explained program.now lines.now image.now e.text.items) }
{
    let graph = Graph::solved(alloc, program)?;
    explain_by_graph(alloc, program, &graph, lines, image)
}

// The same with the graph of the program.
fn explain_by_graph(
    alloc: Global,
    program: &Program80,
    graph: &Graph,
    lines: &[Line86],
    image: &Image86,
) -> Result<Explanation, AllocError>
    requires solved { IsTrue graph.now.is_solved }
    requires program { graph.now.program ≡ program.now }
    requires made { IsImage lines.now image.now }
    ensures finding { IfOk result (λ e. IsFinding program.now lines.now e.finding) }
    ensures explained { IfOk result (λ e. Explained program.now lines.now image.now e.text.items) }
{
    let text = Index86::of(alloc, lines)?;
    let sides = Sides {
        program,
        graph,
        lines,
        text: &text,
    };
    explain_sides(alloc, &sides, image)
}

// The same with the index of the lines too.
fn explain_sides(
    alloc: Global,
    sides: &Sides<'_>,
    image: &Image86,
) -> Result<Explanation, AllocError>
    requires solved { IsTrue sides.now.graph.now.is_solved }
    requires program { sides.now.graph.now.program ≡ sides.now.program.now }
    requires text { sides.now.text.now ≡ statements sides.now.lines.now }
    requires made { IsImage sides.now.lines.now image.now }
    ensures finding { IfOk result (λ e. IsFinding sides.now.program.now sides.now.lines.now e.finding) }
    ensures explained { IfOk result (λ e. Explained sides.now.program.now sides.now.lines.now image.now e.text.items) }
{
    cells_are_sorted();
    sides.graph.needs_are_sets();
    let mut told = Vec::new(alloc);
    let finding = match lacks(sides.program, sides.text.statements(), image) {
        Some(reason) => {
            tell_frame(alloc, &mut told, sides.program, sides.lines, image, reason)?;
            Finding::NotShown(0, reason)
        }
        None => {
            let first = tell_blocks(alloc, &mut told, sides)?;
            finding_of(sides.program, sides.graph, first)
        }
    };
    Ok(Explanation {
        finding,
        text: told,
    })
}

// The first block that does not match, with its reason; and what is said of all that do not.
fn tell_blocks(
    alloc: Global,
    told: &mut Vec<u8>,
    sides: &Sides<'_>,
) -> Result<Option<(u16, Reason)>, AllocError>
    requires solved { IsTrue sides.now.graph.now.is_solved }
    requires program { sides.now.graph.now.program ≡ sides.now.program.now }
    requires text { sides.now.text.now ≡ statements sides.now.lines.now }
    ensures reason { IfOk result (λ first. (n : Needs) → AreAllNeeds sides.now.program.now n
        → first ≡ blocks_reason sides.now.program.now (statements sides.now.lines.now) (needed_by sides.now.program.now n) (blocks sides.now.program.now)) }
    ensures told { OnOk result ((n : Needs) → AreAllNeeds sides.now.program.now n
        → Tells (BlocksTold sides.now.program.now sides.now.lines.now (needed_by sides.now.program.now n) (blocks sides.now.program.now)) told.old.items told.new.items) }
{
    let mut work = Work::new(alloc)?;
    tell_each(alloc, &mut work, told, sides)
}

// The same over the memory of one run after the other.
fn tell_each(
    alloc: Global,
    work: &mut Work,
    told: &mut Vec<u8>,
    sides: &Sides<'_>,
) -> Result<Option<(u16, Reason)>, AllocError>
    requires solved { IsTrue sides.now.graph.now.is_solved }
    requires program { sides.now.graph.now.program ≡ sides.now.program.now }
    requires text { sides.now.text.now ≡ statements sides.now.lines.now }
    ensures reason { IfOk result (λ first. (n : Needs) → AreAllNeeds sides.now.program.now n
        → first ≡ blocks_reason sides.now.program.now (statements sides.now.lines.now) (needed_by sides.now.program.now n) (blocks sides.now.program.now)) }
    ensures told { OnOk result ((n : Needs) → AreAllNeeds sides.now.program.now n
        → Tells (BlocksTold sides.now.program.now sides.now.lines.now (needed_by sides.now.program.now n) (blocks sides.now.program.now)) told.old.items told.new.items) }
{
    blocks_cut_the_program();
    let _top = sides.program.top();
    let mut first = None;
    for leader in sides.graph.leaders() {
        let reason = tell_next(alloc, work, told, sides, *leader)?;
        first = first_of(first, *leader, reason);
    }
    Ok(first)
}

fn first_of(
    first: Option<(u16, Reason)>,
    leader: u16,
    reason: Option<Reason>,
) -> Option<(u16, Reason)>
    ensures { result ≡ first_of first leader reason }
{
    match (first, reason) {
        (Some(first), _) => Some(first),
        (None, Some(reason)) => Some((leader, reason)),
        (None, None) => None,
    }
}

// The reason why a block does not match, if it does not; and what is said of it.
fn tell_next(
    alloc: Global,
    work: &mut Work,
    told: &mut Vec<u8>,
    sides: &Sides<'_>,
    leader: u16,
) -> Result<Option<Reason>, AllocError>
    requires solved { IsTrue sides.now.graph.now.is_solved }
    requires program { sides.now.graph.now.program ≡ sides.now.program.now }
    requires text { sides.now.text.now ≡ statements sides.now.lines.now }
    requires leader { IsLeader sides.now.program.now leader }
    ensures reason { IfOk result (λ reason. (n : Needs) (count : ℕ) → AreAllNeeds sides.now.program.now n → block_at sides.now.program.now leader ≡ Some count
        → reason ≡ block_reason sides.now.program.now (statements sides.now.lines.now) (needed_by sides.now.program.now n) leader count) }
    ensures told { IfOk result (λ reason. (n : Needs) (count : ℕ) → AreAllNeeds sides.now.program.now n → block_at sides.now.program.now leader ≡ Some count
        → Tells (ToldIfAny sides.now.program.now sides.now.lines.now (needed_by sides.now.program.now n) leader count reason) told.old.items told.new.items) }
{
    blocks_cut_the_program();
    let _top = sides.program.top();
    let count = sides.graph.block(leader).unwrap_or(0);
    match explain_block(alloc, work, sides.program, sides.graph, sides.text, leader)? {
        None => Ok(None),
        Some(said) => {
            tell_block(alloc, told, sides, leader, count, &said)?;
            Ok(Some(said.reason))
        }
    }
}
