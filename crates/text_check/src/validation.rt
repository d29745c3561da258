// The validation of a text.

ghost use Rattle.std.specs.Prelude.{◌≡◌, ◌<◌, List, IsTrue, IfNone, MatchOption};
ghost use Rattle.std.specs.List.Sorted.{IsStrictlyIncreasing};
ghost use Rattle.std.specs.Map.{keys_of};
ghost use Rattle.asm86_line_types.specs.declared.line.Line86.{Line86};
ghost use Rattle.flow.specs.Blocks.{blocks};
ghost use Rattle.flow.specs.Solving.{Needs, AreAllNeeds};
ghost use Rattle.simulation_def.specs.Matches.{blocks_reason};
ghost use Rattle.simulation_def.specs.Needed.{needed_by};
ghost use Rattle.text_check.specs.Findings.{reason_in, CountsBlocks, IsFinding, AreOfLines, HasFrame, Lacks, HoldsLast, IfShown};

use crate::data::data_stand;
use crate::finding::Finding;
use crate::frame::{has_opening, has_runtime};
use asm80_types::Program80;
use asm86::Image86;
use asm86_line_types::{Stmt86, cells_are_sorted};
use block_check::{Index86, Reason, Verdict, Work, check};
use flow::{Graph, blocks_cut_the_program};

/// What is found of a text, looked at in the order of the opening, the runtime, the data, and the blocks, ascending, by the solved
/// graph of its program. The text and the image are of the same lines. It takes no memory; after `Shown` the work is as the check of the
/// last block leaves it.
pub fn validate_in(
    work: &mut Work,
    program: &Program80,
    graph: &Graph,
    text: &Index86,
    image: &Image86,
) -> Finding
    requires solved { IsTrue graph.now.is_solved }
    requires program { graph.now.program ≡ program.now }
    requires lines { (lines : List Line86) × AreOfLines text.now image.now lines }
    ensures finding { (lines : List Line86) → AreOfLines text.now image.now lines → IsFinding program.now lines result }
    ensures work { IfShown result (HoldsLast program.now text.now work.new) }
{
    graph.needs_are_sets();
    cells_are_sorted();
    match lacks(program, text.statements(), image) {
        Some(reason) => Finding::NotShown(0, reason),
        None => finding_of(program, graph, first_not_shown(work, program, graph, text)),
    }
}

/// The first that a text lacks of what is looked at before the blocks: the opening, the runtime and the data.
pub fn lacks(program: &Program80, text: &[Stmt86], image: &Image86) -> Option<Reason>
    requires { IsStrictlyIncreasing (keys_of image.now.cells) }
    ensures { MatchOption result (HasFrame program.now text.now image.now) (Lacks program.now text.now image.now) }
{
    if !has_opening(program, text) {
        return Some(Reason::Opening);
    }
    if !has_runtime(text) {
        return Some(Reason::Runtime);
    }
    if !data_stand(program, image) {
        return Some(Reason::DataPart);
    }
    None
}

// The first block that is not shown, and the reason.
fn first_not_shown(
    work: &mut Work,
    program: &Program80,
    graph: &Graph,
    text: &Index86,
) -> Option<(u16, Reason)>
    requires solved { IsTrue graph.now.is_solved }
    requires program { graph.now.program ≡ program.now }
    ensures reason { (n : Needs) → AreAllNeeds program.now n → result ≡ blocks_reason program.now text.now (needed_by program.now n) (blocks program.now) }
    ensures work { IfNone result (HoldsLast program.now text.now work.new) }
{
    blocks_cut_the_program();
    let _top = program.top();
    for leader in graph.leaders() {
        if let Verdict::NotShown(reason) = check(work, program, graph, text, *leader) {
            return Some((*leader, reason));
        }
    }
    None
}

/// The finding where the blocks are all that is left to be looked at, and this is the first of them that is not shown.
pub fn finding_of(program: &Program80, graph: &Graph, found: Option<(u16, Reason)>) -> Finding
    requires { graph.now.program ≡ program.now }
    ensures reason { reason_in result ≡ found }
    ensures counts { CountsBlocks program.now result }
{
    let _instrs = program.instrs();
    match found {
        Some((leader, reason)) => Finding::NotShown(leader, reason),
        None => Finding::Shown(graph.leaders().len() as u32),
    }
}
