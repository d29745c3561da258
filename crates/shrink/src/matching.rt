// Whether lines match a program.
ghost use Rattle.std.specs.Prelude.{◌≡◌, ◌<◌, ◌≤◌, ◌↔◌, ◌^◌, ◌++◌, ◌∷◌, true, IsTrue, IfOk, length, take, drop};
ghost use Rattle.asm86_line_types.specs.declared.line.Line86.{Line86};
ghost use Rattle.asm86_line_types.specs.Image.{Assembles, IsImage, image_of, statements};
ghost use Rattle.flow.specs.Solving.{Needs, AreAllNeeds};
ghost use Rattle.text_check.specs.Findings.{HasFrame};
ghost use Rattle.shrink.specs.Candidates.{is_candidate};
ghost use Rattle.shrink.specs.Shrunk.{MatchesBlocks};

use crate::apart::{is_apart, label_before};
use asm80_types::Program80;
use asm86::{Image86, image};
use asm86_line_types::{Line86, cells_are_sorted};
use block_check::{Verdict, check};
use flow::{Graph, blocks_cut_the_program};
use std::alloc::{AllocError, Global};
use text_check::{Finding, Index86, Work, lacks, validate_in};

/// Whether lines that have an image match a program block by block, with what is needed kept, by its solved graph, where they do so with a
/// candidate at a place. The block whose label stands before the place is looked at first, since it is the one that most often does not;
/// where no other comes to the place, it is the only block that is looked at.
pub fn match_without(
    alloc: Global,
    work: &mut Work,
    program: &Program80,
    graph: &Graph,
    lines: &[Line86],
    place: usize,
) -> Result<bool, AllocError>
    requires solved { IsTrue graph.now.is_solved }
    requires program { graph.now.program ≡ program.now }
    requires assembles { Assembles lines.now }
    requires few { length lines.now < 2 ^ 28 }
    requires place { place ≤ length lines.now }
    requires matched { (x : Line86) × (is_candidate x.stmt ≡ true) × ((n : Needs) → AreAllNeeds program.now n → MatchesBlocks program.now n (take place lines.now ++ x ∷ drop place lines.now)) }
    ensures { IfOk result (λ b. (n : Needs) → AreAllNeeds program.now n → IsTrue b ↔ MatchesBlocks program.now n lines.now) }
{
    let text = Index86::of(alloc, lines)?;
    match_text_without(alloc, work, program, graph, lines, &text, place)
}

// The same by the statements of the lines.
fn match_text_without(
    alloc: Global,
    work: &mut Work,
    program: &Program80,
    graph: &Graph,
    lines: &[Line86],
    text: &Index86,
    place: usize,
) -> Result<bool, AllocError>
    requires solved { IsTrue graph.now.is_solved }
    requires program { graph.now.program ≡ program.now }
    requires assembles { Assembles lines.now }
    requires few { length lines.now < 2 ^ 28 }
    requires text { text.now ≡ statements lines.now }
    requires place { place ≤ length lines.now }
    requires matched { (x : Line86) × (is_candidate x.stmt ≡ true) × ((n : Needs) → AreAllNeeds program.now n → MatchesBlocks program.now n (take place lines.now ++ x ∷ drop place lines.now)) }
    ensures { IfOk result (λ b. (n : Needs) → AreAllNeeds program.now n → IsTrue b ↔ MatchesBlocks program.now n lines.now) }
{
    blocks_cut_the_program();
    let _top = program.top();
    let Some((at, leader)) = label_before(graph, lines, place) else {
        return match_all(alloc, work, program, graph, lines, text);
    };
    if let Verdict::NotShown(_) = check(work, program, graph, text, leader) {
        return Ok(false);
    }
    if is_apart(graph, &lines[at + 1..place], &lines[place..]) {
        return has_frame(alloc, program, lines, text);
    }
    match_all(alloc, work, program, graph, lines, text)
}

// The same of any lines: all blocks are looked at.
fn match_all(
    alloc: Global,
    work: &mut Work,
    program: &Program80,
    graph: &Graph,
    lines: &[Line86],
    text: &Index86,
) -> Result<bool, AllocError>
    requires solved { IsTrue graph.now.is_solved }
    requires program { graph.now.program ≡ program.now }
    requires assembles { Assembles lines.now }
    requires few { length lines.now < 2 ^ 28 }
    requires text { text.now ≡ statements lines.now }
    ensures { IfOk result (λ b. (n : Needs) → AreAllNeeds program.now n → IsTrue b ↔ MatchesBlocks program.now n lines.now) }
{
    let image = image_of(alloc, lines)?;
    match validate_in(work, program, graph, text, &image) {
        Finding::Shown(_) => Ok(true),
        Finding::NotShown(..) => Ok(false),
    }
}

// Whether lines have the opening, the runtime and the data.
fn has_frame(
    alloc: Global,
    program: &Program80,
    lines: &[Line86],
    text: &Index86,
) -> Result<bool, AllocError>
    requires assembles { Assembles lines.now }
    requires few { length lines.now < 2 ^ 28 }
    requires text { text.now ≡ statements lines.now }
    ensures { IfOk result (λ b. IsTrue b ↔ HasFrame program.now (statements lines.now) (image_of lines.now)) }
{
    cells_are_sorted();
    let image = image_of(alloc, lines)?;
    Ok(lacks(program, text.statements(), &image).is_none())
}

// The image of lines that have one, so that memory alone can be wanting.
fn image_of(alloc: Global, lines: &[Line86]) -> Result<Image86, AllocError>
    requires assembles { Assembles lines.now }
    requires few { length lines.now < 2 ^ 28 }
    ensures { IfOk result (IsImage lines.now) }
{
    match image(alloc, lines) {
        Ok(image) => Ok(image),
        Err(_) => Err(AllocError),
    }
}
