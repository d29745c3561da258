// The shrinker.
ghost use Rattle.std.specs.Prelude.{◌≡◌, ◌<◌, ◌≤◌, ◌↔◌, ◌∷◌, ◌++◌, ℕ, List, true, IsTrue, IfOk, length};
ghost use Rattle.asm86_line_types.specs.declared.line.Line86.{Line86};
ghost use Rattle.asm86_line_types.specs.Image.{Assembles};
ghost use Rattle.text_check.specs.declared.finding.Finding.TheVariants.{Shown};
ghost use Rattle.text_check.specs.Findings.{IsFinding};
ghost use Rattle.flow.specs.Solving.{Needs, AreAllNeeds};
ghost use Rattle.shrink.specs.Candidates.{is_candidate};
ghost use Rattle.shrink.specs.Shrunk.{MatchesBlocks, IsShrunk};

use crate::candidate::is_candidate;
use crate::matching::match_without;
use asm80_types::Program80;
use asm86_line_types::Line86;
use flow::Graph;
use std::alloc::{AllocError, Global};
use text_check::Work;

/// The most statements that a text may have to be shrunk.
pub const MOST_STATEMENTS: usize = 2_048;

/// What is left of lines that have an image and are shown for a program, of which there are at most 2,048: from the last to the first, each
/// candidate is left out where the list without it still matches.
pub fn shrink(
    alloc: Global,
    program: &Program80,
    lines: &[Line86],
) -> Result<Vec<Line86>, AllocError>
    requires assembles { Assembles lines.now }
    requires few { length lines.now ≤ 2048 }
    requires shown { (blocks : ℕ) × IsFinding program.now lines.now (Shown blocks) }
    ensures { IfOk result (λ left. IsShrunk program.now lines.now left.items) }
{
    let graph = Graph::solved(alloc, program)?;
    shrink_by(alloc, program, &graph, lines)
}

// The same by the program's solved graph.
fn shrink_by(
    alloc: Global,
    program: &Program80,
    graph: &Graph,
    lines: &[Line86],
) -> Result<Vec<Line86>, AllocError>
    requires solved { IsTrue graph.now.is_solved }
    requires program { graph.now.program ≡ program.now }
    requires assembles { Assembles lines.now }
    requires few { length lines.now ≤ 2048 }
    requires matches { (n : Needs) → AreAllNeeds program.now n → MatchesBlocks program.now n lines.now }
    ensures { IfOk result (λ left. IsShrunk program.now lines.now left.items) }
{
    let mut work = Work::new(alloc)?;
    shrink_backwards(alloc, &mut work, program, graph, lines)
}

// The same, from the last line to the first.
fn shrink_backwards(
    alloc: Global,
    work: &mut Work,
    program: &Program80,
    graph: &Graph,
    lines: &[Line86],
) -> Result<Vec<Line86>, AllocError>
    requires solved { IsTrue graph.now.is_solved }
    requires program { graph.now.program ≡ program.now }
    requires assembles { Assembles lines.now }
    requires few { length lines.now ≤ 2048 }
    requires matches { (n : Needs) → AreAllNeeds program.now n → MatchesBlocks program.now n lines.now }
    ensures { IfOk result (λ left. IsShrunk program.now lines.now left.items) }
{
    graph.needs_are_sets();
    let mut left = Vec::from_slice(alloc, lines)?;
    let mut at = lines.len();
    while at > 0 {
        at -= 1;
        if may_go(alloc, work, program, graph, left.as_slice(), at)? {
            left.remove(at);
        }
    }
    Ok(left)
}

// Whether the line at a place is a candidate, and the lines without it match the program.
fn may_go(
    alloc: Global,
    work: &mut Work,
    program: &Program80,
    graph: &Graph,
    lines: &[Line86],
    at: usize,
) -> Result<bool, AllocError>
    requires solved { IsTrue graph.now.is_solved }
    requires program { graph.now.program ≡ program.now }
    requires assembles { Assembles lines.now }
    requires few { length lines.now ≤ 2048 }
    requires matches { (n : Needs) → AreAllNeeds program.now n → MatchesBlocks program.now n lines.now }
    requires within { at < length lines.now }
    ensures { IfOk result (λ b. (n : Needs) (before after : List Line86) (x : Line86) → AreAllNeeds program.now n → lines.now ≡ before ++ x ∷ after → length before ≡ at → IsTrue b ↔ ((is_candidate x.stmt ≡ true) × MatchesBlocks program.now n (before ++ after))) }
{
    if !is_candidate(lines[at].stmt) {
        return Ok(false);
    }
    let mut less = Vec::from_slice(alloc, lines)?;
    less.remove(at);
    match_without(alloc, work, program, graph, less.as_slice(), at)
}
