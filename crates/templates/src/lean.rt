// The lean text of a program.
ghost use Rattle.std.specs.Prelude.{◌≡◌, ◌^◌, ◌<◌, vec_len, IsTrue, IfOk};
ghost use Rattle.flow.specs.Solving.{Needs, AreAllNeeds};
ghost use Rattle.templates.specs.Style.{styled};
ghost use Rattle.templates.specs.Lean.{IsLean};
ghost use Rattle.templates.specs.Jumps.{style_by};

use crate::blocks::put_blocks;
use crate::places::{Jumps, Places};
use crate::plain::{begun, put_end};
use asm80_types::Program80;
use asm86_line_types::Line86;
use flow::Graph;
use std::alloc::{AllocError, Global};

// The text of a program with such conditional jumps short.
fn text_by(
    alloc: Global,
    program: &Program80,
    graph: &Graph,
    jumps: &Jumps,
) -> Result<Vec<Line86>, AllocError>
    requires program { graph.now.program ≡ program.now }
    requires solved { IsTrue graph.now.is_solved }
    ensures value { (n : Needs) → AreAllNeeds program.now n → IfOk result (λ lines. lines.items ≡ styled (style_by n jumps.now) program.now) }
    ensures few { IfOk result (λ lines. vec_len lines < 2 ^ 20) }
{
    let mut text = begun(alloc, program)?;
    put_blocks(&mut text, program, graph, jumps)?;
    put_end(&mut text, program)?;
    Ok(text.into_lines())
}

/// The lean text of a program, by its graph with its needs found: as the plain text, but with the labels of blocks alone, and without
/// the saves, the calls of X_SYS and the long jumps that nothing needs. Its lines are numbered from 1, and it has fewer than 2^20.
pub fn lean_text(
    alloc: Global,
    program: &Program80,
    graph: &Graph,
) -> Result<Vec<Line86>, AllocError>
    requires program { graph.now.program ≡ program.now }
    requires solved { IsTrue graph.now.is_solved }
    ensures lean { IfOk result (λ lines. IsLean program.now lines.items) }
    ensures few { IfOk result (λ lines. vec_len lines < 2 ^ 20) }
{
    graph.needs_are_sets();
    let long = text_by(alloc, program, graph, &Jumps::Long)?;
    let places = Places::of(alloc, &long)?;
    text_by(alloc, program, graph, &Jumps::Reaching(places))
}
