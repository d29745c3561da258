// Whether a text means the same as its program.
ghost use Rattle.std.specs.Prelude.{◌≡◌, ◌<◌, ◌^◌, IfOk, IsTrue, List, length};
ghost use Rattle.asm86_line_types.specs.declared.line.Line86.{Line86};
ghost use Rattle.asm86_line_types.specs.Image.{Assembles, IsImage, image_of};
ghost use Rattle.templates_law.specs.Names.{Same};
ghost use Rattle.text_check.specs.Findings.{AreOfLines, IsFinding, IfShown};
ghost use Rattle.xlt_core.specs.Validation.{ShownIsSame};

use asm80_types::Program80;
use asm86::{Image86, image};
use asm86_line_types::Line86;
use flow::Graph;
use std::alloc::{AllocError, Global};
use templates_law::matching_blocks_are_same;
use text_check::{Finding, Index86, Work, lines_are_coded, validate_in};

/// A law, of every program and lines with an image that are found to be shown: the image makes the program's system calls in their
/// order, and ends where the program ends.
pub fn shown_is_same()
    ensures { ShownIsSame }
{
    matching_blocks_are_same();
}

/// What is found of lines with an image, of which there are fewer than 2^28: whether they do what the program does, and else the first
/// reason why that is not shown.
pub fn validate(alloc: Global, program: &Program80, lines: &[Line86]) -> Result<Finding, AllocError>
    requires assembles { Assembles lines.now }
    requires few { length lines.now < 2 ^ 28 }
    ensures finding { IfOk result (IsFinding program.now lines.now) }
    ensures same { IfOk result (λ finding. IfShown finding (Same program.now (image_of lines.now))) }
{
    match image(alloc, lines) {
        Ok(image) => validate_loaded(alloc, program, lines, &image),
        // the lines have an image, so that memory alone can be wanting
        Err(_) => Err(AllocError),
    }
}

/// The same of lines whose image was made before.
pub fn validate_loaded(
    alloc: Global,
    program: &Program80,
    lines: &[Line86],
    image: &Image86,
) -> Result<Finding, AllocError>
    requires made { IsImage lines.now image.now }
    requires few { length lines.now < 2 ^ 28 }
    ensures finding { IfOk result (IsFinding program.now lines.now) }
    ensures same { IfOk result (λ finding. IfShown finding (Same program.now (image_of lines.now))) }
{
    shown_is_same();
    lines_are_coded(lines);
    let _top = program.top();
    look(alloc, program, lines, image)
}

// The same, by the graph of the program.
fn look(
    alloc: Global,
    program: &Program80,
    lines: &[Line86],
    image: &Image86,
) -> Result<Finding, AllocError>
    requires made { IsImage lines.now image.now }
    requires few { length lines.now < 2 ^ 28 }
    ensures { IfOk result (IsFinding program.now lines.now) }
{
    let graph = Graph::solved(alloc, program)?;
    look_by(alloc, program, &graph, lines, image)
}

// The same, by the statements of the lines.
fn look_by(
    alloc: Global,
    program: &Program80,
    graph: &Graph,
    lines: &[Line86],
    image: &Image86,
) -> Result<Finding, AllocError>
    requires solved { IsTrue graph.now.is_solved }
    requires program { graph.now.program ≡ program.now }
    requires made { IsImage lines.now image.now }
    ensures { IfOk result (IsFinding program.now lines.now) }
{
    let text = Index86::of(alloc, lines)?;
    look_at(alloc, program, graph, &text, image)
}

// The same of a text and an image of the same lines.
fn look_at(
    alloc: Global,
    program: &Program80,
    graph: &Graph,
    text: &Index86,
    image: &Image86,
) -> Result<Finding, AllocError>
    requires solved { IsTrue graph.now.is_solved }
    requires program { graph.now.program ≡ program.now }
    requires lines { (lines : List Line86) × AreOfLines text.now image.now lines }
    ensures { IfOk result (λ finding. (lines : List Line86) → AreOfLines text.now image.now lines → IsFinding program.now lines finding) }
{
    let mut work = Work::new(alloc)?;
    Ok(validate_in(&mut work, program, graph, text, image))
}
