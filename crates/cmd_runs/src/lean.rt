// The image of a program's lean text.
ghost use Rattle.std.specs.Prelude.{◌≡◌, ◌^◌, ◌<◌, IfOk, IfErr, length, vec_len};
ghost use Rattle.asm80_types.specs.Program.{IsProgram};
ghost use Rattle.asm86_line_types.specs.Image.{Assembles, IsImage};
ghost use Rattle.templates.specs.declared.translation.Mode.TheVariants.{Lean};
ghost use Rattle.templates.specs.Translation.{IsText, CodeFits};
ghost use Rattle.cmd_common.specs.declared.stop.Stop.TheVariants.{OutOfMemory};
ghost use Rattle.cmd_runs.specs.BothLoads.{HasLean, LeanStops};

use asm80_types::Program80;
use asm86::{Image86, image};
use asm86_line_types::Line86;
use cmd_common::Stop;
use std::alloc::Global;
use templates::{CoreFault, Mode, translate};
use templates_law::own_texts_are_same;

/// The image of a program's lean text, or that its code is too large. A program's own text assembles where its code fits.
pub fn lean_image(alloc: Global, program: &Program80) -> Result<Image86, Stop>
    requires { IsProgram program.now }
    ensures lean { IfOk result (HasLean program.now) }
    ensures stopped { IfErr result (LeanStops program.now) }
{
    own_texts_are_same();
    let lines = lines_of(alloc, program)?;
    image_of(alloc, lines.as_slice())
}

// The lines of the text, whose code fits.
fn lines_of(alloc: Global, program: &Program80) -> Result<Vec<Line86>, Stop>
    ensures text { IfOk result (λ lines. IsText Lean program.now lines.items) }
    ensures fits { IfOk result (λ lines. CodeFits lines.items) }
    ensures few { IfOk result (λ lines. vec_len lines < 2 ^ 20) }
    ensures stopped { IfErr result (LeanStops program.now) }
{
    match translate(alloc, program, Mode::Lean) {
        Ok(lines) => Ok(lines),
        Err(CoreFault::CodeTooLarge(size)) => Err(Stop::CodeTooLarge(size)),
        Err(CoreFault::Memory) => Err(Stop::OutOfMemory),
    }
}

// The image of lines that have one, so that memory alone can be wanting.
fn image_of(alloc: Global, lines: &[Line86]) -> Result<Image86, Stop>
    requires assembles { Assembles lines.now }
    requires few { length lines.now < 2 ^ 20 }
    ensures image { IfOk result (IsImage lines.now) }
    ensures memory { IfErr result (λ stop. stop ≡ OutOfMemory) }
{
    match image(alloc, lines) {
        Ok(image) => Ok(image),
        Err(_) => Err(Stop::OutOfMemory),
    }
}
