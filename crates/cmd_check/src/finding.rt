// What is found of a program and a text.
ghost use Rattle.std.specs.Prelude.{◌<◌, ◌^◌, length, IfOk, IfErr};
ghost use Rattle.asm86_line_types.specs.Image.{IsImage};
ghost use Rattle.cmd_check.specs.Checks.{IsShown, FindStops};

use asm80_types::Program80;
use cmd_common::{LoadedText, Stop};
use std::alloc::Global;
use xlt_core::{Finding, validate_loaded};

/// How many blocks are shown.
pub fn find(alloc: Global, program: &Program80, text: &LoadedText) -> Result<u32, Stop>
    requires image { IsImage text.now.lines.items text.now.image }
    requires few { length text.now.lines.items < 2 ^ 28 }
    ensures shown { IfOk result (IsShown program.now text.now.lines.items) }
    ensures stopped { IfErr result (FindStops program.now text.now.lines.items) }
{
    let finding = validate_loaded(alloc, program, text.lines.as_slice(), &text.image)?;
    match finding {
        Finding::Shown(blocks) => Ok(blocks),
        Finding::NotShown(at, reason) => Err(Stop::NotShown(at, reason)),
    }
}
