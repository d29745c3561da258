// The text of a program.
ghost use Rattle.std.specs.Prelude.{◌≡◌, ◌<◌, ◌^◌, IfOk, IfErr, vec_len};
ghost use Rattle.templates.specs.Translation.{IsText, CodeFits, HasNoText};

use crate::lean::lean_text;
use crate::plain::plain_text;
use asm80_types::Program80;
use asm86_line_types::{Line86, code_size};
use flow::Graph;
use std::alloc::{AllocError, Global};

/// How a program is written.
#[derive(Clone, Copy)]
pub enum Mode {
    /// Each instruction by its template with a save of the flags, without an analysis.
    Plain,
    /// Only what is needed is saved: flags where an instruction behind needs them, the system called at once, jumps short.
    Lean,
}

/// Why a program has no text.
#[derive(Clone, Copy)]
pub enum CoreFault {
    /// The code has this number of bytes, above 65,535.
    CodeTooLarge(u32),
    /// There is no memory for the text.
    Memory,
}

impl From<AllocError> for CoreFault {
    ghost use Rattle.templates.specs.declared.translation.CoreFault.TheVariants.{Memory};

    ghost from_gives = { λ _ fault. fault ≡ Memory };

    fn from(_error: AllocError) -> CoreFault {
        CoreFault::Memory
    }
}

// The most bytes of code: those of one segment but one.
const MOST_CODE: usize = 0xFFFF;

// The lines of a mode, whatever the size of their code.
fn lines_by(alloc: Global, program: &Program80, mode: Mode) -> Result<Vec<Line86>, AllocError>
    ensures value { IfOk result (λ lines. IsText mode program.now lines.items) }
    ensures few { IfOk result (λ lines. vec_len lines < 2 ^ 20) }
{
    match mode {
        Mode::Plain => plain_text(alloc, program),
        Mode::Lean => lean_text(alloc, program, &Graph::solved(alloc, program)?),
    }
}

/// The text of a program, which means the same as the program (`own_texts_are_same`). Its lines are numbered from 1, and it has fewer
/// than 2^20.
pub fn translate(alloc: Global, program: &Program80, mode: Mode) -> Result<Vec<Line86>, CoreFault>
    ensures value { IfOk result (λ lines. IsText mode program.now lines.items) }
    ensures fits { IfOk result (λ lines. CodeFits lines.items) }
    ensures few { IfOk result (λ lines. vec_len lines < 2 ^ 20) }
    ensures none { IfErr result (HasNoText mode program.now) }
{
    let lines = lines_by(alloc, program, mode)?;
    let size = code_size(lines.as_slice());
    if size > MOST_CODE {
        return Err(CoreFault::CodeTooLarge(size as u32));
    }
    Ok(lines)
}
