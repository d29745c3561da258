// What is left of a text.
ghost use Rattle.std.specs.Prelude.{◌≡◌, ◌<◌, ◌≤◌, ◌^◌, ℕ, List, Ok, length, IfOk, IfErr};
ghost use Rattle.std.specs.String.{string_bytes};
ghost use Rattle.asm80_types.specs.Program.{IsProgram};
ghost use Rattle.asm86_line_types.specs.Image.{Assembles, IsImage, image_of};
ghost use Rattle.asm86.specs.Stream.{TextGives};
ghost use Rattle.xlt_core.specs.Names.{Same, IsFinding, Shown};
ghost use Rattle.cmd_shrink.specs.Shrinks.{line_of_left, TextIsLeft, LeftStops};

use asm80_types::Program80;
use asm86::{Line86, code_size, images_exclude_refusals};
use cmd_check::find;
use cmd_common::{LoadedText, Stop, shrunk_line};
use shrink::{MOST_STATEMENTS, shrink, shrunk_is_left, text_is_writable, written_lines_read_back};
use std::alloc::Global;
use text_check::lines_are_coded;
use xlt_core::shown_is_same;

/// What is left of a text, and the line that says how much it is.
#[derive(Drop)]
pub struct Left {
    pub lines: Vec<Line86>,
    pub line: String,
}

/// What is left of a text that has few enough statements and is shown; or why there is nothing to be left.
pub fn leave(alloc: Global, program: &Program80, text: &LoadedText) -> Result<Left, Stop>
    requires image { IsImage text.now.lines.items text.now.image }
    requires few { length text.now.lines.items < 2 ^ 28 }
    requires gives { (bytes : List ℕ) × TextGives bytes (Ok text.now.lines.items) }
    ensures left { IfOk result (λ l. TextIsLeft program.now text.now.lines.items l.lines.items) }
    ensures line { IfOk result (λ l. string_bytes l.line ≡ line_of_left text.now.lines.items l.lines.items) }
    ensures stopped { IfErr result (LeftStops program.now text.now.lines.items) }
{
    let lines = text.lines.as_slice();
    let count = lines.len();
    if count > MOST_STATEMENTS {
        return Err(Stop::TooManyStatements(count as u32));
    }
    find(alloc, program, text)?;
    left_of(alloc, program, lines)
}

// What is left of lines that are shown. It is loaded as any text is, which it can always be: so its code is read in one way.
fn left_of(alloc: Global, program: &Program80, lines: &[Line86]) -> Result<Left, Stop>
    requires assembles { Assembles lines.now }
    requires few { length lines.now ≤ 2048 }
    requires gives { (bytes : List ℕ) × TextGives bytes (Ok lines.now) }
    requires shown { (blocks : ℕ) × IsFinding program.now lines.now (Shown blocks) }
    ensures left { IfOk result (λ l. TextIsLeft program.now lines.now l.lines.items) }
    ensures line { IfOk result (λ l. string_bytes l.line ≡ line_of_left lines.now l.lines.items) }
    ensures stopped { IfErr result (LeftStops program.now lines.now) }
{
    shrunk_is_left();
    written_lines_read_back();
    text_is_writable(lines);
    shown_is_same();
    images_exclude_refusals();
    let _top = program.top();
    let left = shrink(alloc, program, lines)?;
    lines_are_coded(left.as_slice());
    let code = code_size(left.as_slice());
    let line = shrunk_line(alloc, lines.len() - left.len(), code)?;
    let text = LoadedText::of(alloc, left)?;
    Ok(Left {
        lines: text.into_lines(),
        line,
    })
}
