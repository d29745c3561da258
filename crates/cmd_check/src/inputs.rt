// The program of a source, and a text that has an image.
ghost use Rattle.std.specs.Prelude.{◌≡◌, ◌<◌, ◌^◌, true, length, IfOk, IfErr};
ghost use Rattle.asm80_types.specs.Program.{is_top};
ghost use Rattle.asm86_line_types.specs.Image.{IsImage, statements};
ghost use Rattle.asm86_line_types.specs.Order.{at_start, in_order};
ghost use Rattle.cmd_arguments.specs.ReadCommands.{check_read};
ghost use Rattle.cmd_check.specs.Checks.{Loads, LoadStops};
ghost use Rattle.cmd_check.specs.Loading.{AreLoaded, NotLoaded};

use asm80_types::Program80;
use asm86_line_types::Line86;
use cmd_arguments::Check;
use cmd_common::{InputFile, LoadedText, Stop, read_source, read_text};
use host::Host;
use std::alloc::Global;

/// What there is to be checked.
#[derive(Drop)]
pub struct Loaded {
    pub program: Program80,
    pub text: LoadedText,
}

/// Reads both files. That the source, or else the text, is refused is told once both are read.
pub fn load<H: Host>(alloc: Global, host: &mut H, command: &Check<'_>) -> Result<Loaded, Stop>
    requires { is_top command.now.top ≡ true }
    ensures loaded { IfOk result (λ l. Loads (check_read command.now) (H.state host.old) (H.state host.new) l.program l.text.lines.items) }
    ensures image { IfOk result (λ l. IsImage l.text.lines.items l.text.image) }
    ensures few { IfOk result (λ l. length l.text.lines.items < 2 ^ 28) }
    ensures stopped { IfErr result (LoadStops (check_read command.now) (H.state host.old) (H.state host.new)) }
{
    let source = read_source(alloc, host, command.source, command.zilog, command.top)?;
    let text = read_text(alloc, host, InputFile::Text, command.text)?;
    loaded_of(alloc, source, text)
}

// The program and the lines with their image; or the refusal of the source, or else that of the text.
fn loaded_of(
    alloc: Global,
    source: Result<Program80, Stop>,
    text: Result<Vec<Line86>, Stop>,
) -> Result<Loaded, Stop>
    requires order { IfOk text (λ lines. in_order at_start (statements lines.items) ≡ true) }
    requires few { IfOk text (λ lines. length lines.items < 2 ^ 28) }
    ensures loaded { IfOk result (AreLoaded source text) }
    ensures stopped { IfErr result (NotLoaded source text) }
{
    let program = source?;
    let lines = text?;
    let text = LoadedText::of(alloc, lines)?;
    Ok(Loaded { program, text })
}
