// The work of `check`: a source and a text in, and what is found of them said.
ghost use Rattle.std.specs.Prelude.{◌≡◌, ◌<◌, ◌^◌, true, length, IfOk, IfErr};
ghost use Rattle.std.specs.String.{string_bytes};
ghost use Rattle.host.specs.Host.{SameFiles};
ghost use Rattle.asm80_types.specs.Program.{is_top};
ghost use Rattle.asm86_line_types.specs.Image.{IsImage};
ghost use Rattle.cmd_arguments.specs.ReadCommands.{check_read};
ghost use Rattle.cmd_check.specs.Checks.{SaysShown, FindStops, Shows, Stops, CheckGives};
ghost use Rattle.cmd_check.specs.Completes.{CheckCompletes};
ghost use Rattle.cmd_check.specs.OwnTexts.{ShowsOwnText};

use crate::finding::find;
use crate::inputs::load;
use crate::laws::checks_have_one_outcome;
use asm80_types::Program80;
use cmd_arguments::Check;
use cmd_common::{InputNames, LoadedText, Stop, say_done, say_stop, shown_line};
use commented_text::commented_texts_read_back;
use host::Host;
use std::alloc::Global;
use xlt_core::{own_texts_are_same, own_texts_are_shown};

/// Checks the text of a command beside its source, says what is found, and answers the status. The command's top is one that a
/// program area may have.
pub fn check<H: Host>(alloc: Global, host: &mut H, command: &Check<'_>) -> u8
    requires { is_top command.now.top ≡ true }
    ensures gives { CheckGives (check_read command.now) (H.state host.old) (H.state host.new) result }
    ensures files { SameFiles (H.state host.old) (H.state host.new) }
    ensures completes { CheckCompletes (check_read command.now) (H.state host.old) (H.state host.new) result }
    ensures own { ShowsOwnText (check_read command.now) (H.state host.old) (H.state host.new) result }
{
    checks_have_one_outcome();
    own_texts_are_same();
    own_texts_are_shown();
    commented_texts_read_back();
    match work(alloc, host, command) {
        Ok(line) => say_done(host, line.as_str()),
        Err(stop) => say_stop(
            alloc,
            host,
            &InputNames::two(command.source, command.text),
            stop,
        ),
    }
}

// The line of a text that is shown.
fn work<H: Host>(alloc: Global, host: &mut H, command: &Check<'_>) -> Result<String, Stop>
    requires { is_top command.now.top ≡ true }
    ensures worked { IfOk result (λ line. Shows (check_read command.now) (H.state host.old) (H.state host.new) (string_bytes line)) }
    ensures stopped { IfErr result (Stops (check_read command.now) (H.state host.old) (H.state host.new)) }
{
    let loaded = load(alloc, host, command)?;
    line_of(alloc, &loaded.program, &loaded.text)
}

// The same of what was loaded.
fn line_of(alloc: Global, program: &Program80, text: &LoadedText) -> Result<String, Stop>
    requires image { IsImage text.now.lines.items text.now.image }
    requires few { length text.now.lines.items < 2 ^ 28 }
    ensures shown { IfOk result (λ line. SaysShown program.now text.now.lines.items (string_bytes line)) }
    ensures stopped { IfErr result (FindStops program.now text.now.lines.items) }
{
    let count = find(alloc, program, text)?;
    Ok(shown_line(alloc, count)?)
}
