// The work of `shrink`: a source and a text in, what is left of the text out.
ghost use Rattle.std.specs.Prelude.{◌≡◌, ◌<◌, ◌^◌, ℕ, List, Ok, true, length, IfOk, IfErr};
ghost use Rattle.std.specs.String.{string_bytes};
ghost use Rattle.asm80_types.specs.Program.{is_top};
ghost use Rattle.asm86_line_types.specs.Image.{IsImage};
ghost use Rattle.asm86.specs.Stream.{TextGives};
ghost use Rattle.cmd_arguments.specs.ReadCommands.{check_read, shrink_read};
ghost use Rattle.cmd_shrink.specs.Shrinks.{check_of_text, WritesLeft, LosesLeft, HasShrunk, Stops, ShrinkGives, ShrunkHeadline};
ghost use Rattle.cmd_shrink.specs.Completes.{ShrinkCompletes};

use crate::leaving::leave;
use cmd_arguments::{Check, Shrink};
use cmd_check::{Loaded, checks_have_one_outcome, load};
use cmd_common::{InputNames, Stop, say_done, say_stop, write_text};
use host::Host;
use shrink::shrunk_is_left;
use std::alloc::Global;

/// Shrinks the text of a command beside its source, says what came of it, and answers the status. The command's top is one that a program
/// area may have.
pub fn shrink<H: Host>(alloc: Global, host: &mut H, command: &Shrink<'_>) -> u8
    requires { is_top command.now.top ≡ true }
    ensures gives { ShrinkGives (shrink_read command.now) (H.state host.old) (H.state host.new) result }
    ensures completes { ShrinkCompletes (shrink_read command.now) (H.state host.old) (H.state host.new) result }
    ensures headline { result ≡ 0 → ShrunkHeadline (shrink_read command.now) (H.state host.old) (H.state host.new) }
{
    checks_have_one_outcome();
    shrunk_is_left();
    carry_out(alloc, host, command)
}

// The work, and what is said.
fn carry_out<H: Host>(alloc: Global, host: &mut H, command: &Shrink<'_>) -> u8
    requires { is_top command.now.top ≡ true }
    ensures { ShrinkGives (shrink_read command.now) (H.state host.old) (H.state host.new) result }
{
    match work(alloc, host, command) {
        Ok(line) => say_done(host, line.as_str()),
        Err(stop) => say_stop(
            alloc,
            host,
            &InputNames::two(command.source, command.text),
            stop,
        ),
    }
}

// The work up to the last line, which is the answer where what is left was written. All memory is taken before the output is touched.
fn work<H: Host>(alloc: Global, host: &mut H, command: &Shrink<'_>) -> Result<String, Stop>
    requires { is_top command.now.top ≡ true }
    ensures worked { IfOk result (λ line. HasShrunk (shrink_read command.now) (H.state host.old) (H.state host.new) (string_bytes line)) }
    ensures stopped { IfErr result (Stops (shrink_read command.now) (H.state host.old) (H.state host.new)) }
{
    let check = check_of_text(command);
    let loaded = load(alloc, host, &check)?;
    write_left(alloc, host, command.output, &loaded)
}

// Writes what is left of a text that was loaded to the file of a name; the answer is the line that says how much it is.
fn write_left<H: Host>(
    alloc: Global,
    host: &mut H,
    name: &str,
    loaded: &Loaded,
) -> Result<String, Stop>
    requires image { IsImage loaded.now.text.lines.items loaded.now.text.image }
    requires few { length loaded.now.text.lines.items < 2 ^ 28 }
    requires gives { (bytes : List ℕ) × TextGives bytes (Ok loaded.now.text.lines.items) }
    ensures written { IfOk result (λ line. WritesLeft loaded.now.program loaded.now.text.lines.items name.now (H.state host.old) (H.state host.new) (string_bytes line)) }
    ensures stopped { IfErr result (LosesLeft loaded.now.program loaded.now.text.lines.items name.now (H.state host.old) (H.state host.new)) }
{
    let left = leave(alloc, &loaded.program, &loaded.text)?;
    write_text(host, name, left.lines.as_slice())?;
    Ok(left.line)
}

// The check of the text as it is.
fn check_of_text<'a>(command: &Shrink<'a>) -> Check<'a>
    ensures { check_read result ≡ check_of_text (shrink_read command.now) }
{
    Check {
        source: command.source,
        text: command.text,
        zilog: false,
        top: command.top,
    }
}
