// The work of `cmd`: the text in, its command file out.
ghost use Rattle.std.specs.Prelude.{◌≡◌, ◌<◌, ◌^◌, true, length, IfOk, IfErr};
ghost use Rattle.std.specs.String.{string_bytes};
ghost use Rattle.asm86_line_types.specs.Image.{statements};
ghost use Rattle.asm86_line_types.specs.Order.{at_start, in_order};
ghost use Rattle.cmd_arguments.specs.ReadCommands.{cmd_read};
ghost use Rattle.cmd_common.specs.declared.stop.Stop.TheVariants.{OutOfMemory};
ghost use Rattle.cmd_common.specs.Texts.{ImageStops};
ghost use Rattle.cmd_common.specs.Makes.{MakeGives, MakeCompletes, MakeStops};
ghost use Rattle.cmd_file.specs.CommandFile.{IsCommandFile};
ghost use Rattle.cmd_file.specs.Written.{command_file_of};
ghost use Rattle.cmd_makes.specs.Cmds.{cmd_kind, file_of, HasFile, HasWritten, HasCommandFile};

use crate::write_made;
use asm86::{Image86, texts_have_one_image};
use asm86_line_types::Line86;
use cmd_arguments::Cmd;
use cmd_common::{
    InputFile, InputNames, LoadedText, Stop, command_file_line, read_text, say_done, say_stop,
};
use cmd_file::{CmdFile, loaded_is_same};
use host::Host;
use std::alloc::Global;

/// Writes the command file of the text of a command, says how many bytes it has, and answers the status.
pub fn cmd<H: Host>(alloc: Global, host: &mut H, command: &Cmd<'_>) -> u8
    ensures gives { MakeGives (cmd_kind (cmd_read command.now)) (H.state host.old) (H.state host.new) result }
    ensures completes { MakeCompletes (cmd_kind (cmd_read command.now)) (H.state host.old) (H.state host.new) result }
    ensures loads { result ≡ 0 → HasCommandFile (cmd_read command.now) (H.state host.old) (H.state host.new) }
{
    texts_have_one_image();
    loaded_is_same();
    match work(alloc, host, command) {
        Ok(line) => say_done(host, line.as_str()),
        Err(stop) => say_stop(alloc, host, &InputNames::one(command.text), stop),
    }
}

// The work up to the last line, which is the answer where the file was written. All memory is taken before the output is touched.
fn work<H: Host>(alloc: Global, host: &mut H, command: &Cmd<'_>) -> Result<String, Stop>
    ensures made { IfOk result (λ line. HasWritten (cmd_read command.now) (H.state host.old) (H.state host.new) (string_bytes line)) }
    ensures stopped { IfErr result (MakeStops (cmd_kind (cmd_read command.now)) (H.state host.old) (H.state host.new)) }
{
    let text = read_text(alloc, host, InputFile::First, command.text)?;
    let lines = text?;
    let file = file_of_lines(alloc, lines)?;
    let bytes = file.as_slice();
    let line = command_file_line(alloc, bytes.len())?;
    write_made(host, command.output, bytes)?;
    Ok(line)
}

// The command file of the image that lines have.
fn file_of_lines(alloc: Global, lines: Vec<Line86>) -> Result<Vec<u8>, Stop>
    requires order { in_order at_start (statements lines.items) ≡ true }
    requires few { length lines.items < 2 ^ 28 }
    ensures file { IfOk result (λ file. HasFile lines.items file.items) }
    ensures stopped { IfErr result (ImageStops lines.items) }
{
    let text = LoadedText::of(alloc, lines)?;
    file_of_image(alloc, &text.image)
}

// The bytes of the command file of an image.
fn file_of_image(alloc: Global, image: &Image86) -> Result<Vec<u8>, Stop>
    ensures spelt { IfOk result (λ bytes. bytes.items ≡ file_of image.now) }
    ensures is_file { IfOk result (λ bytes. IsCommandFile (file_of image.now) (command_file_of image.now)) }
    ensures stopped { IfErr result (λ stop. stop ≡ OutOfMemory) }
{
    let file = CmdFile::of(alloc, image)?;
    Ok(file.write(alloc)?)
}
