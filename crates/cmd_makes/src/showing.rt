// The work of `cmdshow`: a command file in, the sizes of its groups said.
ghost use Rattle.std.specs.Prelude.{◌≡◌, IfOk, IfErr};
ghost use Rattle.std.specs.String.{string_bytes};
ghost use Rattle.host.specs.Host.{SameFiles};
ghost use Rattle.cmd_arguments.specs.ReadCommands.{cmd_show_read};
ghost use Rattle.cmd_common.specs.Makes.{MakeGives, MakeCompletes, HasMade, MakeStops};
ghost use Rattle.cmd_makes.specs.Shows.{cmd_show_kind, stop_of_file};

use cmd_arguments::CmdShow;
use cmd_common::{
    InputFile, InputNames, SOURCE_LIMIT, Stop, groups_line, read_named, say_done, say_stop,
};
use cmd_file::{CmdFault, CmdFile, command_file_has_one_reading};
use host::Host;
use std::alloc::Global;

/// Says how large the groups of the command file of a command are, and answers the status.
pub fn cmdshow<H: Host>(alloc: Global, host: &mut H, command: &CmdShow<'_>) -> u8
    ensures gives { MakeGives (cmd_show_kind (cmd_show_read command.now)) (H.state host.old) (H.state host.new) result }
    ensures completes { MakeCompletes (cmd_show_kind (cmd_show_read command.now)) (H.state host.old) (H.state host.new) result }
    ensures files { SameFiles (H.state host.old) (H.state host.new) }
{
    command_file_has_one_reading();
    match work(alloc, host, command) {
        Ok(line) => say_done(host, line.as_str()),
        Err(stop) => say_stop(alloc, host, &InputNames::one(command.file), stop),
    }
}

// The work up to the last line.
fn work<H: Host>(alloc: Global, host: &mut H, command: &CmdShow<'_>) -> Result<String, Stop>
    ensures made { IfOk result (λ line. HasMade (cmd_show_kind (cmd_show_read command.now)) (H.state host.old) (H.state host.new) (string_bytes line)) }
    ensures stopped { IfErr result (MakeStops (cmd_show_kind (cmd_show_read command.now)) (H.state host.old) (H.state host.new)) }
{
    let bytes = read_named(alloc, host, InputFile::First, command.file, SOURCE_LIMIT)?;
    let file = match CmdFile::read(alloc, bytes.as_slice()) {
        Ok(file) => file,
        Err(fault) => return Err(stop_of(fault)),
    };
    Ok(groups_line(alloc, file.code_part().len(), file.data_part().len())?)
}

// What it is to the command that bytes are no command file.
fn stop_of(fault: CmdFault) -> Stop
    ensures { result ≡ stop_of_file fault }
{
    match fault {
        CmdFault::Bad(place) => Stop::BadCommandFile(place),
        CmdFault::Memory => Stop::OutOfMemory,
    }
}
