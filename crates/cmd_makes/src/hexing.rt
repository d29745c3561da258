// The work of `hex80`: a source in, the HEX file of its program out.
ghost use Rattle.std.specs.Prelude.{◌≡◌, true, length, IfOk, IfErr};
ghost use Rattle.std.specs.String.{string_bytes};
ghost use Rattle.hex_file.specs.Written.{IsWritten};
ghost use Rattle.asm80_types.specs.Program.{is_top};
ghost use Rattle.i80_bytes.specs.Cells.{program_cells};
ghost use Rattle.cmd_arguments.specs.ReadCommands.{hex80_read};
ghost use Rattle.cmd_common.specs.Lines.{hex_line};
ghost use Rattle.cmd_common.specs.Makes.{MakeGives, MakeCompletes, HasMade, MakeStops};
ghost use Rattle.cmd_makes.specs.Hexes.{hex_kind, HasHexFile};

use crate::write_made;
use asm80_types::Program80;
use cmd_arguments::Hex80;
use cmd_common::{
    InputNames, Stop, hex_line, read_source, say_done, say_stop, sources_have_one_outcome,
};
use hex_file::{write_cells, written_reads_back};
use host::Host;
use i80_bytes::{bytes_follow, program_cells, program_cells_are_cells};
use std::alloc::{AllocError, Global};

/// Writes the HEX file of the source of a command, says how many bytes its program has, and answers the status. The command's top is one
/// that a program area may have.
pub fn hex80<H: Host>(alloc: Global, host: &mut H, command: &Hex80<'_>) -> u8
    requires { is_top command.now.top ≡ true }
    ensures gives { MakeGives (hex_kind (hex80_read command.now)) (H.state host.old) (H.state host.new) result }
    ensures completes { MakeCompletes (hex_kind (hex80_read command.now)) (H.state host.old) (H.state host.new) result }
    ensures file { result ≡ 0 → HasHexFile (hex80_read command.now) (H.state host.old) (H.state host.new) }
{
    sources_have_one_outcome();
    written_reads_back();
    program_cells_are_cells();
    bytes_follow();
    match work(alloc, host, command) {
        Ok(line) => say_done(host, line.as_str()),
        Err(stop) => say_stop(alloc, host, &InputNames::one(command.source), stop),
    }
}

// The work up to the last line, which is the answer where the file was written. All memory is taken before the output is touched.
fn work<H: Host>(alloc: Global, host: &mut H, command: &Hex80<'_>) -> Result<String, Stop>
    requires { is_top command.now.top ≡ true }
    ensures made { IfOk result (λ line. HasMade (hex_kind (hex80_read command.now)) (H.state host.old) (H.state host.new) (string_bytes line)) }
    ensures stopped { IfErr result (MakeStops (hex_kind (hex80_read command.now)) (H.state host.old) (H.state host.new)) }
{
    let source = read_source(alloc, host, command.source, command.zilog, command.top)?;
    let program = source?;
    let hex = hex_of_program(alloc, &program)?;
    write_made(host, command.output, hex.text.as_slice())?;
    Ok(hex.line)
}

// The HEX file of a program, with its line.
#[derive(Drop)]
struct HexOf {
    text: Vec<u8>,
    line: String,
}

fn hex_of_program(alloc: Global, program: &Program80) -> Result<HexOf, AllocError>
    ensures text { IfOk result (λ hex. IsWritten (program_cells program.now) hex.text.items) }
    ensures line { IfOk result (λ hex. string_bytes hex.line ≡ hex_line (length (program_cells program.now))) }
{
    let cells = program_cells(alloc, program)?;
    let text = write_cells(alloc, cells.as_slice())?;
    let line = hex_line(alloc, cells.len())?;
    Ok(HexOf { text, line })
}
