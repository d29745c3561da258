// A program as a HEX file.
ghost use Rattle.std.specs.Prelude.{◌≡◌, ◌<◌, Some, IfOk, MatchOption};
ghost use Rattle.i80_bytes.specs.Cells.{code_byte, data_byte, program_byte, program_cells};
ghost use Rattle.asm80_types.specs.Program.{IsProgram};
ghost use Rattle.hex_file.specs.Written.{IsWritten};
ghost use Rattle.i80_bytes.specs.Text.{NoneFrom};

use crate::encoding::encode80;
use asm80_types::Program80;
use cells::Cell;
use cpu80::datum_or;
use hex_file::write_cells;
use std::alloc::{AllocError, Global};

/// The number of cells.
const MEMORY: u32 = 0x1_0000;

/// The HEX file of a program: its encodings and its data, with an end line.
pub fn hex_text(alloc: Global, program: &Program80) -> Result<Vec<u8>, AllocError>
    ensures { IfOk result (λ bytes. IsWritten (program_cells program.now) bytes.items) }
{
    let cells = program_cells(alloc, program)?;
    write_cells(alloc, cells.as_slice())
}

/// The cells of a program that have a byte, address and byte, ascending: its encodings and its data.
pub fn program_cells(alloc: Global, program: &Program80) -> Result<Vec<(u16, u8)>, AllocError>
    ensures { IfOk result (λ cells. cells.items ≡ program_cells program.now) }
{
    let mut cells = Vec::new(alloc);
    for at in 0..MEMORY {
        if let Some(byte) = program_byte(program, at as u16) {
            cells.push((at as u16, byte))?;
        }
    }
    Ok(cells)
}

// The byte of a program at an address.
fn program_byte(program: &Program80, at: u16) -> Option<u8>
    ensures { result ≡ program_byte program.now at }
{
    match code_byte(program, at) {
        Some(byte) => Some(byte),
        None => data_byte(program.cell_at(at)),
    }
}

fn data_byte(cell: Option<Cell>) -> Option<u8>
    ensures { result ≡ data_byte cell }
{
    match cell {
        Some(cell) => Some(datum_or(Some(cell), 0)),
        None => None,
    }
}

// The byte of an instruction's cell: the instruction starts at the address, or one or two cells before it.
fn code_byte(program: &Program80, at: u16) -> Option<u8>
    ensures { result ≡ code_byte program.now.instrs at }
{
    let first = byte_from(program, at, 0);
    let second = byte_from(program, at, 1);
    let third = byte_from(program, at, 2);
    first.or(second).or(third)
}

// The byte of the instruction that starts so many cells before an address, if it has the address among its cells.
fn byte_from(program: &Program80, at: u16, index: u16) -> Option<u8>
    requires { index < 3 }
    ensures byte { MatchOption result (NoneFrom program.now at index) (λ byte. code_byte program.now.instrs at ≡ Some byte) }
    ensures program { IsProgram program.now }
{
    // no instruction starts at the last addresses, to which the first ones wrap
    let instr = program.instr_at(at.wrapping_sub(index))?;
    match encode80(instr).as_slice().get(usize::from(index)) {
        Some(byte) => Some(*byte),
        None => None,
    }
}
