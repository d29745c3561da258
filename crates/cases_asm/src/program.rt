// A program as text.
ghost use Rattle.std.specs.Prelude.{◌≡◌, true};
ghost use Rattle.asm80_types.specs.Program.{is_top};

use crate::codes::{push_cell, push_code};
use crate::source::statements_of;
use asm80_types::{Program80, ReadFault};
use asm80_values::assemble;
use cells::Cell;
use std::alloc::{AllocError, Global};

// A comma behind what stands there already.
fn begin(text: &mut String) -> Result<(), AllocError> {
    if text.is_empty() {
        Ok(())
    } else {
        text.push_str(", ")
    }
}

// The instructions, each as `address/line code`.
fn push_instructions(text: &mut String, program: &Program80) -> Result<(), AllocError> {
    for placed in program.instrs() {
        begin(text)?;
        write!(text, "{:04x}/{} ", placed.at, placed.line)?;
        push_code(text, placed.instr)?;
    }
    Ok(())
}

// The data cells, behind the address of each that does not follow the one before it.
fn push_cells(text: &mut String, cells: &[(u16, Cell)]) -> Result<(), AllocError> {
    let mut next = 0;
    for &(at, cell) in cells {
        if at != next {
            begin(text)?;
            write!(text, "{at:04x}:")?;
        }
        text.push(' ')?;
        push_cell(text, cell)?;
        next = at.wrapping_add(1);
    }
    Ok(())
}

// The places that are taken.
fn push_taken(text: &mut String, program: &Program80) -> Result<(), AllocError> {
    for at in program.taken() {
        begin(text)?;
        write!(text, "taken {at:04x}")?;
    }
    Ok(())
}

fn push_program(text: &mut String, program: &Program80) -> Result<(), AllocError> {
    push_instructions(text, program)?;
    push_cells(text, program.cells())?;
    push_taken(text, program)
}

/// The program of a source, or its refusal.
pub fn program_text(alloc: Global, source: &[u8], top: u16) -> Result<String, ReadFault>
    requires { is_top top ≡ true }
{
    let statements = statements_of(alloc, source)?;
    let mut text = String::new(alloc);
    match assemble(alloc, &statements, top) {
        Ok(program) => push_program(&mut text, &program)?,
        Err(fault) => write!(text, "{fault}")?,
    }
    Ok(text)
}
