// The plain text of a program.
ghost use Rattle.std.specs.Prelude.{◌≡◌, ◌+◌, ◌*◌, ◌^◌, ◌<◌, ◌≤◌, ◌∷◌, ◌++◌, length, OnOk, IfOk, vec_len};
ghost use Rattle.std.specs.Option.{option_to_list};
ghost use Rattle.templates.specs.Plain.{prologue, body, org_at, cell_statement, data_from, runtime, ending, plain};

use crate::frame::{ending, prologue, runtime};
use crate::rows::template;
use crate::text::Text;
use asm80_types::Program80;
use asm86_line_types::{Label, Line86, Stmt86, Value16};
use cells::{Cell, Place};
use std::alloc::{AllocError, Global};

// Each instruction's label and its statements with a save: 13 at most.
fn put_body(text: &mut Text, program: &Program80) -> Result<(), AllocError>
    requires { length text.old < 2 ^ 16 }
    ensures value { OnOk result (text.new ≡ text.old ++ body program.now.instrs) }
    ensures most { OnOk result (length text.new ≤ length text.old + 13 * 65022) }
{
    let instrs = program.instrs();
    for placed in instrs {
        text.push(Stmt86::Mark(Label::At(placed.at)))?;
        text.append(template(placed.instr, placed.at, true).as_slice())?;
    }
    Ok(())
}

// The statement of a data cell: a byte, or, at the low half of a code address, the address's label.
fn statement_of(cell: Cell) -> Option<Stmt86>
    ensures { option_to_list result ≡ cell_statement cell }
{
    match cell {
        Cell::Num(n) => Some(Stmt86::Db(n)),
        Cell::Lo(Place::At(at)) => Some(Stmt86::Dw(Value16::Offset(Label::At(at)))),
        Cell::Lo(Place::Exit) | Cell::Hi(_) | Cell::Psw(_) | Cell::Junk => None,
    }
}

// A data cell, with ORG where it does not follow the one before.
fn put_cell(text: &mut Text, next: u16, at: u16, cell: Cell) -> Result<(), AllocError>
    requires { length text.old < 2 ^ 24 }
    ensures value { OnOk result (text.new ≡ text.old ++ (org_at next at ++ cell_statement cell)) }
    ensures most { OnOk result (length text.new ≤ length text.old + 2) }
{
    if at != next {
        text.push(Stmt86::Org(at))?;
    }
    match statement_of(cell) {
        Some(statement) => text.push(statement),
        None => Ok(()),
    }
}

// The data cells in order.
fn put_data(text: &mut Text, program: &Program80) -> Result<(), AllocError>
    requires { length text.old < 2 ^ 20 }
    ensures value { OnOk result (text.new ≡ text.old ++ data_from 0 program.now.cells) }
    ensures most { OnOk result (length text.new ≤ length text.old + 2 * 65022) }
{
    let cells = program.cells();
    let mut next = 0;
    for &(at, cell) in cells {
        put_cell(text, next, at, cell)?;
        next = at + 1;
    }
    Ok(())
}

/// A text that begins as each text does: CSEG and the prologue.
pub fn begun(alloc: Global, program: &Program80) -> Result<Text, AllocError>
    ensures { IfOk result (λ text. text ≡ Stmt86.Cseg ∷ prologue program.now.top) }
{
    let mut text = Text::new(alloc);
    text.push(Stmt86::Cseg)?;
    text.append(prologue(program.top()).as_slice())?;
    Ok(text)
}

/// What ends each text, behind its instructions: the runtime, the data, and room for the stack.
pub fn put_end(text: &mut Text, program: &Program80) -> Result<(), AllocError>
    requires { length text.old ≤ 8 + 13 * 65022 }
    ensures value { OnOk result (text.new ≡ text.old ++ (runtime ++ Stmt86.Dseg ∷ (data_from 0 program.now.cells ++ ending program.now.top))) }
    ensures most { OnOk result (length text.new < 2 ^ 20) }
{
    text.append(runtime().as_slice())?;
    text.push(Stmt86::Dseg)?;
    put_data(text, program)?;
    text.append(ending(program.top()).as_slice())
}

/// The plain text of a program: between the prologue and the runtime each instruction's label and its statements with a
/// save of the flags, then the data. Its lines are numbered from 1, and it has fewer than 2^20.
pub fn plain_text(alloc: Global, program: &Program80) -> Result<Vec<Line86>, AllocError>
    ensures value { IfOk result (λ lines. lines.items ≡ plain program.now) }
    ensures few { IfOk result (λ lines. vec_len lines < 2 ^ 20) }
{
    let mut text = begun(alloc, program)?;
    put_body(&mut text, program)?;
    put_end(&mut text, program)?;
    Ok(text.into_lines())
}
