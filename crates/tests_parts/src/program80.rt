// A small program with a data byte, asked by addresses.
use asm80_text::Lines;
use asm80_types::Program80;
use asm80_values::assemble;
use cells::Cell;
use i80::{Goal, Instr80, Reg, Src};
use std::test::Fail;

const ONE_LETTER: &[u8] = b"ORG 100H\nMVI C,2\nMVI E,41H\nCALL 5\nJMP 0\nDB 41H";

// Addresses, and what is there: the line of an instruction that starts, a data cell, and whether it is code.
type There = (u16, Option<u32>, Option<Cell>, bool);

static THERE: [There; 7] = [
    (0xFF, None, None, false),
    (0x100, Some(2), None, true),
    (0x102, Some(3), None, true),
    (0x103, None, None, true),
    (0x107, Some(5), None, true),
    (0x109, None, None, true),
    (0x10A, None, Some(Cell::Num(0x41)), false),
];

// Whether this is the instruction that starts at one of these addresses, if one does.
fn is_instr_there(at: u16, instr: Option<Instr80>) -> bool {
    match at {
        0x100 => matches!(instr, Some(Instr80::Mvi(Src::Reg(Reg::C), 2))),
        0x102 => matches!(instr, Some(Instr80::Mvi(Src::Reg(Reg::E), 0x41))),
        0x107 => matches!(instr, Some(Instr80::Jmp(Goal::Boot))),
        _ => instr.is_none(),
    }
}

fn is_there(program: &Program80, there: &There) -> bool {
    let (at, line, cell, is_code) = *there;
    program.line_at(at) == line
        && is_instr_there(at, program.instr_at(at))
        && program.cell_at(at) == cell
        && program.is_code(at) == is_code
}

#[test]
fn a_program_answers_by_address(rt: HostRuntime) -> Result<(), Fail> {
    let mut lines = Lines::new(rt.alloc())?;
    lines.feed(ONE_LETTER)?;
    let program = assemble(rt.alloc(), &lines.finish()?, 0xF000)?;
    for there in &THERE {
        assert!(rt; is_there(&program, there));
    }
    assert!(rt;
        program.starts() == [0x100, 0x102, 0x104, 0x107].as_slice() && program.top() == 0xF000
    );
    Ok(())
}
