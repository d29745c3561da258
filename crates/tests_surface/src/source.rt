// From a source to its program: `asm80_text` and `asm80_values`.
use asm80_text::{Arg, Args, Bytes, Expr, LineRule, Lines, Name80, ReadFault, Stmt80, Two};
use asm80_values::{AsmFault, AsmRule, Program80, assemble};
use cells::Cell;
use i80::{Instr80, Reg, Src};
use std::alloc::{AllocError, Global};
use std::test::Fail;

/// Prints the letter A and ends; behind it stands one data cell.
pub const SOURCE: &[u8] =
    b"ORG 100H\nMVI C,2\nMVI E,'A'\nCALL 5\nJMP 0\nLAST: DB 'A'+1,'TWO'\nEND\n";

fn statements(alloc: Global, source: &[u8]) -> Result<Vec<Stmt80>, ReadFault> {
    let mut lines: Lines = Lines::new(alloc)?;
    lines.feed(source)?;
    lines.finish()
}

/// The program of that source, below 0F000H.
pub fn program(alloc: Global) -> Result<Program80, Fail> {
    program_of(alloc, SOURCE)
}

/// The program of a source, below 0F000H.
pub fn program_of(alloc: Global, source: &[u8]) -> Result<Program80, Fail> {
    let Ok(statements) = statements(alloc, source) else {
        return Err("the statements")?;
    };
    match assemble(alloc, statements.as_slice(), 0xF000) {
        Ok(program) => Ok(program),
        Err(_) => Err("the program")?,
    }
}

#[test]
fn lines_are_statements(rt: HostRuntime) -> Result<(), Fail> {
    let Ok(found) = statements(rt.alloc(), SOURCE) else {
        return Err("the statements")?;
    };
    let last = found.as_slice().get(5).ok_or("six statements")?;
    assert!(rt; last.line == 6);
    let label = last.label.ok_or("a label")?;
    assert!(rt; label.as_slice() == b"LAST".as_slice() && label == Name80::of(b"LAST"));
    let args: &Args = &last.args;
    let [Arg::Value(Expr::Two(Two::Add, _, one)), Arg::Text(text)] = args.as_slice() else {
        return Err("a sum and a text")?;
    };
    assert!(rt; matches!(**one, Expr::Num(1)));
    assert!(rt; text.as_slice() == b"TWO".as_slice());
    Ok(())
}

#[test]
fn the_same_parts_by_hand(rt: HostRuntime) -> Result<(), AllocError> {
    let alloc = rt.alloc();
    let text = Bytes::from_vec(Vec::from_slice(alloc, b"TWO")?);
    let mut args = Vec::new(alloc);
    args.push(Arg::Text(text))?;
    assert!(rt; Args::from_vec(args).as_slice().len() == 1);
    Ok(())
}

#[test]
fn faults_have_lines_and_rules(rt: HostRuntime) -> Result<(), AllocError> {
    let alloc = rt.alloc();
    let mut lines = Lines::new(alloc)?;
    assert!(rt; lines.feed(b"NOP\nNOP #\n") == Err(ReadFault::Syntax(2, LineRule::L5)));
    let mut lines = Lines::new(alloc)?;
    assert!(rt; lines.feed(b"ORG 100H\nJMP X\nEND\n").is_ok());
    let Ok(statements) = lines.finish() else {
        return Err(AllocError);
    };
    let refused = assemble(alloc, statements.as_slice(), 0xF000).err();
    assert!(rt; refused == Some(AsmFault::Refused(2, AsmRule::V1)));
    Ok(())
}

#[test]
fn a_program_is_read(rt: HostRuntime) -> Result<(), Fail> {
    let program = program(rt.alloc())?;
    assert!(rt;
        matches!(
            program.instr_at(0x100),
            Some(Instr80::Mvi(Src::Reg(Reg::C), 2))
        )
    );
    assert!(rt; program.line_at(0x104) == Some(4) && program.line_at(0x105).is_none());
    assert!(rt; program.cell_at(0x10A) == Some(Cell::Num(0x42)));
    assert!(rt; program.is_code(0x106) && !program.is_code(0x10A));
    assert!(rt; program.starts() == [0x100, 0x102, 0x104, 0x107].as_slice());
    assert!(rt; program.taken().is_empty());
    assert!(rt; program.cells().len() == 4);
    assert!(rt; program.top() == 0xF000);
    Ok(())
}
