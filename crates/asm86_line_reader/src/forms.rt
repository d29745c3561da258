//! The forms of a statement: an operation with its operands.

ghost use Rattle.std.specs.Prelude.{◌≡◌};
ghost use Rattle.asm86_line_reader.specs.Forms.{bare, interrupt, jumped, with_one, with_two};
ghost use Rattle.asm86_line_reader.specs.Results.{checked};

use crate::computations::{computed, counted, exchanged, inverted, popped, pushed, rotated};
use crate::moves::moved;
use crate::ports::{received, sent};
use crate::token::{Operand, Operation};
use asm86_line_types::{Stmt86, TextRule};
use i86::{Instr86, Reg16};

/// The statement of an operation with no operand.
pub fn bare(operation: Operation) -> Result<Stmt86, TextRule>
    ensures { result ≡ checked (bare operation) }
{
    match operation {
        Operation::Daa => Ok(Stmt86::Run(Instr86::Daa)),
        Operation::Sahf => Ok(Stmt86::Run(Instr86::Sahf)),
        Operation::Lahf => Ok(Stmt86::Run(Instr86::Lahf)),
        Operation::Cmc => Ok(Stmt86::Run(Instr86::Cmc)),
        Operation::Stc => Ok(Stmt86::Run(Instr86::Stc)),
        Operation::Nop => Ok(Stmt86::Run(Instr86::Nop)),
        Operation::Ret => Ok(Stmt86::Run(Instr86::Ret)),
        Operation::Cseg => Ok(Stmt86::Cseg),
        Operation::Dseg => Ok(Stmt86::Dseg),
        Operation::End => Ok(Stmt86::EndText),
        _ => Err(TextRule::M2),
    }
}

/// The statement of an operation with one operand.
pub fn with_one(operation: Operation, operand: Operand) -> Result<Stmt86, TextRule>
    ensures { result ≡ checked (with_one operation operand) }
{
    match (operation, operand) {
        (Operation::Count(by), _) => counted(by, operand),
        (Operation::Push, _) => pushed(operand),
        (Operation::Pop, _) => popped(operand),
        (Operation::Not, _) => inverted(operand),
        (Operation::Int, _) => interrupt(operand),
        (Operation::Jmp, _) => jumped(operand),
        (Operation::Jmps, Operand::Label(label)) => Ok(Stmt86::Jmps(label)),
        (Operation::Call, Operand::Label(label)) => Ok(Stmt86::Call(label)),
        (Operation::Jcc(on), Operand::Label(label)) => Ok(Stmt86::Jcc(on, label)),
        (Operation::Org, Operand::Number(n)) => Ok(Stmt86::Org(n)),
        (Operation::Rb, Operand::Number(n)) => Ok(Stmt86::Rb(n)),
        _ => Err(TextRule::M2),
    }
}

/// The statement of an operation with two operands.
pub fn with_two(operation: Operation, first: Operand, second: Operand) -> Result<Stmt86, TextRule>
    ensures { result ≡ checked (with_two operation first second) }
{
    match operation {
        Operation::Mov => moved(first, second),
        Operation::Alu(op) => computed(op, first, second),
        Operation::Xchg => exchanged(first, second),
        Operation::Rotate(by) => rotated(by, first, second),
        Operation::In => received(first, second),
        Operation::Out => sent(first, second),
        _ => Err(TextRule::M2),
    }
}

// INT 224.
fn interrupt(operand: Operand) -> Result<Stmt86, TextRule>
    ensures { result ≡ checked (interrupt operand) }
{
    match operand {
        Operand::Number(224) => Ok(Stmt86::Run(Instr86::Int224)),
        _ => Err(TextRule::M2),
    }
}

// JMP to a label, and to BX.
fn jumped(operand: Operand) -> Result<Stmt86, TextRule>
    ensures { result ≡ checked (jumped operand) }
{
    match operand {
        Operand::Label(label) => Ok(Stmt86::Jmp(label)),
        Operand::Reg16(Reg16::Bx) => Ok(Stmt86::Run(Instr86::JmpBx)),
        _ => Err(TextRule::M2),
    }
}
