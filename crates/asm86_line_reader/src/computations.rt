//! The forms of operations on registers: ADD and the like, INC and DEC, NOT, the rotations, XCHG, PUSH and POP.

ghost use Rattle.std.specs.Prelude.{◌≡◌};
ghost use Rattle.asm86_line_reader.specs.Forms.{computed, counted, exchanged, inverted, on_al, popped, pushed, rotated, stacked};
ghost use Rattle.asm86_line_reader.specs.Results.{checked, or_m2};

use crate::bytes::byte;
use crate::token::Operand;
use asm86_line_types::{Stmt86, TextRule};
use i86::{AluOp, Count, Instr86, Operand8, Reg8, Reg16, Rotate, StackReg};

/// ADD and the like: on AL, `OR CL,CL`, and `ADD r16,r16`.
pub fn computed(op: AluOp, to: Operand, from: Operand) -> Result<Stmt86, TextRule>
    ensures { result ≡ checked (computed op to from) }
{
    match (op, to, from) {
        (_, Operand::Reg8(Reg8::Al), _) => on_al(op, from),
        (AluOp::Or, Operand::Reg8(Reg8::Cl), Operand::Reg8(Reg8::Cl)) => Ok(Stmt86::Run(
            Instr86::OrClCl,
        )),
        (AluOp::Add, Operand::Reg16(to), Operand::Reg16(from)) => Ok(Stmt86::Run(Instr86::Add16(
            to, from,
        ))),
        _ => Err(TextRule::M2),
    }
}

fn on_al(op: AluOp, from: Operand) -> Result<Stmt86, TextRule>
    ensures { result ≡ checked (on_al op from) }
{
    match from {
        Operand::Reg8(reg) => Ok(Stmt86::Run(Instr86::Alu(op, Operand8::Reg(reg)))),
        Operand::Mem(ptr) => Ok(Stmt86::Run(Instr86::Alu(op, Operand8::Mem(ptr)))),
        Operand::Number(n) => Ok(Stmt86::Run(Instr86::AluNum(op, byte(n)?))),
        _ => Err(TextRule::M2),
    }
}

/// INC and DEC.
pub fn counted(by: Count, operand: Operand) -> Result<Stmt86, TextRule>
    ensures { result ≡ checked (counted by operand) }
{
    match operand {
        Operand::Reg8(reg) => Ok(Stmt86::Run(Instr86::Count8(by, Operand8::Reg(reg)))),
        Operand::Mem(ptr) => Ok(Stmt86::Run(Instr86::Count8(by, Operand8::Mem(ptr)))),
        Operand::Reg16(reg) => Ok(Stmt86::Run(Instr86::Count16(by, reg))),
        _ => Err(TextRule::M2),
    }
}

/// NOT.
pub fn inverted(operand: Operand) -> Result<Stmt86, TextRule>
    ensures { result ≡ checked (inverted operand) }
{
    match operand {
        Operand::Reg8(reg) => Ok(Stmt86::Run(Instr86::Not8(reg))),
        _ => Err(TextRule::M2),
    }
}

/// The rotations, by 1.
pub fn rotated(by: Rotate, operand: Operand, times: Operand) -> Result<Stmt86, TextRule>
    ensures { result ≡ checked (rotated by operand times) }
{
    match (operand, times) {
        (Operand::Reg8(reg), Operand::Number(1)) => Ok(Stmt86::Run(Instr86::Rotate8(by, reg))),
        (Operand::Reg16(reg), Operand::Number(1)) => Ok(Stmt86::Run(Instr86::Rotate16(by, reg))),
        _ => Err(TextRule::M2),
    }
}

/// XCHG.
pub fn exchanged(first: Operand, second: Operand) -> Result<Stmt86, TextRule>
    ensures { result ≡ checked (exchanged first second) }
{
    match (first, second) {
        (Operand::Reg8(first), Operand::Reg8(second)) => Ok(Stmt86::Run(Instr86::Xchg8(
            first, second,
        ))),
        (Operand::Reg16(first), Operand::Reg16(second)) => Ok(Stmt86::Run(Instr86::Xchg16(
            first, second,
        ))),
        _ => Err(TextRule::M2),
    }
}

/// PUSH.
pub fn pushed(operand: Operand) -> Result<Stmt86, TextRule>
    ensures { result ≡ checked (pushed operand) }
{
    match operand {
        Operand::Reg16(reg) => Ok(Stmt86::Run(Instr86::Push(stacked(reg)?))),
        _ => Err(TextRule::M2),
    }
}

/// POP.
pub fn popped(operand: Operand) -> Result<Stmt86, TextRule>
    ensures { result ≡ checked (popped operand) }
{
    match operand {
        Operand::Reg16(reg) => Ok(Stmt86::Run(Instr86::Pop(stacked(reg)?))),
        _ => Err(TextRule::M2),
    }
}

// The registers that PUSH and POP take.
fn stacked(reg: Reg16) -> Result<StackReg, TextRule>
    ensures { result ≡ or_m2 (stacked reg) }
{
    match reg {
        Reg16::Ax => Ok(StackReg::Ax),
        Reg16::Cx => Ok(StackReg::Cx),
        Reg16::Dx => Ok(StackReg::Dx),
        Reg16::Bx => Ok(StackReg::Bx),
        Reg16::Si => Ok(StackReg::Si),
        Reg16::Sp => Err(TextRule::M2),
    }
}
