//! The forms of MOV.

ghost use Rattle.std.specs.Prelude.{◌≡◌};
ghost use Rattle.asm86_line_reader.specs.Forms.{into_mem, into_reg16, into_reg8, moved};
ghost use Rattle.asm86_line_reader.specs.Results.{checked};

use crate::bytes::byte;
use crate::token::Operand;
use asm86_line_types::{Stmt86, TextRule};
use i86::{Instr86, Operand8, Operand16, Ptr, Reg8, Reg16};

pub fn moved(to: Operand, from: Operand) -> Result<Stmt86, TextRule>
    ensures { result ≡ checked (moved to from) }
{
    match (to, from) {
        (Operand::Reg8(reg), _) => into_reg8(reg, from),
        (Operand::Reg16(reg), _) => into_reg16(reg, from),
        (Operand::Mem(ptr), _) => into_mem(ptr, from),
        (Operand::DirectByte(address), Operand::Reg8(Reg8::Al)) => Ok(Stmt86::Run(
            Instr86::MovDirectAl(address),
        )),
        (Operand::DirectWord(address), Operand::Reg16(reg)) => Ok(Stmt86::Run(Instr86::MovDirect16(
            address, reg,
        ))),
        (Operand::Ss, Operand::Reg16(Reg16::Ax)) => Ok(Stmt86::Run(Instr86::MovSsAx)),
        _ => Err(TextRule::M2),
    }
}

fn into_reg8(to: Reg8, from: Operand) -> Result<Stmt86, TextRule>
    ensures { result ≡ checked (into_reg8 to from) }
{
    match from {
        Operand::Reg8(reg) => Ok(Stmt86::Run(Instr86::MovReg8(to, Operand8::Reg(reg)))),
        Operand::Mem(ptr) => Ok(Stmt86::Run(Instr86::MovReg8(to, Operand8::Mem(ptr)))),
        Operand::Number(n) => Ok(Stmt86::Run(Instr86::MovNum8(to, byte(n)?))),
        Operand::DirectByte(address) if to == Reg8::Al => Ok(Stmt86::Run(Instr86::MovAlDirect(
            address,
        ))),
        _ => Err(TextRule::M2),
    }
}

fn into_reg16(to: Reg16, from: Operand) -> Result<Stmt86, TextRule>
    ensures { result ≡ checked (into_reg16 to from) }
{
    match from {
        Operand::Reg16(reg) => Ok(Stmt86::Run(Instr86::MovReg16(to, Operand16::Reg(reg)))),
        Operand::DirectWord(address) => Ok(Stmt86::Run(Instr86::MovReg16(
            to,
            Operand16::Direct(address),
        ))),
        Operand::Number(w) => Ok(Stmt86::Run(Instr86::MovNum16(to, w))),
        Operand::Offset(label) => Ok(Stmt86::MovOffset(to, label)),
        Operand::Ds if to == Reg16::Ax => Ok(Stmt86::Run(Instr86::MovAxDs)),
        _ => Err(TextRule::M2),
    }
}

fn into_mem(to: Ptr, from: Operand) -> Result<Stmt86, TextRule>
    ensures { result ≡ checked (into_mem to from) }
{
    match from {
        Operand::Reg8(reg) => Ok(Stmt86::Run(Instr86::MovMem8(to, reg))),
        Operand::Number(n) => Ok(Stmt86::Run(Instr86::MovMemNum(to, byte(n)?))),
        _ => Err(TextRule::M2),
    }
}
