// What stands before and after the instructions of a program.
ghost use Rattle.std.specs.Prelude.{◌≡◌, ◌<◌};
ghost use Rattle.templates.specs.Plain.{prologue, runtime, ending};

use crate::sequence::Sequence;
use asm86_line_types::{Label, Stmt86};
use i86::{Instr86, Jump, Operand8, Operand16, Reg8, Reg16, StackReg};

/// What runs first: the top of the area into the word at 6, the data segment as stack segment, and the offset of the end
/// pushed, so that a return from the program ends it.
pub fn prologue(top: u16) -> Sequence
    ensures { result ≡ prologue top }
{
    Sequence::of(&[
        Stmt86::Run(Instr86::MovNum16(Reg16::Si, top)),
        Stmt86::Run(Instr86::MovDirect16(6, Reg16::Si)),
        Stmt86::Run(Instr86::MovAxDs),
        Stmt86::Run(Instr86::MovSsAx),
        Stmt86::Run(Instr86::MovReg16(Reg16::Sp, Operand16::Reg(Reg16::Si))),
        Stmt86::MovOffset(Reg16::Si, Label::End),
        Stmt86::Run(Instr86::Push(StackReg::Si)),
    ])
}

/// What a system call runs, and the end: the answers of CP/M-86 go where CP/M 2.2 has them, and function 0 ends (CP/M-86
/// System Guide, "BDOS calls").
pub fn runtime() -> Sequence
    ensures { result ≡ runtime }
{
    Sequence::of(&[
        Stmt86::Mark(Label::Sys),
        Stmt86::Run(Instr86::OrClCl),
        Stmt86::Jcc(Jump::Jz, Label::End),
        Stmt86::Run(Instr86::Int224),
        Stmt86::Run(Instr86::MovReg8(Reg8::Bl, Operand8::Reg(Reg8::Al))),
        Stmt86::Run(Instr86::MovReg8(Reg8::Ch, Operand8::Reg(Reg8::Bh))),
        Stmt86::Run(Instr86::Ret),
        Stmt86::Mark(Label::End),
        Stmt86::Run(Instr86::MovNum8(Reg8::Cl, 0)),
        Stmt86::Run(Instr86::MovNum8(Reg8::Dl, 0)),
        Stmt86::Run(Instr86::Int224),
    ])
}

/// What stands last: room for the stack's last byte, which keeps the data group up to the top.
pub fn ending(top: u16) -> Sequence
    requires { 0 < top }
    ensures { result ≡ ending top }
{
    Sequence::of(&[Stmt86::Org(top - 1), Stmt86::Rb(1), Stmt86::EndText])
}
