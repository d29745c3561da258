// Which statements may be left out at all.
ghost use Rattle.std.specs.Prelude.{◌≡◌};
ghost use Rattle.shrink.specs.Candidates.{has_memory, is_kept_always, is_candidate};

use asm86_line_types::Stmt86;
use i86::{Instr86, Operand8, Operand16};

/// Whether a statement is an instruction that may be left out where the check does without it.
pub fn is_candidate(stmt: Stmt86) -> bool
    ensures { result ≡ is_candidate stmt }
{
    match stmt {
        Stmt86::Run(instr) => !(has_memory(instr) || is_kept_always(instr)),
        _ => false,
    }
}

// Whether an instruction has a memory operand.
fn has_memory(instr: Instr86) -> bool
    ensures { result ≡ has_memory instr }
{
    match instr {
        Instr86::MovReg8(_, Operand8::Mem(_))
        | Instr86::MovMem8(..)
        | Instr86::MovAlDirect(_)
        | Instr86::MovDirectAl(_)
        | Instr86::MovMemNum(..)
        | Instr86::MovReg16(_, Operand16::Direct(_))
        | Instr86::MovDirect16(..)
        | Instr86::Alu(_, Operand8::Mem(_))
        | Instr86::Count8(_, Operand8::Mem(_)) => true,
        _ => false,
    }
}

// Whether it pushes, pops, goes elsewhere, asks the system or a port, or moves a segment register.
fn is_kept_always(instr: Instr86) -> bool
    ensures { result ≡ is_kept_always instr }
{
    matches!(
        instr,
        Instr86::Push(_)
            | Instr86::Pop(_)
            | Instr86::Ret
            | Instr86::Int224
            | Instr86::JmpBx
            | Instr86::InAl(_)
            | Instr86::OutAl(_)
            | Instr86::MovAxDs
            | Instr86::MovSsAx
    )
}
