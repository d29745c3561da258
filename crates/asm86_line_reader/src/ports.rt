//! The forms of IN and OUT.

ghost use Rattle.std.specs.Prelude.{◌≡◌};
ghost use Rattle.asm86_line_reader.specs.Forms.{received, sent};
ghost use Rattle.asm86_line_reader.specs.Results.{checked};

use crate::bytes::byte;
use crate::token::Operand;
use asm86_line_types::{Stmt86, TextRule};
use i86::{Instr86, Reg8};

/// IN: a byte of a port into AL.
pub fn received(to: Operand, from: Operand) -> Result<Stmt86, TextRule>
    ensures { result ≡ checked (received to from) }
{
    match (to, from) {
        (Operand::Reg8(Reg8::Al), Operand::Number(n)) => Ok(Stmt86::Run(Instr86::InAl(byte(n)?))),
        _ => Err(TextRule::M2),
    }
}

/// OUT: AL to a port.
pub fn sent(to: Operand, from: Operand) -> Result<Stmt86, TextRule>
    ensures { result ≡ checked (sent to from) }
{
    match (to, from) {
        (Operand::Number(n), Operand::Reg8(Reg8::Al)) => Ok(Stmt86::Run(Instr86::OutAl(byte(n)?))),
        _ => Err(TextRule::M2),
    }
}
