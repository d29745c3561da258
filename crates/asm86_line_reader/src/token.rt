//! The words, numbers and signs of a line, and the operands that they form.

use asm86_line_types::Label;
use i86::{AluOp, Count, Jump, Ptr, Reg8, Reg16, Rotate};

/// A word that begins a statement: the operation of an instruction, or a directive.
#[derive(Clone, Copy)]
pub enum Operation {
    Mov,
    /// `ADD` and the like
    Alu(AluOp),
    /// `INC`, `DEC`
    Count(Count),
    Push,
    Pop,
    Xchg,
    /// `ROL` and the like
    Rotate(Rotate),
    Not,
    In,
    Out,
    Daa,
    Sahf,
    Lahf,
    Cmc,
    Stc,
    Nop,
    Ret,
    Int,
    Jmp,
    Jmps,
    Call,
    /// `JB` and the like
    Jcc(Jump),
    Cseg,
    Dseg,
    Org,
    Rb,
    Db,
    Dw,
    End,
}

/// A word, a number or a sign.
#[derive(Clone, Copy)]
pub enum Token {
    Operation(Operation),
    Reg8(Reg8),
    Reg16(Reg16),
    /// the segment register `DS`
    Ds,
    /// the segment register `SS`
    Ss,
    Byte,
    Word,
    Ptr,
    Offset,
    Label(Label),
    Number(u16),
    /// a word that means nothing
    Unknown,
    Colon,
    Comma,
    Dot,
    /// `[`
    Open,
    /// `]`
    Close,
}

/// An operand.
#[derive(Clone, Copy)]
pub enum Operand {
    Reg8(Reg8),
    Reg16(Reg16),
    Ds,
    Ss,
    Number(u16),
    Label(Label),
    /// `OFFSET label`
    Offset(Label),
    /// `BYTE PTR [BX]`, `BYTE PTR [SI]`
    Mem(Ptr),
    /// `BYTE PTR .a`
    DirectByte(u16),
    /// `WORD PTR .a`
    DirectWord(u16),
}
