// What the operations of the source are.
use cells::Cond;
use i80::{Instr80, Op};

/// What an operation is: a directive of the assembler, or an instruction, told by the operands that it takes.
#[derive(Clone, Copy)]
pub enum Operation {
    Org,
    End,
    Equ,
    Set,
    If,
    EndIf,
    Db,
    Dw,
    Ds,
    /// An instruction without operands.
    Bare(Instr80),
    /// HLT, EI or DI, which have no operands and are not of the profile.
    Foreign,
    Mov,
    Mvi,
    Lxi,
    Lda,
    Sta,
    Lhld,
    Shld,
    Ldax,
    Stax,
    /// ADD to CMP, of a register or M.
    Alu(Op),
    /// ADI to CPI, of an immediate byte.
    AluI(Op),
    Inr,
    Dcr,
    Inx,
    Dcx,
    Dad,
    Push,
    Pop,
    Jmp,
    Jif(Cond),
    Call,
    Cif(Cond),
    Rst,
    /// IN, with its port.
    In,
    /// OUT, with its port.
    Out,
}

/// What an operand is of an instruction.
#[derive(Clone, Copy, PartialEq, Eq)]
pub enum Kind {
    /// A register, or M.
    Register,
    /// A register pair, by its first register, or SP.
    Pair,
    /// BC or DE, as LDAX and STAX take them.
    Indirect,
    /// BC, DE, HL or PSW, as PUSH and POP take them.
    Stack,
    /// An immediate byte, or a port.
    Byte,
    /// The immediate word of LXI.
    Word,
    /// The address of a cell.
    Address,
    /// The address that a jump or call goes to.
    Target,
    /// The number of RST.
    Restart,
}
