// The instructions of the 8086 that the texts use, and their encoding (Intel 8086 Family User's Manual, "Instruction set" and "Machine
// instruction encoding").
//
// Proved: `encode` gives the bytes of the table (`enc86`), 1 to 6 of them (`length_of`). `decode` and `decode_at` answer the one
// instruction that stands there, with its length, and None exactly where none stands. Laws: no encoding begins with another
// (`encodings_are_prefix_free`), and each code, as a list of bytes, has exactly one reading (`code_has_one_reader`).
#![tactic(auto)]

mod decoding;
mod encoding;

pub use decoding::{code_has_one_reader, decode, decode_at};
pub use encoding::{Code, encode, encodings_are_prefix_free, length_of};

/// A byte register.
#[derive(Clone, Copy, PartialEq, Eq)]
pub enum Reg8 {
    Al,
    Cl,
    Dl,
    Bl,
    Ah,
    Ch,
    Dh,
    Bh,
}

/// A word register.
#[derive(Clone, Copy, PartialEq, Eq)]
pub enum Reg16 {
    Ax,
    Cx,
    Dx,
    Bx,
    Sp,
    Si,
}

/// A word register that PUSH and POP take: SP is none.
#[derive(Clone, Copy)]
pub enum StackReg {
    Ax,
    Cx,
    Dx,
    Bx,
    Si,
}

/// The register that holds the address of a byte in memory: `BYTE PTR [BX]` or `BYTE PTR [SI]`.
#[derive(Clone, Copy, PartialEq, Eq)]
pub enum Ptr {
    Bx,
    Si,
}

/// A byte operand: a register, or a byte in memory.
#[derive(Clone, Copy)]
pub enum Operand8 {
    Reg(Reg8),
    Mem(Ptr),
}

/// A word operand: a register, or the word at a direct address, `WORD PTR .a`.
#[derive(Clone, Copy)]
pub enum Operand16 {
    Reg(Reg16),
    Direct(u16),
}

/// An operation of two operands on AL.
#[derive(Clone, Copy)]
pub enum AluOp {
    Add,
    Or,
    Adc,
    Sbb,
    And,
    Sub,
    Xor,
    Cmp,
}

/// INC or DEC.
#[derive(Clone, Copy)]
pub enum Count {
    Inc,
    Dec,
}

/// A rotation by one bit.
#[derive(Clone, Copy)]
pub enum Rotate {
    Rol,
    Ror,
    Rcl,
    Rcr,
}

/// A conditional jump.
#[derive(Clone, Copy, PartialEq, Eq)]
pub enum Jump {
    Jb,
    Jnb,
    Jz,
    Jnz,
    Js,
    Jns,
    Jp,
    Jnp,
}

/// An instruction. A displacement is the field's byte or word, counted from the next instruction modulo 65,536; a byte is
/// signed, so that 0FAH goes back by 6.
#[derive(Clone, Copy)]
pub enum Instr86 {
    /// `MOV r8,r8` and `MOV r8,BYTE PTR [p]`
    MovReg8(Reg8, Operand8),
    /// `MOV BYTE PTR [p],r8`
    MovMem8(Ptr, Reg8),
    /// `MOV AL,BYTE PTR .a`
    MovAlDirect(u16),
    /// `MOV BYTE PTR .a,AL`
    MovDirectAl(u16),
    /// `MOV r8,n`
    MovNum8(Reg8, u8),
    /// `MOV r16,w`
    MovNum16(Reg16, u16),
    /// `MOV BYTE PTR [p],n`
    MovMemNum(Ptr, u8),
    /// `MOV r16,r16` and `MOV r16,WORD PTR .a`
    MovReg16(Reg16, Operand16),
    /// `MOV WORD PTR .a,r16`
    MovDirect16(u16, Reg16),
    /// `MOV AX,DS`
    MovAxDs,
    /// `MOV SS,AX`
    MovSsAx,
    /// `ADD AL,r8` and the like, and with `BYTE PTR [p]`
    Alu(AluOp, Operand8),
    /// `ADD AL,n` and the like
    AluNum(AluOp, u8),
    /// `OR CL,CL`
    OrClCl,
    /// `ADD r16,r16`
    Add16(Reg16, Reg16),
    /// `INC` and `DEC` of a byte
    Count8(Count, Operand8),
    /// `INC` and `DEC` of a word register
    Count16(Count, Reg16),
    Push(StackReg),
    Pop(StackReg),
    Xchg8(Reg8, Reg8),
    Xchg16(Reg16, Reg16),
    /// `ROL r8,1` and the like
    Rotate8(Rotate, Reg8),
    /// `ROL r16,1` and the like
    Rotate16(Rotate, Reg16),
    /// `NOT r8`
    Not8(Reg8),
    Daa,
    Sahf,
    Lahf,
    Cmc,
    Stc,
    Nop,
    /// a conditional jump, short
    Jcc(Jump, u8),
    /// `JMP` near
    JmpNear(u16),
    /// `JMPS`, short
    JmpShort(u8),
    /// `JMP BX`
    JmpBx,
    /// `CALL` near
    CallNear(u16),
    Ret,
    /// `INT 224`, the call of the system
    Int224,
    /// `IN AL,n`: a byte of the port
    InAl(u8),
    /// `OUT n,AL`
    OutAl(u8),
}
