// Statements of an ASM-86 text (CP/M-86 Programmer's Guide, "ASM-86"; the forms are this project's profile).
pub use i86::Jump;
use i86::{Instr86, Reg16};

/// A label: `Lhhhh` of an 8080 address, `Khhhh` past a conditional jump, `Uhhhh` of a user, `X_SYS`, `X_END`.
#[derive(Clone, Copy, PartialEq, Eq, Hash)]
pub enum Label {
    At(u16),
    Skip(u16),
    User(u16),
    Sys,
    End,
}

/// A word: a number, or the offset of a label.
#[derive(Clone, Copy, PartialEq, Eq)]
pub enum Value16 {
    Num(u16),
    Offset(Label),
}

/// A statement. A `Run` never holds a jump or call with a displacement: these name their labels.
#[derive(Clone, Copy, PartialEq, Eq)]
pub enum Stmt86 {
    Cseg,
    Dseg,
    Org(u16),
    Rb(u16),
    Db(u8),
    Dw(Value16),
    /// a label in front of what follows
    Mark(Label),
    Run(Instr86),
    /// `MOV r16,OFFSET label`
    MovOffset(Reg16, Label),
    Jmp(Label),
    /// a short jump
    Jmps(Label),
    Jcc(Jump, Label),
    Call(Label),
    EndText,
}

/// A statement with the number of its line, from 1.
#[derive(Clone, Copy, PartialEq, Eq)]
pub struct Line86 {
    pub line: u32,
    pub stmt: Stmt86,
}

/// The rules of ASM-86 text.
#[derive(Clone, Copy, Debug, PartialEq, Eq)]
pub enum TextRule {
    /// A byte that may not stand in a text, a word that begins with a digit and is no number or is above 65,535, a number
    /// above 255 where a byte is needed, or a line above 255 bytes.
    M1,
    /// The words of a line form no statement.
    M2,
    /// A label is defined again.
    M3,
    /// A label is used and not defined.
    M4,
    /// A statement outside its group, a second CSEG or DSEG, or a data cell below 100H, above 0FFFFH or filled before.
    M5,
    /// No END; its line is told as 0.
    M6,
}
