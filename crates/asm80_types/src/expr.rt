//! Expressions.

use crate::name::Name80;

/// An operator of two operands (CP/M 2.2 Operating System Manual, the assembler, "Arithmetic and logical operators").
#[derive(Clone, Copy, PartialEq, Eq)]
pub enum Two {
    Mul,
    Div,
    Mod,
    Shl,
    Shr,
    Add,
    Sub,
    And,
    Or,
    Xor,
}

/// An expression. Parentheses and a plus sign before a term leave no trace in it.
#[derive(Drop)]
pub enum Expr {
    /// A number, or the byte of a string of one character.
    Num(u16),
    /// `$`: the address of the statement's first byte.
    Here,
    /// A name, or a register's name.
    Name(Name80),
    Not(Box<Expr>),
    Neg(Box<Expr>),
    Two(Two, Box<Expr>, Box<Expr>),
}
