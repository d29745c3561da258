//! The tokens of a line.

use asm80_types::{Bytes, Name80, Two};

/// A token of a line: its smallest part that has a meaning.
#[derive(Drop)]
pub enum Token {
    /// A number of digits alone, which may be a line number.
    Digits(u16),
    /// A number with the letter of its base, or the byte of a string of one character.
    Num(u16),
    /// `$` alone.
    Here,
    /// A name that is not reserved.
    Word(Name80),
    /// The name of a register or a register pair.
    Register(Name80),
    /// The name of an operation.
    Operation(Name80),
    /// A string of 2 to 64 characters.
    Text(Bytes),
    /// An operator of two operands; `+` and `-` may also be signs.
    Op(Two),
    Not,
    Open,
    Close,
    Comma,
    Colon,
    /// `!`, which parts the statements of a line.
    Bang,
    /// A byte that may stand in a source and means nothing there, as `#`.
    Stray,
}
