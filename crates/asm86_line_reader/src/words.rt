//! Words.

ghost use Rattle.std.specs.Prelude.{◌≡◌, ◌++◌, map};
ghost use Rattle.asm86_line_reader.specs.Listed.{listed_token};
ghost use Rattle.asm86_line_reader.specs.Words.{lettered, word_in_table, name_token, instruction_words, numbered_label, others, word_token};

use crate::numbers::{number_of, value_in};
use crate::token::{Operation, Token};
use asm86_line_types::Label;
use i86::{AluOp, Count, Jump, Reg8, Reg16, Rotate};

/// Words and their tokens.
type Words<'a> = &'a [(&'a str, Token)];

/// The words of instructions, directives and operands, and the labels without a number, by the letter that they begin with, from A on.
static WORDS: [Words<'static>; 26] = [
    &[
        ("ADD", Token::Operation(Operation::Alu(AluOp::Add))),
        ("ADC", Token::Operation(Operation::Alu(AluOp::Adc))),
        ("AND", Token::Operation(Operation::Alu(AluOp::And))),
        ("AL", Token::Reg8(Reg8::Al)),
        ("AH", Token::Reg8(Reg8::Ah)),
        ("AX", Token::Reg16(Reg16::Ax)),
    ],
    &[
        ("BL", Token::Reg8(Reg8::Bl)),
        ("BH", Token::Reg8(Reg8::Bh)),
        ("BX", Token::Reg16(Reg16::Bx)),
        ("BYTE", Token::Byte),
    ],
    &[
        ("CMP", Token::Operation(Operation::Alu(AluOp::Cmp))),
        ("CMC", Token::Operation(Operation::Cmc)),
        ("CALL", Token::Operation(Operation::Call)),
        ("CSEG", Token::Operation(Operation::Cseg)),
        ("CL", Token::Reg8(Reg8::Cl)),
        ("CH", Token::Reg8(Reg8::Ch)),
        ("CX", Token::Reg16(Reg16::Cx)),
    ],
    &[
        ("DEC", Token::Operation(Operation::Count(Count::Dec))),
        ("DAA", Token::Operation(Operation::Daa)),
        ("DSEG", Token::Operation(Operation::Dseg)),
        ("DB", Token::Operation(Operation::Db)),
        ("DW", Token::Operation(Operation::Dw)),
        ("DL", Token::Reg8(Reg8::Dl)),
        ("DH", Token::Reg8(Reg8::Dh)),
        ("DX", Token::Reg16(Reg16::Dx)),
        ("DS", Token::Ds),
    ],
    &[("END", Token::Operation(Operation::End))],
    &[],
    &[],
    &[],
    &[
        ("INC", Token::Operation(Operation::Count(Count::Inc))),
        ("INT", Token::Operation(Operation::Int)),
        ("IN", Token::Operation(Operation::In)),
    ],
    &[
        ("JB", Token::Operation(Operation::Jcc(Jump::Jb))),
        ("JNB", Token::Operation(Operation::Jcc(Jump::Jnb))),
        ("JZ", Token::Operation(Operation::Jcc(Jump::Jz))),
        ("JNZ", Token::Operation(Operation::Jcc(Jump::Jnz))),
        ("JS", Token::Operation(Operation::Jcc(Jump::Js))),
        ("JNS", Token::Operation(Operation::Jcc(Jump::Jns))),
        ("JP", Token::Operation(Operation::Jcc(Jump::Jp))),
        ("JNP", Token::Operation(Operation::Jcc(Jump::Jnp))),
        ("JMP", Token::Operation(Operation::Jmp)),
        ("JMPS", Token::Operation(Operation::Jmps)),
    ],
    &[],
    &[("LAHF", Token::Operation(Operation::Lahf))],
    &[("MOV", Token::Operation(Operation::Mov))],
    &[
        ("NOT", Token::Operation(Operation::Not)),
        ("NOP", Token::Operation(Operation::Nop)),
    ],
    &[
        ("OR", Token::Operation(Operation::Alu(AluOp::Or))),
        ("OUT", Token::Operation(Operation::Out)),
        ("ORG", Token::Operation(Operation::Org)),
        ("OFFSET", Token::Offset),
    ],
    &[
        ("PUSH", Token::Operation(Operation::Push)),
        ("POP", Token::Operation(Operation::Pop)),
        ("PTR", Token::Ptr),
    ],
    &[],
    &[
        ("ROL", Token::Operation(Operation::Rotate(Rotate::Rol))),
        ("ROR", Token::Operation(Operation::Rotate(Rotate::Ror))),
        ("RCL", Token::Operation(Operation::Rotate(Rotate::Rcl))),
        ("RCR", Token::Operation(Operation::Rotate(Rotate::Rcr))),
        ("RET", Token::Operation(Operation::Ret)),
        ("RB", Token::Operation(Operation::Rb)),
    ],
    &[
        ("SBB", Token::Operation(Operation::Alu(AluOp::Sbb))),
        ("SUB", Token::Operation(Operation::Alu(AluOp::Sub))),
        ("SAHF", Token::Operation(Operation::Sahf)),
        ("STC", Token::Operation(Operation::Stc)),
        ("SP", Token::Reg16(Reg16::Sp)),
        ("SI", Token::Reg16(Reg16::Si)),
        ("SS", Token::Ss),
    ],
    &[],
    &[],
    &[],
    &[("WORD", Token::Word)],
    &[
        ("XOR", Token::Operation(Operation::Alu(AluOp::Xor))),
        ("XCHG", Token::Operation(Operation::Xchg)),
        ("X_SYS", Token::Label(Label::Sys)),
        ("X_END", Token::Label(Label::End)),
    ],
    &[],
    &[],
];

/// The token of a word, unless it begins with a digit and is no number.
pub fn word_token(word: &[u8]) -> Option<Token>
    ensures { result ≡ word_token word.now }
{
    match word {
        [b'0'..=b'9', ..] => Some(Token::Number(number_of(word)?)),
        _ => Some(name_token(word)),
    }
}

// The token of a word that begins with no digit.
fn name_token(word: &[u8]) -> Token
    ensures { result ≡ name_token word.now }
{
    if let Some(token) = listed(word) {
        return token;
    }
    match numbered(word) {
        Some(label) => Token::Label(label),
        None => Token::Unknown,
    }
}

fn listed(word: &[u8]) -> Option<Token>
    ensures { result ≡ word_in_table (instruction_words ++ others) word.now }
{
    listed_in(&WORDS, word)
}

// The token under a word in the list of its first letter.
fn listed_in(lists: &[Words<'_>], word: &[u8]) -> Option<Token>
    ensures { result ≡ listed_token (map (λ l. map (λ e. (e.0.now, e.1)) l.now) lists.now) word.now }
{
    let letter = *word.first()?;
    if letter < b'A' {
        return None;
    }
    look(lists.get(usize::from(letter - b'A'))?, word)
}

fn look(table: &[(&str, Token)], word: &[u8]) -> Option<Token>
    ensures { result ≡ word_in_table (map (λ e. (e.0.now, e.1)) table.now) word.now }
{
    for (name, token) in table {
        if name.as_bytes() == word {
            return Some(*token);
        }
    }
    None
}

// The label that L, K or U with four hexadecimal digits is.
fn numbered(word: &[u8]) -> Option<Label>
    ensures { result ≡ numbered_label word.now }
{
    match word {
        [letter, digits @ ..] if digits.len() == 4 => lettered(*letter, value_in(16, digits)?),
        _ => None,
    }
}

fn lettered(letter: u8, number: u16) -> Option<Label>
    ensures { result ≡ lettered letter number }
{
    match letter {
        b'L' => Some(Label::At(number)),
        b'K' => Some(Label::Skip(number)),
        b'U' => Some(Label::User(number)),
        _ => None,
    }
}
