//! Zilog's spelling.

use crate::instruction::instruction;
use crate::table::is_directive;
use asm80_text::{Arg, LineReader, Name80, Notation, ParseFault, Token, operand_list};
use std::alloc::Global;

/// Zilog's spelling of the 8080's instructions (Zilog, Z80 CPU User Manual). Statements are given in Intel's.
#[derive(Drop)]
pub struct Zilog;

/// A reader of sources in Zilog's spelling.
pub type ZLines = LineReader<Zilog>;

impl Notation for Zilog {
    ghost use Rattle.zilog80.specs.Zilog.{zilog_spelling};

    ghost spelling = { zilog_spelling };

    fn is_operation(word: &[u8]) -> bool {
        // (most registers are one letter, and no operation is)
        word.len() > 1 && crate::table::is_operation(word)
    }

    fn is_register(word: &[u8]) -> bool {
        crate::table::is_register(word)
    }

    fn operation(
        alloc: Global,
        word: &Name80,
        tokens: &[Token],
    ) -> Result<(Name80, Vec<Arg>), ParseFault> {
        if is_directive(word.as_slice()) {
            let args = operand_list(alloc, tokens)?;
            Ok((*word, args))
        } else {
            instruction(alloc, word, tokens)
        }
    }

    fn spelling_is_coherent() {}
}
