//! Intel's spelling.

use crate::parse::operand_list;
use crate::{Notation, ParseFault, Token};
use asm80_types::{Arg, Name80};
use std::alloc::Global;

/// Intel's spelling, which is that of the statements themselves (Intel 8080 Assembly Language Programming Manual, chapter 2).
#[derive(Drop)]
pub struct Intel;

impl Notation for Intel {
    ghost use Rattle.asm80_text.specs.Intel.{intel_spelling};

    ghost spelling = { intel_spelling };

    fn is_operation(word: &[u8]) -> bool {
        // (most registers are one letter, and no operation is)
        word.len() > 1 && asm80_types::is_operation(word)
    }

    fn is_register(word: &[u8]) -> bool {
        asm80_types::is_register(word)
    }

    fn operation(
        alloc: Global,
        word: &Name80,
        tokens: &[Token],
    ) -> Result<(Name80, Vec<Arg>), ParseFault> {
        let args = operand_list(alloc, tokens)?;
        Ok((*word, args))
    }

    fn spelling_is_coherent() {}
}
