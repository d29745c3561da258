//! How a source is spelt.

use crate::fault::ParseFault;
use crate::token::Token;
use asm80_types::{Arg, Name80};
use std::alloc::Global;

/// A spelling of sources: its reserved words, and the form of its statements. All else of lines is the same in each.
pub trait Notation {
    ghost use Rattle.std.specs.Prelude.{◌≡◌};
    ghost use Rattle.asm80_text.specs.Spelling.{Spelling};
    ghost use Rattle.asm80_text.specs.TokenResults.{GivesOperation};
    ghost use Rattle.asm80_text.specs.Coherent.{IsCoherent};

    // The words and the forms, as a definition.
    ghost spelling: { Spelling };

    /// Whether a word is an operation where a statement has its operation.
    fn is_operation(word: &[u8]) -> bool
        ensures { result ≡ spelling.is_operation word.now };

    /// Whether a word is reserved that is neither an operation nor an operator.
    fn is_register(word: &[u8]) -> bool
        ensures { result ≡ spelling.is_register word.now };

    /// The operation and the operands that a word as the operation and all of the tokens after it are.
    fn operation(
        alloc: Global,
        word: &Name80,
        tokens: &[Token],
    ) -> Result<(Name80, Vec<Arg>), ParseFault>
        ensures { GivesOperation spelling word.now tokens.now result };

    /// A law: statements in this spelling can be assembled, and their tokens are one statement.
    fn spelling_is_coherent()
        ensures { IsCoherent spelling };
}
