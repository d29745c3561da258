//! One line.

ghost use Rattle.std.specs.Prelude.{◌↔◌, ◌≤◌, All, IsTrue, OnOk, map};
ghost use Rattle.asm80_text.specs.Tokens.{IsLawful};
ghost use Rattle.asm80_types.specs.WellFormed.{AreWellFormed};
ghost use Rattle.asm80_text.specs.Line.{IsRemark};
ghost use Rattle.asm80_text.specs.Results.{ReadsLine, ReadsText};

use crate::parts::{has_bang, parts_of, some_has_reserved_label, some_is_deep, statements};
use crate::{Notation, ParseFault, Token, tokens_of};
use asm80_types::{LineRule, ReadFault, Stmt80};
use std::alloc::Global;

/// The most lines of a source.
pub const MOST_LINES: u32 = 32_768;

/// The most bytes of a line, its LF or CR LF not counted.
const LONGEST_LINE: usize = 255;

/// Adds the statements of the line of a number. The tokens are room that a line may use.
pub fn read_line<N: Notation>(
    alloc: Global,
    number: u32,
    line: &[u8],
    tokens: &mut Vec<Token>,
    found: &mut Vec<Stmt80>,
) -> Result<(), ReadFault>
    requires { AreWellFormed found.old.items }
    ensures value { ReadsLine N.spelling number line.now found.old.items found.new.items result }
    ensures few { OnOk result (number ≤ 32768) }
    ensures well_formed { AreWellFormed found.new.items }
{
    if number > MOST_LINES {
        return Err(ReadFault::Syntax(number, LineRule::L8));
    }
    if line.len() > LONGEST_LINE {
        return Err(ReadFault::Syntax(number, LineRule::L7));
    }
    if is_remark(line) {
        return Ok(());
    }
    let fault = tokens_of::<N>(alloc, line, tokens)?;
    if has_bang(tokens) {
        let parts = parts_of::<N>(alloc, tokens)?;
        return read_text::<N>(alloc, number, &parts, fault, found);
    }
    let whole = [tokens.as_slice()];
    read_text::<N>(alloc, number, &whole, fault, found)
}

// Adds the statements of tokens up to the first token with a fault, and of that fault.
fn read_text<N: Notation>(
    alloc: Global,
    number: u32,
    parts: &[&[Token]],
    fault: Option<LineRule>,
    found: &mut Vec<Stmt80>,
) -> Result<(), ReadFault>
    requires lawful { All (λ part. All (IsLawful N.spelling) part.now) parts.now }
    requires well_formed { AreWellFormed found.old.items }
    ensures value { ReadsText N.spelling number (map (λ x. x.now) parts.now) fault found.old.items found.new.items result }
    ensures well_formed { AreWellFormed found.new.items }
{
    if some_has_reserved_label::<N>(parts) {
        return Err(ReadFault::Syntax(number, LineRule::L4));
    }
    if let Some(rule) = fault {
        return Err(ReadFault::Syntax(number, rule));
    }
    if some_is_deep(parts) {
        return Err(ReadFault::Syntax(number, LineRule::L6));
    }
    match statements::<N>(alloc, number, parts, found) {
        Ok(()) => Ok(()),
        Err(fault) => match fault {
            ParseFault::Malformed => Err(ReadFault::Syntax(number, LineRule::L5)),
            ParseFault::Memory => Err(ReadFault::Memory),
        },
    }
}

// Whether a line is a comment line.
fn is_remark(line: &[u8]) -> bool
    ensures { IsTrue result ↔ IsRemark line.now }
{
    match line {
        [first, ..] => *first == b'*',
        [] => false,
    }
}
