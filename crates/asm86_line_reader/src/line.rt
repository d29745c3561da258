//! One line.

ghost use Rattle.std.specs.Prelude.{◌≡◌, ◌≢◌, ◌≤◌, ◌∷◌, ◌++◌, [], codes, ℕ, List, IsTrue, MatchOption, Ok, Result, length, map};
ghost use Rattle.std.specs.List.{list_all};
ghost use Rattle.asm86_line_types.specs.declared.line.Label.{Label};
ghost use Rattle.asm86_line_types.specs.declared.line.Stmt86.{Stmt86};
ghost use Rattle.asm86_line_types.specs.declared.line.TextRule.{TextRule};
ghost use Rattle.asm86_line_types.specs.Written.{written_line};
ghost use Rattle.asm86_line_reader.specs.declared.token.Token.{Token};
ghost use Rattle.asm86_line_reader.specs.Letters.{upper};
ghost use Rattle.asm86_line_reader.specs.Forms.{body_of, names_labels, statements_of};
ghost use Rattle.asm86_line_reader.specs.Line.{TextLineGives};
ghost use Rattle.asm86_line_reader.specs.ReadBack.{has_line};
ghost use Rattle.asm86_line_reader.specs.Results.{AnswersLine, all_checked};

use crate::fault::LineFault;
use crate::items::formed;
use crate::letters::{has_no_lower, in_capitals};
use crate::token::Token;
use crate::tokens::tokens_of;
use asm86_line_types::{Label, Stmt86, TextRule};
use std::alloc::Global;

/// The most bytes of a line, its LF or CR LF not counted.
const LONGEST_LINE: usize = 255;

/// The statements of a line, which comes without its LF or CR LF, or the rule that it breaks: M1 or M2.
pub fn read_line(alloc: Global, line: &[u8]) -> Result<Vec<Stmt86>, LineFault>
    ensures { AnswersLine (TextLineGives line.now) result }
{
    if line.len() > LONGEST_LINE {
        return Err(LineFault::Rule(TextRule::M1));
    }
    if has_no_lower(line) {
        return read_capitals(alloc, line);
    }
    let capitals = in_capitals(alloc, line)?;
    read_capitals(alloc, &capitals)
}

// The same of a line that is not too long, from its bytes in capitals.
fn read_capitals(alloc: Global, capitals: &[u8]) -> Result<Vec<Stmt86>, LineFault>
    ensures { (line : List ℕ) → length line ≤ 255 → map upper line ≡ capitals.now → AnswersLine (TextLineGives line) result }
{
    let Some(tokens) = tokens_of(alloc, capitals)? else {
        return Err(LineFault::Rule(TextRule::M1));
    };
    statements_of(alloc, &tokens)
}

/// A law: a line gives one thing.
pub fn line_has_one_reading()
    ensures { (line : List ℕ) (r s : Result (List Stmt86) TextRule) → TextLineGives line r → TextLineGives line s → r ≡ s }
{}

/// A law: no statement of a line is a jump or a call with a displacement.
pub fn lines_name_labels()
    ensures { (line : List ℕ) (ss : List Stmt86) → TextLineGives line (Ok ss) → IsTrue (list_all names_labels ss) }
{}

/// A law: the written line of a statement, without its CR LF, gives that statement alone, where its numbers are within their
/// ranges and it names the label that it goes to.
pub fn written_lines_read_back()
    ensures { (stmt : Stmt86) (line : List ℕ) → IsTrue (has_line stmt) → written_line stmt ≡ line ++ codes "\r\n" → TextLineGives line (Ok (stmt ∷ [])) }
{}

// The statements of tokens: a label, if there is one, and what follows it.
fn statements_of(alloc: Global, tokens: &[Token]) -> Result<Vec<Stmt86>, LineFault>
    ensures { AnswersLine (λ r. r ≡ all_checked (statements_of tokens.now)) result }
{
    let Some((label, rest)) = marked(tokens) else {
        return body_of(alloc, tokens);
    };
    let mut statements = body_of(alloc, rest)?;
    statements.insert(0, Stmt86::Mark(label))?;
    Ok(statements)
}

// The label with its colon at the front, and the tokens after it.
fn marked(tokens: &[Token]) -> Option<(Label, &[Token])>
    ensures { MatchOption result ((l : Label) (rest : List Token) → tokens.now ≢ Token.Label l ∷ (Token.Colon ∷ rest)) (λ p. tokens.now ≡ Token.Label p.0 ∷ (Token.Colon ∷ p.1.now)) }
{
    match tokens {
        [Token::Label(label), Token::Colon, rest @ ..] => Some((*label, rest)),
        _ => None,
    }
}

// What follows the label: nothing, or an operation with its operands.
fn body_of(alloc: Global, tokens: &[Token]) -> Result<Vec<Stmt86>, LineFault>
    ensures { AnswersLine (λ r. r ≡ all_checked (body_of tokens.now)) result }
{
    match tokens {
        [] => Ok(Vec::new(alloc)),
        [Token::Operation(operation), rest @ ..] => formed(alloc, *operation, rest),
        _ => Err(LineFault::Rule(TextRule::M2)),
    }
}
