// What stands in a text around the instructions: the opening and the runtime.
ghost use Rattle.std.specs.Prelude.{◌≡◌, ◌≢◌, ◌↔◌, ◌++◌, List, IsTrue, MatchOption};
ghost use Rattle.asm86_line_types.specs.declared.line.Stmt86.{Stmt86};
ghost use Rattle.templates.specs.Plain.{prologue, runtime};
ghost use Rattle.simulation_def.specs.Runtime.{HasRuntime};
ghost use Rattle.simulation_def.specs.Matches.{HasOpening};
ghost use Rattle.text_check.specs.Parts.{Opens};

use asm80_types::Program80;
use asm86_line_types::{Label, Stmt86};
use templates::{prologue, runtime};

// What stands behind some statements where a text begins with them.
fn behind<'a>(text: &'a [Stmt86], first: &[Stmt86]) -> Option<&'a [Stmt86]>
    ensures { MatchOption result ((rest : List Stmt86) → text.now ≢ first.now ++ rest) (λ rest. text.now ≡ first.now ++ rest.now) }
{
    let mut left = first;
    let mut rest = text;
    while let Some((expected, more)) = left.split_first() {
        match rest.split_first() {
            Some((found, others)) if *found == *expected => {
                left = more;
                rest = others;
            }
            _ => return None,
        }
    }
    Some(rest)
}

// What stands behind the opening for a top of the program area where a text has it.
fn behind_opening(top: u16, text: &[Stmt86]) -> Option<&[Stmt86]>
    ensures { MatchOption result ((rest : List Stmt86) → Opens top text.now rest → ⊥) (λ rest. Opens top text.now rest.now) }
{
    let rest = behind(text, &[Stmt86::Cseg])?;
    let rest = behind(rest, prologue(top).as_slice())?;
    behind(rest, &[Stmt86::Mark(Label::At(0x100))])
}

/// Whether a text begins with CSEG, the prologue for a program's top, and the label of 100H.
pub fn has_opening(program: &Program80, text: &[Stmt86]) -> bool
    ensures { IsTrue result ↔ HasOpening program.now text.now }
{
    behind_opening(program.top(), text).is_some()
}

/// Whether the statements of the runtime stand in a text, one after the other.
pub fn has_runtime(text: &[Stmt86]) -> bool
    ensures { IsTrue result ↔ HasRuntime text.now }
{
    let runtime = runtime();
    let mut rest = text;
    while let Some((_, others)) = rest.split_first() {
        if behind(rest, runtime.as_slice()).is_some() {
            return true;
        }
        rest = others;
    }
    false
}
