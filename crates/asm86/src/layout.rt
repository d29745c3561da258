// Labels: the offset of each, and those that are defined again or not at all.
ghost use Rattle.std.specs.Prelude.{◌≡◌, ◌+◌, ◌++◌, List, [], ◌∷◌, true, false, ◌^◌, ◌<◌, ◌⊎◌, length, MatchResult, MatchOption, option_to_list};
ghost use Rattle.asm86_line_types.specs.Image.{statements, labels_from, IsDefinedOnce, AllDefined, UsesDefined, used_in};
ghost use Rattle.asm86_line_types.specs.declared.line.Stmt86.{Stmt86};
ghost use Rattle.asm86_line_types.specs.Layout.{size_of};
ghost use Rattle.asm86.specs.Places.{AreLabelsLaid};
ghost use Rattle.asm86.specs.Refusals.{ImageRefused, IsFirstToBreak};

use crate::fault::ImageFault;
use crate::offsets::Offsets;
use asm86_line_types::{Label, Line86, Stmt86, TextRule, Value16, statement_size};
use std::alloc::{AllocError, Global};

/// The offset of each label, which is the sum of the lengths before it. The first line that defines a label again is refused.
pub fn offsets_of(alloc: Global, lines: &[Line86]) -> Result<Offsets, ImageFault>
    requires { length lines.now < 2 ^ 28 }
    ensures { MatchResult result
        (λ offsets. (offsets ≡ labels_from 0 (statements lines.now)) × IsDefinedOnce (statements lines.now))
        (λ fault. (fault ≡ ImageFault.Memory) ⊎ ImageRefused lines.now fault) }
{
    let mut offsets = Offsets::empty(alloc);
    let mut at = 0;
    for line in lines {
        if !define_label(&mut offsets, at, line.stmt)? {
            return Err(ImageFault::Line(line.line, TextRule::M3));
        }
        at += statement_size(line.stmt);
    }
    Ok(offsets)
}

/// The first line that uses a label that the text does not define.
pub fn first_undefined(offsets: &Offsets, lines: &[Line86]) -> Option<u32>
    requires { offsets.now ≡ labels_from 0 (statements lines.now) }
    ensures { MatchOption result
        (UsesDefined (statements lines.now) (statements lines.now))
        (λ line. IsFirstToBreak (UsesDefined (statements lines.now)) lines.now line) }
{
    for line in lines {
        if !uses_defined(offsets, line.stmt) {
            return Some(line.line);
        }
    }
    None
}

// The label that a statement at a place is, put to those before it; false where it was there before.
fn define_label(offsets: &mut Offsets, at: usize, stmt: Stmt86) -> Result<bool, AllocError>
    ensures laid { result ≡ Ok true → (before : List Stmt86) → AreLabelsLaid before offsets.old at → AreLabelsLaid (before ++ stmt ∷ []) offsets.new (at + size_of stmt) }
    ensures again { result ≡ Ok false → (before : List Stmt86) → AreLabelsLaid before offsets.old at → IsDefinedOnce (before ++ stmt ∷ []) → ⊥ }
{
    match stmt {
        Stmt86::Mark(label) => offsets.define(label, at),
        _ => Ok(true),
    }
}

// Whether each label that a statement uses is there.
fn uses_defined(offsets: &Offsets, stmt: Stmt86) -> bool
    ensures yes { result ≡ true → (text : List Stmt86) → offsets.now ≡ labels_from 0 text → AllDefined text (used_in stmt) }
    ensures no { result ≡ false → (text : List Stmt86) → offsets.now ≡ labels_from 0 text → AllDefined text (used_in stmt) → ⊥ }
{
    match used_label(stmt) {
        Some(label) => offsets.get(label).is_some(),
        None => true,
    }
}

// The label that a statement uses.
fn used_label(stmt: Stmt86) -> Option<Label>
    ensures { option_to_list result ≡ used_in stmt }
{
    match stmt {
        Stmt86::Dw(Value16::Offset(label))
        | Stmt86::MovOffset(_, label)
        | Stmt86::Jmp(label)
        | Stmt86::Jmps(label)
        | Stmt86::Jcc(_, label)
        | Stmt86::Call(label) => Some(label),
        _ => None,
    }
}
