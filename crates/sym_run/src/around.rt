// What a walk is in, and what it meets.

ghost use Rattle.std.specs.Prelude.{◌≡◌, ◌||◌, not, Some, None, option_map};
ghost use Rattle.sym_block_def.specs.Walk86.{after_label, way_to, is_passed, met, comes_next, back_from_call, back_from_system};
ghost use Rattle.sym_run.specs.Around.{surroundings_of, met_of, WayMayBe};

use crate::index::Index86;
use asm86_line_types::{Label, Stmt86};
use cells::Place;
use sym_micro::Way;

/// What a walk is in: the text; the addresses of the block's later instructions; the address after the block, and whether an
/// instruction starts there.
#[derive(Clone, Copy)]
pub struct Around<'a> {
    pub text: &'a Index86,
    pub later: &'a [u16],
    pub after: u16,
    pub goes_on: bool,
}

/// What a walk meets behind the labels that it passes.
#[derive(Clone, Copy)]
pub enum Met<'a> {
    /// A label that ends its way.
    EndsAt(Label),
    /// An instruction, and what stands behind it.
    Instruction(Stmt86, &'a [Stmt86]),
    /// What is no instruction, or nothing.
    Nothing,
}

/// What stands behind a label.
pub fn behind<'a>(around: &Around<'a>, label: Label) -> Option<&'a [Stmt86]>
    ensures { option_map (λ xs. xs.now) result ≡ after_label around.now.text.now label }
{
    let text = around.text;
    match text.behind(label) {
        Some(place) => Some(&text.statements()[place..]),
        None => None,
    }
}

/// The way that a jump to a label is; none to a K or U label, where the walk goes on.
pub fn way_to(label: Label) -> Option<Way>
    ensures { WayMayBe (way_to label) result }
{
    match label {
        Label::At(a) => Some(Way::Goto(Place::At(a))),
        Label::Skip(_) | Label::User(_) => None,
        Label::Sys => Some(Way::SysReturn),
        Label::End => Some(Way::Boot),
    }
}

/// Whether the label is that of an instruction of the block, or one that a text has for itself.
pub fn is_passed(around: &Around<'_>, label: Label) -> bool
    ensures { result ≡ is_passed (surroundings_of around.now) label }
{
    match label {
        Label::At(a) => around.later.contains(&a),
        Label::Skip(_) | Label::User(_) => true,
        Label::Sys | Label::End => false,
    }
}

/// What a walk meets.
pub fn meets<'a>(around: &Around<'_>, from: &'a [Stmt86]) -> Met<'a>
    ensures { met_of result ≡ met (surroundings_of around.now) from.now }
{
    let mut rest = from;
    while let Some((stmt, others)) = rest.split_first() {
        match *stmt {
            Stmt86::Mark(label) if is_passed(around, label) => rest = others,
            Stmt86::Mark(label) => return Met::EndsAt(label),
            Stmt86::Run(_)
            | Stmt86::MovOffset(..)
            | Stmt86::Jmp(_)
            | Stmt86::Jmps(_)
            | Stmt86::Jcc(..)
            | Stmt86::Call(_) => return Met::Instruction(*stmt, others),
            _ => return Met::Nothing,
        }
    }
    Met::Nothing
}

// Whether the label of the address after the block follows with only labels between.
fn comes_next(around: &Around<'_>, from: &[Stmt86]) -> bool
    ensures { result ≡ comes_next (surroundings_of around.now) from.now }
{
    let mut rest = from;
    while let Some((stmt, others)) = rest.split_first() {
        match stmt {
            Stmt86::Mark(Label::At(a)) if *a == around.after => return true,
            Stmt86::Mark(_) => rest = others,
            _ => return false,
        }
    }
    false
}

/// The place to which a call of an instruction comes back: the address after the block where its label follows, else none that is known.
pub fn back_from_call(around: &Around<'_>, rest: &[Stmt86]) -> Place
    ensures { result ≡ back_from_call (surroundings_of around.now) rest.now }
{
    if comes_next(around, rest) {
        Place::At(around.after)
    } else {
        Place::Exit
    }
}

/// Whether a call of the system or a port comes to the address after the block: its label follows, or no instruction starts there.
pub fn comes_after(around: &Around<'_>, rest: &[Stmt86]) -> bool
    ensures { result ≡ (comes_next (surroundings_of around.now) rest.now || not around.now.goes_on) }
{
    comes_next(around, rest) || !around.goes_on
}

/// The place to which a call of the system comes back.
pub fn back_from_system(around: &Around<'_>, rest: &[Stmt86]) -> Place
    ensures { result ≡ back_from_system (surroundings_of around.now) rest.now }
{
    if comes_after(around, rest) {
        Place::At(around.after)
    } else {
        Place::Exit
    }
}
