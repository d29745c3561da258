// Where the labels of a text stand, and which conditional jumps are short by it.
ghost use Rattle.std.specs.Prelude.{◌≡◌, ◌+◌, ◌^◌, ◌<◌, ℕ, List, [], ◌∷◌, length, slice_index, IfOk};
ghost use Rattle.asm86_line_types.specs.declared.line.Stmt86.{Stmt86};
ghost use Rattle.asm86_line_types.specs.Layout.{size_of};
ghost use Rattle.asm86_line_types.specs.Image.{statements};
ghost use Rattle.templates.specs.Lean.{may_be_short};

use asm80_types::Placed;
use asm86_line_types::{Label, Line86, Stmt86, code_size, statement_size};
use i80::{Goal, Instr80};
use std::alloc::{AllocError, Global};

/// The offset of each label of a text, and 0 for those that do not stand in it: of `Lhhhh` and of `Khhhh` by their addresses, of
/// `X_SYS` and of `X_END`.
#[derive(Drop)]
pub struct Places {
    lines: Vec<u32>,
    skips: Vec<u32>,
    sys: u32,
    end: u32,
    ghost full: { (length lines.items ≡ 65536) × (length skips.items ≡ 65536) },
}

/// Which conditional jumps are one short jump.
#[derive(Drop)]
pub enum Jumps {
    /// None is.
    Long,
    /// Those that reach their targets, by where the labels stand while none is.
    Reaching(Places),
}

// So many offsets, each 0.
fn offsets(alloc: Global, count: usize) -> Result<Vec<u32>, AllocError>
    ensures count { IfOk result (λ v. length v.items ≡ count) }
    ensures zero { IfOk result (λ v. (a : ℕ) → slice_index v.items a ≡ 0) }
{
    Vec::from_elem(alloc, 0, count)
}

impl Places {
    ghost use Rattle.templates.specs.Places.{ArePlaces, target_in, reaches_by};

    // The places of no statement.
    fn none(alloc: Global, at: u32) -> Result<Places, AllocError>
        ensures { IfOk result (λ places. ArePlaces places at []) }
    {
        Ok(Places {
            lines: offsets(alloc, 65_536)?,
            skips: offsets(alloc, 65_536)?,
            sys: 0,
            end: 0,
        })
    }

    // A statement that stands at an offset, before those whose labels are there.
    fn mark(&mut self, statement: Stmt86, at: u32)
        ensures { (xs : List Stmt86) → ArePlaces self.old (at + size_of statement) xs → ArePlaces self.new at (statement ∷ xs) }
    {
        match statement {
            Stmt86::Mark(Label::At(address)) => self.lines[usize::from(address)] = at,
            Stmt86::Mark(Label::Skip(address)) => self.skips[usize::from(address)] = at,
            Stmt86::Mark(Label::Sys) => self.sys = at,
            Stmt86::Mark(Label::End) => self.end = at,
            _ => {}
        }
    }

    /// The places of a text.
    pub fn of(alloc: Global, lines: &[Line86]) -> Result<Places, AllocError>
        requires { length lines.now < 2 ^ 20 }
        ensures { IfOk result (λ places. ArePlaces places 0 (statements lines.now)) }
    {
        let mut at = code_size(lines) as u32;
        let mut places = Places::none(alloc, at)?;
        let mut rest = lines.len();
        while rest > 0 {
            rest -= 1;
            let statement = lines[rest].stmt;
            at -= statement_size(statement) as u32;
            places.mark(statement, at);
        }
        Ok(places)
    }

    // The offset of a target.
    fn target(&self, goal: Goal) -> u32
        ensures { result ≡ target_in self.now goal }
    {
        match goal {
            Goal::At(address) => self.lines[usize::from(address)],
            Goal::Boot => self.end,
            Goal::Bdos => self.sys,
        }
    }

    // Whether the instruction is a conditional jump that reaches its target from its own label, at its end.
    fn reaches(&self, placed: &Placed) -> bool
        ensures { result ≡ reaches_by self.now placed.now placed.now.instr }
    {
        match placed.instr {
            Instr80::Jif(_, goal) => {
                let end = self.skips[usize::from(placed.at)];
                reaches(end, self.target(goal))
            }
            _ => false,
        }
    }
}

// The jump rule: a short jump in place of a long one of 5 bytes reaches a target at or behind its end with at most 127 bytes
// between, and a target at or before its beginning with at most 126.
fn reaches(end: u32, target: u32) -> bool
    ensures { result ≡ may_be_short end target }
{
    if target >= end {
        target - end <= 127
    } else {
        end - target >= 5 && end - target - 5 <= 126
    }
}

impl Jumps {
    ghost use Rattle.templates.specs.Jumps.{shortens_by};

    /// Whether the instruction is a conditional jump that is one short jump.
    pub fn shorten(&self, placed: &Placed) -> bool
        ensures { result ≡ shortens_by self.now placed.now }
    {
        match self {
            Jumps::Long => false,
            Jumps::Reaching(places) => places.reaches(placed),
        }
    }
}
