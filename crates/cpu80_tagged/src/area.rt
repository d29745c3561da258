// A program and what it makes of each cell.
ghost use Rattle.std.specs.Prelude.{◌≡◌, ◌+◌, ◌≤◌, IfSome, IsTrue};
ghost use Rattle.i80.specs.Columns.{is_well_formed, length80};
ghost use Rattle.asm80_types.specs.Program.{instr_at, is_start};
ghost use Rattle.cpu80_tagged.specs.Memory.{is_closed, may_write};
ghost use Rattle.cpu80_tagged.specs.Area.{HasUses};
ghost use Rattle.cpu80_tagged.specs.Row.{tested};

use asm80_types::Program80;
use cells::Rule;
use i80::Instr80;

/// What a program makes of a cell. A closed cell is neither read nor written; that of a start is closed, and the first of an
/// instruction.
#[derive(Clone, Copy)]
pub enum CellUse {
    Open,
    Closed,
    Start,
}

impl CellUse {
    ghost use Rattle.cpu80_tagged.specs.Area.{is_closed_use};

    /// Whether the cell is closed.
    pub fn is_closed(self) -> bool
        ensures { result ≡ is_closed_use self }
    {
        !matches!(self, CellUse::Open)
    }
}

/// A program, with a list that says of each cell of 64K what the program makes of it.
#[derive(Clone, Copy)]
pub struct Area<'a> {
    pub program: &'a Program80,
    pub uses: &'a [CellUse],
    ghost agrees: { HasUses program.now uses.now },
}

impl Area<'_> {
    /// The instruction that starts at an address.
    pub fn instr_at(&self, at: u16) -> Option<Instr80>
        ensures value { result ≡ instr_at self.now.program.now at }
        ensures within { IfSome result (λ i. at + length80 i ≤ 0xFF00) }
        ensures well_formed { IfSome result (λ i. IsTrue (is_well_formed i)) }
    {
        self.program.instr_at(at)
    }

    /// Whether an instruction starts at an address.
    pub fn is_start(&self, at: u16) -> bool
        ensures { result ≡ is_start self.now.program.now at }
    {
        matches!(self.uses[at as usize], CellUse::Start)
    }

    /// Whether a cell is closed.
    pub fn is_closed(&self, at: u16) -> bool
        ensures { result ≡ is_closed self.now.program.now at }
    {
        self.uses[at as usize].is_closed()
    }

    /// Whether a cell may be written: P3 where it is closed, or is one of the word at 6.
    pub fn may_write(&self, at: u16) -> Result<(), Rule>
        ensures { tested result ≡ may_write self.now.program.now at }
    {
        if self.is_closed(at) || at == 6 || at == 7 {
            Err(Rule::P3)
        } else {
            Ok(())
        }
    }
}
