// The program that a source stands for.
ghost use Rattle.std.specs.Prelude.{◌≡◌, ◌+◌, ◌-◌, ◌<◌, ◌≤◌, length, slice_index, All, IsTrue, IfOk, IfSome, MatchOption, option_map};
ghost use Rattle.i80.specs.Columns.{length80, is_well_formed};

use crate::taken::taken_of;
use cells::Cell;
use i80::Instr80;
use std::alloc::{AllocError, Global};
use std::marker::Model;

/// An instruction at its address, with the line of the source that it is from.
#[derive(Clone, Copy)]
pub struct Placed {
    pub at: u16,
    pub line: u32,
    pub instr: Instr80,
}

/// A program: its instructions and its data cells, each in ascending order of their addresses, and the top of its area.
pub struct Program80 {
    instrs: Vec<Placed>,
    // the addresses of the instructions, two bytes each, in which the emulators search
    starts: Vec<u16>,
    // those of them that are taken
    taken_starts: Vec<u16>,
    cells: Vec<(u16, Cell)>,
    top: u16,
}

// Written out, so that letting one go is one call wherever it is done.
impl Drop for Program80 {
    fn drop(self) {
        let Program80 {
            instrs: _instrs,
            starts: _starts,
            taken_starts: _taken_starts,
            cells: _cells,
            top: _top,
        } = self;
    }
}

impl Model for Program80 {
    ghost use Rattle.std.specs.Prelude.{◌≡◌};
    ghost use Rattle.asm80_types.specs.Program.{Program, IsProgram, program_of, starts_of};
    ghost use Rattle.asm80_types.specs.Taken.{taken_places};

    ghost Value = { Program };

    ghost view = { λ p. program_of p.instrs.items p.cells.items p.top };

    ghost invariant = { λ p. IsProgram (program_of p.instrs.items p.cells.items p.top)
        × (p.starts.items ≡ starts_of p.instrs.items)
        × (p.taken_starts.items ≡ taken_places (program_of p.instrs.items p.cells.items p.top)) };
}

impl Program80 {
    ghost use Rattle.asm80_types.specs.Program.{Program, IsProgram, program_of, instr_at, line_at, cell_at, is_code, starts, placed_in, last_from, IsLast, IsInstructionLaid};
    ghost use Rattle.asm80_types.specs.Taken.{taken_places};

    /// A program of these, from the instructions and the data cells in order and the top of the area.
    pub fn new(
        alloc: Global,
        instrs: Vec<Placed>,
        cells: Vec<(u16, Cell)>,
        top: u16,
    ) -> Result<Program80, AllocError>
        requires { IsProgram (program_of instrs.items cells.items top) }
        ensures { IfOk result (λ p. p ≡ program_of instrs.items cells.items top) }
    {
        let starts: Vec<u16> = instrs.iter().map(|placed| placed.at).collect(alloc)?;
        let taken_starts = taken_of(alloc, &instrs, &cells, &starts)?;
        Ok(Program80 {
            instrs,
            starts,
            taken_starts,
            cells,
            top,
        })
    }

    // The place among the instructions of the last one that starts at an address or before it.
    fn last_place(&self, at: u16) -> Option<usize>
        ensures { MatchOption result (last_from self.now.instrs at ≡ None) (λ k. IsLast self.now.instrs at k) }
    {
        match self.starts.binary_search(&at) {
            Ok(place) => Some(place),
            Err(0) => None,
            Err(gap) => Some(gap - 1),
        }
    }

    // The last instruction that starts at an address or before it.
    fn last_from(&self, at: u16) -> Option<Placed>
        ensures value { result ≡ last_from self.now.instrs at }
        ensures laid { IfSome result (λ x. IsInstructionLaid 0x100 (self.now.top - 2) x) }
        ensures upto { IfSome result (λ x. x.at ≤ at) }
        ensures program { IsProgram self.now }
    {
        match self.last_place(at) {
            Some(place) => Some(self.instrs[place]),
            None => None,
        }
    }

    // The instruction that starts at an address, with its line.
    fn placed_at(&self, at: u16) -> Option<Placed>
        ensures value { result ≡ placed_in self.now.instrs at }
        ensures within { IfSome result (λ x. at + length80 x.instr + 2 ≤ self.now.top) }
        ensures from { IfSome result (λ _. 0x100 ≤ at) }
        ensures well_formed { IfSome result (λ x. IsTrue (is_well_formed x.instr)) }
        ensures small { self.now.top ≤ 0xFF00 }
        ensures program { IsProgram self.now }
    {
        match self.last_from(at) {
            Some(placed) if placed.at == at => Some(placed),
            _ => None,
        }
    }

    /// The instruction that starts at an address: none exactly where none starts there.
    pub fn instr_at(&self, at: u16) -> Option<Instr80>
        ensures value { result ≡ instr_at self.now at }
        ensures within { IfSome result (λ i. at + length80 i + 2 ≤ self.now.top) }
        ensures from { IfSome result (λ _. 0x100 ≤ at) }
        ensures well_formed { IfSome result (λ i. IsTrue (is_well_formed i)) }
        ensures small { self.now.top ≤ 0xFF00 }
        ensures program { IsProgram self.now }
    {
        match self.placed_at(at) {
            Some(placed) => Some(placed.instr),
            None => None,
        }
    }

    // The place among the instructions of the last one that starts at an address or before it, looked for first at a place that it may
    // well have.
    fn last_place_near(&self, near: usize, at: u16) -> Option<usize>
        ensures { MatchOption result (last_from self.now.instrs at ≡ None) (λ k. IsLast self.now.instrs at k) }
    {
        match self.starts.get(near) {
            Some(start) if *start == at => Some(near),
            _ => self.last_place(at),
        }
    }

    // The last instruction that starts at an address or before it, looked for in this way, with its place.
    fn last_near(&self, near: usize, at: u16) -> Option<(usize, Placed)>
        ensures value { option_map (λ found. found.1) result ≡ last_from self.now.instrs at }
        ensures place { IfSome result (λ found. (found.0 < length self.now.instrs) × (slice_index (starts self.now) found.0 ≡ found.1.at)) }
        ensures laid { IfSome result (λ found. IsInstructionLaid 0x100 (self.now.top - 2) found.1) }
        ensures program { IsProgram self.now }
    {
        match self.last_place_near(near, at) {
            Some(place) => Some((place, self.instrs[place])),
            None => None,
        }
    }

    /// The instruction that starts at an address, with its place among the instructions: none exactly where none starts there. It is
    /// looked for first at a place that it may well have, as the next place where control goes on, and by a search where it has another.
    pub fn instr_near(&self, near: usize, at: u16) -> Option<(usize, Instr80)>
        ensures value { option_map (λ found. found.1) result ≡ instr_at self.now at }
        ensures place { IfSome result (λ found. slice_index (starts self.now) found.0 ≡ at) }
        ensures few { IfSome result (λ found. found.0 < 65022) }
        ensures within { IfSome result (λ found. at + length80 found.1 + 2 ≤ self.now.top) }
        ensures well_formed { IfSome result (λ found. IsTrue (is_well_formed found.1)) }
        ensures program { IsProgram self.now }
    {
        match self.last_near(near, at) {
            Some((place, placed)) if placed.at == at => Some((place, placed.instr)),
            _ => None,
        }
    }

    /// The line of the source that the instruction at an address is from: none exactly where no instruction starts there.
    pub fn line_at(&self, at: u16) -> Option<u32>
        ensures { result ≡ line_at self.now at }
    {
        match self.placed_at(at) {
            Some(placed) => Some(placed.line),
            None => None,
        }
    }

    /// The data cell at an address: none exactly where there is none.
    pub fn cell_at(&self, at: u16) -> Option<Cell>
        ensures { result ≡ cell_at self.now at }
    {
        match self
            .cells
            .binary_search_by_key(&at, |&(address, _)| address)
        {
            Ok(place) => Some(self.cells[place].1),
            Err(_) => None,
        }
    }

    /// Whether the address is that of a cell of an instruction.
    pub fn is_code(&self, at: u16) -> bool
        ensures { result ≡ is_code self.now at }
    {
        match self.last_from(at) {
            Some(placed) => at < placed.at + i80::length(placed.instr),
            None => false,
        }
    }

    /// The addresses of the instructions, ascending.
    pub fn starts(&self) -> &[u16]
        ensures { result.now ≡ starts self.now }
    {
        &self.starts
    }

    /// The places that are taken, ascending: the starts that stand behind a CALL or conditional call of an instruction, and
    /// those whose code address an LXI or a data cell has.
    pub fn taken(&self) -> &[u16]
        ensures { result.now ≡ taken_places self.now }
    {
        &self.taken_starts
    }

    /// The instructions, ascending: at most 65,022, as many as there are cells from 100H up and below 0FEFEH.
    pub fn instrs(&self) -> &[Placed]
        ensures value { result.now ≡ self.now.instrs }
        ensures laid { All (λ x. IsInstructionLaid 0x100 (self.now.top - 2) x) result.now }
        ensures few { length result.now ≤ 65022 }
        ensures program { IsProgram self.now }
    {
        &self.instrs
    }

    /// The data cells, each with its address, ascending: at most 65,022.
    pub fn cells(&self) -> &[(u16, Cell)]
        ensures value { result.now ≡ self.now.cells }
        ensures laid { All (λ c. (0x100 ≤ c.0) × (c.0 + 2 < self.now.top)) result.now }
        ensures few { length result.now ≤ 65022 }
        ensures program { IsProgram self.now }
    {
        &self.cells
    }

    /// The top of the program area, a multiple of 100H from 1000H to 0FF00H.
    pub fn top(&self) -> u16
        ensures value { result ≡ self.now.top }
        ensures range { (0x1000 ≤ result) × (result ≤ 0xFF00) }
        ensures program { IsProgram self.now }
    {
        self.top
    }
}
