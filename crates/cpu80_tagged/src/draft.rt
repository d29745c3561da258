// What an instruction does, before it is known that it may.
ghost use Rattle.std.specs.Prelude.{◌≡◌, length, IsTrue};
ghost use Rattle.cpu80_tagged.specs.Write.{write_fits};

use crate::area::Area;
use crate::registers::Registers;
use cells::{Cell, Flags, Place, Rule};
use i80::Pair;

/// The two cells of a word.
#[derive(Clone, Copy)]
pub struct Word {
    pub high: Cell,
    pub low: Cell,
}

/// A write to memory that is still to be made. An instruction makes at most one, after all that it reads.
#[derive(Clone, Copy)]
pub enum Write {
    Nothing,
    Cell(u16, Cell),
    Word(u16, Word),
}

/// The state as an instruction leaves it, if no rule is broken: what the machine holds, and what is still to be written. The
/// place is that of the instruction that comes next, the DMA address where the system's records of 128 bytes go.
#[derive(Drop)]
pub struct Draft<'a> {
    pub registers: Registers,
    pub flags: Flags,
    pub sp: u16,
    pub memory: &'a [Cell],
    pub place: Place,
    pub dma: u16,
    pub write: Write,
    ghost full: { length memory.now ≡ 65536 },
    ghost fits: { IsTrue (write_fits write) },
}

impl Draft<'_> {
    ghost use Rattle.cpu80_tagged.specs.State.{high_of, low_of, with_cells, with_num};
    ghost use Rattle.cpu80_tagged.specs.Memory.{read_at, write_at, read_word, write_word};
    ghost use Rattle.cpu80_tagged.specs.Row.{IsRow, halves_in};
    ghost use Rattle.cpu80_tagged.specs.Draft.{IsFresh, state_of_draft};

    /// Reads a cell: P2 where it is closed.
    pub fn read(&self, area: &Area, at: u16) -> Result<Cell, Rule>
        requires { IsFresh self.now }
        ensures { result ≡ read_at area.now.program.now (state_of_draft self.now) at }
    {
        if area.is_closed(at) {
            Err(Rule::P2)
        } else {
            Ok(self.memory[at as usize])
        }
    }

    /// Writes a cell: P3 where it may not be written.
    pub fn write_cell(&mut self, area: &Area, at: u16, cell: Cell) -> Result<(), Rule>
        requires { IsFresh self.old }
        ensures row { IsRow (write_at area.now.program.now (state_of_draft self.old) at cell) result (state_of_draft self.old) (state_of_draft self.new) }
        ensures memory { self.new.memory.now ≡ self.old.memory.now }
    {
        area.may_write(at)?;
        self.write = Write::Cell(at, cell);
        Ok(())
    }

    /// Reads a word, its low cell first: P4 at the last cell of memory.
    pub fn read_word(&self, area: &Area, at: u16) -> Result<Word, Rule>
        requires { IsFresh self.now }
        ensures { halves_in result ≡ read_word area.now.program.now (state_of_draft self.now) at }
    {
        if at == 0xFFFF {
            return Err(Rule::P4);
        }
        let low = self.read(area, at)?;
        let high = self.read(area, at + 1)?;
        Ok(Word { high, low })
    }

    /// Writes a word.
    pub fn write_word(&mut self, area: &Area, at: u16, word: Word) -> Result<(), Rule>
        requires { IsFresh self.old }
        ensures row { IsRow (write_word area.now.program.now (state_of_draft self.old) at word.high word.low) result (state_of_draft self.old) (state_of_draft self.new) }
        ensures memory { self.new.memory.now ≡ self.old.memory.now }
    {
        if at == 0xFFFF {
            return Err(Rule::P4);
        }
        area.may_write(at)?;
        area.may_write(at + 1)?;
        self.write = Write::Word(at, word);
        Ok(())
    }

    /// The cells of a pair; those of SP are numbers.
    pub fn pair(&self, pair: Pair) -> Word
        ensures high { result.high ≡ high_of (state_of_draft self.now) pair }
        ensures low { result.low ≡ low_of (state_of_draft self.now) pair }
    {
        let (high, low) = match pair {
            Pair::B => (self.registers.b, self.registers.c),
            Pair::D => (self.registers.d, self.registers.e),
            Pair::H => (self.registers.h, self.registers.l),
            Pair::Sp => (
                Cell::Num((self.sp / 256) as u8),
                Cell::Num((self.sp % 256) as u8),
            ),
        };
        Word { high, low }
    }

    /// Two cells into a pair; SP, which holds a number always, stays.
    pub fn set_cells(&mut self, pair: Pair, word: Word)
        ensures state { state_of_draft self.new ≡ with_cells (state_of_draft self.old) pair word.high word.low }
        ensures memory { self.new.memory.now ≡ self.old.memory.now }
    {
        match pair {
            Pair::B => {
                self.registers.b = word.high;
                self.registers.c = word.low;
            }
            Pair::D => {
                self.registers.d = word.high;
                self.registers.e = word.low;
            }
            Pair::H => {
                self.registers.h = word.high;
                self.registers.l = word.low;
            }
            Pair::Sp => {}
        }
    }

    /// A number into a pair.
    pub fn set_pair(&mut self, pair: Pair, number: u16)
        ensures state { state_of_draft self.new ≡ with_num (state_of_draft self.old) pair number }
        ensures memory { self.new.memory.now ≡ self.old.memory.now }
    {
        if matches!(pair, Pair::Sp) {
            self.sp = number;
        } else {
            let word = Word {
                high: Cell::Num((number / 256) as u8),
                low: Cell::Num((number % 256) as u8),
            };
            self.set_cells(pair, word);
        }
    }
}
