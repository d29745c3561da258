// Moves, loads and stores (8080 Assembly Language Programming Manual, "Data transfer instructions", "Direct addressing
// instructions"). They carry any cell.
ghost use Rattle.std.specs.Prelude.{◌≡◌};

use crate::area::Area;
use crate::draft::{Draft, Word};
use crate::numbers::address_in;
use crate::registers::Registers;
use cells::{Cell, Place, Rule};
use i80::{Pair, Src, Word as Immediate};

impl Draft<'_> {
    ghost use Rattle.i80.specs.declared.Instr80.TheVariants.{Mov, Ldax, Stax};
    ghost use Rattle.cpu80_tagged.specs.Effect.{source, into, effect, lxi, lda, lhld, xchg, xthl, sphl};
    ghost use Rattle.cpu80_tagged.specs.Row.{IsRow};
    ghost use Rattle.cpu80_tagged.specs.Draft.{IsFresh, state_of_draft};

    /// The cell of a register or of M.
    pub fn source(&self, area: &Area, from: Src) -> Result<Cell, Rule>
        requires { IsFresh self.now }
        ensures { result ≡ source area.now.program.now (state_of_draft self.now) from }
    {
        match from {
            Src::Reg(register) => Ok(self.registers.get(register)),
            Src::Mem => {
                let at = address_in(self.registers.h, self.registers.l)?;
                self.read(area, at)
            }
        }
    }

    /// A cell into a register or into M.
    pub fn put_into(&mut self, area: &Area, to: Src, cell: Cell) -> Result<(), Rule>
        requires { IsFresh self.old }
        ensures row { IsRow (into area.now.program.now (state_of_draft self.old) to cell) result (state_of_draft self.old) (state_of_draft self.new) }
        ensures memory { self.new.memory.now ≡ self.old.memory.now }
    {
        match to {
            Src::Reg(register) => {
                self.registers.set(register, cell);
                Ok(())
            }
            Src::Mem => {
                let at = address_in(self.registers.h, self.registers.l)?;
                self.write_cell(area, at, cell)
            }
        }
    }

    /// MOV.
    pub fn transfer(&mut self, area: &Area, to: Src, from: Src) -> Result<(), Rule>
        requires { IsFresh self.old }
        ensures row { IsRow (effect area.now.program.now (state_of_draft self.old) (Mov to from)) result (state_of_draft self.old) (state_of_draft self.new) }
        ensures memory { self.new.memory.now ≡ self.old.memory.now }
    {
        let cell = self.source(area, from)?;
        self.put_into(area, to, cell)
    }

    /// LXI. No code address goes to SP.
    pub fn load_immediate(&mut self, pair: Pair, word: Immediate)
        ensures state { state_of_draft self.new ≡ lxi (state_of_draft self.old) pair word }
        ensures memory { self.new.memory.now ≡ self.old.memory.now }
    {
        match word {
            Immediate::Num(number) => self.set_pair(pair, number),
            Immediate::Code(at) => {
                let word = Word {
                    high: Cell::Hi(Place::At(at)),
                    low: Cell::Lo(Place::At(at)),
                };
                self.set_cells(pair, word);
            }
        }
    }

    /// LDA.
    pub fn load(&mut self, area: &Area, at: u16) -> Result<(), Rule>
        requires { IsFresh self.old }
        ensures row { IsRow (lda area.now.program.now (state_of_draft self.old) at) result (state_of_draft self.old) (state_of_draft self.new) }
        ensures memory { self.new.memory.now ≡ self.old.memory.now }
    {
        self.registers.a = self.read(area, at)?;
        Ok(())
    }

    /// LHLD.
    pub fn load_pair(&mut self, area: &Area, at: u16) -> Result<(), Rule>
        requires { IsFresh self.old }
        ensures row { IsRow (lhld area.now.program.now (state_of_draft self.old) at) result (state_of_draft self.old) (state_of_draft self.new) }
        ensures memory { self.new.memory.now ≡ self.old.memory.now }
    {
        let word = self.read_word(area, at)?;
        self.set_cells(Pair::H, word);
        Ok(())
    }

    /// LDAX.
    pub fn load_at(&mut self, area: &Area, pair: Pair) -> Result<(), Rule>
        requires { IsFresh self.old }
        ensures row { IsRow (effect area.now.program.now (state_of_draft self.old) (Ldax pair)) result (state_of_draft self.old) (state_of_draft self.new) }
        ensures memory { self.new.memory.now ≡ self.old.memory.now }
    {
        let word = self.pair(pair);
        let at = address_in(word.high, word.low)?;
        self.load(area, at)
    }

    /// STAX.
    pub fn store_at(&mut self, area: &Area, pair: Pair) -> Result<(), Rule>
        requires { IsFresh self.old }
        ensures row { IsRow (effect area.now.program.now (state_of_draft self.old) (Stax pair)) result (state_of_draft self.old) (state_of_draft self.new) }
        ensures memory { self.new.memory.now ≡ self.old.memory.now }
    {
        let word = self.pair(pair);
        let at = address_in(word.high, word.low)?;
        self.write_cell(area, at, self.registers.a)
    }

    /// XCHG.
    pub fn exchange(&mut self)
        ensures state { state_of_draft self.new ≡ xchg (state_of_draft self.old) }
        ensures memory { self.new.memory.now ≡ self.old.memory.now }
    {
        let Registers { d, e, h, l, .. } = self.registers;
        self.registers = Registers {
            d: h,
            e: l,
            h: d,
            l: e,
            ..self.registers
        };
    }

    /// XTHL.
    pub fn exchange_top(&mut self, area: &Area) -> Result<(), Rule>
        requires { IsFresh self.old }
        ensures row { IsRow (xthl area.now.program.now (state_of_draft self.old)) result (state_of_draft self.old) (state_of_draft self.new) }
        ensures memory { self.new.memory.now ≡ self.old.memory.now }
    {
        let word = self.read_word(area, self.sp)?;
        self.write_word(area, self.sp, self.pair(Pair::H))?;
        self.set_cells(Pair::H, word);
        Ok(())
    }

    /// SPHL.
    pub fn set_sp(&mut self) -> Result<(), Rule>
        ensures row { IsRow (sphl (state_of_draft self.old)) result (state_of_draft self.old) (state_of_draft self.new) }
        ensures memory { self.new.memory.now ≡ self.old.memory.now }
    {
        self.sp = address_in(self.registers.h, self.registers.l)?;
        Ok(())
    }
}
