// PUSH and POP (8080 Assembly Language Programming Manual, "Register pair instructions"). They carry any cell.
ghost use Rattle.std.specs.Prelude.{◌≡◌};
ghost use Rattle.base.specs.Operations.{flags_in};

use crate::area::Area;
use crate::draft::{Draft, Word};
use cells::{Cell, Flags, Rule};
use i80::{Pair, StackPair};

// The flags that POP PSW takes from a cell.
fn flags_of_cell(cell: Cell) -> Flags
    ensures { result ≡ flags_in cell }
{
    match cell {
        Cell::Num(byte) => Flags::of_byte(byte),
        Cell::Psw(flags) => flags,
        Cell::Lo(_) | Cell::Hi(_) | Cell::Junk => Flags::unknown(),
    }
}

impl Draft<'_> {
    ghost use Rattle.cpu80_tagged.specs.Effect.{push, push_pair, pop_pair};
    ghost use Rattle.cpu80_tagged.specs.Row.{IsRow};
    ghost use Rattle.cpu80_tagged.specs.Draft.{IsFresh, state_of_draft};

    /// Two cells onto the stack, which grows down: the high one at SP-1, the low one at SP-2.
    pub fn push(&mut self, area: &Area, word: Word) -> Result<(), Rule>
        requires { IsFresh self.old }
        ensures row { IsRow (push area.now.program.now (state_of_draft self.old) word.high word.low) result (state_of_draft self.old) (state_of_draft self.new) }
        ensures memory { self.new.memory.now ≡ self.old.memory.now }
    {
        let sp = self.sp.wrapping_sub(2);
        self.write_word(area, sp, word)?;
        self.sp = sp;
        Ok(())
    }

    /// PUSH.
    pub fn push_pair(&mut self, area: &Area, pair: StackPair) -> Result<(), Rule>
        requires { IsFresh self.old }
        ensures row { IsRow (push_pair area.now.program.now (state_of_draft self.old) pair) result (state_of_draft self.old) (state_of_draft self.new) }
        ensures memory { self.new.memory.now ≡ self.old.memory.now }
    {
        let word = match pair {
            StackPair::B => self.pair(Pair::B),
            StackPair::D => self.pair(Pair::D),
            StackPair::H => self.pair(Pair::H),
            StackPair::Psw => Word {
                high: self.registers.a,
                low: Cell::Psw(self.flags),
            },
        };
        self.push(area, word)
    }

    /// POP.
    pub fn pop_pair(&mut self, area: &Area, pair: StackPair) -> Result<(), Rule>
        requires { IsFresh self.old }
        ensures row { IsRow (pop_pair area.now.program.now (state_of_draft self.old) pair) result (state_of_draft self.old) (state_of_draft self.new) }
        ensures memory { self.new.memory.now ≡ self.old.memory.now }
    {
        let word = self.read_word(area, self.sp)?;
        self.sp = self.sp.wrapping_add(2);
        match pair {
            StackPair::B => self.set_cells(Pair::B, word),
            StackPair::D => self.set_cells(Pair::D, word),
            StackPair::H => self.set_cells(Pair::H, word),
            StackPair::Psw => {
                self.registers.a = word.high;
                self.flags = flags_of_cell(word.low);
            }
        }
        Ok(())
    }
}
